//! What is live once the order of effect is known.
ghost use Rattle.std.specs.Prelude.{◌≡◌, ◌||◌, ◌++◌, ℕ, IfOk, OnOk};
ghost use Rattle.std.specs.List.{filter_map};
ghost use Rattle.std.specs.Ordering.{nat_cmp};
ghost use Rattle.std.specs.BTreeSet.{contains};
ghost use Rattle.std.specs.Cow.{cow_value};
ghost use Rattle.amq_model.specs.Effect.{deletes, entry_of, remaining};
ghost use Rattle.amq_state.specs.Backward.{standing};
ghost use Rattle.amq_state.specs.Held.{held};

use crate::tables::push;
use amq_model::{Brief, NoMemory, Placed};
use std::alloc::Global;
use std::borrow::Cow;
use std::collections::BTreeSet;

/// The adds and updates behind which no delete of their id stands, in order.
pub fn live_records<'a>(
    alloc: Global,
    mut effect: Vec<Cow<'a, Placed>>,
) -> Result<Vec<Cow<'a, Placed>>, NoMemory>
    ensures { IfOk result (λ v. filter_map entry_of (held v.items) ≡ remaining (held effect.entry.items)) }
{
    let mut deleted = BTreeSet::new(alloc);
    let mut live = Vec::new(alloc);
    while let Some(placed) = effect.pop() {
        step_back(placed, &mut deleted, &mut live)?;
    }
    live.reverse();
    Ok(live)
}

/// Takes in one record more, in front of those whose deletes are known.
fn step_back<'a>(
    placed: Cow<'a, Placed>,
    deleted: &mut BTreeSet<u64>,
    live: &mut Vec<Cow<'a, Placed>>,
) -> Result<(), NoMemory>
    ensures deleted { OnOk result ((id : ℕ) → contains nat_cmp deleted.new id ≡ (deletes id (cow_value placed.entry) || contains nat_cmp deleted.old id)) }
    ensures live { OnOk result (filter_map entry_of (held live.new.items) ≡ filter_map entry_of (held live.old.items) ++ standing (contains nat_cmp deleted.old) (cow_value placed.entry)) }
{
    match placed.rec.brief() {
        Brief::Kill { id } | Brief::KillTx { id, .. } => match deleted.insert(id) {
            Ok(_) => Ok(()),
            Err(_) => Err(NoMemory),
        },
        Brief::Put { id } | Brief::PutTx { id, .. } => {
            if deleted.contains(&id) {
                Ok(())
            } else {
                push(live, placed)
            }
        }
        _ => Ok(()),
    }
}
