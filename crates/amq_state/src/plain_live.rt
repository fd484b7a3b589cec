//! What is live once the order of effect is known.
ghost use Rattle.std.specs.Prelude.{◌≡◌, ◌||◌, ◌++◌, ℕ, map, IfOk, OnOk};
ghost use Rattle.std.specs.Ordering.{nat_cmp};
ghost use Rattle.std.specs.BTreeSet.{contains};
ghost use Rattle.amq_model.specs.Effect.{deletes, remaining};
ghost use Rattle.amq_state.specs.Backward.{standing};

use crate::changes::push_entry;
use amq_model::{Entry, NoMemory, Placed, Record};
use std::alloc::Global;
use std::collections::BTreeSet;

/// The adds and updates behind which no delete of their id stands, in order.
pub fn live_entries(alloc: Global, effect: &[&Placed]) -> Result<Vec<Entry>, NoMemory>
    ensures { IfOk result (λ v. v.items ≡ remaining (map (λ p. p.now) effect.now)) }
{
    let mut deleted = BTreeSet::new(alloc);
    let mut entries = Vec::new(alloc);
    for i in (0..effect.len()).rev() {
        step_back(effect[i], &mut deleted, &mut entries)?;
    }
    entries.reverse();
    Ok(entries)
}

/// Takes in one record more, in front of those whose deletes are known.
fn step_back(
    placed: &Placed,
    deleted: &mut BTreeSet<u64>,
    entries: &mut Vec<Entry>,
) -> Result<(), NoMemory>
    ensures deleted { OnOk result ((id : ℕ) → contains nat_cmp deleted.new id ≡ (deletes id placed.now || contains nat_cmp deleted.old id)) }
    ensures entries { OnOk result (entries.new.items ≡ entries.old.items ++ standing (contains nat_cmp deleted.old) placed.now) }
{
    match &placed.rec {
        Record::Delete { id } | Record::DeleteTx { id, .. } => {
            if deleted.insert(*id).is_err() {
                return Err(NoMemory);
            }
        }
        Record::Add { id, .. }
        | Record::Update { id, .. }
        | Record::AddTx { id, .. }
        | Record::UpdateTx { id, .. } => {
            if !deleted.contains(id) {
                push_entry(placed, entries)?;
            }
        }
        _ => {}
    }
    Ok(())
}
