//! The transactions in doubt, from the table of open ones.
ghost use Rattle.std.specs.Prelude.{◌≡◌, ◌++◌, List, ℕ, IfOk};
ghost use Rattle.std.specs.Ordering.{nat_cmp};
ghost use Rattle.std.specs.BTreeMap.{get};
ghost use Rattle.amq_model.specs.declared.record.Placed.{Placed as AnyPlaced};
ghost use Rattle.amq_model.specs.Effect.{in_doubt};
ghost use Rattle.amq_state.specs.Turns.{told, turn_in};
ghost use Rattle.amq_state.specs.Parts.{doubt_at};

use crate::owned::{extra, parts_of};
use crate::turn::Turn;
use amq_model::{InDoubt, Items, NoMemory};
use std::alloc::Global;
use std::collections::BTreeMap;

/// The transactions of the table that have a sound PREPARE, by number.
pub fn doubts_from(alloc: Global, turns: BTreeMap<u64, Turn<'_>>) -> Result<Vec<InDoubt>, NoMemory>
    ensures { IfOk result (λ v. (l : List AnyPlaced) → ((tx : ℕ) → told (get nat_cmp turns.entry tx) ≡ turn_in l tx) → v.items ≡ in_doubt l) }
{
    let mut doubts = Vec::new(alloc);
    for (tx, turn) in turns {
        if let Some(doubt) = doubt_from(alloc, tx, turn)?
            && doubts.push(doubt).is_err()
        {
            return Err(NoMemory);
        }
    }
    Ok(doubts)
}

/// The transaction in doubt, if it has a sound PREPARE.
fn doubt_from(alloc: Global, tx: u64, turn: Turn<'_>) -> Result<Option<InDoubt>, NoMemory>
    ensures { IfOk result (λ o. o ≡ doubt_at (tx, turn.entry)) }
{
    let Turn {
        changes,
        prepare,
        ..
    } = turn;
    let Some(prepare) = prepare else {
        return Ok(None);
    };
    let extra = extra(alloc, prepare)?;
    let (records, deletes) = parts_of(alloc, changes)?;
    Ok(Some(InDoubt {
        tx,
        extra,
        records: Items::of(records),
        deletes: Items::of(deletes),
    }))
}
