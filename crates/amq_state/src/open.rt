//! The open transactions, from the table of them.
ghost use Rattle.std.specs.Prelude.{◌≡◌, ◌++◌, List, ℕ, Option, Some, None, if◌then◌else◌, IfOk, OnOk, ◌||◌, map};
ghost use Rattle.std.specs.List.{filter_map, list_any};
ghost use Rattle.std.specs.Option.{option_map};
ghost use Rattle.std.specs.Ordering.{nat_cmp};
ghost use Rattle.std.specs.BTreeMap.{get, IsOrdered};
ghost use Rattle.amq_model.specs.declared.record.Placed.{Placed as AnyPlaced};
ghost use Rattle.amq_model.specs.declared.state.EntryEnd.TheVariants.{Put, Gone};
ghost use Rattle.amq_model.specs.Effect.{deletes};
ghost use Rattle.amq_model.specs.Open.{touched_id, touched_by, open_txs};
ghost use Rattle.amq_state.specs.Held.{held};
ghost use Rattle.amq_state.specs.Turns.{told, turn_in};
ghost use Rattle.amq_state.specs.Parts.{open_at, noted};

use crate::turn::Turn;
use amq_model::{Brief, EntryEnd, Items, NoMemory, OpenTx, Placed};
use std::alloc::Global;
use std::borrow::Cow;
use std::collections::BTreeMap;

/// The transactions of the table, by number.
pub fn open_from(alloc: Global, turns: &BTreeMap<u64, Turn<'_>>) -> Result<Vec<OpenTx>, NoMemory>
    ensures { IfOk result (λ v. (l : List AnyPlaced) → ((tx : ℕ) → told (get nat_cmp turns.now tx) ≡ turn_in l tx) → v.items ≡ open_txs l) }
{
    let mut open = Vec::new(alloc);
    for (tx, turn) in turns {
        if open.push(open_of(alloc, *tx, turn)?).is_err() {
            return Err(NoMemory);
        }
    }
    Ok(open)
}

/// The open transaction.
fn open_of(alloc: Global, tx: u64, turn: &Turn<'_>) -> Result<OpenTx, NoMemory>
    ensures { IfOk result (λ o. o ≡ open_at (tx, turn.now)) }
{
    Ok(OpenTx {
        tx,
        prepared: turn.prepare.is_some(),
        touched: Items::of(touched(alloc, &turn.changes)?),
    })
}

/// Each id that the records touch, ascending, with what the last of them does to it.
fn touched(alloc: Global, changes: &[Cow<'_, Placed>]) -> Result<Vec<(u64, EntryEnd)>, NoMemory>
    ensures { IfOk result (λ v. v.items ≡ touched_by (held changes.now)) }
{
    let mut last = BTreeMap::new(alloc);
    for i in (0..changes.len()).rev() {
        touch(&changes[i], &mut last)?;
    }
    listed(alloc, last)
}

/// The entries of the table, by id.
fn listed(alloc: Global, last: BTreeMap<u64, EntryEnd>) -> Result<Vec<(u64, EntryEnd)>, NoMemory>
    ensures entries { IfOk result (λ v. v.items ≡ last.entries) }
    ensures ordered { IsOrdered nat_cmp last }
{
    let mut entries = Vec::new(alloc);
    for (id, end) in last {
        if entries.push((id, end)).is_err() {
            return Err(NoMemory);
        }
    }
    Ok(entries)
}

/// Notes what the record does to its id, unless a later record is noted there.
fn touch(placed: &Placed, last: &mut BTreeMap<u64, EntryEnd>) -> Result<(), NoMemory>
    ensures { OnOk result ((id : ℕ) → get nat_cmp last.new id ≡ noted placed.now id (get nat_cmp last.old id)) }
{
    let (id, end) = match placed.rec.brief() {
        Brief::Put { id } | Brief::PutTx { id, .. } => (id, EntryEnd::Put),
        Brief::Kill { id } | Brief::KillTx { id, .. } => (id, EntryEnd::Gone),
        _ => return Ok(()),
    };
    if last.contains_key(&id) {
        return Ok(());
    }
    match last.insert(id, end) {
        Ok(_) => Ok(()),
        Err(_) => Err(NoMemory),
    }
}
