//! The parts of a new table.
ghost use Rattle.std.specs.Prelude.{◌≡◌, ◌++◌, ℕ, nat_eq, ◌==◌, map, fold, if◌then◌else◌, ◌∷◌, [], Some, None, IfOk, OnOk};
ghost use Rattle.std.specs.List.{list_any, flat_map};
ghost use Rattle.std.specs.Option.{option_map};
ghost use Rattle.std.specs.HashMap.{get};
ghost use Rattle.std.specs.HashSet.{contains};
ghost use Rattle.amq_tx.specs.Parts.{listed, turn_of, ids_of};
ghost use Rattle.amq_tx.specs.Starting.{turn_or, ids_or, touches_of};

use crate::touches::Touches;
use crate::turn::Turn;
use amq_model::{EntryEnd, NoMemory, OpenTx};
use std::alloc::Global;
use std::collections::{HashMap, HashSet};

/// The ids as a set.
pub fn live_from(alloc: Global, ids: &[u64]) -> Result<HashSet<u64>, NoMemory>
    ensures { IfOk result (λ s. (q : ℕ) → contains nat_eq s q ≡ list_any (nat_eq q) ids.now) }
{
    let mut live = HashSet::new(alloc);
    for id in ids {
        match live.insert(*id) {
            Ok(_) => {}
            Err(_) => return Err(NoMemory),
        }
    }
    Ok(live)
}

/// The ids that the transaction touches.
fn ids_from(alloc: Global, opened: &OpenTx) -> Result<Vec<u64>, NoMemory>
    ensures { IfOk result (λ v. v.items ≡ map (λ t. t.0) opened.now.touched) }
{
    let mut ids = Vec::new(alloc);
    for (id, _) in opened.touched.as_slice() {
        if ids.push(*id).is_err() {
            return Err(NoMemory);
        }
    }
    Ok(ids)
}

/// The open transactions by number.
pub fn turns_from(alloc: Global, opened: &[OpenTx]) -> Result<HashMap<u64, Turn>, NoMemory>
    ensures turns { IfOk result (λ m. (q : ℕ) → option_map turn_of (get nat_eq m q) ≡ fold (turn_or q) None opened.now) }
    ensures ids { IfOk result (λ m. (q : ℕ) → ids_of (get nat_eq m q) ≡ fold (ids_or q) [] opened.now) }
{
    let mut turns = HashMap::new(alloc);
    for open in opened {
        let turn = Turn::new(alloc, open.prepared, ids_from(alloc, open)?);
        match turns.insert(open.tx, turn) {
            Ok(_) => {}
            Err(_) => return Err(NoMemory),
        }
    }
    Ok(turns)
}

/// Adds the transaction to those that touch the id.
fn hold(
    alloc: Global,
    touched: &mut HashMap<u64, Touches>,
    id: u64,
    tx: u64,
    end: EntryEnd,
) -> Result<(), NoMemory>
    ensures { OnOk result ((q : ℕ) → listed (get nat_eq touched.new q) ≡ (if id == q then listed (get nat_eq touched.old q) ++ (tx, end) ∷ [] else listed (get nat_eq touched.old q))) }
{
    match touched.get_mut(&id) {
        Some(touches) => touches.push(tx, end),
        None => match touched.insert(id, Touches::of(alloc, tx, end)) {
            Ok(_) => Ok(()),
            Err(_) => Err(NoMemory),
        },
    }
}

/// Adds the transaction to those that touch each of its ids.
fn hold_all(
    alloc: Global,
    touched: &mut HashMap<u64, Touches>,
    opened: &OpenTx,
) -> Result<(), NoMemory>
    ensures { OnOk result ((q : ℕ) → listed (get nat_eq touched.new q) ≡ listed (get nat_eq touched.old q) ++ touches_of q opened.now) }
{
    for (id, end) in opened.touched.as_slice() {
        hold(alloc, touched, *id, opened.tx, *end)?;
    }
    Ok(())
}

/// For each id the open transactions that touch it.
pub fn touched_from(alloc: Global, opened: &[OpenTx]) -> Result<HashMap<u64, Touches>, NoMemory>
    ensures { IfOk result (λ m. (q : ℕ) → listed (get nat_eq m q) ≡ flat_map (touches_of q) opened.now) }
{
    let mut touched = HashMap::new(alloc);
    for open in opened {
        hold_all(alloc, &mut touched, open)?;
    }
    Ok(touched)
}
