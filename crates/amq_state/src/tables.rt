//! The tables that one pass over a list of records fills.
ghost use Rattle.std.specs.Prelude.{◌≡◌, ◌++◌, ◌∷◌, ◌==◌, List, ℕ, [], Some, None, if◌then◌else◌, max, unwrap_or, IfOk, OnOk};
ghost use Rattle.std.specs.Ordering.{nat_cmp};
ghost use Rattle.std.specs.BTreeMap.{get};
ghost use Rattle.std.specs.Cow.{cow_value};
ghost use Rattle.amq_model.specs.declared.record.Placed.{Placed as AnyPlaced};
ghost use Rattle.amq_model.specs.Records.{brief_of};
ghost use Rattle.amq_model.specs.Answers.{number_of};
ghost use Rattle.amq_model.specs.Effect.{result_of};
ghost use Rattle.amq_state.specs.Held.{held};
ghost use Rattle.amq_state.specs.Turns.{told, begun, none_open, with_change, with_prepare, turn_after, added, count_in};
ghost use Rattle.amq_state.specs.Follows.{Follows};

use crate::doubts::doubts_from;
use crate::live::live_records;
use crate::owned::parts_of;
use crate::parts::transaction_number;
use crate::turn::Turn;
use amq_model::{Brief, Items, LoadState, NoMemory, Placed};
use std::alloc::Global;
use std::borrow::Cow;
use std::collections::BTreeMap;

/// The records in order of effect, the open transactions by number, and the highest transaction number,
/// 0 where there is none.
#[derive(Drop)]
pub struct Tables<'a> {
    pub effect: Vec<Cow<'a, Placed>>,
    pub turns: BTreeMap<u64, Turn<'a>>,
    pub highest_tx: u64,
}

/// The tables of a list, whose records are borrowed.
pub fn tables_of<'a>(alloc: Global, list: &'a [Placed]) -> Result<Tables<'a>, NoMemory>
    ensures { IfOk result (Follows list.now) }
{
    let mut tables = Tables::new(alloc);
    for placed in list {
        tables.take_in(alloc, Cow::Borrowed(placed))?;
    }
    Ok(tables)
}

/// The tables of a list, whose records are moved into them.
pub fn tables_from<'a>(alloc: Global, list: Vec<Placed>) -> Result<Tables<'a>, NoMemory>
    ensures { IfOk result (Follows list.items) }
{
    let mut tables = Tables::new(alloc);
    for placed in list {
        tables.take_in(alloc, Cow::Owned(placed))?;
    }
    Ok(tables)
}

impl<'a> Tables<'a> {
    /// The tables of no record.
    fn new(alloc: Global) -> Tables<'a>
        ensures { Follows [] result }
    {
        Tables {
            effect: Vec::new(alloc),
            turns: BTreeMap::new(alloc),
            highest_tx: 0,
        }
    }

    /// The live records and the transactions in doubt, whose records are moved there where the tables own
    /// them.
    pub fn into_state(self, alloc: Global) -> Result<LoadState, NoMemory>
        ensures { IfOk result (λ s. (l : List AnyPlaced) → Follows l self.entry → s ≡ result_of l) }
    {
        let Tables { effect, turns, .. } = self;
        let (live, _) = parts_of(alloc, live_records(alloc, effect)?)?;
        let in_doubt = doubts_from(alloc, turns)?;
        Ok(LoadState {
            live: Items::of(live),
            in_doubt: Items::of(in_doubt),
        })
    }

    /// Takes in the record behind those of the tables.
    fn take_in(&mut self, alloc: Global, placed: Cow<'a, Placed>) -> Result<(), NoMemory>
        ensures effect { OnOk result (held self.new.effect.items ≡ held self.old.effect.items ++ added (cow_value placed.entry) (brief_of (cow_value placed.entry).rec) (λ q. told (get nat_cmp self.old.turns q))) }
        ensures turns { OnOk result ((q : ℕ) → told (get nat_cmp self.new.turns q) ≡ turn_after (cow_value placed.entry) (brief_of (cow_value placed.entry).rec) q (told (get nat_cmp self.old.turns q))) }
        ensures highest_tx { OnOk result (self.new.highest_tx
            ≡ max self.old.highest_tx (unwrap_or (number_of (cow_value placed.entry).rec) 0)) }
    {
        self.highest_tx = self
            .highest_tx
            .max(transaction_number(&placed).unwrap_or(0));
        match placed.rec.brief() {
            Brief::Put { .. } | Brief::Kill { .. } => push(&mut self.effect, placed),
            Brief::PutTx { tx, .. } | Brief::KillTx { tx, .. } => {
                add_change(alloc, &mut self.turns, tx, placed)
            }
            Brief::Prepare { tx, count } => {
                add_prepare(alloc, &mut self.turns, tx, count, placed)
            }
            Brief::Commit { tx, count } => {
                commit(&mut self.turns, tx, count, placed.file, &mut self.effect)
            }
            Brief::Rollback { tx } => {
                end(&mut self.turns, tx);
                Ok(())
            }
        }
    }
}

/// Adds the record to these.
pub fn push<'a>(records: &mut Vec<Cow<'a, Placed>>, placed: Cow<'a, Placed>) -> Result<(), NoMemory>
    ensures { OnOk result (held records.new.items ≡ held records.old.items ++ cow_value placed.entry ∷ []) }
{
    match records.push(placed) {
        Ok(()) => Ok(()),
        Err(_) => Err(NoMemory),
    }
}

/// Adds an add, update or delete to its transaction.
fn add_change<'a>(
    alloc: Global,
    turns: &mut BTreeMap<u64, Turn<'a>>,
    tx: u64,
    placed: Cow<'a, Placed>,
) -> Result<(), NoMemory>
    ensures { OnOk result ((q : ℕ) → told (get nat_cmp turns.new q) ≡ (if tx == q then with_change (cow_value placed.entry) (told (get nat_cmp turns.old q)) else told (get nat_cmp turns.old q))) }
{
    let turn = turn_of(alloc, turns, tx).with_change(placed)?;
    store(turns, tx, turn)
}

/// Opens the transaction, and keeps the PREPARE if it is sound.
fn add_prepare<'a>(
    alloc: Global,
    turns: &mut BTreeMap<u64, Turn<'a>>,
    tx: u64,
    count: u32,
    placed: Cow<'a, Placed>,
) -> Result<(), NoMemory>
    ensures { OnOk result ((q : ℕ) → told (get nat_cmp turns.new q) ≡ (if tx == q then with_prepare (cow_value placed.entry) count (told (get nat_cmp turns.old q)) else told (get nat_cmp turns.old q))) }
{
    let turn = turn_of(alloc, turns, tx).with_prepare(count, placed);
    store(turns, tx, turn)
}

/// Ends the transaction, whose records take effect if the COMMIT is sound.
fn commit<'a>(
    turns: &mut BTreeMap<u64, Turn<'a>>,
    tx: u64,
    count: u32,
    file: u64,
    effect: &mut Vec<Cow<'a, Placed>>,
) -> Result<(), NoMemory>
    ensures turns { OnOk result ((q : ℕ) → told (get nat_cmp turns.new q) ≡ (if tx == q then none_open else told (get nat_cmp turns.old q))) }
    ensures effect { OnOk result (held effect.new.items ≡ held effect.old.items ++ (if count == count_in file (told (get nat_cmp turns.old tx)).changes then (told (get nat_cmp turns.old tx)).changes else [])) }
{
    match end(turns, tx) {
        Some(turn) if turn.count_in(file) == count as usize => {
            match effect.append(&mut turn.into_changes()) {
                Ok(()) => Ok(()),
                Err(_) => Err(NoMemory),
            }
        }
        _ => Ok(()),
    }
}

/// Takes the transaction out of the table.
fn end<'a>(turns: &mut BTreeMap<u64, Turn<'a>>, tx: u64) -> Option<Turn<'a>>
    ensures turn { result ≡ get nat_cmp turns.old tx }
    ensures turns { (q : ℕ) → get nat_cmp turns.new q ≡ (if tx == q then None else get nat_cmp turns.old q) }
{
    turns.remove(&tx)
}

/// Takes the transaction out of the table, or begins it.
fn turn_of<'a>(alloc: Global, turns: &mut BTreeMap<u64, Turn<'a>>, tx: u64) -> Turn<'a>
    ensures turn { told (Some result) ≡ begun (told (get nat_cmp turns.old tx)) }
    ensures turns { (q : ℕ) → get nat_cmp turns.new q ≡ (if tx == q then None else get nat_cmp turns.old q) }
{
    match end(turns, tx) {
        Some(turn) => turn,
        None => Turn::new(alloc),
    }
}

/// Puts the transaction into the table.
fn store<'a>(turns: &mut BTreeMap<u64, Turn<'a>>, tx: u64, turn: Turn<'a>) -> Result<(), NoMemory>
    ensures { OnOk result ((q : ℕ) → get nat_cmp turns.new q ≡ (if tx == q then Some turn.entry else get nat_cmp turns.old q)) }
{
    match turns.insert(tx, turn) {
        Ok(_) => Ok(()),
        Err(_) => Err(NoMemory),
    }
}
