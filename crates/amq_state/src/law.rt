//! The plain program for the result: the definitions one by one, each over the whole list.
ghost use Rattle.std.specs.Prelude.{◌≡◌, ◌++◌, ◌∷◌, ◌==◌, ◌&&◌, not, map, count_by, IfOk, OnOk, []};
ghost use Rattle.std.specs.List.{list_any};
ghost use Rattle.std.specs.Option.{option_to_list};
ghost use Rattle.amq_model.specs.Effect.{ends, changes, open_changes, counted, is_sound, effect_of, in_effect, prepared, prepared_here, doubt_of, in_doubt, result_of, last_of};
ghost use Rattle.amq_state.specs.Backward.{values};
ghost use Rattle.amq_state.specs.Plain.{numbered, opened};

use crate::changes::{entries_of, removals_of};
use crate::numbers::each_once;
use crate::parts::{changes_transaction, ends_transaction};
use crate::plain_live::live_entries;
use amq_model::{Bytes, InDoubt, Items, LoadState, NoMemory, Placed, Record};
use std::alloc::Global;

/// The result of this list of records, by the definitions.
///
/// Near linear in records of no transaction; each PREPARE and COMMIT goes over the whole list.
pub fn plain_result(alloc: Global, list: &[Placed]) -> Result<LoadState, NoMemory>
    ensures { IfOk result (λ s. s ≡ result_of list.now) }
{
    let effect = plain_effect(alloc, list)?;
    let live = live_entries(alloc, &effect)?;
    let in_doubt = plain_doubts(alloc, list)?;
    Ok(LoadState {
        live: Items::of(live),
        in_doubt: Items::of(in_doubt),
    })
}

/// The adds, updates and deletes of the transaction that have no end behind them.
fn plain_open_changes<'a>(
    alloc: Global,
    list: &'a [Placed],
    tx: u64,
) -> Result<Vec<&'a Placed>, NoMemory>
    ensures { IfOk result (λ v. values v.items ≡ open_changes tx list.now) }
{
    let mut open = Vec::new(alloc);
    for placed in list {
        change_or_end(tx, placed, &mut open)?;
    }
    Ok(open)
}

/// Adds the record to those that are open, or closes them all.
fn change_or_end<'a>(
    tx: u64,
    placed: &'a Placed,
    pending: &mut Vec<&'a Placed>,
) -> Result<(), NoMemory>
    ensures { OnOk result (values pending.new.items ≡ opened (ends tx placed.now) (changes tx placed.now) (values pending.old.items) placed.now) }
{
    if ends_transaction(tx, placed) {
        pending.clear();
    } else if changes_transaction(tx, placed) && pending.push(placed).is_err() {
        return Err(NoMemory);
    }
    Ok(())
}

/// Whether the record behind these is a PREPARE or COMMIT with the number of its transaction's records.
fn plain_is_sound(alloc: Global, before: &[Placed], placed: &Placed) -> Result<bool, NoMemory>
    ensures { IfOk result (λ b. b ≡ is_sound before.now placed.now) }
{
    match &placed.rec {
        Record::Prepare { tx, count, .. } | Record::Commit { tx, count } => {
            let open = plain_open_changes(alloc, before, *tx)?;
            Ok(*count as usize == count_in(&open, placed.file))
        }
        _ => Ok(false),
    }
}

/// How many of these records stand in the file.
fn count_in(changes: &[&Placed], file: u64) -> usize
    ensures { result ≡ count_by (λ p. p.file == file) (values changes.now) }
{
    changes.iter().filter(|p| p.file == file).count()
}

/// The records in order of effect. The time grows with the square of their number.
pub fn plain_effect<'a>(alloc: Global, list: &'a [Placed]) -> Result<Vec<&'a Placed>, NoMemory>
    ensures { IfOk result (λ v. values v.items ≡ in_effect list.now) }
{
    let mut effect = Vec::new(alloc);
    for (i, placed) in list.iter().enumerate() {
        add_effect(alloc, &list[..i], placed, &mut effect)?;
    }
    Ok(effect)
}

/// Adds what the record behind these adds to the order of effect.
fn add_effect<'a>(
    alloc: Global,
    before: &'a [Placed],
    placed: &'a Placed,
    effect: &mut Vec<&'a Placed>,
) -> Result<(), NoMemory>
    ensures { OnOk result (values effect.new.items ≡ values effect.old.items ++ effect_of before.now placed.now) }
{
    let added = match &placed.rec {
        Record::Add { .. } | Record::Update { .. } | Record::Delete { .. } => effect
            .push(placed)
            .is_ok(),
        Record::Commit { tx, .. } if plain_is_sound(alloc, before, placed)? => {
            let open = plain_open_changes(alloc, before, *tx)?;
            effect.extend_from_slice(&open).is_ok()
        }
        _ => true,
    };
    if added { Ok(()) } else { Err(NoMemory) }
}

/// The sound PREPAREs with no end behind them: their transactions and extra bytes, in order.
fn plain_prepared<'a>(alloc: Global, list: &'a [Placed]) -> Result<Vec<(u64, &'a Bytes)>, NoMemory>
    ensures { IfOk result (λ v. numbered v.items ≡ prepared list.now) }
{
    let mut prepared = Vec::new(alloc);
    for (i, placed) in list.iter().enumerate() {
        prepare(alloc, &list[..i], placed, &list[i + 1..], &mut prepared)?;
    }
    Ok(prepared)
}

/// Adds the record between these, if it is a sound PREPARE with no end behind it.
fn prepare<'a>(
    alloc: Global,
    before: &[Placed],
    placed: &'a Placed,
    behind: &[Placed],
    prepared: &mut Vec<(u64, &'a Bytes)>,
) -> Result<(), NoMemory>
    ensures { OnOk result (numbered prepared.new.items ≡ numbered prepared.old.items ++ option_to_list (prepared_here before.now placed.now behind.now)) }
{
    match &placed.rec {
        Record::Prepare { tx, extra, .. } if stands(alloc, before, placed, *tx, behind)? =>
            match prepared.push((*tx, extra)) {
                Ok(()) => Ok(()),
                Err(_) => Err(NoMemory),
            },
        _ => Ok(()),
    }
}

/// Whether the record between these is sound and its transaction has no end behind it.
fn stands(
    alloc: Global,
    before: &[Placed],
    placed: &Placed,
    tx: u64,
    behind: &[Placed],
) -> Result<bool, NoMemory>
    ensures { IfOk result (λ b. b ≡ (is_sound before.now placed.now && not (list_any (ends tx) behind.now))) }
{
    if plain_is_sound(alloc, before, placed)? {
        Ok(!has_end(tx, behind))
    } else {
        Ok(false)
    }
}

/// Whether one of the records ends the transaction.
fn has_end(tx: u64, list: &[Placed]) -> bool
    ensures { result ≡ list_any (ends tx) list.now }
{
    list.iter().any(|p| ends_transaction(tx, p))
}

/// The transactions in doubt, by number.
fn plain_doubts(alloc: Global, list: &[Placed]) -> Result<Vec<InDoubt>, NoMemory>
    ensures { IfOk result (λ v. v.items ≡ in_doubt list.now) }
{
    let prepared = plain_prepared(alloc, list)?;
    let numbers = each_once(alloc, &prepared_numbers(alloc, &prepared)?)?;
    let mut doubts = Vec::new(alloc);
    for i in 0..numbers.len() {
        let doubt = plain_doubt(alloc, list, numbers[i], &prepared)?;
        if doubts.push(doubt).is_err() {
            return Err(NoMemory);
        }
    }
    Ok(doubts)
}

/// The transactions of these PREPAREs.
fn prepared_numbers(alloc: Global, prepared: &[(u64, &Bytes)]) -> Result<Vec<u64>, NoMemory>
    ensures { IfOk result (λ v. v.items ≡ map (λ x. x.0) (numbered prepared.now)) }
{
    let mut numbers = Vec::new(alloc);
    for (tx, _) in prepared {
        if numbers.push(*tx).is_err() {
            return Err(NoMemory);
        }
    }
    Ok(numbers)
}

/// The transaction in doubt.
fn plain_doubt(
    alloc: Global,
    list: &[Placed],
    tx: u64,
    prepared_now: &[(u64, &Bytes)],
) -> Result<InDoubt, NoMemory>
    requires { numbered prepared_now.now ≡ prepared list.now }
    ensures { IfOk result (λ d. d ≡ doubt_of list.now tx) }
{
    let open = plain_open_changes(alloc, list, tx)?;
    Ok(InDoubt {
        tx,
        extra: last_extra(alloc, tx, prepared_now)?,
        records: Items::of(entries_of(alloc, &open)?),
        deletes: Items::of(removals_of(alloc, &open)?),
    })
}

/// The extra bytes of the last PREPARE of the transaction.
fn last_extra(alloc: Global, tx: u64, prepared: &[(u64, &Bytes)]) -> Result<Bytes, NoMemory>
    ensures { IfOk result (λ b. b ≡ last_of tx (numbered prepared.now) []) }
{
    let mut last = None;
    for (number, extra) in prepared {
        if *number == tx {
            last = Some(*extra);
        }
    }
    match last {
        Some(extra) => extra.copy(),
        None => Ok(Bytes::of(Vec::new(alloc))),
    }
}
