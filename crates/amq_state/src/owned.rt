//! Entries, deletes and extra bytes, moved out of the records that have them.
ghost use Rattle.std.specs.Prelude.{◌≡◌, ◌++◌, ◌∷◌, [], IfOk, OnOk};
ghost use Rattle.std.specs.List.{filter_map};
ghost use Rattle.std.specs.Option.{option_to_list};
ghost use Rattle.std.specs.Cow.{cow_value};
ghost use Rattle.amq_model.specs.Effect.{entry_of, removal_of};
ghost use Rattle.amq_state.specs.Held.{held};
ghost use Rattle.amq_state.specs.Turns.{extra_of};

use amq_model::{Bytes, Entry, EntryKind, NoMemory, Placed, Record, Removal};
use std::alloc::Global;
use std::borrow::Cow;

/// The adds and updates among these records, and the deletes of transactions.
pub fn parts_of(
    alloc: Global,
    changes: Vec<Cow<'_, Placed>>,
) -> Result<(Vec<Entry>, Vec<Removal>), NoMemory>
    ensures entries { IfOk result (λ v. v.0.items ≡ filter_map entry_of (held changes.entry.items)) }
    ensures removals { IfOk result (λ v. v.1.items ≡ filter_map removal_of (held changes.entry.items)) }
{
    let mut entries = Vec::new(alloc);
    let mut removals = Vec::new(alloc);
    for placed in changes {
        add_part(placed, &mut entries, &mut removals)?;
    }
    Ok((entries, removals))
}

/// Adds the entry or the delete of a transaction that the record is.
fn add_part(
    placed: Cow<'_, Placed>,
    entries: &mut Vec<Entry>,
    removals: &mut Vec<Removal>,
) -> Result<(), NoMemory>
    ensures entries { OnOk result (entries.new.items ≡ entries.old.items ++ option_to_list (entry_of (cow_value placed.entry))) }
    ensures removals { OnOk result (removals.new.items ≡ removals.old.items ++ option_to_list (removal_of (cow_value placed.entry))) }
{
    match owned(placed)?.rec {
        Record::Add {
            id,
            user_type,
            body,
        }
        | Record::AddTx {
            id,
            user_type,
            body,
            ..
        } => push(entries, EntryKind::Add, id, user_type, body),
        Record::Update {
            id,
            user_type,
            body,
        }
        | Record::UpdateTx {
            id,
            user_type,
            body,
            ..
        } => push(entries, EntryKind::Update, id, user_type, body),
        Record::DeleteTx { id, body, .. } => match removals.push(Removal { id, body }) {
            Ok(()) => Ok(()),
            Err(_) => Err(NoMemory),
        },
        _ => Ok(()),
    }
}

/// Adds the entry of these fields.
fn push(
    entries: &mut Vec<Entry>,
    kind: EntryKind,
    id: u64,
    user_type: u8,
    body: Bytes,
) -> Result<(), NoMemory>
    ensures { OnOk result (entries.new.items ≡ entries.old.items ++ record { kind = kind; id = id; user_type = user_type; body = body } ∷ []) }
{
    let entry = Entry {
        kind,
        id,
        user_type,
        body,
    };
    match entries.push(entry) {
        Ok(()) => Ok(()),
        Err(_) => Err(NoMemory),
    }
}

/// The extra bytes of a PREPARE.
pub fn extra(alloc: Global, prepare: Cow<'_, Placed>) -> Result<Bytes, NoMemory>
    ensures { IfOk result (λ b. b ≡ extra_of (cow_value prepare.entry)) }
{
    match owned(prepare)?.rec {
        Record::Prepare { extra, .. } => Ok(extra),
        _ => Ok(Bytes::of(Vec::new(alloc))),
    }
}

/// The record itself, or an equal one in memory of its own where it is borrowed.
fn owned(placed: Cow<'_, Placed>) -> Result<Placed, NoMemory>
    ensures { IfOk result (λ p. p ≡ cow_value placed.entry) }
{
    match placed {
        Cow::Owned(placed) => Ok(placed),
        Cow::Borrowed(placed) => match placed.clone() {
            Ok(copy) => Ok(copy),
            Err(_) => Err(NoMemory),
        },
    }
}
