//! What one record is to an id or a transaction.
ghost use Rattle.std.specs.Prelude.{◌≡◌, IfOk};
ghost use Rattle.amq_model.specs.Answers.{number_of};
ghost use Rattle.amq_model.specs.Effect.{ends, changes, entry_of, removal_of};

use amq_model::{Brief, Entry, EntryKind, NoMemory, Placed, Record, Removal};

/// The record's transaction number.
pub fn transaction_number(placed: &Placed) -> Option<u64>
    ensures { result ≡ number_of placed.now.rec }
{
    match placed.rec.brief() {
        Brief::Put { .. } | Brief::Kill { .. } => None,
        Brief::PutTx { tx, .. }
        | Brief::KillTx { tx, .. }
        | Brief::Prepare { tx, .. }
        | Brief::Commit { tx, .. }
        | Brief::Rollback { tx } => Some(tx),
    }
}

/// Whether the record ends transaction `tx`.
pub fn ends_transaction(tx: u64, placed: &Placed) -> bool
    ensures { result ≡ ends tx placed.now }
{
    match &placed.rec {
        Record::Commit { tx: ended, .. } | Record::Rollback { tx: ended } => *ended == tx,
        _ => false,
    }
}

/// Whether the record is an add, update or delete of transaction `tx`.
pub fn changes_transaction(tx: u64, placed: &Placed) -> bool
    ensures { result ≡ changes tx placed.now }
{
    match &placed.rec {
        Record::AddTx { tx: changed, .. }
        | Record::UpdateTx { tx: changed, .. }
        | Record::DeleteTx { tx: changed, .. } => *changed == tx,
        _ => false,
    }
}

/// The add or update that the record is, in memory of its own.
pub fn entry(placed: &Placed) -> Result<Option<Entry>, NoMemory>
    ensures { IfOk result (λ o. o ≡ entry_of placed.now) }
{
    Ok(match &placed.rec {
        Record::Add {
            id,
            user_type,
            body,
        }
        | Record::AddTx {
            id,
            user_type,
            body,
            ..
        } => Some(Entry {
            kind: EntryKind::Add,
            id: *id,
            user_type: *user_type,
            body: body.copy()?,
        }),
        Record::Update {
            id,
            user_type,
            body,
        }
        | Record::UpdateTx {
            id,
            user_type,
            body,
            ..
        } => Some(Entry {
            kind: EntryKind::Update,
            id: *id,
            user_type: *user_type,
            body: body.copy()?,
        }),
        _ => None,
    })
}

/// The delete of a transaction that the record is, in memory of its own.
pub fn removal(placed: &Placed) -> Result<Option<Removal>, NoMemory>
    ensures { IfOk result (λ o. o ≡ removal_of placed.now) }
{
    Ok(match &placed.rec {
        Record::DeleteTx { id, body, .. } => Some(Removal {
            id: *id,
            body: body.copy()?,
        }),
        _ => None,
    })
}
