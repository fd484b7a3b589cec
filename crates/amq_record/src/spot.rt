ghost use Rattle.std.specs.Prelude.{◌≡◌, IfOk};
ghost use Rattle.amq_model.specs.Records.{brief_of};

use amq_model::{Brief, Bytes, NoMemory, Record};
use std::alloc::Global;

/// A record in the bytes of its file, from which its body or extra bytes are borrowed.
///
/// The variants and fields are those of `Record`.
#[derive(Clone, Copy, Debug, PartialEq, Eq)]
pub enum RecordRef<'a> {
    Add {
        id: u64,
        user_type: u8,
        body: &'a [u8],
    },
    Update {
        id: u64,
        user_type: u8,
        body: &'a [u8],
    },
    AddTx {
        tx: u64,
        id: u64,
        user_type: u8,
        body: &'a [u8],
    },
    UpdateTx {
        tx: u64,
        id: u64,
        user_type: u8,
        body: &'a [u8],
    },
    DeleteTx {
        tx: u64,
        id: u64,
        body: &'a [u8],
    },
    Delete {
        id: u64,
    },
    Prepare {
        tx: u64,
        count: u32,
        extra: &'a [u8],
    },
    Commit {
        tx: u64,
        count: u32,
    },
    Rollback {
        tx: u64,
    },
}

/// A record where it stands: the place of its first byte in the file, its whole length in bytes, and
/// its compact count, which says how often it was copied by a compaction.
#[derive(Clone, Copy, Debug, PartialEq, Eq)]
pub struct Spot<'a> {
    pub place: u64,
    pub len: u64,
    pub compact: u8,
    pub rec: RecordRef<'a>,
}

impl<'a> RecordRef<'a> {
    ghost use Rattle.amq_record.specs.Refs.{record_of};

    /// The record's kind, id, transaction number and number of records, as its variant has them.
    /// Takes no memory.
    pub fn brief(&self) -> Brief
        ensures { result ≡ brief_of (record_of self.now) }
    {
        match *self {
            RecordRef::Add { id, .. } | RecordRef::Update { id, .. } => Brief::Put { id },
            RecordRef::AddTx { tx, id, .. } | RecordRef::UpdateTx { tx, id, .. } => {
                Brief::PutTx { tx, id }
            }
            RecordRef::DeleteTx { tx, id, .. } => Brief::KillTx { tx, id },
            RecordRef::Delete { id } => Brief::Kill { id },
            RecordRef::Prepare { tx, count, .. } => Brief::Prepare { tx, count },
            RecordRef::Commit { tx, count } => Brief::Commit { tx, count },
            RecordRef::Rollback { tx } => Brief::Rollback { tx },
        }
    }

    /// The record in memory of its own.
    pub fn to_record(&self, alloc: Global) -> Result<Record, NoMemory>
        ensures { IfOk result (λ r. r ≡ record_of self.now) }
    {
        Ok(match *self {
            RecordRef::Add {
                id,
                user_type,
                body,
            } => Record::Add {
                id,
                user_type,
                body: owned(alloc, body)?,
            },
            RecordRef::Update {
                id,
                user_type,
                body,
            } => Record::Update {
                id,
                user_type,
                body: owned(alloc, body)?,
            },
            RecordRef::AddTx {
                tx,
                id,
                user_type,
                body,
            } => Record::AddTx {
                tx,
                id,
                user_type,
                body: owned(alloc, body)?,
            },
            RecordRef::UpdateTx {
                tx,
                id,
                user_type,
                body,
            } => Record::UpdateTx {
                tx,
                id,
                user_type,
                body: owned(alloc, body)?,
            },
            RecordRef::DeleteTx { tx, id, body } => Record::DeleteTx {
                tx,
                id,
                body: owned(alloc, body)?,
            },
            RecordRef::Delete { id } => Record::Delete { id },
            RecordRef::Prepare { tx, count, extra } => Record::Prepare {
                tx,
                count,
                extra: owned(alloc, extra)?,
            },
            RecordRef::Commit { tx, count } => Record::Commit { tx, count },
            RecordRef::Rollback { tx } => Record::Rollback { tx },
        })
    }
}

/// The bytes in memory of their own.
fn owned(alloc: Global, bytes: &[u8]) -> Result<Bytes, NoMemory>
    ensures { IfOk result (λ b. b ≡ bytes.now) }
{
    match Vec::from_slice(alloc, bytes) {
        Ok(copy) => Ok(Bytes::of(copy)),
        Err(_) => Err(NoMemory),
    }
}
