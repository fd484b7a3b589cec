ghost use Rattle.std.specs.Prelude.{◌≡◌, IfOk};
ghost use Rattle.amq_model.specs.Records.{brief_of};

use crate::{Bytes, NoMemory};

/// A record of the journal: one of the nine kinds, with its fields.
///
/// `docs/FORMAT.md` has each kind's bytes. `count` is the number of adds, updates and deletes that a
/// PREPARE or COMMIT says its transaction has in its file.
#[derive(Clone, Debug, Drop, PartialEq, Eq)]
pub enum Record {
    Add {
        id: u64,
        user_type: u8,
        body: Bytes,
    },
    Update {
        id: u64,
        user_type: u8,
        body: Bytes,
    },
    AddTx {
        tx: u64,
        id: u64,
        user_type: u8,
        body: Bytes,
    },
    UpdateTx {
        tx: u64,
        id: u64,
        user_type: u8,
        body: Bytes,
    },
    DeleteTx {
        tx: u64,
        id: u64,
        body: Bytes,
    },
    Delete {
        id: u64,
    },
    Prepare {
        tx: u64,
        count: u32,
        extra: Bytes,
    },
    Commit {
        tx: u64,
        count: u32,
    },
    Rollback {
        tx: u64,
    },
}

/// What tables know of a record: whether it puts an id, kills one, or ends or prepares a transaction.
#[derive(Clone, Copy, Debug, PartialEq, Eq)]
pub enum Brief {
    Put { id: u64 },
    PutTx { tx: u64, id: u64 },
    Kill { id: u64 },
    KillTx { tx: u64, id: u64 },
    Prepare { tx: u64, count: u32 },
    Commit { tx: u64, count: u32 },
    Rollback { tx: u64 },
}

/// A record in its file: the file's header id, the place of its first byte, and its compact count.
#[derive(Clone, Debug, Drop, PartialEq, Eq)]
pub struct Placed {
    pub file: u64,
    pub place: u64,
    pub compact: u8,
    pub rec: Record,
}

impl Record {
    /// The record's kind, id, transaction number and number of records, as its variant has them.
    /// Takes no memory.
    pub fn brief(&self) -> Brief
        ensures { result ≡ brief_of self.now }
    {
        match self {
            Record::Add { id, .. } | Record::Update { id, .. } => Brief::Put { id: *id },
            Record::AddTx { tx, id, .. } | Record::UpdateTx { tx, id, .. } => {
                Brief::PutTx { tx: *tx, id: *id }
            }
            Record::DeleteTx { tx, id, .. } => Brief::KillTx { tx: *tx, id: *id },
            Record::Delete { id } => Brief::Kill { id: *id },
            Record::Prepare { tx, count, .. } => Brief::Prepare {
                tx: *tx,
                count: *count,
            },
            Record::Commit { tx, count } => Brief::Commit {
                tx: *tx,
                count: *count,
            },
            Record::Rollback { tx } => Brief::Rollback { tx: *tx },
        }
    }

    /// An equal record in memory of its own.
    pub fn copy(&self) -> Result<Record, NoMemory>
        ensures { IfOk result (λ r. r ≡ self.now) }
    {
        match self.clone() {
            Ok(copy) => Ok(copy),
            Err(_) => Err(NoMemory),
        }
    }
}
