use crate::Bytes;

/// What a producer asks of the journal.
#[derive(Clone, Debug, Drop, PartialEq, Eq)]
pub enum Command {
    Add {
        id: u64,
        user_type: u8,
        body: Bytes,
    },
    Update {
        id: u64,
        user_type: u8,
        body: Bytes,
    },
    Delete {
        id: u64,
    },
    Begin,
    AddTx {
        tx: u64,
        id: u64,
        user_type: u8,
        body: Bytes,
    },
    UpdateTx {
        tx: u64,
        id: u64,
        user_type: u8,
        body: Bytes,
    },
    DeleteTx {
        tx: u64,
        id: u64,
        body: Bytes,
    },
    Prepare {
        tx: u64,
        extra: Bytes,
    },
    Commit {
        tx: u64,
    },
    Rollback {
        tx: u64,
    },
    Flush,
}

/// The answer to a command that was accepted: the place of its append, counted from 0 over all
/// appends of this opening; the number given to a transaction; or how many appends are durable.
#[derive(Clone, Copy, Debug, PartialEq, Eq)]
pub enum Reply {
    Appended { place: u64 },
    Begun { tx: u64 },
    Durable { count: u64 },
}
