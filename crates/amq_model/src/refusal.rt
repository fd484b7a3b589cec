/// The calls of a disk, as refusals name them.
#[derive(Clone, Copy, Debug, PartialEq, Eq)]
pub enum DiskCall {
    List,
    Read,
    Create,
    WriteAt,
    Sync,
    Rename,
    Remove,
}

/// How far a compaction is; `Idle` where none is under way.
#[derive(Clone, Copy, Debug, PartialEq, Eq)]
pub enum Phase {
    Idle,
    Reading,
    Packing,
    Writing,
    Control,
    Swapped,
    Freeing,
    Renaming,
    Dropping,
}

/// Why the engine refused a call, in the order in which refusals are tried.
#[derive(Clone, Copy, Debug, PartialEq, Eq, thiserror::Error)]
pub enum Refusal {
    /// An earlier call of this engine answered `Disk`; `fault` is that call.
    #[error("closed after {fault:?}")]
    Closed { fault: DiskCall },
    /// The record has `len` bytes, above `limit`, the lesser of buffer size and file size less 16.
    #[error("record of {len} bytes, above {limit}")]
    TooLarge { len: u64, limit: u64 },
    /// No open transaction has that number.
    #[error("no transaction {tx}")]
    NoTx { tx: u64 },
    /// An add, update, delete or prepare in a prepared transaction.
    #[error("transaction {tx} is prepared")]
    TxPrepared { tx: u64 },
    /// `tx` is the least open transaction, other than the command's own, that has a record of the id.
    #[error("id {id} is held by transaction {tx}")]
    Held { id: u64, tx: u64 },
    /// An add of an id that is live in the command's view.
    #[error("id {id} is live")]
    AlreadyLive { id: u64 },
    /// An update or delete of an id that isn't live in the command's view.
    #[error("no record {id}")]
    NoRecord { id: u64 },
    /// A `Begin` while the highest number seen or given is at least 2^63 - 1.
    #[error("transaction numbers spent at {highest}")]
    TxNumbersSpent { highest: u64 },
    /// A compaction is under way.
    #[error("compacting")]
    Compacting { phase: Phase },
    /// File numbers are needed that would pass 2^31 - 1.
    #[error("file ids spent at {highest}")]
    FileIdsSpent { highest: u64 },
    /// A disk call failed: the one that last answered `Failed`.
    #[error("disk call {call:?} failed")]
    Disk { call: DiskCall },
    /// There was no memory. The call can be made again.
    #[error("no memory")]
    NoMemory,
}
