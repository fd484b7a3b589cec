use crate::{Bytes, Items};

/// Which word an entry prints: ADD and ADD_TX give `Add`, UPDATE and UPDATE_TX give `Update`.
#[derive(Clone, Copy, Debug, PartialEq, Eq)]
pub enum EntryKind {
    Add,
    Update,
}

/// A live record, or an add or update of a transaction in doubt.
#[derive(Clone, Debug, Drop, PartialEq, Eq)]
pub struct Entry {
    pub kind: EntryKind,
    pub id: u64,
    pub user_type: u8,
    pub body: Bytes,
}

/// A delete of a transaction in doubt.
#[derive(Clone, Debug, Drop, PartialEq, Eq)]
pub struct Removal {
    pub id: u64,
    pub body: Bytes,
}

/// A transaction that has a sound PREPARE and no end behind it: the extra bytes of its last sound
/// PREPARE, its adds and updates, and its deletes, each in order.
#[derive(Clone, Debug, Drop, PartialEq, Eq)]
pub struct InDoubt {
    pub tx: u64,
    pub extra: Bytes,
    pub records: Items<Entry>,
    pub deletes: Items<Removal>,
}

/// What a load gives: the live records in order of effect, and the transactions in doubt by number.
#[derive(Clone, Debug, Drop, PartialEq, Eq)]
pub struct LoadState {
    pub live: Items<Entry>,
    pub in_doubt: Items<InDoubt>,
}

/// Whether the last record of an id in an open transaction puts it or deletes it.
#[derive(Clone, Copy, Debug, PartialEq, Eq)]
pub enum EntryEnd {
    Put,
    Gone,
}

/// An open transaction: whether it is prepared, and each id that its open records touch, ascending.
#[derive(Clone, Debug, Drop, PartialEq, Eq)]
pub struct OpenTx {
    pub tx: u64,
    pub prepared: bool,
    pub touched: Items<(u64, EntryEnd)>,
}
