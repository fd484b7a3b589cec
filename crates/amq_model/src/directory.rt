use crate::{DiskCall, Items, Name};

/// A data file of a directory: its name there, its header's id and version, and its length in bytes.
#[derive(Clone, Debug, Drop, PartialEq, Eq)]
pub struct DataFile {
    pub name: Name,
    pub id: u64,
    pub len: u64,
    pub version: u32,
}

/// The names that a control file lists: the old files, and the new ones with `.cmp` behind.
#[derive(Clone, Debug, Drop, PartialEq, Eq)]
pub struct Control {
    pub olds: Items<Name>,
    pub news: Items<Name>,
}

/// Why a directory is refused, by its files in the order of their names.
#[derive(Clone, Debug, Drop, PartialEq, Eq, thiserror::Error)]
pub enum DirFault {
    /// A data file above 268,435,456 bytes.
    #[error("a data file of {len} bytes")]
    TooLong { name: Name, len: u64 },
    /// A header whose version isn't 2.
    #[error("version {found}")]
    Version { name: Name, found: u32 },
    /// A header with another user version than the journal's.
    #[error("user version {found}, not {wanted}")]
    UserVersion { name: Name, found: u32, wanted: u32 },
    /// Two data files of one id: the least such id, with its first two names.
    #[error("two files of id {id}")]
    TwoFiles { id: u64, first: Name, second: Name },
}

/// Why a journal is not opened.
#[derive(Clone, Debug, Drop, PartialEq, Eq, thiserror::Error)]
pub enum OpenFault {
    /// The directory is refused, and unchanged.
    #[error("directory: {0}")]
    Directory(DirFault),
    /// File numbers are needed that would pass 2^31 - 1.
    #[error("file ids spent at {highest}")]
    FileIdsSpent { highest: u64 },
    /// A disk call failed: the one that last answered `Failed`.
    #[error("disk call {call:?} failed")]
    Disk { call: DiskCall },
    /// There was no memory.
    #[error("no memory")]
    NoMemory,
    /// A file has the control file's name. Opening such a directory isn't built yet; it is
    /// unchanged.
    #[error("not built")]
    NotBuilt,
}
