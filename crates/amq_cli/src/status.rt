//! How a run ended.
ghost use Rattle.std.specs.Prelude.{◌≡◌};
ghost use Rattle.amq_cli.specs.Statuses.{code_of};

use amq_model::DirFault;

/// How a run ended.
#[derive(Clone, Debug, Drop, PartialEq, Eq)]
pub enum Status {
    /// All was done and written.
    Ok,
    /// A read of the source failed.
    SourceFault,
    /// A write to the sink failed.
    SinkFault,
    /// A call of the disk failed.
    DiskFault,
    /// The directory isn't one that can be loaded: its first fault.
    Directory { fault: DirFault },
    /// There was no memory.
    NoMemory,
    /// A file was needed, and no number is left for one. `highest` is the greatest so far.
    FileIdsSpent { highest: u64 },
    /// The source gave more than `limit` bytes.
    InputTooLong { limit: u64 },
    /// The words, a line of the script or the directory is of a form that isn't built yet.
    NotBuilt { part: Unbuilt },
}

/// What is of a form that isn't built yet.
#[derive(Clone, Copy, Debug, PartialEq, Eq)]
pub enum Unbuilt {
    Words,
    Script,
    Directory,
}

impl Status {
    /// The number with which the program ends.
    pub fn code(&self) -> u8
        ensures { result ≡ code_of self.now }
    {
        match self {
            Status::Ok => 0,
            Status::SourceFault => 4,
            Status::SinkFault => 5,
            Status::DiskFault => 6,
            Status::Directory { .. } => 7,
            Status::NoMemory => 8,
            Status::FileIdsSpent { .. } => 10,
            Status::InputTooLong { .. } => 11,
            Status::NotBuilt { .. } => 12,
        }
    }
}
