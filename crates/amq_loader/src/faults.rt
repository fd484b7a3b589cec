//! Why a directory isn't loaded.
ghost use Rattle.std.specs.Prelude.{◌≡◌};
ghost use Rattle.amq_loader.specs.Causes.{load_fault};
ghost use Rattle.amq_loader.specs.declared.faults.LoadFault.TheVariants.{NoMemory as without_memory};

use amq_io::DiskFault;
use amq_model::{DirFault, DiskCall, NoMemory};

/// Why a directory isn't loaded.
#[derive(Clone, Debug, Drop, PartialEq, Eq, thiserror::Error)]
pub enum LoadFault {
    /// The first fault of the directory: by its files in the order of their names, and then the least id
    /// that two of them share.
    #[error("directory: {0}")]
    Directory(DirFault),
    /// A disk call failed: the one that last answered `Failed`.
    #[error("disk call {call:?} failed")]
    Disk { call: DiskCall },
    /// There was no memory.
    #[error("no memory")]
    NoMemory,
    /// A file has the control file's name. Loading such a directory isn't built yet.
    #[error("not built")]
    NotBuilt,
}

impl From<DiskFault> for LoadFault {
    ghost from_gives = { λ fault e. e ≡ load_fault fault };

    fn from(fault: DiskFault) -> LoadFault {
        match fault {
            DiskFault::Disk(call) => LoadFault::Disk { call },
            DiskFault::NoMemory => LoadFault::NoMemory,
        }
    }
}

impl From<NoMemory> for LoadFault {
    ghost from_gives = { λ fault e. e ≡ without_memory };

    fn from(_fault: NoMemory) -> LoadFault {
        LoadFault::NoMemory
    }
}
