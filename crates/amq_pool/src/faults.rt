//! Why a pool gives no file.
ghost use Rattle.std.specs.Prelude.{◌≡◌};
ghost use Rattle.amq_pool.specs.Faults.{pool_fault};

use amq_io::DiskFault;
use amq_model::DiskCall;

/// Why a pool prepares no file.
#[derive(Clone, Copy, Debug, PartialEq, Eq, thiserror::Error)]
pub enum PoolFault {
    /// A file needs a number above 2^31 - 1. `highest` is the greatest number so far.
    #[error("file ids spent at {highest}")]
    FileIdsSpent { highest: u64 },
    /// This call of the disk failed, and it is the one that failed last.
    #[error("disk call {call:?} failed")]
    Disk { call: DiskCall },
    /// There was no memory.
    #[error("no memory")]
    NoMemory,
}

impl From<DiskFault> for PoolFault {
    ghost from_gives = { λ fault e. e ≡ pool_fault fault };

    fn from(fault: DiskFault) -> PoolFault {
        match fault {
            DiskFault::Disk(call) => PoolFault::Disk { call },
            DiskFault::NoMemory => PoolFault::NoMemory,
        }
    }
}
