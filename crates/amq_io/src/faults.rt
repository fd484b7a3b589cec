//! The calls of a disk, with the call named in each fault.
ghost use Rattle.std.specs.Prelude.{◌≡◌, ◌+◌, IfOk, length};
ghost use Rattle.amq_model.specs.Name.{HasNameForm};
ghost use Rattle.amq_model.specs.Calls.{counted, listing, reading, creating, writing, syncing, renaming, removing};
ghost use Rattle.amq_model.specs.Leaves.{Told, IsThere, IsWithin, HasBytes};
ghost use Rattle.amq_io.specs.Notes.{Notes};
ghost use Rattle.amq_io.specs.Listed.{IsListed};
ghost use Rattle.amq_io.specs.Faults.{fault_at, as_error, HasFault};

use crate::{Disk, DiskError, FileInfo};
use amq_model::DiskCall;

/// Why calls of a disk gave no answer, as a layer above says it.
#[derive(Clone, Copy, Debug, PartialEq, Eq, thiserror::Error)]
pub enum DiskFault {
    /// This call failed, and it is the one that failed last.
    #[error("disk call {0:?} failed")]
    Disk(DiskCall),
    /// There was no memory.
    #[error("no memory")]
    NoMemory,
}

fn named(error: DiskError, call: DiskCall) -> DiskFault
    ensures { result ≡ fault_at error call }
{
    match error {
        DiskError::Failed => DiskFault::Disk(call),
        DiskError::NoMemory => DiskFault::NoMemory,
    }
}

/// Lists the files.
pub fn list<D: Disk>(disk: &mut D) -> Result<Vec<FileInfo>, DiskFault>
    ensures listed { IfOk result (λ infos. Told (D.past disk.old) (IsListed infos.items)) }
    ensures note { Notes listing (as_error result) (D.past disk.old) (D.past disk.new) }
    ensures time { D.moment disk.new ≡ counted (D.moment disk.old) }
    ensures cause { HasFault result (D.faults disk.old) (D.faults disk.new) }
{
    match disk.list() {
        Ok(infos) => Ok(infos),
        Err(error) => Err(named(error, DiskCall::List)),
    }
}

/// Reads a file.
pub fn read<D: Disk>(disk: &mut D, name: &str) -> Result<Vec<u8>, DiskFault>
    requires { Told (D.past disk.old) (IsThere name.now) }
    ensures bytes { IfOk result (λ bytes. Told (D.past disk.old) (HasBytes name.now bytes.items)) }
    ensures note { Notes (reading name.now) (as_error result) (D.past disk.old) (D.past disk.new) }
    ensures time { D.moment disk.new ≡ counted (D.moment disk.old) }
    ensures cause { HasFault result (D.faults disk.old) (D.faults disk.new) }
{
    match disk.read(name) {
        Ok(bytes) => Ok(bytes),
        Err(error) => Err(named(error, DiskCall::Read)),
    }
}

/// Makes a file.
pub fn create<D: Disk>(disk: &mut D, name: &str, len: u64, fill: u8) -> Result<(), DiskFault>
    requires { Told (D.past disk.old) (λ _. HasNameForm name.now) }
    ensures note { Notes (creating name.now len fill) (as_error result) (D.past disk.old) (D.past disk.new) }
    ensures time { D.moment disk.new ≡ counted (D.moment disk.old) }
    ensures cause { HasFault result (D.faults disk.old) (D.faults disk.new) }
{
    match disk.create(name, len, fill) {
        Ok(()) => Ok(()),
        Err(error) => Err(named(error, DiskCall::Create)),
    }
}

/// Writes bytes of a file.
pub fn write_at<D: Disk>(
    disk: &mut D,
    name: &str,
    place: u64,
    bytes: &[u8],
) -> Result<(), DiskFault>
    requires there { Told (D.past disk.old) (IsThere name.now) }
    requires within { Told (D.past disk.old) (IsWithin name.now (place + length bytes.now)) }
    ensures note { Notes (writing name.now place bytes.now) (as_error result) (D.past disk.old) (D.past disk.new) }
    ensures time { D.moment disk.new ≡ counted (D.moment disk.old) }
    ensures cause { HasFault result (D.faults disk.old) (D.faults disk.new) }
{
    match disk.write_at(name, place, bytes) {
        Ok(()) => Ok(()),
        Err(error) => Err(named(error, DiskCall::WriteAt)),
    }
}

/// Makes a file durable.
pub fn sync<D: Disk>(disk: &mut D, name: &str) -> Result<(), DiskFault>
    requires { Told (D.past disk.old) (IsThere name.now) }
    ensures note { Notes (syncing name.now) (as_error result) (D.past disk.old) (D.past disk.new) }
    ensures time { D.moment disk.new ≡ counted (D.moment disk.old) }
    ensures cause { HasFault result (D.faults disk.old) (D.faults disk.new) }
{
    match disk.sync(name) {
        Ok(()) => Ok(()),
        Err(error) => Err(named(error, DiskCall::Sync)),
    }
}

/// Gives a file another name.
pub fn rename<D: Disk>(disk: &mut D, from: &str, to: &str) -> Result<(), DiskFault>
    requires there { Told (D.past disk.old) (IsThere from.now) }
    requires named { Told (D.past disk.old) (λ _. HasNameForm to.now) }
    ensures note { Notes (renaming from.now to.now) (as_error result) (D.past disk.old) (D.past disk.new) }
    ensures time { D.moment disk.new ≡ counted (D.moment disk.old) }
    ensures cause { HasFault result (D.faults disk.old) (D.faults disk.new) }
{
    match disk.rename(from, to) {
        Ok(()) => Ok(()),
        Err(error) => Err(named(error, DiskCall::Rename)),
    }
}

/// Takes a file away.
pub fn remove<D: Disk>(disk: &mut D, name: &str) -> Result<(), DiskFault>
    requires { Told (D.past disk.old) (IsThere name.now) }
    ensures note { Notes (removing name.now) (as_error result) (D.past disk.old) (D.past disk.new) }
    ensures time { D.moment disk.new ≡ counted (D.moment disk.old) }
    ensures cause { HasFault result (D.faults disk.old) (D.faults disk.new) }
{
    match disk.remove(name) {
        Ok(()) => Ok(()),
        Err(error) => Err(named(error, DiskCall::Remove)),
    }
}
