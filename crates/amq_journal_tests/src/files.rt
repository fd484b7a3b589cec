//! Files on a disk.
ghost use Rattle.amq_model.specs.Leaves.{IsThere, IsWithin};
ghost use Rattle.amq_io.specs.MemoryDisk.{content_of};

use amq_io::{MemoryDisk, faults};
use amq_model::Name;
use std::alloc::Global;
use std::process::Abort;
use std::test::Fail;

/// The name with this text.
pub fn named(alloc: Global, text: &str) -> Result<Name, Fail> {
    Ok(Name::of(alloc, text)?.ok_or("no name")?)
}

/// The length of a file that has to be there.
fn len_of(rt: &impl Abort, disk: &MemoryDisk, name: &str) -> usize
    ensures there { IsThere name.now (content_of disk.now) }
    ensures within { IsWithin name.now result (content_of disk.now) }
{
    match disk.look(name) {
        Ok(Some(bytes)) => bytes.len(),
        _ => panic!(rt; "{name} isn't there"),
    }
}

/// Makes a file of these bytes, with one call where there is none, and two otherwise.
pub fn put(
    rt: &impl Abort,
    alloc: Global,
    disk: &mut MemoryDisk,
    text: &str,
    bytes: &[u8],
) -> Result<(), Fail> {
    let name = named(alloc, text)?;
    faults::create(disk, name.as_str(), bytes.len() as u64, 0)?;
    if bytes.is_empty() {
        return Ok(());
    }
    let len = len_of(rt, disk, name.as_str());
    assert!(rt; bytes.len() <= len);
    faults::write_at(disk, name.as_str(), 0, bytes)?;
    Ok(())
}
