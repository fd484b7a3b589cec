//! The files that are there before a run.
ghost use Rattle.amq_model.specs.Leaves.{IsThere, IsWithin};
ghost use Rattle.amq_io.specs.MemoryDisk.{content_of};

use amq_io::{Disk, MemoryDisk};
use amq_model::Name;
use amq_samples::joined;
use std::alloc::Global;
use std::process::Abort;
use std::test::Fail;

pub const DATA_FILE: &str = "activemq-data-1.amq";

pub const SECOND_FILE: &str = "activemq-data-2.amq";

/// A file of pieces, with `fill` behind them up to this length.
#[derive(Clone, Copy, Debug)]
pub struct File {
    pub name: &'static str,
    pub pieces: &'static [&'static [u8]],
    pub len: usize,
    pub fill: u8,
}

/// A disk with this file, nothing of which is pending, or with none. Its call of this number fails, none
/// for 0.
pub fn disk_of(alloc: Global, file: Option<File>, fails: u64) -> Result<MemoryDisk, Fail> {
    let mut files = Vec::new(alloc);
    if let Some(file) = file {
        let name = Name::of(alloc, file.name)?.ok_or("no name")?;
        let bytes = joined(alloc, file.pieces, file.len, file.fill)?;
        files = vec![in alloc; (name, bytes)]?;
    }
    Ok(MemoryDisk::failing(alloc, files, vec![in alloc; fails]?)?)
}

/// The length of a file that has to be there.
fn len_of(rt: &impl Abort, disk: &MemoryDisk, name: &str) -> usize
    ensures there { IsThere name.now (content_of disk.now) }
    ensures within { IsWithin name.now result (content_of disk.now) }
{
    match disk.look(name) {
        Ok(Some(bytes)) => bytes.len(),
        _ => panic!(rt; "{name} isn't there"),
    }
}

/// Makes the file. Nothing of it is synced.
fn put(rt: &impl Abort, alloc: Global, disk: &mut MemoryDisk, file: &File) -> Result<(), Fail> {
    let bytes = joined(alloc, file.pieces, file.len, file.fill)?;
    let name = Name::of(alloc, file.name)?.ok_or("no name")?;
    disk.create(name.as_str(), bytes.len() as u64, file.fill)?;
    if !file.pieces.is_empty() {
        let len = len_of(rt, disk, name.as_str());
        assert!(rt; bytes.len() <= len, "{}", file.name);
        disk.write_at(name.as_str(), 0, &bytes)?;
    }
    Ok(())
}

/// Makes these files. Nothing of them is synced.
pub fn put_all(
    rt: &impl Abort,
    alloc: Global,
    disk: &mut MemoryDisk,
    files: &[File],
) -> Result<(), Fail> {
    for file in files {
        put(rt, alloc, disk, file)?;
    }
    Ok(())
}
