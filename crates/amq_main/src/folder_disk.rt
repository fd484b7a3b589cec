//! A disk over a folder of the system. It tells no content.
ghost use Rattle.std.specs.Prelude.{◌≡◌, None};
ghost use Rattle.amq_model.specs.Calls.{counted};
ghost use Rattle.amq_io.specs.Cause.{HasCause};

use crate::folder::Folder;
use amq_io::{Disk, DiskError, FileInfo};
use amq_model::{DiskCall, NoMemory};
use std::fs::File;
use std::rt::Files;

/// The folder at a path, as a disk.
///
/// Its folders, and the files whose names aren't of a name's form, are left out of it.
#[derive(Drop)]
pub struct FolderDisk<R: Files<File = File> + AllocGlobal + Clone + Drop> {
    folder: Folder<R>,
    calls: CallCount,
}

/// How many calls ended, how many of them failed, and which one failed last.
///
/// Both numbers stand at the greatest u64.
#[derive(Drop)]
struct CallCount {
    ended: u64,
    faults: u64,
    last_failed: Option<DiskCall>,
}

impl CallCount {
    /// Counts a call that ended so, and hands its answer on.
    fn count<T>(&mut self, call: DiskCall, answer: Result<T, DiskError>) -> Result<T, DiskError>
        ensures same { result ≡ answer }
        ensures time { self.new.ended ≡ counted self.old.ended }
        ensures cause { HasCause call result (self.old.faults, self.old.last_failed) (self.new.faults, self.new.last_failed) }
    {
        self.ended = self.ended.saturating_add(1);
        if let Err(DiskError::Failed) = answer {
            self.faults = self.faults.saturating_add(1);
            self.last_failed = Some(call);
        }
        answer
    }
}

impl<R: Files<File = File> + AllocGlobal + Clone + Drop> FolderDisk<R> {
    /// The disk over the folder at this path. Whether there is one shows at the first call.
    pub fn at(runtime: &R, path: &str) -> Result<FolderDisk<R>, NoMemory> {
        Ok(FolderDisk {
            folder: Folder::at(runtime, path)?,
            calls: CallCount {
                ended: 0,
                faults: 0,
                last_failed: None,
            },
        })
    }
}

impl<R: Files<File = File> + AllocGlobal + Clone + Drop> Disk for FolderDisk<R> {
    ghost past = { λ d. None };

    ghost moment = { λ d. d.calls.ended };

    ghost faults = { λ d. (d.calls.faults, d.calls.last_failed) };

    fn list(&mut self) -> Result<Vec<FileInfo>, DiskError> {
        let answer = self.folder.list();
        self.calls.count(DiskCall::List, answer)
    }

    fn read(&mut self, name: &str) -> Result<Vec<u8>, DiskError> {
        let answer = self.folder.read(name);
        self.calls.count(DiskCall::Read, answer)
    }

    fn create(&mut self, name: &str, len: u64, fill: u8) -> Result<(), DiskError> {
        let answer = self.folder.create(name, len, fill);
        self.calls.count(DiskCall::Create, answer)
    }

    fn write_at(&mut self, name: &str, place: u64, bytes: &[u8]) -> Result<(), DiskError> {
        let answer = self.folder.write_at(name, place, bytes);
        self.calls.count(DiskCall::WriteAt, answer)
    }

    fn sync(&mut self, name: &str) -> Result<(), DiskError> {
        let answer = self.folder.sync(name);
        self.calls.count(DiskCall::Sync, answer)
    }

    fn rename(&mut self, from: &str, to: &str) -> Result<(), DiskError> {
        let answer = self.folder.rename(from, to);
        self.calls.count(DiskCall::Rename, answer)
    }

    fn remove(&mut self, name: &str) -> Result<(), DiskError> {
        let answer = self.folder.remove(name);
        self.calls.count(DiskCall::Remove, answer)
    }

    fn moment(&self) -> u64 {
        self.calls.ended
    }
}
