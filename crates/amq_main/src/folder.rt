//! The calls of the system on a folder's files.
//!
//! A file stays open while it is the one in use, and so does the folder, since the names in it are made
//! durable through its handle. Want of memory is answered only where nothing was changed by then.
ghost use Rattle.std.specs.Prelude.{◌≡◌, length};

use amq_io::{DiskError, FileInfo};
use amq_model::{Name, NoMemory};
use std::alloc::AllocError;
use std::fs::{self, DirEntry, File, OpenOptions};
use std::io::{self, ErrorKind, Read, Write};
use std::os::fd::{AsRawFd, RawFd};
use std::os::unix::fs::FileExt;
use std::path::{Path, PathBuf};
use std::rt::Files;

/// The most bytes that a file may give to a read.
const READ_LIMIT: u64 = 1_073_741_824;

/// The greatest descriptor of a standard stream.
const STANDARD_ERROR: RawFd = 2;

/// How many bytes of a new file are written at once.
const PIECE: usize = 65_536;

#[derive(Drop)]
pub struct Folder<R: Files<File = File> + AllocGlobal + Clone + Drop> {
    runtime: R,
    path: String,
    /// The folder, once its names were made durable.
    handle: Option<File>,
    in_use: Option<OpenFile>,
}

/// A file that is open for writing.
#[derive(Drop)]
struct OpenFile {
    name: String,
    file: File,
}

impl OpenFile {
    fn is_named(&self, name: &str) -> bool {
        self.name.as_str() == name
    }
}

impl<R: Files<File = File> + AllocGlobal + Clone + Drop> Folder<R> {
    pub fn at(runtime: &R, path: &str) -> Result<Folder<R>, NoMemory> {
        let path = String::from_str(runtime.alloc(), path).map_err(|_| NoMemory)?;
        let runtime = runtime.clone().map_err(|_| NoMemory)?;
        Ok(Folder {
            runtime,
            path,
            handle: None,
            in_use: None,
        })
    }

    /// The files, ascending by the bytes of their names. The first call makes the names durable that it
    /// finds: whoever made the files may not have.
    pub fn list(&mut self) -> Result<Vec<FileInfo>, DiskError> {
        if self.handle.is_none() {
            self.sync_old_names().map_err(not_read)?;
        }
        let mut infos = Vec::new(self.runtime.alloc());
        for entry in fs::read_dir(&self.runtime, self.path.as_str()).map_err(not_read)? {
            if let Some(info) = self.info_of(entry)? {
                infos.push(info).map_err(|_| DiskError::NoMemory)?;
            }
        }
        infos.sort_unstable_by(|a, b| a.name.cmp(&b.name));
        Ok(infos)
    }

    /// `None` for a folder, and for a name that isn't of a name's form.
    fn info_of(&self, entry: io::Result<DirEntry<R>>) -> Result<Option<FileInfo>, DiskError> {
        let entry = match entry {
            Ok(entry) => entry,
            // The name isn't text.
            Err(error) if error.kind() == ErrorKind::InvalidFilename => return Ok(None),
            Err(error) => return Err(not_read(error)),
        };
        let Some(name) = Name::of(self.runtime.alloc(), entry.file_name()).map_err(
            |_| DiskError::NoMemory,
        )?
        else {
            return Ok(None);
        };
        let metadata = fs::metadata(&self.runtime, entry.path()).map_err(not_read)?;
        if metadata.is_dir() {
            return Ok(None);
        }
        Ok(Some(FileInfo {
            name,
            len: metadata.len(),
        }))
    }

    /// The bytes of the file. One that gives more than `READ_LIMIT` of them fails.
    pub fn read(&self, name: &str) -> Result<Vec<u8>, DiskError> {
        let path = self.path_of(name)?;
        let file = File::open(&self.runtime, path.as_str()).map_err(not_read)?;
        let len = file.metadata().map_err(not_read)?.len().min(READ_LIMIT);
        // One byte more than the length, so that its end is seen without growing.
        let mut bytes = Vec::with_capacity(self.runtime.alloc(), len as usize + 1).map_err(
            no_memory,
        )?;
        file.take(READ_LIMIT + 1)
            .read_to_end(&mut bytes)
            .map_err(not_read)?;
        if bytes.len() as u64 > READ_LIMIT {
            return Err(DiskError::Failed);
        }
        Ok(bytes)
    }

    /// Makes the file, and makes its length and its name durable.
    pub fn create(&mut self, name: &str, len: u64, fill: u8) -> Result<(), DiskError> {
        let path = self.path_of(name)?;
        let name = String::from_str(self.runtime.alloc(), name).map_err(no_memory)?;
        let piece = vec![in self.runtime.alloc(); fill; PIECE].map_err(no_memory)?;
        self.close(name.as_str());
        let file = File::create(&self.runtime, path.as_str()).map_err(failed)?;
        let mut file = beyond_streams(file).map_err(failed)?;
        write_repeated(&mut file, piece.as_slice(), len).map_err(failed)?;
        file.sync_data().map_err(failed)?;
        self.in_use = Some(OpenFile { name, file });
        self.sync_names().map_err(failed)
    }

    /// Writes the bytes by one call of the system, or by more where it takes them in parts.
    pub fn write_at(&mut self, name: &str, place: u64, bytes: &[u8]) -> Result<(), DiskError> {
        self.open(name)?.write_all_at(bytes, place).map_err(failed)
    }

    /// Makes the bytes of the file durable.
    pub fn sync(&mut self, name: &str) -> Result<(), DiskError> {
        self.open(name)?.sync_data().map_err(failed)
    }

    /// Renames the file, and makes that durable.
    pub fn rename(&mut self, from: &str, to: &str) -> Result<(), DiskError> {
        let old = self.path_of(from)?;
        let new = self.path_of(to)?;
        let name = String::from_str(self.runtime.alloc(), to).map_err(no_memory)?;
        self.close(to);
        let moved = self.in_use.take_if(|open| open.is_named(from));
        fs::rename(&self.runtime, old.as_str(), new.as_str()).map_err(failed)?;
        if let Some(OpenFile { name: _, file }) = moved {
            self.in_use = Some(OpenFile { name, file });
        }
        self.sync_names().map_err(failed)
    }

    /// Takes the file away, and makes that durable.
    pub fn remove(&mut self, name: &str) -> Result<(), DiskError> {
        let path = self.path_of(name)?;
        self.close(name);
        fs::remove_file(&self.runtime, path.as_str()).map_err(failed)?;
        self.sync_names().map_err(failed)
    }

    /// The handle of the file, which is from now on the one in use.
    fn open(&mut self, name: &str) -> Result<&File, DiskError> {
        let open = match self.in_use.take_if(|open| open.is_named(name)) {
            Some(open) => open,
            None => self.opened(name)?,
        };
        Ok(&self.in_use.insert(open).file)
    }

    fn opened(&self, name: &str) -> Result<OpenFile, DiskError> {
        let path = self.path_of(name)?;
        let name = String::from_str(self.runtime.alloc(), name).map_err(no_memory)?;
        let file = OpenOptions::new()
            .write(true)
            .open(&self.runtime, path.as_str())
            .map_err(failed)?;
        let file = beyond_streams(file).map_err(failed)?;
        Ok(OpenFile { name, file })
    }

    /// Closes the file in use where it has this name.
    fn close(&mut self, name: &str) {
        let _ = self.in_use.take_if(|open| open.is_named(name));
    }

    /// Makes the names durable that were there before this run. A folder of a kind that can't be synced
    /// is listed all the same: its first change fails.
    fn sync_old_names(&mut self) -> io::Result<()> {
        match self.sync_names() {
            Err(error) if error.kind() == ErrorKind::InvalidInput => Ok(()),
            answer => answer,
        }
    }

    /// Makes the names of the files durable.
    fn sync_names(&mut self) -> io::Result<()> {
        let handle = match self.handle.take() {
            Some(handle) => handle,
            None => File::open(&self.runtime, self.path.as_str())?,
        };
        handle.sync_all()?;
        self.handle = Some(handle);
        Ok(())
    }

    fn path_of(&self, name: &str) -> Result<PathBuf, DiskError> {
        Path::new(self.path.as_str())
            .join(self.runtime.alloc(), name)
            .map_err(no_memory)
    }
}

/// The file behind a descriptor other than those of the standard streams. Where one of these was closed
/// before the program began, what is meant for it would land in the file.
fn beyond_streams(file: File) -> io::Result<File> {
    if file.as_raw_fd() > STANDARD_ERROR {
        Ok(file)
    } else {
        file.try_clone()
    }
}

/// Writes so many bytes, the piece's again and again.
fn write_repeated(file: &mut File, piece: &[u8], len: u64) -> io::Result<()>
    requires { length piece.now ≡ PIECE }
{
    for _ in 0..len / PIECE as u64 {
        file.write_all(piece)?;
    }
    let rest = (len % PIECE as u64) as usize;
    file.write_all(&piece[..rest])
}

fn no_memory(_error: AllocError) -> DiskError {
    DiskError::NoMemory
}

/// What a call of the system that changes something answers: the part that it did isn't known.
fn failed(_error: io::Error) -> DiskError {
    DiskError::Failed
}

/// What a call that only reads answers.
fn not_read(error: io::Error) -> DiskError {
    if error.kind() == ErrorKind::OutOfMemory {
        DiskError::NoMemory
    } else {
        DiskError::Failed
    }
}
