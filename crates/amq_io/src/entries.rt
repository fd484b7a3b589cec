//! The files of a disk in memory, as entries in any order.
ghost use Rattle.std.specs.Prelude.{◌≡◌, ◌+◌, ◌≤◌, ◌<◌, [], ◌∷◌, length, map as map_of, replicate, option_map, IfSome, IfOk, IfNone, OnOk, OnErr, vec_len, vec_capacity};
ghost use Rattle.std.specs.FinMap as map;
ghost use Rattle.amq_model.specs.Files.{created, written, pended, synced, renamed, removed};
ghost use Rattle.amq_io.specs.Synced.{durable, settled};

use crate::memory_file::MemoryFile;
use amq_model::Name;
use std::alloc::{AllocError, Global};

/// A file under its name.
#[derive(Drop)]
pub struct Entry {
    pub name: Name,
    pub file: MemoryFile,
}

ghost use Rattle.amq_io.specs.Entries.{files_of, synced_of, durable_entry, IsFirst, IsAbsent, IsUnchanged};

/// An equal name.
pub fn copy_name(name: &Name) -> Result<Name, AllocError>
    ensures { IfOk result (λ n. n ≡ name.now) }
{
    match name.copy() {
        Ok(copy) => Ok(copy),
        Err(_) => Err(AllocError),
    }
}

fn find(files: &[Entry], name: &str) -> Option<usize>
    ensures found { IfSome result (IsFirst name.now files.now) }
    ensures inside { IfSome result (λ i. i < length files.now) }
    ensures none { IfNone result (IsAbsent name.now files.now) }
{
    match files {
        [] => None,
        [first, rest @ ..] => {
            if first.name.as_str() == name {
                Some(0)
            } else {
                match find(rest, name) {
                    Some(i) => Some(i + 1),
                    None => None,
                }
            }
        }
    }
}

fn fresh(alloc: Global, name: &Name, len: u64, fill: u8) -> Result<Entry, AllocError>
    ensures name { IfOk result (λ e. e.name ≡ name.now) }
    ensures file { IfOk result (λ e. e.file ≡ record { read = record { bytes = replicate len fill; pending = (0, len) ∷ [] }; synced = replicate len 0 }) }
{
    Ok(Entry {
        name: copy_name(name)?,
        file: MemoryFile::fresh(alloc, len, fill)?,
    })
}

/// A new file, all of it pending. It replaces one of that name.
pub fn create(
    alloc: Global,
    files: &mut Vec<Entry>,
    name: &Name,
    len: u64,
    fill: u8,
) -> Result<(), AllocError>
    ensures ok { OnOk result (files_of files.new.items ≡ created name.now len fill (files_of files.old.items)) }
    ensures synced { OnOk result (synced_of files.new.items ≡ map.insert (synced_of files.old.items) name.now (durable (replicate len 0))) }
    ensures err { OnErr result (IsUnchanged files.old.items files.new.items) }
{
    let entry = fresh(alloc, name, len, fill)?;
    match find(files, name.as_str()) {
        Some(i) => files[i] = entry,
        None => files.insert(0, entry)?,
    }
    Ok(())
}

/// Other bytes at a place, which are pending.
pub fn write(
    alloc: Global,
    files: &mut Vec<Entry>,
    name: &str,
    place: u64,
    bytes: &[u8],
) -> Result<(), AllocError>
    requires { IfSome (map.get (files_of files.old.items) name.now) (λ f. place + length bytes.now ≤ length f.bytes) }
    ensures ok { OnOk result (files_of files.new.items ≡ written name.now place bytes.now (files_of files.old.items)) }
    ensures synced { synced_of files.new.items ≡ synced_of files.old.items }
    ensures err { OnErr result (IsUnchanged files.old.items files.new.items) }
{
    if let Some(i) = find(files, name) {
        let entry = &mut files[i];
        entry.file.write(alloc, place, bytes)?;
    }
    Ok(())
}

/// The range is pending, and nothing is written.
pub fn pend(
    alloc: Global,
    files: &mut Vec<Entry>,
    name: &str,
    place: u64,
    len: usize,
) -> Result<(), AllocError>
    requires { IfSome (map.get (files_of files.old.items) name.now) (λ f. place + len ≤ length f.bytes) }
    ensures ok { OnOk result (files_of files.new.items ≡ pended name.now place len (files_of files.old.items)) }
    ensures synced { synced_of files.new.items ≡ synced_of files.old.items }
    ensures err { OnErr result (IsUnchanged files.old.items files.new.items) }
{
    if let Some(i) = find(files, name) {
        let entry = &mut files[i];
        entry.file.pend(alloc, place, len)?;
    }
    Ok(())
}

/// Nothing of the file is pending.
pub fn sync(files: &mut Vec<Entry>, name: &str)
    ensures read { files_of files.new.items ≡ synced name.now (files_of files.old.items) }
    ensures synced { synced_of files.new.items ≡ settled (map.get (files_of files.old.items) name.now) name.now (synced_of files.old.items) }
{
    if let Some(i) = find(files, name) {
        let entry = &mut files[i];
        entry.file.sync();
    }
}

/// No file has the name.
pub fn remove(files: &mut Vec<Entry>, name: &str)
    ensures gone { files_of files.new.items ≡ removed name.now (files_of files.old.items) }
    ensures synced { synced_of files.new.items ≡ removed name.now (synced_of files.old.items) }
    ensures room { vec_capacity files.new ≡ vec_capacity files.old }
    ensures len { vec_len files.new ≤ vec_len files.old }
{
    while let Some(i) = find(files, name) {
        files.remove(i);
    }
}

/// The file has another name, and replaces one of that name.
pub fn rename(files: &mut Vec<Entry>, from: &str, to: &Name) -> Result<(), AllocError>
    ensures ok { OnOk result (files_of files.new.items ≡ renamed from.now to.now (files_of files.old.items)) }
    ensures synced { OnOk result (synced_of files.new.items ≡ renamed from.now to.now (synced_of files.old.items)) }
    ensures err { OnErr result (IsUnchanged files.old.items files.new.items) }
{
    if let Some(i) = find(files, from) {
        let name = copy_name(to)?;
        files.try_reserve(1)?;
        let mut entry = files.remove(i);
        entry.name = name;
        remove(files, from);
        files.insert(0, entry).unwrap();
    }
    Ok(())
}

/// The bytes of the file, where it is there.
pub fn bytes_of(alloc: Global, files: &[Entry], name: &str) -> Result<Option<Vec<u8>>, AllocError>
    ensures { IfOk result (λ o. option_map (λ v. v.items) o ≡ option_map (λ f. f.bytes) (map.get (files_of files.now) name.now)) }
{
    match find(files, name) {
        Some(i) => {
            let entry = &files[i];
            Ok(Some(entry.file.bytes().to_vec(alloc)?))
        }
        None => Ok(None),
    }
}

fn entry_of(alloc: Global, name: &Name, bytes: &[u8]) -> Result<Entry, AllocError>
    ensures { IfOk result (λ e. e ≡ durable_entry name.now bytes.now) }
{
    Ok(Entry {
        name: copy_name(name)?,
        file: MemoryFile::durable(alloc, bytes.to_vec(alloc)?),
    })
}

/// Entries of these files, with nothing pending.
pub fn entries_of(alloc: Global, files: &[(Name, Vec<u8>)]) -> Result<Vec<Entry>, AllocError>
    ensures { IfOk result (λ v. v.items ≡ map_of (λ f. durable_entry f.0 f.1.items) files.now) }
{
    let mut entries = Vec::new(alloc);
    for file in files {
        entries.push(entry_of(alloc, &file.0, &file.1)?)?;
    }
    Ok(entries)
}
