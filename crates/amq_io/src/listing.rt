//! The files of a disk in memory, in the order of their names.
ghost use Rattle.std.specs.Prelude.{◌≡◌, ◌≤◌, ◌<◌, true, length, map as map_of, IfOk, OnOk};
ghost use Rattle.std.specs.Ordering.{nat_cmp};
ghost use Rattle.std.specs.Cmp.Lexicographic.{slice_cmp};
ghost use Rattle.std.specs.FinMap as map;
ghost use Rattle.amq_io.specs.Entries.{files_of};
ghost use Rattle.amq_io.specs.Listed.{IsListed};
ghost use Rattle.amq_io.specs.Listing.{listed_of, IsPlace};

use crate::FileInfo;
use crate::entries::{Entry, copy_name};
use amq_model::Name;
use std::alloc::{AllocError, Global};
use std::cmp::Ordering;

fn place(listed: &[FileInfo], name: &Name) -> (usize, bool)
    ensures place { IsPlace name.now listed.now result.0 result.1 }
    ensures within { result.0 ≤ length listed.now }
    ensures found { result.1 ≡ true → result.0 < length listed.now }
{
    match listed {
        [] => (0, false),
        [first, rest @ ..] => match name.cmp(&first.name) {
            Ordering::Less => (0, false),
            Ordering::Equal => (0, true),
            Ordering::Greater => {
                let (i, found) = place(rest, name);
                (i + 1, found)
            }
        },
    }
}

fn put(listed: &mut Vec<FileInfo>, info: FileInfo) -> Result<(), AllocError>
    ensures { OnOk result (map_of listed_of listed.new.items ≡ map.put (slice_cmp nat_cmp) info.name info.len (map_of listed_of listed.old.items)) }
{
    let (i, found) = place(listed, &info.name);
    if found {
        listed[i].len = info.len;
    } else {
        listed.insert(i, info)?;
    }
    Ok(())
}

/// Every file once, ascending by the bytes of its name.
pub fn list(alloc: Global, files: &[Entry]) -> Result<Vec<FileInfo>, AllocError>
    ensures { IfOk result (λ v. IsListed v.items (files_of files.now)) }
{
    match files {
        [] => Ok(Vec::new(alloc)),
        [first, rest @ ..] => {
            let mut listed = list(alloc, rest)?;
            put(
                &mut listed,
                FileInfo {
                    name: copy_name(&first.name)?,
                    len: first.file.bytes().len() as u64,
                },
            )?;
            Ok(listed)
        }
    }
}
