//! The data files of a directory, by their ids.
ghost use Rattle.std.specs.Prelude.{◌≡◌, [], ◌∷◌, ◌++◌, map, IfOk, OnOk};
ghost use Rattle.amq_model.specs.declared.directory.DirFault.TheVariants.{TwoFiles};
ghost use Rattle.amq_loader.specs.Causes.{IsChecked};
ghost use Rattle.amq_loader.specs.Parts.{parts_by_id, shared_id, all_records};

use crate::LoadFault;
use crate::part::Part;
use amq_model::{DataFile, DirFault, NoMemory, Placed};
use std::alloc::Global;

/// Orders the files by their ids; those of one id stay in their order.
pub fn sort_by_id(parts: &mut Vec<Part>) -> Result<(), NoMemory>
    ensures { OnOk result (parts.new.items ≡ parts_by_id parts.old.items) }
{
    match parts.sort_by_key(|part| part.file.id) {
        Ok(()) => Ok(()),
        Err(_) => Err(NoMemory),
    }
}

/// Refuses two files of one id, in files that are ordered by their ids.
pub fn check_ids(parts: &[Part]) -> Result<(), LoadFault>
    ensures { IsChecked (shared_id parts.now) result }
{
    for i in 1..parts.len() {
        let first = &parts[i - 1].file;
        let second = &parts[i].file;
        if first.id == second.id {
            return Err(LoadFault::Directory(two_files(first, second)?));
        }
    }
    Ok(())
}

/// The refusal of two files of one id.
fn two_files(first: &DataFile, second: &DataFile) -> Result<DirFault, NoMemory>
    ensures { IfOk result (λ fault. fault ≡ TwoFiles first.now.id first.now.name second.now.name) }
{
    Ok(DirFault::TwoFiles {
        id: first.id,
        first: first.name.copy()?,
        second: second.name.copy()?,
    })
}

/// The files, and the records of them all, one file behind the other.
pub fn join(alloc: Global, parts: Vec<Part>) -> Result<(Vec<DataFile>, Vec<Placed>), NoMemory>
    ensures files { IfOk result (λ r. r.0.items ≡ map (λ p. p.file) parts.items) }
    ensures records { IfOk result (λ r. r.1.items ≡ all_records parts.items) }
{
    let mut files = Vec::new(alloc);
    let mut records = Vec::new(alloc);
    for part in parts {
        add_part(part, &mut files, &mut records)?;
    }
    Ok((files, records))
}

/// Adds a file and its records to these.
fn add_part(
    part: Part,
    files: &mut Vec<DataFile>,
    records: &mut Vec<Placed>,
) -> Result<(), NoMemory>
    ensures files { OnOk result (files.new.items ≡ files.old.items ++ part.file ∷ []) }
    ensures records { OnOk result (records.new.items ≡ records.old.items ++ part.records) }
{
    let Part { file, records: own } = part;
    if files.push(file).is_err() || records.append(&mut own.into_vec()).is_err() {
        return Err(NoMemory);
    }
    Ok(())
}
