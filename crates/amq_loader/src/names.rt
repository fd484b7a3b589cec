//! What the names of a directory say.
ghost use Rattle.std.specs.Prelude.{◌≡◌, [], ◌∷◌, ◌++◌, map, max, fold, filter, IfOk, OnOk};
ghost use Rattle.std.specs.List.{list_any};
ghost use Rattle.amq_model.specs.Names.{same, is_data, control_name};
ghost use Rattle.amq_loader.specs.Loads.{number_of, is_leftover};
ghost use Rattle.amq_loader.specs.Parts.{highest_in};

use crate::part::Part;
use amq_header::{FileClass, file_class};
use amq_io::FileInfo;
use amq_model::{Name, NoMemory};
use std::alloc::Global;

/// Whether a file has the control file's name.
pub fn has_control(infos: &[FileInfo]) -> bool
    ensures { result ≡ list_any (λ i. same i.name control_name) infos.now }
{
    infos.iter().any(|info| is_control(&info.name))
}

/// Whether it is the control file's name.
fn is_control(name: &Name) -> bool
    ensures { result ≡ same name.now control_name }
{
    matches!(file_class(name.as_str()), FileClass::Control)
}

/// Whether it is a data file's name.
pub fn is_data(name: &Name) -> bool
    ensures { result ≡ is_data name.now }
{
    matches!(file_class(name.as_str()), FileClass::DataFile(_))
}

/// Whether it is the name of a file that an opening may remove: a compacted or temporary one.
fn is_leftover(name: &Name) -> bool
    ensures { result ≡ is_leftover name.now }
{
    matches!(
        file_class(name.as_str()),
        FileClass::Compacted(_) | FileClass::Temporary(_)
    )
}

/// The N of the name, if it has one.
fn number_of(name: &Name) -> Option<u64>
    ensures { result ≡ number_of name.now }
{
    match file_class(name.as_str()) {
        FileClass::DataFile(number) | FileClass::Compacted(number) => Some(number),
        FileClass::Temporary(number) => number,
        FileClass::Control | FileClass::Other => None,
    }
}

/// The names of the compacted and temporary files, in their order.
pub fn leftovers_of(alloc: Global, infos: &[FileInfo]) -> Result<Vec<Name>, NoMemory>
    ensures { IfOk result (λ v. v.items ≡ filter is_leftover (map (λ i. i.name) infos.now)) }
{
    let mut names = Vec::new(alloc);
    for info in infos {
        push_leftover(&info.name, &mut names)?;
    }
    Ok(names)
}

/// Adds the name, if it is that of a compacted or temporary file.
fn push_leftover(name: &Name, names: &mut Vec<Name>) -> Result<(), NoMemory>
    ensures { OnOk result (names.new.items ≡ names.old.items ++ filter is_leftover (name.now ∷ [])) }
{
    if is_leftover(name) && names.push(name.copy()?).is_err() {
        return Err(NoMemory);
    }
    Ok(())
}

/// The greatest of the files' ids and of the N of all names, 0 where there is none.
pub fn highest_number(parts: &[Part], infos: &[FileInfo]) -> u64
    ensures { result ≡ highest_in parts.now (map (λ i. i.name) infos.now) }
{
    let mut highest = greatest_id(parts);
    for info in infos {
        highest = highest.max(number_of(&info.name).unwrap_or(0));
    }
    highest
}

/// The greatest id, 0 where there is none.
fn greatest_id(parts: &[Part]) -> u64
    ensures { result ≡ fold max 0 (map (λ p. p.file.id) parts.now) }
{
    let mut greatest = 0;
    for part in parts {
        greatest = greatest.max(part.file.id);
    }
    greatest
}
