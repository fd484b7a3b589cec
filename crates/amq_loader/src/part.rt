//! One data file, and the records in it.
ghost use Rattle.std.specs.Prelude.{IfOk, IsTrue};
ghost use Rattle.amq_model.specs.declared.directory.DirFault.TheVariants.{TooLong};
ghost use Rattle.amq_model.specs.Names.{is_data};
ghost use Rattle.amq_loader.specs.Causes.{IsFaultOr, IsChecked};
ghost use Rattle.amq_loader.specs.Parts.{fault_from, IsFound, HasFaultHere, HasRecords};

use crate::LoadFault;
use amq_header::{Header, read_header};
use amq_model::{DataFile, DirFault, Items, Name, NoMemory, Placed};
use amq_scan::scan;
use amq_state::copy_spots;
use std::alloc::Global;

/// The only format version that is read.
const VERSION: u32 = 2;

/// The greatest length of a data file, in bytes.
pub const MAX_LEN: u64 = 268_435_456;

/// A data file and its records, ascending by their places.
#[derive(Debug, Drop)]
pub struct Part {
    pub file: DataFile,
    pub records: Items<Placed>,
}

/// What the data file of this name has; `None` where it is too short for a header.
pub fn part_of(
    alloc: Global,
    name: &Name,
    bytes: &[u8],
    user_version: u32,
) -> Result<Option<Part>, LoadFault>
    requires named { IsTrue (is_data name.now) }
    ensures found { IfOk result (IsFound user_version name.now bytes.now) }
    ensures fault { HasFaultHere user_version name.now bytes.now result }
{
    let Some(header) = read_header(bytes) else {
        return Ok(None);
    };
    let len = bytes.len() as u64;
    check(name, len, &header, user_version)?;
    let records = records_of(alloc, bytes, header.id)?;
    let file = DataFile {
        name: name.copy()?,
        id: header.id,
        len,
        version: header.version,
    };
    Ok(Some(Part { file, records }))
}

/// Refuses a data file that is too long, or of another version.
pub fn check(name: &Name, len: u64, header: &Header, user_version: u32) -> Result<(), LoadFault>
    ensures { IsChecked (fault_from user_version name.now len header.now) result }
{
    if len > MAX_LEN {
        return Err(too_long(name, len));
    }
    let fault = if header.version != VERSION {
        DirFault::Version {
            name: name.copy()?,
            found: header.version,
        }
    } else if header.user_version != user_version {
        DirFault::UserVersion {
            name: name.copy()?,
            found: header.user_version,
            wanted: user_version,
        }
    } else {
        return Ok(());
    };
    Err(LoadFault::Directory(fault))
}

/// The refusal of a data file of this length.
pub fn too_long(name: &Name, len: u64) -> LoadFault
    ensures { IsFaultOr (TooLong name.now len) result }
{
    match name.copy() {
        Ok(name) => LoadFault::Directory(DirFault::TooLong { name, len }),
        Err(NoMemory) => LoadFault::NoMemory,
    }
}

/// The records of a file of this id, in memory of their own.
fn records_of(alloc: Global, bytes: &[u8], id: u64) -> Result<Items<Placed>, NoMemory>
    ensures { IfOk result (HasRecords bytes.now id 2) }
{
    let spots = scan(alloc, bytes, (id % (1 << 31)) as u32, VERSION)?;
    let mut records = Vec::new(alloc);
    copy_spots(alloc, &mut records, id, &spots)?;
    Ok(Items::of(records))
}
