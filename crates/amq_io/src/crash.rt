//! What a crash leaves of a disk in memory.
ghost use Rattle.std.specs.Prelude.{IfOk};
ghost use Rattle.amq_io.specs.Left.{AreTorn};

use crate::Pick;
use crate::entries::{Entry, copy_name};
use amq_model::Name;
use std::alloc::{AllocError, Global};

/// The files that are left of the entries.
pub fn left_files(
    alloc: Global,
    entries: &[Entry],
    pick: Pick,
) -> Result<Vec<(Name, Vec<u8>)>, AllocError>
    ensures { IfOk result (λ v. AreTorn pick entries.now v.items) }
{
    let mut left = Vec::new(alloc);
    for entry in entries {
        let name = copy_name(&entry.name)?;
        left.push((name, entry.file.left(alloc, pick)?))?;
    }
    Ok(left)
}
