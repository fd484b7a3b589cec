//! The file of a number: its names and its header.
ghost use Rattle.std.specs.Prelude.{◌≡◌, ◌+◌, ◌-◌, ◌^◌, ◌≤◌, IfOk, OnOk};
ghost use Rattle.amq_model.specs.Configs.{IsConfig};
ghost use Rattle.amq_model.specs.Calls.{counted};
ghost use Rattle.amq_model.specs.Leaves.{Leaves};
ghost use Rattle.amq_header.specs.Classes.{data_name};
ghost use Rattle.amq_io.specs.Faults.{HasFault};
ghost use Rattle.amq_pool.specs.Faults.{OnNoMemory};
ghost use Rattle.amq_pool.specs.Pools.{Making, Made, Unmade};

use crate::prepare::prepare;
use amq_header::{Header, data_name, temporary_name, write_header};
use amq_io::{Disk, DiskFault};
use amq_model::{Config, Name};
use std::alloc::Global;

/// The version of a journal's files.
const FORMAT_VERSION: u32 = 2;

/// Prepares the file of this number, and answers its name.
pub fn make_file<D: Disk>(
    alloc: Global,
    disk: &mut D,
    config: &Config,
    id: u64,
) -> Result<Name, DiskFault>
    requires config { IsConfig config.now }
    requires number { id ≤ 2 ^ 31 - 1 }
    ensures name { IfOk result (λ name. name ≡ data_name id) }
    ensures crash { Leaves (Making config.now id) (Making config.now id) (D.past disk.old) (D.past disk.new) }
    ensures ok { OnOk result (Leaves (Making config.now id) (Made config.now id) (D.past disk.old) (D.past disk.new)) }
    ensures memory { OnNoMemory result (Leaves (Making config.now id) (Unmade id) (D.past disk.old) (D.past disk.new)) }
    ensures cause { HasFault result (D.faults disk.old) (D.faults disk.new) }
    ensures four { OnOk result (D.moment disk.new ≡ counted (counted (counted (counted (D.moment disk.old))))) }
    ensures later { D.moment disk.old ≤ D.moment disk.new }
    ensures calls { D.moment disk.new ≤ D.moment disk.old + 4 }
{
    let Ok(name) = data_name(alloc, id) else {
        return Err(DiskFault::NoMemory);
    };
    let Ok(temporary) = temporary_name(alloc, id) else {
        return Err(DiskFault::NoMemory);
    };
    let header = write_header(&Header {
        version: FORMAT_VERSION,
        user_version: config.user_version,
        id,
    });
    prepare(
        disk,
        temporary.as_str(),
        name.as_str(),
        config.file_size,
        &header,
    )?;
    Ok(name)
}
