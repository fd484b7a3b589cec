//! Making a file that is whole and durable before it has its name.
ghost use Rattle.std.specs.Prelude.{◌≡◌, ◌≢◌, ◌≤◌, ◌+◌, length, OnOk};
ghost use Rattle.amq_model.specs.Name.{HasNameForm};
ghost use Rattle.amq_model.specs.Calls.{counted};
ghost use Rattle.amq_model.specs.Leaves.{Leaves};
ghost use Rattle.amq_io.specs.Faults.{HasFault};
ghost use Rattle.amq_pool.specs.Prepare.{Prepares, Prepared, Spares};
ghost use Rattle.amq_pool.specs.Faults.{OnNoMemory};

use amq_io::{Disk, DiskFault, faults};

/// The byte with which a new file is filled.
const FILLING: u8 = 0x4a;

/// Makes a file of this name and length with this header, filled behind it, in four disk calls: create
/// under the temporary name, header, sync, rename.
///
/// Where it wanted memory, at most a file of the temporary name stands there.
pub fn prepare<D: Disk>(
    disk: &mut D,
    temporary: &str,
    name: &str,
    len: u64,
    header: &[u8],
) -> Result<(), DiskFault>
    requires temporary_form { HasNameForm temporary.now }
    requires name_form { HasNameForm name.now }
    requires differ { temporary.now ≢ name.now }
    requires fits { length header.now ≤ len }
    ensures crash { Leaves (Prepares temporary.now name.now len 74 header.now) (Prepares temporary.now name.now len 74 header.now) (D.past disk.old) (D.past disk.new) }
    ensures ok { OnOk result (Leaves (Prepares temporary.now name.now len 74 header.now) (Prepared temporary.now name.now len 74 header.now) (D.past disk.old) (D.past disk.new)) }
    ensures memory { OnNoMemory result (Leaves (Prepares temporary.now name.now len 74 header.now) (Spares temporary.now) (D.past disk.old) (D.past disk.new)) }
    ensures cause { HasFault result (D.faults disk.old) (D.faults disk.new) }
    ensures four { OnOk result (D.moment disk.new ≡ counted (counted (counted (counted (D.moment disk.old))))) }
    ensures later { D.moment disk.old ≤ D.moment disk.new }
    ensures calls { D.moment disk.new ≤ D.moment disk.old + 4 }
{
    faults::create(disk, temporary, len, FILLING)?;
    faults::write_at(disk, temporary, 0, header)?;
    faults::sync(disk, temporary)?;
    faults::rename(disk, temporary, name)?;
    Ok(())
}
