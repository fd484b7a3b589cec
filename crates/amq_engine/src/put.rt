//! Putting bytes behind the last.
ghost use Rattle.std.specs.Prelude.{◌≡◌, ◌+◌, ◌≤◌, length, OnOk};
ghost use Rattle.amq_model.specs.Calls.{counted};
ghost use Rattle.amq_model.specs.Leaves.{Leaves, Told, IsThere, IsWithin};
ghost use Rattle.amq_io.specs.Faults.{HasFault};
ghost use Rattle.amq_engine.specs.Receipts.{GoesOn};
ghost use Rattle.amq_engine.specs.Puts.{Puts, Put};

use amq_io::{Disk, DiskFault, faults};

/// Puts these bytes at a place and makes them durable, in two disk calls: one write and one sync.
pub fn put<D: Disk>(disk: &mut D, name: &str, place: u64, bytes: &[u8]) -> Result<(), DiskFault>
    requires there { Told (D.past disk.old) (IsThere name.now) }
    requires within { Told (D.past disk.old) (IsWithin name.now (place + length bytes.now)) }
    ensures crash { Leaves (Puts name.now place bytes.now) (Puts name.now place bytes.now)
        (D.past disk.old) (D.past disk.new) }
    ensures ok { OnOk result (Leaves (Puts name.now place bytes.now)
        (Put name.now place bytes.now) (D.past disk.old) (D.past disk.new)) }
    ensures cause { HasFault result (D.faults disk.old) (D.faults disk.new) }
    ensures time { OnOk result (D.moment disk.new ≡ counted (counted (D.moment disk.old))) }
    ensures later { D.moment disk.old ≤ D.moment disk.new }
    ensures goes_on { GoesOn (D.past disk.old) (D.past disk.new) }
    ensures calls { D.moment disk.new ≤ D.moment disk.old + 2 }
{
    faults::write_at(disk, name, place, bytes)?;
    faults::sync(disk, name)?;
    Ok(())
}
