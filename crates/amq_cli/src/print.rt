//! Reporting what a directory has.
ghost use Rattle.std.specs.Prelude.{◌≡◌, ◌≤◌, true};
ghost use Rattle.amq_model.specs.Leaves.{Leaves, OnlyAsks, Unchanged};
ghost use Rattle.amq_model.specs.LoadCalls.{Makes};
ghost use Rattle.amq_cli.specs.Offline.{HasPrintCalls, HasPrintCause, IsPrinted, is_unwritten};
ghost use Rattle.amq_cli.specs.Counts.{HasPrintCounts};
ghost use Rattle.amq_cli.specs.Statuses.{status_of_load};

use crate::report::write_report;
use crate::status::{Status, Unbuilt};
use amq_io::{Disk, Sink};
use amq_loader::{LoadFault, load_state};
use std::alloc::Global;

/// Loads the directory, and writes the report of it.
pub fn print<D: Disk, K: Sink>(
    alloc: Global,
    user_version: u32,
    disk: &mut D,
    sink: &mut K,
) -> Status
    ensures printed { IsPrinted result user_version (D.past disk.old) (K.taken sink.old)
        (K.taken sink.new) }
    ensures cause { HasPrintCause result (K.faults sink.old) (K.faults sink.new) (D.faults disk.old)
        (D.faults disk.new) }
    ensures counts { HasPrintCounts result (K.faults sink.old) (K.faults sink.new)
        (D.faults disk.old) (D.faults disk.new) }
    ensures unwritten { is_unwritten result ≡ true → sink.new ≡ sink.old }
    ensures unread { result ≡ Status.DiskFault → sink.new ≡ sink.old }
    ensures asks { OnlyAsks (D.past disk.old) (D.past disk.new) }
    ensures calls { Makes (HasPrintCalls result) (D.past disk.old) (D.past disk.new) }
    ensures only_asks { Leaves Unchanged Unchanged (D.past disk.old) (D.past disk.new) }
    ensures later { (D.faults disk.old).0 ≤ (D.faults disk.new).0 }
    ensures moment { D.moment disk.old ≤ D.moment disk.new }
{
    match load_state(alloc, disk, user_version) {
        Ok(state) => write_report(alloc, &state, sink),
        Err(fault) => status_of_load(fault),
    }
}

/// How a run ends whose directory wasn't loaded.
fn status_of_load(fault: LoadFault) -> Status
    ensures { result ≡ status_of_load fault }
{
    match fault {
        LoadFault::Directory(fault) => Status::Directory { fault },
        LoadFault::Disk { .. } => Status::DiskFault,
        LoadFault::NoMemory => Status::NoMemory,
        LoadFault::NotBuilt => Status::NotBuilt {
            part: Unbuilt::Directory,
        },
    }
}
