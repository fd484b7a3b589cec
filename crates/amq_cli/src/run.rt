//! Running the commands of a script on a disk.
ghost use Rattle.std.specs.Prelude.{◌≡◌, ◌⊎◌, ◌≤◌, [], All, IsTrue};
ghost use Rattle.amq_model.specs.Configs.{IsConfig};
ghost use Rattle.amq_model.specs.Leaves.{Leaves, Unchanged};
ghost use Rattle.amq_cli.specs.Offline.{IsReported, HasDiskCause};
ghost use Rattle.amq_cli.specs.Outcome.{Ran, seen_disk};
ghost use Rattle.amq_cli.specs.Counts.{HasLoadCount};
ghost use Rattle.amq_cli.specs.Replay.{is_built};
ghost use Rattle.amq_cli.specs.Statuses.{status_of, status_of_opening};

use crate::replay::replay;
use crate::status::{Status, Unbuilt};
use amq_engine::{Engine, Kept, OpenFailed};
use amq_io::Disk;
use amq_loader::{LoadFault, load_state};
use amq_model::{Config, Line, OpenFault, Refusal};
use amq_print::report;
use std::alloc::Global;

/// Opens a journal, gives it the lines of a script, closes it and loads it again. The text gets the
/// lines that are to be written.
pub fn run<D: Disk>(
    alloc: Global,
    config: Config,
    lines: Vec<Line>,
    disk: D,
    text: &mut Vec<u8>,
) -> (Status, D, Kept)
    requires config { IsConfig config }
    requires built { All (λ line. IsTrue (is_built line)) lines.items }
    requires empty { text.old.items ≡ [] }
    ensures ran { Ran config lines.items result.0 result.2 text.new.items
        (seen_disk D.past D.moment D.faults disk) (seen_disk D.past D.moment D.faults result.1) }
{
    let chronicle = Kept::new(alloc);
    let mut engine = match Engine::open_on(alloc, disk, chronicle, config) {
        Ok((engine, _state)) => engine,
        Err(
            OpenFailed {
                disk,
                chronicle,
                fault,
            },
        ) => return (status_of_opening(fault), disk, chronicle),
    };
    let played = replay(alloc, &mut engine, lines, text);
    let (mut disk, chronicle, closed) = engine.close();
    let status = match played {
        Ok(()) => match closed {
            Ok(_) => add_report(alloc, &mut disk, config.user_version, text),
            Err(refusal) => status_of_refusal(refusal),
        },
        Err(refusal) => status_of_refusal(refusal),
    };
    (status, disk, chronicle)
}

/// Loads the journal that was closed, and adds the report to the text.
///
/// It has neither a fault nor a control file, which only a disk that tells no content can answer here:
/// where the directory isn't as it was closed, the run ends as for want of memory.
fn add_report<D: Disk>(alloc: Global, disk: &mut D, user_version: u32, text: &mut Vec<u8>) -> Status
    ensures reported { result ≡ Status.Ok → IsReported user_version text.old.items text.new.items
        (D.past disk.old) (D.past disk.new) }
    ensures unreported { (result ≡ Status.Ok) ⊎ (text.new.items ≡ text.old.items) }
    ensures count { HasLoadCount result (D.faults disk.old) (D.faults disk.new) }
    ensures cause { HasDiskCause result (D.faults disk.old) (D.faults disk.new) }
    ensures later { (D.faults disk.old).0 ≤ (D.faults disk.new).0 }
    ensures only_asks { Leaves Unchanged Unchanged (D.past disk.old) (D.past disk.new) }
    ensures moment { D.moment disk.old ≤ D.moment disk.new }
{
    let state = match load_state(alloc, disk, user_version) {
        Ok(state) => state,
        Err(LoadFault::Disk { .. }) => return Status::DiskFault,
        Err(_) => return Status::NoMemory,
    };
    match report(alloc, &state) {
        Ok(lines) if text.extend_from_slice(&lines).is_ok() => Status::Ok,
        _ => Status::NoMemory,
    }
}

/// How a run ends whose journal was refused a command or its flush.
fn status_of_refusal(refusal: Refusal) -> Status
    ensures { result ≡ status_of refusal }
{
    match refusal {
        Refusal::Disk { .. } => Status::DiskFault,
        _ => Status::NoMemory,
    }
}

/// How a run ends whose journal wasn't opened.
fn status_of_opening(fault: OpenFault) -> Status
    ensures { result ≡ status_of_opening fault }
{
    match fault {
        OpenFault::Directory(fault) => Status::Directory { fault },
        OpenFault::FileIdsSpent { highest } => Status::FileIdsSpent { highest },
        OpenFault::Disk { .. } => Status::DiskFault,
        OpenFault::NoMemory => Status::NoMemory,
        OpenFault::NotBuilt => Status::NotBuilt {
            part: Unbuilt::Directory,
        },
    }
}
