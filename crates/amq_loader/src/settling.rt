//! What an opening does to the files that it found.
ghost use Rattle.std.specs.Prelude.{◌≡◌, ℕ, ◌^◌, ◌<◌, ◌≤◌, All, map, OnOk};
ghost use Rattle.amq_model.specs.Calls.{syncing, removing};
ghost use Rattle.amq_model.specs.Leaves.{Leaves, Syncs, HasSettledNames, AllAgree, IsListedSame, Told, IsThere};
ghost use Rattle.amq_model.specs.LoadCalls.{Makes, AreCallsBy};
ghost use Rattle.amq_io.specs.Faults.{HasFault};
ghost use Rattle.amq_loader.specs.Loads.{IsLoad, IsLoadOf};
ghost use Rattle.amq_loader.specs.Bases.{IsBase, AreThere, AreApart, Clears, Cleared};

use crate::Loaded;
use amq_io::{Disk, DiskFault, faults};

/// Makes the data files that were loaded durable, with one sync for each, ascending by id, and no other call.
///
/// A list that answered Ok must have come before, with only lists, reads and syncs behind it. Then each of
/// the files has one content, also where earlier calls failed, and the directory is a base.
pub fn sync_files<D: Disk>(disk: &mut D, loaded: &Loaded) -> Result<(), DiskFault>
    requires there { Told (D.past disk.old) (AreThere loaded.now.files) }
    requires settled { HasSettledNames (D.past disk.old) }
    ensures crash { Leaves Syncs Syncs (D.past disk.old) (D.past disk.new) }
    ensures calls { Makes (λ _. AreCallsBy result (map (λ f. syncing f.name) loaded.now.files)) (D.past disk.old) (D.past disk.new) }
    ensures base { (wanted : ℕ) → IsLoad wanted loaded.now → Told (D.past disk.old) (IsLoadOf wanted loaded.now) → AllAgree (D.past disk.old) IsListedSame → loaded.now.highest_file < 2 ^ 31 → OnOk result (IsBase (D.past disk.new) wanted loaded.now.highest_file loaded.now.base) }
    ensures cause { HasFault result (D.faults disk.old) (D.faults disk.new) }
    ensures later { D.moment disk.old ≤ D.moment disk.new }
{
    for file in loaded.files.as_slice() {
        faults::sync(disk, file.name.as_str())?;
    }
    Ok(())
}

/// Removes the leftovers that were loaded, compacted and temporary files that no control file lists: one
/// call for each, ascending by name.
pub fn settle_directory<D: Disk>(disk: &mut D, loaded: &Loaded) -> Result<(), DiskFault>
    requires there { Told (D.past disk.old) (λ s. All (λ n. IsThere n s) loaded.now.leftovers) }
    requires apart { Told (D.past disk.old) (λ _. AreApart loaded.now.leftovers) }
    ensures crash { Leaves (Clears loaded.now.leftovers) (Clears loaded.now.leftovers) (D.past disk.old) (D.past disk.new) }
    ensures calls { Makes (λ _. AreCallsBy result (map removing loaded.now.leftovers)) (D.past disk.old) (D.past disk.new) }
    ensures ok { OnOk result (Leaves (Clears loaded.now.leftovers) (Cleared loaded.now.leftovers) (D.past disk.old) (D.past disk.new)) }
    ensures cause { HasFault result (D.faults disk.old) (D.faults disk.new) }
    ensures later { D.moment disk.old ≤ D.moment disk.new }
{
    for name in loaded.leftovers.as_slice() {
        faults::remove(disk, name.as_str())?;
    }
    Ok(())
}
