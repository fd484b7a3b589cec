ghost use Rattle.std.specs.Prelude.{◌≡◌, ◌+◌, ℕ, Option, IfOk, IfSome, length};

use amq_model::Name;

/// Why a call of a disk gave no answer.
#[derive(Clone, Copy, Debug, PartialEq, Eq, thiserror::Error)]
pub enum DiskError {
    /// The call failed, and the disk's count of faults rose.
    #[error("the call failed")]
    Failed,
    /// There was no memory. What the disk reads is as it was.
    #[error("no memory")]
    NoMemory,
}

/// A file of a directory: its name, and its length in bytes.
#[derive(Debug, Drop)]
pub struct FileInfo {
    pub name: Name,
    pub len: u64,
}

/// A directory of files, which has no folders in it.
///
/// What its calls do, and what a crash may leave of them, is said of the record of its calls, `past`;
/// `docs/DEFINITIONS.md` has it in prose. A disk that tells no content has no conditions.
pub trait Disk {
    ghost use Rattle.amq_model.specs.Name.{HasNameForm};
    ghost use Rattle.amq_model.specs.Calls.{Past, counted, listing, reading, creating, writing, syncing, renaming, removing};
    ghost use Rattle.amq_model.specs.Leaves.{Told, IsThere, IsWithin, HasBytes, IsAt};
    ghost use Rattle.amq_io.specs.Notes.{Notes};
    ghost use Rattle.amq_io.specs.Listed.{IsListed};
    ghost use Rattle.amq_io.specs.Cause.{Faults, HasCause};
    ghost use Rattle.amq_model.specs.declared.refusal.DiskCall.TheVariants.{List as Lists, Read, Create, WriteAt, Sync, Rename, Remove};

    /// The calls so far, of a disk that tells its content.
    ghost past: { Self → Option Past };

    /// How many calls have ended. It stands at the greatest u64.
    ghost moment: { Self → ℕ };

    /// How often a call failed, and which one did last.
    ghost faults: { Self → Faults };

    /// Every file once, ascending by the bytes of its name.
    fn list(&mut self) -> Result<Vec<FileInfo>, DiskError>
        ensures listed { IfOk result (λ infos. Told (past self.old) (IsListed infos.items)) }
        ensures note { Notes listing result (past self.old) (past self.new) }
        ensures time { moment self.new ≡ counted (moment self.old) }
        ensures cause { HasCause Lists result (faults self.old) (faults self.new) };

    /// The bytes of a file that is there.
    fn read(&mut self, name: &str) -> Result<Vec<u8>, DiskError>
        requires { Told (past self.old) (IsThere name.now) }
        ensures bytes { IfOk result (λ bytes. Told (past self.old) (HasBytes name.now bytes.items)) }
        ensures note { Notes (reading name.now) result (past self.old) (past self.new) }
        ensures time { moment self.new ≡ counted (moment self.old) }
        ensures cause { HasCause Read result (faults self.old) (faults self.new) };

    /// Makes a file of `len` bytes `fill`, all of it pending, and replaces one of that name.
    fn create(&mut self, name: &str, len: u64, fill: u8) -> Result<(), DiskError>
        requires { Told (past self.old) (λ _. HasNameForm name.now) }
        ensures note { Notes (creating name.now len fill) result (past self.old) (past self.new) }
        ensures time { moment self.new ≡ counted (moment self.old) }
        ensures cause { HasCause Create result (faults self.old) (faults self.new) };

    /// Writes the bytes at `place`, within the file's length. They are pending until a `sync`.
    fn write_at(&mut self, name: &str, place: u64, bytes: &[u8]) -> Result<(), DiskError>
        requires there { Told (past self.old) (IsThere name.now) }
        requires within { Told (past self.old) (IsWithin name.now (place + length bytes.now)) }
        ensures note { Notes (writing name.now place bytes.now) result (past self.old) (past self.new) }
        ensures time { moment self.new ≡ counted (moment self.old) }
        ensures cause { HasCause WriteAt result (faults self.old) (faults self.new) };

    /// Makes the file durable: nothing of it is pending.
    fn sync(&mut self, name: &str) -> Result<(), DiskError>
        requires { Told (past self.old) (IsThere name.now) }
        ensures note { Notes (syncing name.now) result (past self.old) (past self.new) }
        ensures time { moment self.new ≡ counted (moment self.old) }
        ensures cause { HasCause Sync result (faults self.old) (faults self.new) };

    /// Gives the file the other name, and replaces one there. The name is durable at once; what was
    /// pending of the file stays so.
    fn rename(&mut self, from: &str, to: &str) -> Result<(), DiskError>
        requires there { Told (past self.old) (IsThere from.now) }
        requires named { Told (past self.old) (λ _. HasNameForm to.now) }
        ensures note { Notes (renaming from.now to.now) result (past self.old) (past self.new) }
        ensures time { moment self.new ≡ counted (moment self.old) }
        ensures cause { HasCause Rename result (faults self.old) (faults self.new) };

    /// Takes the file away. That is durable at once.
    fn remove(&mut self, name: &str) -> Result<(), DiskError>
        requires { Told (past self.old) (IsThere name.now) }
        ensures note { Notes (removing name.now) result (past self.old) (past self.new) }
        ensures time { moment self.new ≡ counted (moment self.old) }
        ensures cause { HasCause Remove result (faults self.old) (faults self.new) };

    /// How many calls have ended. At the greatest u64 it stands, and nothing is claimed of it any more.
    fn moment(&self) -> u64
        ensures count { result ≡ moment self.now }
        ensures told { IfSome (past self.now) (IsAt result) };
}
