ghost use Rattle.std.specs.Prelude.{◌≡◌, ◌≢◌, ◌+◌, [], length, map, option_map, OnOk, OnErr, IfOk, Some, Err};
ghost use Rattle.std.specs.List.{AllPairs};
ghost use Rattle.std.specs.FinMap as finite;
ghost use Rattle.amq_model.specs.Calls.{after, counted, listing, reading, creating, writing, syncing, renaming, removing};
ghost use Rattle.amq_model.specs.Leaves.{IsThere, IsWithin, HasBytes};
ghost use Rattle.amq_model.specs.Name.{HasNameForm};
ghost use Rattle.amq_io.specs.Listed.{IsListed};
ghost use Rattle.amq_io.specs.Notes.{Notes};
ghost use Rattle.amq_io.specs.Cause.{HasCause};
ghost use Rattle.amq_io.specs.Entries.{files_of, synced_of, durable_pair, call_of, IsInside, IsUnchanged};
ghost use Rattle.amq_io.specs.Synced.{synced_by};
ghost use Rattle.amq_io.specs.Torn.{IsLeftOf};
ghost use Rattle.amq_io.specs.MemoryDisk.{outcome_of, past_of, content_of, last_synced_of, HoldsFiles, IsFresh, MayBeLeft, RunsAsTold};

use crate::asked::{Asked, PastCall};
use crate::crash::left_files;
use crate::entries::{Entry, bytes_of, create, entries_of, pend, remove, rename, sync, write};
use crate::listing::list;
use crate::{Disk, DiskError, FileInfo, Pick};
use amq_model::{DiskCall, Name, NoMemory};
use std::alloc::{AllocError, Global};
use std::marker::Model;

/// A disk in memory, for tests. It tells its content, and keeps a record of all its calls.
#[derive(Drop)]
pub struct MemoryDisk {
    alloc: Global,
    start: Vec<(Name, Vec<u8>)>,
    files: Vec<Entry>,
    calls: Vec<PastCall>,
    moment: u64,
    fails: Vec<u64>,
    faults: u64,
    last: Option<DiskCall>,
}

impl Model for MemoryDisk {
    ghost use Rattle.std.specs.Prelude.{◌≡◌, map, reverse};
    ghost use Rattle.amq_model.specs.Calls.{content, IsTimed};
    ghost use Rattle.amq_io.specs.Entries.{files_of, synced_of, durable_pair};
    ghost use Rattle.amq_io.specs.Synced.{last_synced};
    ghost use Rattle.amq_io.specs.MemoryDisk.{Memory, event_of, from_pairs};

    ghost Value = { Memory };

    ghost view = { λ d. record { start = map (λ f. durable_pair f.0 f.1.items) d.start.items; calls = reverse (map event_of d.calls.items); moment = d.moment; fails = d.fails.items; faults = d.faults; last = d.last } };

    ghost invariant = { λ d. (files_of d.files.items ≡ content (from_pairs (map (λ f. durable_pair f.0 f.1.items) d.start.items)) (reverse (map event_of d.calls.items)))
        × (synced_of d.files.items ≡ last_synced (from_pairs (map (λ f. durable_pair f.0 f.1.items) d.start.items)) (reverse (map event_of d.calls.items)))
        × IsTimed (reverse (map event_of d.calls.items)) d.moment };
}

fn perform(
    alloc: Global,
    files: &mut Vec<Entry>,
    asked: &Asked,
    failed: bool,
) -> Result<(), AllocError>
    requires { IsInside (call_of asked.now) (files_of files.old.items) }
    ensures ok { OnOk result (files_of files.new.items ≡ after (call_of asked.now) (outcome_of failed) (files_of files.old.items)) }
    ensures synced { OnOk result (synced_of files.new.items ≡ synced_by (call_of asked.now) (outcome_of failed) (files_of files.old.items) (synced_of files.old.items)) }
    ensures err { OnErr result (IsUnchanged files.old.items files.new.items) }
{
    if failed {
        return match asked {
            Asked::WriteAt(name, place, bytes) => pend(alloc, files, name, *place, bytes.len()),
            _ => Ok(()),
        };
    }
    match asked {
        Asked::List | Asked::Read(_) => Ok(()),
        Asked::Create(name, len, fill) => create(alloc, files, name, *len, *fill),
        Asked::WriteAt(name, place, bytes) => write(alloc, files, name, *place, bytes),
        Asked::Sync(name) => {
            sync(files, name);
            Ok(())
        }
        Asked::Rename(from, to) => rename(files, from, to),
        Asked::Remove(name) => {
            remove(files, name);
            Ok(())
        }
    }
}

impl MemoryDisk {
    // A disk that begins with these files.
    fn started(
        alloc: Global,
        start: Vec<(Name, Vec<u8>)>,
        fails: Vec<u64>,
    ) -> Result<MemoryDisk, NoMemory>
        ensures fresh { IfOk result IsFresh }
        ensures start { IfOk result (λ d. d.start ≡ map (λ f. durable_pair f.0 f.1.items) start.items) }
        ensures fails { IfOk result (λ d. d.fails ≡ fails.items) }
    {
        let Ok(files) = entries_of(alloc, &start) else {
            return Err(NoMemory);
        };
        Ok(MemoryDisk {
            alloc,
            start,
            files,
            calls: Vec::new(alloc),
            moment: 0,
            fails,
            faults: 0,
            last: None,
        })
    }

    // A call that didn't begin for want of memory.
    fn refuse<T: Drop>(&mut self) -> Result<T, DiskError>
        ensures memory { result ≡ Err DiskError.NoMemory }
        ensures passed { self.new ≡ record { start = self.old.start; calls = self.old.calls; moment = counted self.old.moment; fails = self.old.fails; faults = self.old.faults; last = self.old.last } }
    {
        self.moment = self.moment.saturating_add(1);
        Err(DiskError::NoMemory)
    }

    // A call, which fails where its number is among those that are to fail.
    fn run(&mut self, call: DiskCall, asked: Asked) -> Result<(), DiskError>
        requires { IsInside (call_of asked) (content_of self.old) }
        ensures note { Notes (call_of asked) result (Some (past_of self.old)) (Some (past_of self.new)) }
        ensures time { self.new.moment ≡ counted self.old.moment }
        ensures cause { HasCause call result (self.old.faults, self.old.last) (self.new.faults, self.new.last) }
        ensures runs { RunsAsTold call (call_of asked) result self.old self.new }
    {
        let before = self.moment;
        self.moment = before.saturating_add(1);
        let failed = self.fails.contains(&self.moment);
        if self.calls.try_reserve(1).is_err() {
            return Err(DiskError::NoMemory);
        }
        if perform(self.alloc, &mut self.files, &asked, failed).is_err() {
            return Err(DiskError::NoMemory);
        }
        self.calls
            .push(PastCall {
                asked,
                failed,
                before,
            })
            .unwrap();
        if failed {
            self.faults = self.faults.saturating_add(1);
            self.last = Some(call);
            Err(DiskError::Failed)
        } else {
            Ok(())
        }
    }
}

impl MemoryDisk {
    /// A disk with no files.
    pub fn new(alloc: Global) -> Result<MemoryDisk, NoMemory>
        ensures fresh { IfOk result IsFresh }
        ensures none { IfOk result (λ d. HoldsFiles [] (content_of d)) }
        ensures fails { IfOk result (λ d. d.fails ≡ []) }
    {
        MemoryDisk::of_files(alloc, Vec::new(alloc))
    }

    /// A disk with these files, nothing of which is pending.
    pub fn of_files(alloc: Global, files: Vec<(Name, Vec<u8>)>) -> Result<MemoryDisk, NoMemory>
        requires { AllPairs (λ a b. a.0 ≢ b.0) files.items }
        ensures fresh { IfOk result IsFresh }
        ensures holds { IfOk result (λ d. HoldsFiles (map (λ e. (e.0, e.1.items)) files.items) (content_of d)) }
        ensures fails { IfOk result (λ d. d.fails ≡ []) }
    {
        MemoryDisk::failing(alloc, files, Vec::new(alloc))
    }

    /// A disk with these files, on which the calls with these numbers fail, counted from 1.
    ///
    /// A call that is made to fail changes nothing that the disk reads; a write leaves its range pending.
    pub fn failing(
        alloc: Global,
        files: Vec<(Name, Vec<u8>)>,
        calls: Vec<u64>,
    ) -> Result<MemoryDisk, NoMemory>
        requires { AllPairs (λ a b. a.0 ≢ b.0) files.items }
        ensures fresh { IfOk result IsFresh }
        ensures holds { IfOk result (λ d. HoldsFiles (map (λ e. (e.0, e.1.items)) files.items) (content_of d)) }
        ensures fails { IfOk result (λ d. d.fails ≡ calls.items) }
    {
        MemoryDisk::started(alloc, files, calls)
    }

    /// What the disk reads of a file, where it is there. It is no call of the disk.
    pub fn look(&self, name: &str) -> Result<Option<Vec<u8>>, NoMemory>
        ensures { IfOk result (λ o. option_map (λ v. v.items) o ≡ option_map (λ f. f.bytes) (finite.get (content_of self.now) name.now)) }
    {
        match bytes_of(self.alloc, &self.files, name) {
            Ok(bytes) => Ok(bytes),
            Err(_) => Err(NoMemory),
        }
    }

    /// What a crash at this moment leaves, as a disk of its own: nothing of it is pending, and no call is
    /// to fail.
    pub fn crash(&self, pick: Pick) -> Result<MemoryDisk, NoMemory>
        ensures left { IfOk result (λ d. IsLeftOf pick (content_of self.now) (last_synced_of self.now) (content_of d)) }
        ensures image { IfOk result (MayBeLeft self.now) }
        ensures fresh { IfOk result IsFresh }
        ensures fails { IfOk result (λ d. d.fails ≡ []) }
    {
        let Ok(left) = left_files(self.alloc, &self.files, pick) else {
            return Err(NoMemory);
        };
        MemoryDisk::started(self.alloc, left, Vec::new(self.alloc))
    }
}

impl Disk for MemoryDisk {
    ghost past = { λ d. Some (past_of d) };

    ghost moment = { λ d. d.moment };

    ghost faults = { λ d. (d.faults, d.last) };

    fn list(&mut self) -> Result<Vec<FileInfo>, DiskError>
        ensures listed { IfOk result (λ infos. IsListed infos.items (content_of self.old)) }
        ensures note { Notes listing result (Some (past_of self.old)) (Some (past_of self.new)) }
        ensures time { self.new.moment ≡ counted self.old.moment }
        ensures cause { HasCause DiskCall.List result (self.old.faults, self.old.last) (self.new.faults, self.new.last) }
        ensures runs { RunsAsTold DiskCall.List listing result self.old self.new }
    {
        let Ok(infos) = list(self.alloc, &self.files) else {
            return self.refuse();
        };
        self.run(DiskCall::List, Asked::List)?;
        Ok(infos)
    }

    fn read(&mut self, name: &str) -> Result<Vec<u8>, DiskError>
        requires { IsThere name.now (content_of self.old) }
        ensures bytes { IfOk result (λ bytes. HasBytes name.now bytes.items (content_of self.old)) }
        ensures note { Notes (reading name.now) result (Some (past_of self.old)) (Some (past_of self.new)) }
        ensures time { self.new.moment ≡ counted self.old.moment }
        ensures cause { HasCause DiskCall.Read result (self.old.faults, self.old.last) (self.new.faults, self.new.last) }
        ensures runs { RunsAsTold DiskCall.Read (reading name.now) result self.old self.new }
    {
        let Ok(asked) = String::from_str(self.alloc, name) else {
            return self.refuse();
        };
        let Ok(found) = bytes_of(self.alloc, &self.files, name) else {
            return self.refuse();
        };
        let Some(bytes) = found else {
            unreachable!();
        };
        self.run(DiskCall::Read, Asked::Read(asked))?;
        Ok(bytes)
    }

    fn create(&mut self, name: &str, len: u64, fill: u8) -> Result<(), DiskError>
        requires { HasNameForm name.now }
        ensures note { Notes (creating name.now len fill) result (Some (past_of self.old)) (Some (past_of self.new)) }
        ensures time { self.new.moment ≡ counted self.old.moment }
        ensures cause { HasCause DiskCall.Create result (self.old.faults, self.old.last) (self.new.faults, self.new.last) }
        ensures runs { RunsAsTold DiskCall.Create (creating name.now len fill) result self.old self.new }
    {
        match Name::of(self.alloc, name) {
            Ok(Some(name)) => self.run(DiskCall::Create, Asked::Create(name, len, fill)),
            Ok(None) => unreachable!(),
            Err(_) => self.refuse(),
        }
    }

    fn write_at(&mut self, name: &str, place: u64, bytes: &[u8]) -> Result<(), DiskError>
        requires there { IsThere name.now (content_of self.old) }
        requires within { IsWithin name.now (place + length bytes.now) (content_of self.old) }
        ensures note { Notes (writing name.now place bytes.now) result (Some (past_of self.old)) (Some (past_of self.new)) }
        ensures time { self.new.moment ≡ counted self.old.moment }
        ensures cause { HasCause DiskCall.WriteAt result (self.old.faults, self.old.last) (self.new.faults, self.new.last) }
        ensures runs { RunsAsTold DiskCall.WriteAt (writing name.now place bytes.now) result self.old self.new }
    {
        let Ok(name) = String::from_str(self.alloc, name) else {
            return self.refuse();
        };
        let Ok(bytes) = bytes.to_vec(self.alloc) else {
            return self.refuse();
        };
        self.run(DiskCall::WriteAt, Asked::WriteAt(name, place, bytes))
    }

    fn sync(&mut self, name: &str) -> Result<(), DiskError>
        requires { IsThere name.now (content_of self.old) }
        ensures note { Notes (syncing name.now) result (Some (past_of self.old)) (Some (past_of self.new)) }
        ensures time { self.new.moment ≡ counted self.old.moment }
        ensures cause { HasCause DiskCall.Sync result (self.old.faults, self.old.last) (self.new.faults, self.new.last) }
        ensures runs { RunsAsTold DiskCall.Sync (syncing name.now) result self.old self.new }
    {
        match String::from_str(self.alloc, name) {
            Ok(name) => self.run(DiskCall::Sync, Asked::Sync(name)),
            Err(_) => self.refuse(),
        }
    }

    fn rename(&mut self, from: &str, to: &str) -> Result<(), DiskError>
        requires there { IsThere from.now (content_of self.old) }
        requires named { HasNameForm to.now }
        ensures note { Notes (renaming from.now to.now) result (Some (past_of self.old)) (Some (past_of self.new)) }
        ensures time { self.new.moment ≡ counted self.old.moment }
        ensures cause { HasCause DiskCall.Rename result (self.old.faults, self.old.last) (self.new.faults, self.new.last) }
        ensures runs { RunsAsTold DiskCall.Rename (renaming from.now to.now) result self.old self.new }
    {
        let Ok(from) = String::from_str(self.alloc, from) else {
            return self.refuse();
        };
        match Name::of(self.alloc, to) {
            Ok(Some(to)) => self.run(DiskCall::Rename, Asked::Rename(from, to)),
            Ok(None) => unreachable!(),
            Err(_) => self.refuse(),
        }
    }

    fn remove(&mut self, name: &str) -> Result<(), DiskError>
        requires { IsThere name.now (content_of self.old) }
        ensures note { Notes (removing name.now) result (Some (past_of self.old)) (Some (past_of self.new)) }
        ensures time { self.new.moment ≡ counted self.old.moment }
        ensures cause { HasCause DiskCall.Remove result (self.old.faults, self.old.last) (self.new.faults, self.new.last) }
        ensures runs { RunsAsTold DiskCall.Remove (removing name.now) result self.old self.new }
    {
        match String::from_str(self.alloc, name) {
            Ok(name) => self.run(DiskCall::Remove, Asked::Remove(name)),
            Err(_) => self.refuse(),
        }
    }

    fn moment(&self) -> u64 {
        self.moment
    }
}
