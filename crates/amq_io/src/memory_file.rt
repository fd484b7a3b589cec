//! A file of a disk in memory: its bytes, and what its pending ranges held before.
ghost use Rattle.std.specs.Prelude.{◌≡◌, ℕ, ◌+◌, ◌<◌, ◌≤◌, [], ◌∷◌, length, replicate, reverse, slice_index, OnOk, OnErr, IfOk};
ghost use Rattle.amq_model.specs.Files.{overlaid};
ghost use Rattle.amq_io.specs.MemoryFile.{AreInside, picked, all_picked};
ghost use Rattle.amq_io.specs.Torn.{IsTornBy};

use crate::Pick;
use std::alloc::{AllocError, Global};
use std::marker::Model;

/// A pending range: its place, and the bytes that it held before.
#[derive(Drop)]
struct Pending {
    place: u64,
    before: Vec<u8>,
}

/// A file as it reads and as it was last synced: what its pending ranges held before is kept, the newest
/// range last, so that it can be put back.
#[derive(Drop)]
pub struct MemoryFile {
    bytes: Vec<u8>,
    pending: Vec<Pending>,
}

impl Model for MemoryFile {
    ghost use Rattle.std.specs.Prelude.{map, reverse, length};
    ghost use Rattle.amq_io.specs.Versions.{Versions};

    ghost Value = { Versions };

    ghost use Rattle.amq_io.specs.MemoryFile.{range_of, AreInside, all_picked};
    ghost use Rattle.amq_io.specs.declared.pick.Pick.TheVariants.{Revert};

    ghost view = { λ f. record { read = record { bytes = f.bytes.items; pending = map range_of (reverse f.pending.items) }; synced = all_picked Revert f.bytes.items (reverse f.pending.items) } };

    ghost invariant = { λ f. AreInside (length f.bytes.items) f.pending.items };
}

fn overlay(bytes: &mut [u8], place: usize, with: &[u8])
    requires { place + length with.now ≤ length bytes.old }
    ensures { bytes.new ≡ overlaid bytes.old place with.now }
{
    bytes[place..place + with.len()].copy_from_slice(with);
}

fn pick_range(bytes: &mut [u8], range: &Pending, pick: Pick)
    requires { range.now.place + length range.now.before.items ≤ length bytes.old }
    ensures { bytes.new ≡ picked pick bytes.old range.now }
{
    let place = range.place as usize;
    match pick {
        Pick::Keep => {}
        Pick::Revert => overlay(bytes, place, &range.before),
        Pick::Fill(fill) => bytes[place..place + range.before.len()].fill(fill),
    }
}

fn pick_ranges(bytes: &mut [u8], pending: &[Pending], pick: Pick)
    requires { AreInside (length bytes.old) pending.now }
    ensures { bytes.new ≡ all_picked pick bytes.old (reverse pending.now) }
{
    for i in (0..pending.len()).rev() {
        pick_range(bytes, &pending[i], pick);
    }
}

// A byte is below 256.
fn are_bytes(bytes: &[u8])
    ensures { (i : ℕ) → slice_index bytes.now i < 256 }
{}

impl MemoryFile {
    /// A file of these bytes, nothing of which is pending.
    pub fn durable(alloc: Global, bytes: Vec<u8>) -> MemoryFile
        ensures { result ≡ record { read = record { bytes = bytes.items; pending = [] }; synced = bytes.items } }
    {
        MemoryFile {
            bytes,
            pending: Vec::new(alloc),
        }
    }

    /// A new file, all of it pending.
    pub fn fresh(alloc: Global, len: u64, fill: u8) -> Result<MemoryFile, AllocError>
        ensures { IfOk result (λ f. f ≡ record { read = record { bytes = replicate len fill; pending = (0, len) ∷ [] }; synced = replicate len 0 }) }
    {
        let before = Vec::from_elem(alloc, 0, len as usize)?;
        let mut pending = Vec::new(alloc);
        pending.push(Pending { place: 0, before })?;
        Ok(MemoryFile {
            bytes: Vec::from_elem(alloc, fill, len as usize)?,
            pending,
        })
    }

    /// The bytes, as they read.
    pub fn bytes(&self) -> &[u8]
        ensures { result.now ≡ self.now.read.bytes }
    {
        self.bytes.as_slice()
    }

    /// The range is pending, and nothing is written.
    pub fn pend(&mut self, alloc: Global, place: u64, len: usize) -> Result<(), AllocError>
        requires { place + len ≤ length self.old.read.bytes }
        ensures ok { OnOk result (self.new ≡ record { read = record { bytes = self.old.read.bytes; pending = (place, len) ∷ self.old.read.pending }; synced = self.old.synced }) }
        ensures err { OnErr result (self.new ≡ self.old) }
    {
        let start = place as usize;
        let before = self.bytes[start..start + len].to_vec(alloc)?;
        self.pending.push(Pending { place, before })?;
        Ok(())
    }

    /// Other bytes at a place, which are pending.
    pub fn write(&mut self, alloc: Global, place: u64, bytes: &[u8]) -> Result<(), AllocError>
        requires { place + length bytes.now ≤ length self.old.read.bytes }
        ensures ok { OnOk result (self.new ≡ record { read = record { bytes = overlaid self.old.read.bytes place bytes.now; pending = (place, length bytes.now) ∷ self.old.read.pending }; synced = self.old.synced }) }
        ensures err { OnErr result (self.new ≡ self.old) }
    {
        let start = place as usize;
        let before = self.bytes[start..start + bytes.len()].to_vec(alloc)?;
        self.pending.push(Pending { place, before })?;
        overlay(&mut self.bytes, start, bytes);
        Ok(())
    }

    /// Nothing is pending.
    pub fn sync(&mut self)
        ensures { self.new ≡ record { read = record { bytes = self.old.read.bytes; pending = [] }; synced = self.old.read.bytes } }
    {
        self.pending.clear();
    }

    /// The bytes that a crash leaves.
    pub fn left(&self, alloc: Global, pick: Pick) -> Result<Vec<u8>, AllocError>
        ensures { IfOk result (λ v. IsTornBy pick self.now.read self.now.synced v.items) }
    {
        let mut left = self.bytes.to_vec(alloc)?;
        pick_ranges(&mut left, &self.pending, pick);
        are_bytes(&left);
        Ok(left)
    }
}
