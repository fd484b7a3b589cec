ghost use Rattle.std.specs.Prelude.{◌≡◌, ◌↔◌, ◌+◌, ◌^◌, ◌<◌, ◌≤◌, ◌++◌, [], length, None, IsTrue, IfOk};
ghost use Rattle.amq_model.specs.RecordAt.{len_of, spelling};
ghost use Rattle.amq_buffer.specs.Buffered.{begun, is_due};

use amq_model::{NoMemory, Record};
use amq_record::encode_into;
use std::alloc::Global;
use std::marker::Model;

/// The compact count of a record that is written first.
const COMPACT: u8 = 0;

/// Records on their way into a file, as the bytes that they have there.
///
/// Moments and the timeout are in ticks of the caller's clock. No call but `new` takes memory.
#[derive(Debug, Drop)]
pub struct TimedBuffer {
    bytes: Vec<u8>,
    capacity: u64,
    timeout: u64,
    since: Option<u64>,
}

impl Model for TimedBuffer {
    ghost use Rattle.std.specs.Prelude.{◌≡◌, ◌↔◌, ◌≤◌, [], length, vec_capacity, None};
    ghost use Rattle.amq_buffer.specs.Buffered.{Buffered, buffered_code};

    ghost Value = { Buffered };

    ghost coded = { buffered_code };

    ghost view = { λ b. record { bytes = b.bytes.items; capacity = b.capacity; timeout = b.timeout; since = b.since } };

    ghost invariant = { λ b. (length b.bytes.items ≤ b.capacity) × (b.capacity ≤ vec_capacity b.bytes) × ((b.since ≡ None) ↔ (b.bytes.items ≡ [])) };
}

impl TimedBuffer {
    /// An empty buffer of `capacity` bytes, which is due once its first record is `timeout` ticks old.
    pub fn new(alloc: Global, capacity: u64, timeout: u64) -> Result<TimedBuffer, NoMemory>
        ensures { IfOk result (λ b. b ≡ record { bytes = []; capacity = capacity; timeout = timeout; since = None }) }
    {
        match Vec::with_capacity(alloc, capacity as usize) {
            Ok(bytes) => Ok(TimedBuffer {
                bytes,
                capacity,
                timeout,
                since: None,
            }),
            Err(_) => Err(NoMemory),
        }
    }

    /// Whether so many bytes more have room.
    pub fn fits(&self, len: u64) -> bool
        ensures { IsTrue result ↔ (length self.now.bytes + len ≤ self.now.capacity) }
    {
        len <= self.capacity - self.bytes.len() as u64
    }

    /// Puts a record behind the others, as it is written first in the file of this id.
    pub fn put(&mut self, fid: u32, rec: &Record, now: u64)
        requires room { length self.old.bytes + len_of rec.now ≤ self.old.capacity }
        requires short { len_of rec.now < 2 ^ 31 }
        ensures { self.new ≡ record { bytes = self.old.bytes ++ spelling 2 fid 0 rec.now; capacity = self.old.capacity; timeout = self.old.timeout; since = begun now self.old.since } }
    {
        encode_into(&mut self.bytes, fid, COMPACT, rec);
        self.since = self.since.or(Some(now));
    }

    /// Whether it isn't empty and its first record is at least the timeout old.
    pub fn due(&self, now: u64) -> bool
        ensures { result ≡ is_due now self.now.timeout self.now.since }
    {
        match self.since {
            Some(first) => now.saturating_sub(first) >= self.timeout,
            None => false,
        }
    }

    /// The bytes of the records, one behind the other.
    pub fn bytes(&self) -> &[u8]
        ensures { result.now ≡ self.now.bytes }
    {
        self.bytes.as_slice()
    }

    /// Whether no record is in it.
    pub fn is_empty(&self) -> bool
        ensures bytes { IsTrue result ↔ (self.now.bytes ≡ []) }
        ensures since { IsTrue result ↔ (self.now.since ≡ None) }
    {
        self.bytes.is_empty()
    }

    /// Takes all records out.
    pub fn clear(&mut self)
        ensures { self.new ≡ record { bytes = []; capacity = self.old.capacity; timeout = self.old.timeout; since = None } }
    {
        self.bytes.clear();
        self.since = None;
    }
}
