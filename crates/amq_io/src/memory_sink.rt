ghost use Rattle.std.specs.Prelude.{◌≡◌, ◌<◌, ◌≤◌, [], Some, Err, IfOk, OnOk, OnErr, length};
ghost use Rattle.amq_io.specs.Cause.{Rose};
ghost use Rattle.amq_io.specs.Streams.{Takes, WritesAsTold};

use crate::{Sink, SinkError};
use std::alloc::Global;
use std::marker::Model;

/// A sink in memory, for tests.
#[derive(Drop)]
pub struct MemorySink {
    bytes: Vec<u8>,
    piece: u64,
    fails: Vec<u64>,
    calls: u64,
    faults: u64,
}

impl Model for MemorySink {
    ghost use Rattle.std.specs.Prelude.{◌≤◌};
    ghost use Rattle.amq_io.specs.Streams.{Stream};

    ghost Value = { Stream };

    ghost view = { λ s. record { bytes = s.bytes.items; piece = s.piece; calls = s.calls; fails = s.fails.items; faults = s.faults } };

    ghost invariant = { λ s. 1 ≤ s.piece };
}

impl MemorySink {
    /// A sink that has taken nothing, and takes at most `piece` bytes a call. The calls with the numbers
    /// in `fails` fail, counted from 1.
    pub fn new(alloc: Global, piece: u64, fails: Vec<u64>) -> MemorySink
        requires { 1 ≤ piece }
        ensures bytes { result.bytes ≡ [] }
        ensures piece { result.piece ≡ piece }
        ensures calls { result.calls ≡ 0 }
        ensures fails { result.fails ≡ fails.items }
        ensures faults { result.faults ≡ 0 }
    {
        MemorySink {
            bytes: Vec::new(alloc),
            piece,
            fails,
            calls: 0,
            faults: 0,
        }
    }

    /// What was taken.
    pub fn bytes(&self) -> &[u8]
        ensures { result.now ≡ self.now.bytes }
    {
        self.bytes.as_slice()
    }
}

impl Sink for MemorySink {
    ghost taken = { λ s. Some s.bytes };

    ghost faults = { λ s. s.faults };

    /// Takes as many bytes as there are and as one call takes. A call that is to fail takes nothing.
    fn write(&mut self, bytes: &[u8]) -> Result<usize, SinkError>
        ensures bound { IfOk result (λ n. n ≤ length bytes.now) }
        ensures some { IfOk result (λ n. 0 < length bytes.now → 1 ≤ n) }
        ensures next { IfOk result (λ n. Takes n bytes.now (Some self.old.bytes) (Some self.new.bytes)) }
        ensures nothing { OnErr result (self.new.bytes ≡ self.old.bytes) }
        ensures later { self.old.faults ≤ self.new.faults }
        ensures sound { OnOk result (self.new.faults ≡ self.old.faults) }
        ensures memory { result ≡ Err SinkError.NoMemory → self.new.faults ≡ self.old.faults }
        ensures failed { result ≡ Err SinkError.Failed → Rose self.old.faults self.new.faults }
        ensures writes { WritesAsTold bytes.now result self.old self.new }
    {
        self.calls = self.calls.saturating_add(1);
        if self.fails.contains(&self.calls) {
            self.faults = self.faults.saturating_add(1);
            return Err(SinkError::Failed);
        }
        let len = bytes.len().min(self.piece as usize);
        if self.bytes.extend_from_slice(&bytes[..len]).is_err() {
            return Err(SinkError::NoMemory);
        }
        Ok(len)
    }
}
