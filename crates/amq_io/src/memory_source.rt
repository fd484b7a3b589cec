ghost use Rattle.std.specs.Prelude.{◌≡◌, ◌≤◌, Some, IfOk, OnOk, OnErr, length, true};
ghost use Rattle.amq_io.specs.Cause.{Rose};
ghost use Rattle.amq_io.specs.Streams.{Gives, EndsOnlyAtTheEnd, ReadsAsTold};

use crate::{Failed, Source};
use std::marker::Model;

/// A source over bytes in memory, for tests.
#[derive(Drop)]
pub struct MemorySource {
    bytes: Vec<u8>,
    place: usize,
    piece: u64,
    fails: Vec<u64>,
    calls: u64,
    faults: u64,
}

impl Model for MemorySource {
    ghost use Rattle.std.specs.Prelude.{◌≤◌, length, drop};
    ghost use Rattle.amq_io.specs.Streams.{Stream};

    ghost Value = { Stream };

    ghost view = { λ s. record { bytes = drop s.place s.bytes.items; piece = s.piece; calls = s.calls; fails = s.fails.items; faults = s.faults } };

    ghost invariant = { λ s. (s.place ≤ length s.bytes.items) × (1 ≤ s.piece) };
}

impl MemorySource {
    /// A source of these bytes, which gives at most `piece` of them a call. The calls with the numbers in
    /// `fails` fail, counted from 1.
    pub fn new(bytes: Vec<u8>, piece: u64, fails: Vec<u64>) -> MemorySource
        requires { 1 ≤ piece }
        ensures bytes { result.bytes ≡ bytes.items }
        ensures piece { result.piece ≡ piece }
        ensures calls { result.calls ≡ 0 }
        ensures fails { result.fails ≡ fails.items }
        ensures faults { result.faults ≡ 0 }
    {
        MemorySource {
            bytes,
            place: 0,
            piece,
            fails,
            calls: 0,
            faults: 0,
        }
    }
}

impl Source for MemorySource {
    ghost left = { λ s. Some s.bytes };

    ghost faults = { λ s. s.faults };

    /// Gives as many bytes as are asked for, as one call gives and as are left. A call that is to fail
    /// reads nothing.
    fn read(&mut self, into: &mut [u8]) -> Result<usize, Failed>
        ensures bound { IfOk result (λ n. n ≤ length into.old) }
        ensures next { IfOk result (λ n. Gives n into.new (Some self.old.bytes) (Some self.new.bytes)) }
        ensures end { IfOk result (λ n. EndsOnlyAtTheEnd n into.old (Some self.old.bytes)) }
        ensures later { self.old.faults ≤ self.new.faults }
        ensures sound { OnOk result (self.new.faults ≡ self.old.faults) }
        ensures failed { OnErr result (Rose self.old.faults self.new.faults) }
        ensures reads { ReadsAsTold (length into.old) result self.old self.new }
    {
        self.calls = self.calls.saturating_add(1);
        if self.fails.contains(&self.calls) {
            self.faults = self.faults.saturating_add(1);
            return Err(Failed);
        }
        let left = self.bytes.len() - self.place;
        let len = into.len().min(self.piece as usize).min(left);
        into[..len].copy_from_slice(&self.bytes[self.place..self.place + len]);
        self.place += len;
        Ok(len)
    }
}
