//! The pool.
ghost use Rattle.std.specs.Prelude.{◌≡◌, ◌↔◌, ◌+◌, ◌-◌, ◌^◌, ◌<◌, ◌≤◌, ◌∷◌, [], Err, length, All, MatchOption, IfSome, OnOk, OnErr};
ghost use Rattle.amq_model.specs.Configs.{IsConfig};
ghost use Rattle.amq_model.specs.Calls.{counted};
ghost use Rattle.amq_model.specs.Leaves.{Leaves};
ghost use Rattle.amq_pool.specs.Faults.{HasPoolFault, OnPoolMemory};
ghost use Rattle.amq_pool.specs.Pools.{IsPool, with_next, with_first, Making, Made, Unmade};

use crate::faults::PoolFault;
use crate::making::make_file;
use amq_io::Disk;
use amq_model::{Config, Name};
use std::alloc::Global;
use std::collections::VecDeque;
use std::marker::Model;

/// The greatest number that a file is given.
const MOST_NUMBER: u64 = 0x7fff_ffff;

/// A file that is prepared: it is durable under its name, with its header and without a record.
#[derive(Debug, Drop)]
pub struct PoolFile {
    pub name: Name,
    pub id: u64,
}

/// The files that a journal has ready to move to, and the numbers that it gives files.
///
/// One counter gives file ids and the numbers in names. A file's number is one above the greatest so
/// far, at most 2^31 - 1, and is counted once the file is prepared.
#[derive(Debug, Drop)]
pub struct Pool {
    config: Config,
    highest: u64,
    prepared: VecDeque<PoolFile>,
}

impl Model for Pool {
    ghost use Rattle.amq_pool.specs.Pools.{PoolOf, IsPool};

    ghost Value = { PoolOf };

    ghost view = { λ p. record { config = p.config; highest = p.highest; prepared = p.prepared.items } };

    ghost invariant = { λ p. IsPool (record { config = p.config; highest = p.highest; prepared = p.prepared.items }) };
}

impl Pool {
    /// A pool without a file, over a directory whose greatest number is `highest`: of the header ids of
    /// its data files and the numbers in all names.
    pub fn new(alloc: Global, highest: u64, config: &Config) -> Pool
        requires { IsConfig config.now }
        ensures is { IsPool result }
        ensures value { result ≡ record { config = config.now; highest = highest; prepared = [] } }
    {
        Pool {
            config: *config,
            highest,
            prepared: VecDeque::new(alloc),
        }
    }

    /// Prepares one file in four disk calls: create under the temporary name, header, sync, rename.
    ///
    /// After an `Err` the pool is as it was, and the next call takes the same number. After `Disk` the
    /// file may already have its name, if it was the rename that failed; after `NoMemory` it hasn't.
    pub fn prepare_step<D: Disk>(&mut self, disk: &mut D) -> Result<(), PoolFault>
        ensures is { IsPool self.new }
        ensures prepared { OnOk result (self.new ≡ with_next self.old) }
        ensures unchanged { OnErr result (self.new ≡ self.old) }
        ensures spent { 2 ^ 31 - 1 ≤ self.old.highest → result ≡ Err (PoolFault.FileIdsSpent self.old.highest) }
        ensures no_call { 2 ^ 31 - 1 ≤ self.old.highest → disk.new ≡ disk.old }
        ensures crash { Leaves (Making self.old.config (self.old.highest + 1)) (Making self.old.config (self.old.highest + 1)) (D.past disk.old) (D.past disk.new) }
        ensures ok { OnOk result (Leaves (Making self.old.config (self.old.highest + 1)) (Made self.old.config (self.old.highest + 1)) (D.past disk.old) (D.past disk.new)) }
        ensures memory { OnPoolMemory result (Leaves (Making self.old.config (self.old.highest + 1)) (Unmade (self.old.highest + 1)) (D.past disk.old) (D.past disk.new)) }
        ensures cause { HasPoolFault self.old.highest result (D.faults disk.old) (D.faults disk.new) }
        ensures four { OnOk result (D.moment disk.new ≡ counted (counted (counted (counted (D.moment disk.old))))) }
        ensures later { D.moment disk.old ≤ D.moment disk.new }
        ensures calls { D.moment disk.new ≤ D.moment disk.old + 4 }
    {
        if self.highest >= MOST_NUMBER {
            return Err(PoolFault::FileIdsSpent {
                highest: self.highest,
            });
        }
        if self.prepared.try_reserve(1).is_err() {
            return Err(PoolFault::NoMemory);
        }
        let id = self.highest + 1;
        let name = make_file(*self.prepared.allocator(), disk, &self.config, id)?;
        self.prepared.push_back_reserved(PoolFile { name, id });
        self.highest = id;
        Ok(())
    }

    /// The prepared file with the least id; `None` where there is none.
    pub fn take(&mut self) -> Option<PoolFile>
        ensures is { IsPool self.new }
        ensures file { MatchOption result ((self.old.prepared ≡ []) × (self.new ≡ self.old)) (λ file. self.old ≡ with_first file self.new) }
        ensures least { IfSome result (λ file. All (λ other. file.id < other.id) self.new.prepared) }
    {
        self.prepared.pop_front()
    }

    /// The greatest number so far.
    pub fn highest(&self) -> u64
        ensures is { IsPool self.now }
        ensures value { result ≡ self.now.highest }
    {
        self.highest
    }

    /// How many files are prepared.
    pub fn free_count(&self) -> u32
        ensures is { IsPool self.now }
        ensures value { result ≡ length self.now.prepared }
    {
        self.prepared.len() as u32
    }
}
