//! The chronicle of an opening: what was there, what was done, and what was durable when.
ghost use Rattle.std.specs.Prelude.{◌≡◌, ℕ, ◌≤◌, ◌+◌, [], Option, None, Some, option_map, OnOk, OnErr};

use crate::log::Log;
use amq_model::{Items, NoMemory, Placed, Step};
use std::alloc::Global;

/// So many appends were durable when the disk had ended this many calls. The chronicle had so many
/// steps when that was noted.
#[derive(Clone, Copy, Debug, PartialEq, Eq)]
pub struct Receipted {
    pub durable: u64,
    pub moment: u64,
    pub steps: u64,
}

/// Through which an engine tells what it did.
///
/// Room is made ahead, so that a step or a receipt is noted without memory, behind the disk call that
/// it is about.
pub trait Chronicle {
    ghost use Rattle.amq_engine.specs.Lists.{Lists, with_base, with_step, with_receipt};

    /// The lists so far, of a chronicle that tells them.
    ghost lists: { Self → Option Lists };

    /// For how many more steps there is room.
    ghost step_room: { Self → ℕ };

    /// For how many more receipts there is room.
    ghost receipt_room: { Self → ℕ };

    /// Notes the list that the opening's load read.
    fn base(&mut self, base: Items<Placed>) -> Result<(), NoMemory>
        ensures ok { OnOk result (lists self.new ≡ option_map (with_base base) (lists self.old)) }
        ensures err { OnErr result (lists self.new ≡ lists self.old) }
        ensures steps { step_room self.new ≡ step_room self.old }
        ensures receipts { receipt_room self.new ≡ receipt_room self.old };

    /// Makes room for one step and two receipts.
    fn room(&mut self) -> Result<(), NoMemory>
        ensures same { lists self.new ≡ lists self.old }
        ensures steps { step_room self.old ≤ step_room self.new }
        ensures receipts { receipt_room self.old ≤ receipt_room self.new }
        ensures step { OnOk result (1 ≤ step_room self.new) }
        ensures receipt { OnOk result (2 ≤ receipt_room self.new) };

    /// Notes a step behind the others. Takes no memory.
    fn step(&mut self, step: Step)
        requires { 1 ≤ step_room self.old }
        ensures noted { lists self.new ≡ option_map (with_step step) (lists self.old) }
        ensures steps { step_room self.old ≤ step_room self.new + 1 }
        ensures receipts { receipt_room self.new ≡ receipt_room self.old };

    /// Notes a receipt behind the others, with the number of steps so far. Takes no memory.
    fn receipt(&mut self, durable: u64, moment: u64)
        requires { 1 ≤ receipt_room self.old }
        ensures noted { lists self.new ≡ option_map (with_receipt durable moment) (lists self.old) }
        ensures receipts { receipt_room self.old ≤ receipt_room self.new + 1 }
        ensures steps { step_room self.new ≡ step_room self.old };
}

/// A chronicle that keeps all.
#[derive(Debug, Drop)]
pub struct Kept {
    pub base: Items<Placed>,
    pub steps: Log<Step>,
    pub receipts: Log<Receipted>,
}

impl Kept {
    /// A chronicle of nothing.
    pub fn new(alloc: Global) -> Kept
        ensures base { result.base ≡ [] }
        ensures steps { result.steps.items ≡ [] }
        ensures receipts { result.receipts.items ≡ [] }
    {
        Kept {
            base: Items::of(Vec::new(alloc)),
            steps: Log::new(alloc),
            receipts: Log::new(alloc),
        }
    }
}

impl Chronicle for Kept {
    ghost lists = { λ k.
        Some (record { base = k.base; steps = k.steps.items; receipts = k.receipts.items }) };

    ghost step_room = { λ k. k.steps.room };

    ghost receipt_room = { λ k. k.receipts.room };

    fn base(&mut self, base: Items<Placed>) -> Result<(), NoMemory> {
        self.base = base;
        Ok(())
    }

    fn room(&mut self) -> Result<(), NoMemory> {
        self.steps.reserve(1)?;
        self.receipts.reserve(2)
    }

    fn step(&mut self, step: Step) {
        self.steps.push(step);
    }

    fn receipt(&mut self, durable: u64, moment: u64) {
        self.receipts.push(Receipted {
            durable,
            moment,
            steps: self.steps.as_slice().len() as u64,
        });
    }
}

/// A chronicle that keeps nothing and tells nothing.
#[derive(Clone, Copy, Debug, PartialEq, Eq)]
pub struct Unkept;

impl Chronicle for Unkept {
    ghost lists = { λ k. None };

    ghost step_room = { λ k. 1 };

    ghost receipt_room = { λ k. 2 };

    fn base(&mut self, _base: Items<Placed>) -> Result<(), NoMemory> {
        Ok(())
    }

    fn room(&mut self) -> Result<(), NoMemory> {
        Ok(())
    }

    fn step(&mut self, _step: Step) {}

    fn receipt(&mut self, _durable: u64, _moment: u64) {}
}
