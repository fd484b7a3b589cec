//! One open transaction.
ghost use Rattle.std.specs.Prelude.{◌≡◌, ◌<◌, ◌+◌, ◌-◌, ◌^◌, ◌++◌, ◌∷◌, [], Some, OnOk, vec_len, vec_capacity};
ghost use Rattle.amq_tx.specs.State.{TurnState};
ghost use Rattle.amq_tx.specs.Applying.{begun, one_more, prepared_now};

use amq_model::NoMemory;
use std::alloc::Global;
use std::collections::HashMap;

/// An open transaction: whether it is prepared, the ids that its records touch, and how many of them
/// stand in each file.
#[derive(Drop)]
pub struct Turn {
    pub prepared: bool,
    pub ids: Vec<u64>,
    pub counts: HashMap<u64, u32>,
}

impl Turn {
    ghost use Rattle.amq_tx.specs.Parts.{turn_of, TurnHasRoom};

    /// A transaction with no record in any file, which touches these ids. Takes no memory.
    pub fn new(alloc: Global, prepared: bool, ids: Vec<u64>) -> Turn
        ensures state { turn_of result ≡ record { is_prepared = prepared; counts = λ file. 0 } }
        ensures ids { result.ids.items ≡ ids.items }
    {
        Turn {
            prepared,
            ids,
            counts: HashMap::new(alloc),
        }
    }

    /// How many of its adds, updates and deletes stand in the file.
    pub fn count_in(&self, file: u64) -> u32
        ensures { result ≡ (turn_of self.now).counts file }
    {
        self.counts.get(&file).copied().unwrap_or(0)
    }

    /// Makes room for one record more.
    pub fn reserve(&mut self) -> Result<(), NoMemory>
        ensures state { turn_of self.new ≡ turn_of self.old }
        ensures ids { self.new.ids.items ≡ self.old.ids.items }
        ensures room { OnOk result (TurnHasRoom (Some self.new)) }
    {
        if self.ids.reserve(1).is_err() || self.counts.reserve(1).is_err() {
            return Err(NoMemory);
        }
        Ok(())
    }

    /// Counts a record more in the file.
    pub fn count(&mut self, file: u64)
        requires room { TurnHasRoom (Some self.old) }
        requires fits { (turn_of self.old).counts file < 2 ^ 32 - 1 }
        ensures state { turn_of self.new ≡ one_more file (turn_of self.old) }
        ensures ids { self.new.ids ≡ self.old.ids }
    {
        let count = self.count_in(file) + 1;
        let _ = self.counts.insert(file, count);
    }

    /// Notes an id that it touches.
    pub fn add_id(&mut self, id: u64)
        requires { vec_len self.old.ids < vec_capacity self.old.ids }
        ensures state { turn_of self.new ≡ turn_of self.old }
        ensures ids { self.new.ids.items ≡ self.old.ids.items ++ id ∷ [] }
    {
        let _ = self.ids.push(id);
    }
}
