//! The open transactions that touch an id.
ghost use Rattle.std.specs.Prelude.{◌≡◌, ◌++◌, ◌∷◌, [], ◌==◌, nat_eq, true, false, if◌then◌else◌, Some, None, OnOk, OnErr};
ghost use Rattle.std.specs.Map.{lookup};
ghost use Rattle.amq_tx.specs.State.{first_but, without};

use amq_model::{EntryEnd, NoMemory};
use std::alloc::Global;

/// The open transactions that touch an id, ascending by number, each with what the last of its records
/// does to the id. There is one at least.
#[derive(Drop)]
pub struct Touches {
    pub first: (u64, EntryEnd),
    pub others: Vec<(u64, EntryEnd)>,
}

impl Touches {
    ghost use Rattle.amq_tx.specs.Parts.{listed};

    /// One transaction alone. Takes no memory.
    pub fn of(alloc: Global, tx: u64, end: EntryEnd) -> Touches
        ensures { listed (Some result) ≡ (tx, end) ∷ [] }
    {
        Touches {
            first: (tx, end),
            others: Vec::new(alloc),
        }
    }

    /// One transaction more.
    pub fn push(&mut self, tx: u64, end: EntryEnd) -> Result<(), NoMemory>
        ensures ok { OnOk result (listed (Some self.new) ≡ listed (Some self.old) ++ (tx, end) ∷ []) }
        ensures err { OnErr result (listed (Some self.new) ≡ listed (Some self.old)) }
    {
        match self.others.push((tx, end)) {
            Ok(()) => Ok(()),
            Err(_) => Err(NoMemory),
        }
    }

    /// What the transaction does to the id, if it touches it.
    pub fn end_of(&self, tx: u64) -> Option<EntryEnd>
        ensures { result ≡ lookup (nat_eq tx) (listed (Some self.now)) }
    {
        if self.first.0 == tx {
            return Some(self.first.1);
        }
        for (number, end) in &self.others {
            if *number == tx {
                return Some(*end);
            }
        }
        None
    }

    /// The first transaction but this one.
    pub fn first_but(&self, except: Option<u64>) -> Option<u64>
        ensures { result ≡ first_but except (listed (Some self.now)) }
    {
        if except != Some(self.first.0) {
            return Some(self.first.0);
        }
        for (number, _) in &self.others {
            if except != Some(*number) {
                return Some(*number);
            }
        }
        None
    }

    /// Takes the transaction out, but where it is the only one: then nothing changes, and the answer is
    /// `true`.
    pub fn remove(&mut self, tx: u64) -> bool
        ensures { without tx (listed (Some self.old)) ≡ (if result then [] else listed (Some self.new)) }
    {
        keep_others(&mut self.others, tx);
        if self.first.0 != tx {
            return false;
        }
        if self.others.is_empty() {
            return true;
        }
        self.first = self.others.remove(0);
        false
    }
}

/// Takes the transaction out, wherever it stands.
fn keep_others(touches: &mut Vec<(u64, EntryEnd)>, tx: u64)
    ensures { touches.new.items ≡ without tx touches.old.items }
{
    touches.retain(|other| other.0 != tx);
}
