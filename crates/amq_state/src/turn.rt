//! The records of one transaction that have no end behind them.
ghost use Rattle.std.specs.Prelude.{◌≡◌, ◌==◌, ℕ, count_by, unwrap_or, Some, IfOk};
ghost use Rattle.std.specs.Ordering.{nat_cmp};
ghost use Rattle.std.specs.BTreeMap.{get};
ghost use Rattle.std.specs.Cow.{cow_value};
ghost use Rattle.amq_state.specs.Held.{held};

use amq_model::{NoMemory, Placed};
use std::alloc::Global;
use std::borrow::Cow;
use std::collections::BTreeMap;

/// The adds, updates and deletes of a transaction since its last end, how many stand in each file, and
/// its last sound PREPARE.
#[derive(Drop)]
pub struct Turn<'a> {
    pub changes: Vec<Cow<'a, Placed>>,
    pub counts: BTreeMap<u64, usize>,
    pub prepare: Option<Cow<'a, Placed>>,
    ghost counted: { (file : ℕ) → unwrap_or (get nat_cmp counts file) 0 ≡ count_by (λ p. p.file == file) (held changes.items) },
}

impl<'a> Turn<'a> {
    ghost use Rattle.amq_state.specs.Turns.{told, begun, none_open, with_change, with_prepare, count_in};

    /// A transaction that has no record yet.
    pub fn new(alloc: Global) -> Turn<'a>
        ensures { told (Some result) ≡ begun none_open }
    {
        Turn {
            changes: Vec::new(alloc),
            counts: BTreeMap::new(alloc),
            prepare: None,
        }
    }

    /// How many of its adds, updates and deletes stand in the file.
    pub fn count_in(&self, file: u64) -> usize
        ensures { result ≡ count_in file (told (Some self.now)).changes }
    {
        self.counts.get(&file).copied().unwrap_or(0)
    }

    /// The transaction with this add, update or delete more.
    pub fn with_change(self, placed: Cow<'a, Placed>) -> Result<Turn<'a>, NoMemory>
        ensures { IfOk result (λ t. told (Some t) ≡ with_change (cow_value placed.entry) (told (Some self.entry))) }
    {
        let Turn {
            mut changes,
            mut counts,
            prepare,
        } = self;
        let file = placed.file;
        if changes.push(placed).is_err() {
            return Err(NoMemory);
        }
        let count = counts.get(&file).copied().unwrap_or(0) + 1;
        match counts.insert(file, count) {
            Ok(_) => Ok(Turn {
                changes,
                counts,
                prepare,
            }),
            Err(_) => Err(NoMemory),
        }
    }

    /// The transaction with this PREPARE, of `count` records, if it is sound.
    pub fn with_prepare(self, count: u32, placed: Cow<'a, Placed>) -> Turn<'a>
        ensures { told (Some result) ≡ with_prepare (cow_value placed.entry) count (told (Some self.entry)) }
    {
        let is_sound = count as usize == self.count_in(placed.file);
        let Turn {
            changes,
            counts,
            prepare,
        } = self;
        Turn {
            changes,
            counts,
            prepare: if is_sound { Some(placed) } else { prepare },
        }
    }

    /// Its adds, updates and deletes, in order.
    pub fn into_changes(self) -> Vec<Cow<'a, Placed>>
        ensures { result.items ≡ self.entry.changes.items }
    {
        let Turn { changes, .. } = self;
        changes
    }
}
