//! The transactions that the labels of a script stand for.
ghost use Rattle.std.specs.Prelude.{◌≡◌, ℕ, List, true, if◌then◌else◌, OnOk};
ghost use Rattle.amq_model.specs.Names.{same};
ghost use Rattle.amq_cli.specs.Labelled.{number_in, is_known};

use amq_model::{Name, NoMemory};
use std::alloc::Global;
use std::collections::BTreeMap;

/// The number of the transaction that each label stands for.
#[derive(Drop)]
pub struct Labels {
    pub numbers: BTreeMap<Name, u64>,
}

impl Labels {
    /// No label stands for a transaction.
    pub fn new(alloc: Global) -> Labels
        ensures { (label : List ℕ) → number_in result label ≡ 0 }
    {
        Labels {
            numbers: BTreeMap::new(alloc),
        }
    }

    /// The number that the label stands for, 0 where it stands for none.
    pub fn number(&self, label: &Name) -> u64
        ensures { result ≡ number_in self.now label.now }
    {
        match self.numbers.get(label) {
            Some(number) => *number,
            None => 0,
        }
    }

    /// Makes room for the number of a label. What each label stands for stays.
    pub fn reserve(&mut self, label: &Name) -> Result<(), NoMemory>
        ensures same { (other : List ℕ) → number_in self.new other ≡ number_in self.old other }
        ensures known { OnOk result (is_known self.new label.now ≡ true) }
    {
        if self.numbers.contains_key(label) {
            return Ok(());
        }
        match self.numbers.insert(label.copy()?, 0) {
            Ok(_) => Ok(()),
            Err(_) => Err(NoMemory),
        }
    }

    /// Lets the label stand for this number. Takes no memory.
    pub fn set(&mut self, label: &Name, number: u64)
        requires { is_known self.old label.now ≡ true }
        ensures { (other : List ℕ) → number_in self.new other ≡
            (if same label.now other then number else number_in self.old other) }
    {
        if let Some(known) = self.numbers.get_mut(label) {
            *known = number;
        }
    }
}
