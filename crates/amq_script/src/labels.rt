ghost use Rattle.std.specs.Prelude.{◌≡◌, ℕ, List, ◌||◌, [], OnOk, option_copied};
ghost use Rattle.std.specs.List.{list_any, cons_option};
ghost use Rattle.amq_model.specs.Names.{same};
ghost use Rattle.amq_model.specs.Script.{label_named};

use amq_model::{Command, Line, Name, NoMemory};
use std::alloc::Global;
use std::collections::BTreeSet;
use std::marker::Model;

/// The labels that the lines of a section named.
#[derive(Drop)]
pub struct Labels {
    names: BTreeSet<Name>,
}

impl Model for Labels {
    ghost use Rattle.std.specs.Prelude.{List, ℕ};

    ghost Value = { List (List ℕ) };

    ghost view = { λ a. a.names.keys };
}

impl Labels {
    /// No label.
    pub fn new(alloc: Global) -> Labels
        ensures { result ≡ [] }
    {
        Labels {
            names: BTreeSet::new(alloc),
        }
    }

    /// Whether the label was named.
    pub fn has(&self, label: &Name) -> bool
        ensures { result ≡ list_any (same label.now) self.now }
    {
        self.names.contains(label)
    }

    /// Notes the label that a line names, if it names one.
    pub fn note(&mut self, line: &Line) -> Result<(), NoMemory>
        ensures { OnOk result ((x : List ℕ)
            → list_any (same x) self.new ≡ list_any (same x) (cons_option (label_named line.now) self.old)) }
    {
        match label_named(line) {
            Some(label) => self.add(label),
            None => Ok(()),
        }
    }

    /// Notes that the label was named.
    fn add(&mut self, label: &Name) -> Result<(), NoMemory>
        ensures { OnOk result ((x : List ℕ) → list_any (same x) self.new ≡ (same x label.now || list_any (same x) self.old)) }
    {
        let label = label.copy()?;
        match self.names.insert(label) {
            Ok(_) => Ok(()),
            Err(_) => Err(NoMemory),
        }
    }
}

/// The label that the line names.
fn label_named(line: &Line) -> Option<&Name>
    ensures { option_copied result ≡ label_named line.now }
{
    match line {
        Line::Labelled {
            label,
            command: Command::Begin,
        } => Some(label),
        Line::Bind { label, .. } => Some(label),
        _ => None,
    }
}
