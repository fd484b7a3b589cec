//! The entries and deletes that the records of a transaction are.
ghost use Rattle.std.specs.Prelude.{◌≡◌, ◌++◌, map, IfOk, OnOk};
ghost use Rattle.std.specs.List.{filter_map};
ghost use Rattle.std.specs.Option.{option_to_list};
ghost use Rattle.amq_model.specs.Effect.{entry_of, removal_of};

use crate::parts::{entry, removal};
use amq_model::{Entry, NoMemory, Placed, Removal};
use std::alloc::Global;

/// The adds and updates among these records.
pub fn entries_of(alloc: Global, changes: &[&Placed]) -> Result<Vec<Entry>, NoMemory>
    ensures { IfOk result (λ v. v.items ≡ filter_map entry_of (map (λ p. p.now) changes.now)) }
{
    let mut entries = Vec::new(alloc);
    for placed in changes {
        push_entry(placed, &mut entries)?;
    }
    Ok(entries)
}

/// The deletes of transactions among these records.
pub fn removals_of(alloc: Global, changes: &[&Placed]) -> Result<Vec<Removal>, NoMemory>
    ensures { IfOk result (λ v. v.items ≡ filter_map removal_of (map (λ p. p.now) changes.now)) }
{
    let mut removals = Vec::new(alloc);
    for placed in changes {
        push_removal(placed, &mut removals)?;
    }
    Ok(removals)
}

/// Adds the entry that the record is, if it is one.
pub fn push_entry(placed: &Placed, entries: &mut Vec<Entry>) -> Result<(), NoMemory>
    ensures { OnOk result (entries.new.items ≡ entries.old.items ++ option_to_list (entry_of placed.now)) }
{
    if let Some(entry) = entry(placed)?
        && entries.push(entry).is_err()
    {
        return Err(NoMemory);
    }
    Ok(())
}

/// Adds the delete of a transaction that the record is, if it is one.
fn push_removal(placed: &Placed, removals: &mut Vec<Removal>) -> Result<(), NoMemory>
    ensures { OnOk result (removals.new.items ≡ removals.old.items ++ option_to_list (removal_of placed.now)) }
{
    if let Some(removal) = removal(placed)?
        && removals.push(removal).is_err()
    {
        return Err(NoMemory);
    }
    Ok(())
}
