//! Numbers, each once.
ghost use Rattle.std.specs.Prelude.{◌≡◌, map, IfOk};
ghost use Rattle.amq_model.specs.Effect.{ascending};

use amq_model::{Entry, NoMemory};
use std::alloc::Global;
use std::collections::BTreeSet;

/// These numbers, each once, ascending.
pub fn each_once(alloc: Global, numbers: &[u64]) -> Result<Vec<u64>, NoMemory>
    ensures { IfOk result (λ v. v.items ≡ ascending numbers.now) }
{
    let mut seen = BTreeSet::new(alloc);
    for i in (0..numbers.len()).rev() {
        match seen.insert(numbers[i]) {
            Ok(_) => {}
            Err(_) => return Err(NoMemory),
        }
    }
    seen.iter().copied().collect(alloc).map_err(|_| NoMemory)
}

/// The ids of these entries, in their order.
pub fn ids_of(alloc: Global, entries: &[Entry]) -> Result<Vec<u64>, NoMemory>
    ensures { IfOk result (λ v. v.items ≡ map (λ e. e.id) entries.now) }
{
    entries
        .iter()
        .map(|entry| entry.id)
        .collect(alloc)
        .map_err(|_| NoMemory)
}
