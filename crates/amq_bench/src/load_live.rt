use crate::loads::load_file;
use crate::outcome::Outcome;
use crate::transactions::Transactions;
use anyhow::Result;
use std::rt::Clock;

/// Loads half of `size` adds, none of which is deleted.
pub fn load_live<R: AllocGlobal + Clock>(rt: &R, size: usize, repeats: u32) -> Result<Outcome> {
    let adds = size as u64 / 2;
    let mut transactions = Transactions::new(rt.alloc(), adds)?;
    for i in 0..adds {
        transactions.add(i + 1)?;
    }
    load_file(rt, &transactions.into_file(), repeats)
}
