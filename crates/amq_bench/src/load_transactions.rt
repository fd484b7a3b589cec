use crate::loads::load_file;
use crate::outcome::Outcome;
use crate::transactions::Transactions;
use anyhow::Result;
use std::rt::Clock;

/// How many adds are live at once.
const LIVE: u64 = 16;

/// Loads a quarter of `size` adds, each deleted once 16 more were added.
pub fn load_transactions<R: AllocGlobal + Clock>(
    rt: &R,
    size: usize,
    repeats: u32,
) -> Result<Outcome> {
    let adds = size as u64 / 4;
    let mut transactions = Transactions::new(rt.alloc(), adds)?;
    for i in 0..adds {
        transactions.add(i + 1)?;
        if i >= LIVE {
            transactions.delete(i + 1 - LIVE)?;
        }
    }
    load_file(rt, &transactions.into_file(), repeats)
}
