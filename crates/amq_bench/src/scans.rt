ghost use Rattle.std.specs.Prelude.{◌≡◌, length, IfOk};

use crate::outcome::{Outcome, Shortest};
use crate::record_file::{FILE_ID, FORMAT_VERSION};
use amq_scan::scan;
use anyhow::Result;
use std::rt::Clock;
use std::time::Instant;

/// Scans the file again and again.
pub fn scan_file<R: AllocGlobal + Clock>(rt: &R, bytes: &[u8], repeats: u32) -> Result<Outcome>
    ensures { IfOk result (λ outcome. outcome.bytes ≡ length bytes.now) }
{
    let mut shortest = Shortest::new();
    let mut records = 0;
    for _ in 0..repeats {
        let start = Instant::now(rt)?;
        let spots = scan(rt.alloc(), bytes, FILE_ID, FORMAT_VERSION)?;
        shortest.note_since(rt, start)?;
        records = spots.len();
    }
    Ok(Outcome {
        bytes: bytes.len(),
        records,
        live: None,
        micros: shortest.micros,
    })
}
