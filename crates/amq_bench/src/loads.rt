ghost use Rattle.std.specs.Prelude.{◌≡◌, map, IfOk};
ghost use Rattle.amq_model.specs.Effect.{result_of};
ghost use Rattle.amq_state.specs.Fed.{placed_of};

use crate::outcome::{Outcome, Shortest};
use crate::record_file::{FILE_ID, FORMAT_VERSION, RecordFile};
use amq_model::{LoadState, NoMemory};
use amq_record::Spot;
use amq_scan::scan;
use amq_state::Loading;
use anyhow::Result;
use std::alloc::Global;
use std::rt::Clock;
use std::time::Instant;

/// Loads the records of the file again and again. The scan isn't measured.
pub fn load_file<R: AllocGlobal + Clock>(
    rt: &R,
    file: &RecordFile,
    repeats: u32,
) -> Result<Outcome> {
    let spots = scan(rt.alloc(), file.bytes.as_slice(), FILE_ID, FORMAT_VERSION)?;
    let mut shortest = Shortest::new();
    let mut live = 0;
    for _ in 0..repeats {
        let start = Instant::now(rt)?;
        let state = load(rt.alloc(), spots.as_slice())?;
        shortest.note_since(rt, start)?;
        live = state.live.len();
    }
    Ok(Outcome {
        bytes: file.bytes.len(),
        records: spots.len(),
        live: Some(live),
        micros: shortest.micros,
    })
}

/// What these records of one file load to.
fn load(alloc: Global, spots: &[Spot<'_>]) -> Result<LoadState, NoMemory>
    ensures { IfOk result (λ s. s ≡ result_of (map (placed_of 1) spots.now)) }
{
    let mut loading = Loading::new(alloc);
    loading.feed_file(u64::from(FILE_ID), spots)?;
    loading.finish()
}
