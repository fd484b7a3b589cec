ghost use Rattle.std.specs.Prelude.{◌≡◌, ◌%◌, length, replicate, IfOk};

use crate::outcome::{Outcome, Shortest};
use amq_model::{Bytes, Entry, EntryKind, Items, LoadState, NoMemory};
use amq_print::report;
use anyhow::Result;
use std::alloc::Global;
use std::rt::Clock;
use std::time::Instant;

/// How long each body is, in bytes.
const BODY_LEN: usize = 100;

/// Writes the report of `size` live records.
pub fn print_report<R: AllocGlobal + Clock>(rt: &R, size: usize, repeats: u32) -> Result<Outcome> {
    let state = state(rt.alloc(), size)?;
    let mut shortest = Shortest::new();
    let mut bytes = 0;
    for _ in 0..repeats {
        let start = Instant::now(rt)?;
        let text = report(rt.alloc(), &state)?;
        shortest.note_since(rt, start)?;
        bytes = text.len();
    }
    Ok(Outcome {
        bytes,
        records: state.live.len(),
        live: None,
        micros: shortest.micros,
    })
}

/// So many live records.
fn state(alloc: Global, count: usize) -> Result<LoadState, NoMemory>
    ensures { IfOk result (λ s. length s.live ≡ count) }
{
    let mut live = Vec::new(alloc);
    for i in 0..count {
        if live.push(entry(alloc, i as u64)?).is_err() {
            return Err(NoMemory);
        }
    }
    Ok(LoadState {
        live: Items::of(live),
        in_doubt: Items::of(Vec::new(alloc)),
    })
}

fn entry(alloc: Global, id: u64) -> Result<Entry, NoMemory>
    ensures { IfOk result (λ e. e ≡ record { kind = EntryKind.Add; id = id; user_type = 31; body = replicate BODY_LEN (id % 256) }) }
{
    let fill = (id % 256) as u8;
    match vec![in alloc; fill; BODY_LEN] {
        Ok(body) => Ok(Entry {
            kind: EntryKind::Add,
            id,
            user_type: 31,
            body: Bytes::of(body),
        }),
        Err(_) => Err(NoMemory),
    }
}
