use crate::outcome::{Outcome, Shortest};
use crate::record_file::encode_behind;
use crate::scan_records::{RECORD_LEN, record};
use amq_model::{NoMemory, Record};
use anyhow::Result;
use std::alloc::Global;
use std::rt::Clock;
use std::time::Instant;

/// How many bytes a buffer has, which is emptied where a record no longer fits.
const BUFFER: usize = 1_048_576;

/// How many records are written in turn.
const RECORDS: usize = 1024;

/// Writes `size` bytes of records into a buffer.
pub fn encode<R: AllocGlobal + Clock>(rt: &R, size: usize, repeats: u32) -> Result<Outcome> {
    let records = records(rt.alloc())?;
    let mut buffer = Vec::with_capacity(rt.alloc(), BUFFER)?;
    let mut shortest = Shortest::new();
    let count = size / RECORD_LEN;
    let mut written = 0;
    for _ in 0..repeats {
        let start = Instant::now(rt)?;
        written = write_records(&mut buffer, records.as_slice(), count)?;
        shortest.note_since(rt, start)?;
    }
    Ok(Outcome {
        bytes: written,
        records: count,
        live: None,
        micros: shortest.micros,
    })
}

fn records(alloc: Global) -> Result<Vec<Record>, NoMemory> {
    let mut records = Vec::new(alloc);
    for i in 0..RECORDS {
        if records.push(record(alloc, i as u64)?).is_err() {
            return Err(NoMemory);
        }
    }
    Ok(records)
}

/// Writes so many records, these in turn, and says how many bytes that made.
fn write_records(
    buffer: &mut Vec<u8>,
    records: &[Record],
    count: usize,
) -> Result<usize, NoMemory> {
    let mut written: usize = 0;
    for rec in records.iter().cycle().take(count) {
        if buffer.len() > BUFFER - RECORD_LEN {
            written = written.saturating_add(buffer.len());
            buffer.clear();
        }
        encode_behind(buffer, rec)?;
    }
    written = written.saturating_add(buffer.len());
    buffer.clear();
    Ok(written)
}
