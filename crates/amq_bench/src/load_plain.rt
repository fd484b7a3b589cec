ghost use Rattle.std.specs.Prelude.{◌≡◌, replicate, IfOk, if◌then◌else◌};

use crate::loads::load_file;
use crate::numbers::Numbers;
use crate::outcome::Outcome;
use crate::record_file::RecordFile;
use amq_model::{Bytes, NoMemory, Record};
use anyhow::Result;
use std::alloc::Global;
use std::rt::Clock;

/// An odd number: its multiples by numbers in a row are ids far apart.
const ID_STEP: u64 = 0x9e37_79b9_7f4a_7c15;

/// How long each body is, in bytes.
const BODY_LEN: usize = 32;

/// Loads `size` records: an id drawn of half as many is added where it isn't live, and else deleted.
pub fn load_plain<R: AllocGlobal + Clock>(rt: &R, size: usize, repeats: u32) -> Result<Outcome> {
    let file = plain_file(rt.alloc(), size)?;
    load_file(rt, &file, repeats)
}

fn plain_file(alloc: Global, records: usize) -> Result<RecordFile, NoMemory> {
    let ids = (records / 2).max(1);
    let mut file = RecordFile::new(alloc)?;
    let mut numbers = Numbers::from_seed(records as u64);
    let mut live = match vec![in alloc; false; ids] {
        Ok(live) => live,
        Err(_) => return Err(NoMemory),
    };
    for _ in 0..records {
        let number = numbers.draw() % ids;
        let id = (number as u64).wrapping_mul(ID_STEP);
        file.put(&changed(alloc, id, live[number])?)?;
        live[number] = !live[number];
    }
    Ok(file)
}

/// The record that adds the id, or deletes it where it is live.
fn changed(alloc: Global, id: u64, live: bool) -> Result<Record, NoMemory>
    ensures { IfOk result (λ r. r ≡ (if live then Record.Delete id else Record.Add id 31 (replicate BODY_LEN 7))) }
{
    if live {
        return Ok(Record::Delete { id });
    }
    match vec![in alloc; 7; BODY_LEN] {
        Ok(body) => Ok(Record::Add {
            id,
            user_type: 31,
            body: Bytes::of(body),
        }),
        Err(_) => Err(NoMemory),
    }
}
