ghost use Rattle.std.specs.Prelude.{◌≡◌, ◌%◌, replicate, IfOk};
ghost use Rattle.amq_model.specs.RecordAt.{len_of};

use crate::outcome::Outcome;
use crate::record_file::RecordFile;
use crate::scans::scan_file;
use amq_model::{Bytes, NoMemory, Record};
use anyhow::Result;
use std::alloc::Global;
use std::rt::Clock;

/// How long each record is, in bytes.
pub const RECORD_LEN: usize = 125;

/// How long the body of an ADD of that length is.
const BODY_LEN: usize = 102;

/// Scans a file of `size` bytes of records behind its header.
pub fn scan_records<R: AllocGlobal + Clock>(rt: &R, size: usize, repeats: u32) -> Result<Outcome> {
    let mut file = RecordFile::new(rt.alloc())?;
    for i in 0..size / RECORD_LEN {
        file.put(&record(rt.alloc(), i as u64)?)?;
    }
    scan_file(rt, file.bytes.as_slice(), repeats)
}

/// An ADD.
pub fn record(alloc: Global, id: u64) -> Result<Record, NoMemory>
    ensures value { IfOk result (λ r. r ≡ Record.Add id 31 (replicate BODY_LEN (id % 256))) }
    ensures len { IfOk result (λ r. len_of r ≡ RECORD_LEN) }
{
    let fill = (id % 256) as u8;
    match vec![in alloc; fill; BODY_LEN] {
        Ok(body) => Ok(Record::Add {
            id,
            user_type: 31,
            body: Bytes::of(body),
        }),
        Err(_) => Err(NoMemory),
    }
}
