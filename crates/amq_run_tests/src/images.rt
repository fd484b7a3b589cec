//! What a crash leaves, loaded and compared with what may be kept.
ghost use Rattle.std.specs.Prelude.{◌^◌, ◌<◌};

use amq_engine::Kept;
use amq_header::data_name;
use amq_io::MemoryDisk;
use amq_loader::{load, load_state};
use amq_model::{Placed, Record};
use amq_scan::scan;
use amq_state::plain_result;
use std::alloc::Global;
use std::process::Abort;
use std::test::Fail;

/// No data file of these tests has a greater id.
const MOST_FILES: u64 = 12;

/// Appends the records of a file of this id.
fn push_records(alloc: Global, id: u64, bytes: &[u8], records: &mut Vec<Placed>) -> Result<(), Fail>
    requires { id < 2 ^ 31 }
{
    for spot in scan(alloc, bytes, id as u32, 2)?.iter() {
        records.push(Placed {
            file: id,
            place: spot.place,
            compact: spot.compact,
            rec: spot.rec.to_record(alloc)?,
        })?;
    }
    Ok(())
}

/// The records of the data files that are there.
fn scanned(alloc: Global, disk: &MemoryDisk) -> Result<Vec<Placed>, Fail> {
    let mut records = Vec::new(alloc);
    for id in 1..=MOST_FILES {
        let name = data_name(alloc, id)?;
        if let Some(bytes) = disk.look(name.as_str())? {
            push_records(alloc, id, &bytes, &mut records)?;
        }
    }
    Ok(records)
}

/// The records of the data files that are there: a load has the same, and the plain program gives the
/// results of the loads of them.
pub fn records(
    rt: &impl Abort,
    alloc: Global,
    mut disk: MemoryDisk,
    name: &str,
) -> Result<Vec<Placed>, Fail> {
    let records = scanned(alloc, &disk)?;
    let plain = plain_result(alloc, &records)?;
    let loaded = load(alloc, &mut disk, 0)?;
    assert_eq!(rt; loaded.base.as_slice(), records.as_slice(), "{name}");
    assert_eq!(rt; loaded.state, plain, "{name}");
    assert_eq!(rt; load_state(alloc, &mut disk, 0)?, plain, "{name}");
    Ok(records)
}

/// The records of the history, and how many of them the last receipt counts.
pub fn history(alloc: Global, kept: &Kept) -> Result<(Vec<Placed>, usize), Fail> {
    let mut history = Vec::new(alloc);
    for step in kept.steps.as_slice() {
        if let Some(placed) = &step.placed {
            history.push(placed.clone()?)?;
        }
    }
    let durable = kept.receipts.as_slice().last().map_or(0, |r| r.durable);
    Ok((history, durable as usize))
}

/// Whether the list has these records, in order.
fn is_part(records: &[Placed], list: &[Placed]) -> bool {
    let mut rest = records;
    for placed in list {
        if let Some((first, others)) = rest.split_first() {
            if first == placed {
                rest = others;
            }
        }
    }
    rest.is_empty()
}

/// Whether it is an add, update or delete of this transaction.
fn is_entry(placed: &Placed, number: u64) -> bool {
    match placed.rec {
        Record::AddTx { tx, .. } | Record::UpdateTx { tx, .. } | Record::DeleteTx { tx, .. } => {
            tx == number
        }
        _ => false,
    }
}

/// How many adds, updates and deletes of the transaction these have, in this file or in all.
fn entries(records: &[Placed], number: u64, file: Option<u64>) -> usize {
    records
        .iter()
        .filter(|placed| file.is_none_or(|file| placed.file == file) && is_entry(placed, number))
        .count()
}

/// Each end that counts its transaction's records before it in its file has all of those in the history.
fn check_whole(rt: &impl Abort, records: &[Placed], history: &[Placed], name: &str) {
    for (i, placed) in records.iter().enumerate() {
        if let Record::Commit { tx, count } | Record::Prepare { tx, count, .. } = placed.rec {
            let (before, _) = records.split_at(i);
            if entries(before, tx, Some(placed.file)) == count as usize {
                assert_eq!(rt;
                    entries(before, tx, None),
                    entries(history, tx, None),
                    "{name}"
                );
            }
        }
    }
}

/// These records are a kept part of the history: as many of the first as the last receipt counts, and
/// then a part of the later ones, with no transaction in part.
pub fn check(
    rt: &impl Abort,
    alloc: Global,
    records: &[Placed],
    kept: &Kept,
    name: &str,
) -> Result<(), Fail> {
    let (history, durable) = history(alloc, kept)?;
    let history = history.as_slice();
    let (Some(sure), Some(later)) = (history.get(..durable), history.get(durable..)) else {
        panic!(rt; "{name}: more than the history");
    };
    assert_eq!(rt; records.get(..durable), Some(sure), "{name}");
    let rest = records.get(durable..).ok_or("less than durable")?;
    assert!(rt; is_part(rest, later), "{name}");
    check_whole(rt, records, history, name);
    Ok(())
}
