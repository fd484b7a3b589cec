//! Plays what an engine is asked, on a disk in memory.
ghost use Rattle.std.specs.Prelude.{◌<◌, ◌^◌, IfSome};
ghost use Rattle.amq_model.specs.Configs.{IsConfig};
ghost use Rattle.amq_engine.specs.Engine.{IsBlank};

use crate::engines::{Ask, ROWS, Row, Stand, Told, Wanted};
use crate::files::put;
use amq_engine::{Chronicle, Engine, Kept, OpenFailed, Unkept};
use amq_io::{Disk, MemoryDisk, Pick};
use amq_model::{Brief, Bytes, Command, Config, Refusal, Reply};
use amq_samples::joined;
use amq_scan::scan;
use std::alloc::{AllocError, Global};
use std::process::Abort;
use std::test::Fail;

fn bytes(alloc: Global, bytes: &[u8]) -> Result<Bytes, AllocError> {
    Ok(Bytes::of(Vec::from_slice(alloc, bytes)?))
}

/// The command that is asked, if it is one.
fn command_of(alloc: Global, ask: Ask) -> Result<Option<Command>, AllocError> {
    let command = match ask {
        Ask::Add(id, body) => Command::Add {
            id,
            user_type: 7,
            body: bytes(alloc, body)?,
        },
        Ask::Update(id, body) => Command::Update {
            id,
            user_type: 8,
            body: bytes(alloc, body)?,
        },
        Ask::Delete(id) => Command::Delete { id },
        Ask::Begin => Command::Begin,
        Ask::AddTx(tx, id, body) => Command::AddTx {
            tx,
            id,
            user_type: 7,
            body: bytes(alloc, body)?,
        },
        Ask::Commit(tx) => Command::Commit { tx },
        Ask::FlushCommand => Command::Flush,
        Ask::Flush | Ask::Tick(_) => return Ok(None),
    };
    Ok(Some(command))
}

/// Opens the engine, which has nothing to load.
fn open<C: Chronicle + Drop>(
    rt: &impl Abort,
    alloc: Global,
    row: &str,
    disk: MemoryDisk,
    chronicle: C,
    config: Config,
) -> Engine<MemoryDisk, C>
    requires config { IsConfig config }
    requires blank { IfSome (C.lists chronicle) IsBlank }
{
    match Engine::open_on(alloc, disk, chronicle, config) {
        Ok((engine, state)) => {
            assert!(rt; state.live.is_empty() && state.in_doubt.is_empty(), "{row}");
            engine
        }
        Err(
            OpenFailed {
                disk: _disk,
                chronicle: _chronicle,
                fault: _,
            },
        ) => panic!(rt; "{row}: not opened"),
    }
}

/// Gives the command.
fn give<C: Chronicle>(
    engine: &mut Engine<MemoryDisk, C>,
    number: u64,
    command: Command,
) -> Result<Reply, Refusal> {
    engine.command(1, number, command)
}

fn flush<C: Chronicle>(engine: &mut Engine<MemoryDisk, C>) -> Result<u64, Refusal> {
    engine.flush()
}

fn tick<C: Chronicle>(engine: &mut Engine<MemoryDisk, C>, now: u64) -> Result<u64, Refusal> {
    engine.tick(now)
}

fn close<C: Chronicle>(engine: Engine<MemoryDisk, C>) -> (MemoryDisk, C, Result<u64, Refusal>) {
    engine.close()
}

/// What is answered by this refusal.
fn refused(refusal: Refusal) -> Told {
    match refusal {
        Refusal::Disk { call } => Told::Failed(call),
        Refusal::Closed { fault } => Told::Closed(fault),
        refusal => Told::Refused(refusal),
    }
}

/// What a command is answered.
fn replied(answer: Result<Reply, Refusal>) -> Told {
    match answer {
        Ok(Reply::Appended { place }) => Told::Appended(place),
        Ok(Reply::Begun { tx }) => Told::Begun(tx),
        Ok(Reply::Durable { count }) => Told::Durable(count),
        Err(refusal) => refused(refusal),
    }
}

/// What a flush, a tick or the close is answered.
fn counted(answer: Result<u64, Refusal>) -> Told {
    match answer {
        Ok(count) => Told::Durable(count),
        Err(refusal) => refused(refusal),
    }
}

/// Asks the engine.
fn answer<C: Chronicle>(
    alloc: Global,
    engine: &mut Engine<MemoryDisk, C>,
    number: u64,
    ask: Ask,
) -> Result<Told, AllocError> {
    if let Some(command) = command_of(alloc, ask)? {
        return Ok(replied(give(engine, number, command)));
    }
    match ask {
        Ask::Tick(now) => Ok(counted(tick(engine, now))),
        _ => Ok(counted(flush(engine))),
    }
}

fn stand_of<C: Chronicle>(engine: &Engine<MemoryDisk, C>) -> Stand {
    (engine.file(), engine.appended(), engine.durable())
}

/// Asks all that the row asks, and compares each answer.
fn walk<C: Chronicle>(
    rt: &impl Abort,
    alloc: Global,
    engine: &mut Engine<MemoryDisk, C>,
    row: &Row,
) -> Result<(), Fail> {
    assert_eq!(rt; stand_of(engine), (row.first, 0, 0), "{}", row.name);
    for (number, (ask, told, stand)) in (0..).zip(row.steps) {
        let answer = answer(alloc, engine, number, *ask)?;
        assert_eq!(rt; answer, *told, "{}, step {number}", row.name);
        assert_eq!(rt; stand_of(engine), *stand, "{}, step {number}", row.name);
    }
    Ok(())
}

/// The disk before the opening.
fn disk_of(rt: &impl Abort, alloc: Global, row: &Row) -> Result<MemoryDisk, Fail> {
    let fails = vec![in alloc; row.fails]?;
    let mut disk = MemoryDisk::failing(alloc, Vec::new(alloc), fails)?;
    for name in row.before {
        put(rt, alloc, &mut disk, name, b"")?;
    }
    Ok(disk)
}

/// Plays the row, and gives the disk and the chronicle as they are behind the close.
fn play<C: Chronicle + Drop>(
    rt: &impl Abort,
    alloc: Global,
    row: &Row,
    chronicle: C,
) -> Result<(MemoryDisk, C), Fail>
    requires blank { IfSome (C.lists chronicle) IsBlank }
{
    let config = row.sizes.config().ok_or("no configuration")?;
    let disk = disk_of(rt, alloc, row)?;
    let mut engine = open(rt, alloc, row.name, disk, chronicle, config);
    let walked = walk(rt, alloc, &mut engine, row);
    let (disk, chronicle, outcome) = close(engine);
    walked?;
    assert_eq!(rt; counted(outcome), row.outcome, "{}", row.name);
    assert_eq!(rt; disk.moment(), row.moment, "{}", row.name);
    Ok((disk, chronicle))
}

/// The file of this id has these records.
fn check_records(
    rt: &impl Abort,
    alloc: Global,
    row: &str,
    bytes: &[u8],
    id: u32,
    briefs: &[Brief],
) -> Result<(), Fail> {
    assert!(rt; id < 0x8000_0000, "{row}");
    let spots = scan(alloc, bytes, id, 2)?;
    assert_eq!(rt; spots.len(), briefs.len(), "{row}");
    for (spot, brief) in spots.iter().zip(briefs) {
        assert_eq!(rt; spot.rec.brief(), *brief, "{row}");
    }
    Ok(())
}

/// The file has what is wanted.
fn check_bytes(
    rt: &impl Abort,
    alloc: Global,
    row: &str,
    bytes: &[u8],
    wanted: Wanted,
) -> Result<(), Fail> {
    match wanted {
        Wanted::Gone | Wanted::There => {}
        Wanted::Joined(pieces, len) => {
            let wanted = joined(alloc, pieces, len, 0x4a)?;
            assert_eq!(rt; bytes, wanted.as_slice(), "{row}");
        }
        Wanted::Part(place, part) => {
            let rest = bytes.get(place..).unwrap_or(&[]);
            assert!(rt; rest.starts_with(part), "{row}");
        }
        Wanted::Records(id, briefs) => check_records(rt, alloc, row, bytes, id, briefs)?,
    }
    Ok(())
}

/// The disk has what is wanted.
fn check_disk(rt: &impl Abort, alloc: Global, row: &Row, disk: &MemoryDisk) -> Result<(), Fail> {
    for (file, wanted) in row.left {
        let bytes = disk.look(file)?;
        let gone = matches!(wanted, Wanted::Gone);
        assert_eq!(rt; bytes.is_none(), gone, "{}: {file}", row.name);
        if let Some(bytes) = bytes {
            check_bytes(rt, alloc, row.name, &bytes, *wanted)?;
        }
    }
    Ok(())
}

/// The first file has so many records behind this crash, the first of which is the add of id 1.
fn check_crash(
    rt: &impl Abort,
    alloc: Global,
    row: &str,
    disk: &MemoryDisk,
    pick: Pick,
    count: usize,
) -> Result<(), Fail> {
    let left = disk.crash(pick)?;
    let file = left.look("activemq-data-1.amq")?.unwrap_or(Vec::new(alloc));
    let spots = scan(alloc, file.as_slice(), 1, 2)?;
    assert_eq!(rt; spots.len(), count, "{row}, {pick:?}");
    let first = spots.first().ok_or("no record")?;
    assert_eq!(rt;
        (first.place, first.rec.brief()),
        (16, Brief::Put { id: 1 }),
        "{row}, {pick:?}"
    );
    Ok(())
}

/// The crashes behind the row leave what is wanted.
fn check_crashes(rt: &impl Abort, alloc: Global, row: &Row, disk: &MemoryDisk) -> Result<(), Fail> {
    for (pick, count) in row.crashes {
        check_crash(rt, alloc, row.name, disk, *pick, *count)?;
    }
    Ok(())
}

/// The last receipt is the one that is wanted.
fn check_receipt(rt: &impl Abort, row: &Row, kept: &Kept) {
    if let Some(receipt) = row.receipt {
        let last = kept.receipts.as_slice().last().copied();
        assert_eq!(rt; last, Some(receipt), "{}", row.name);
    }
}

#[test]
fn with_a_chronicle_that_keeps_all(rt: HostRuntime) -> Result<(), Fail> {
    let alloc = rt.alloc();
    for row in ROWS {
        let (disk, kept) = play(&rt, alloc, row, Kept::new(alloc))?;
        check_disk(&rt, alloc, row, &disk)?;
        check_crashes(&rt, alloc, row, &disk)?;
        check_receipt(&rt, row, &kept);
    }
    Ok(())
}

#[test]
fn with_a_chronicle_that_keeps_nothing(rt: HostRuntime) -> Result<(), Fail> {
    let alloc = rt.alloc();
    for row in ROWS {
        let (disk, _unkept) = play(&rt, alloc, row, Unkept)?;
        check_disk(&rt, alloc, row, &disk)?;
        check_crashes(&rt, alloc, row, &disk)?;
    }
    Ok(())
}
