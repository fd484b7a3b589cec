//! A crash at every moment of a run, and records that a crash loses.

use crate::disks::{DATA_FILE, File, disk_of, put_all};
use crate::images::{check, history, records};
use crate::running::{DISK_FAULT, Ended, Left, OK, REPLAY, WHOLE, check_ended, named, run};
use crate::runs::{LEFT_OPEN, LEFTOVERS, TWO_FILES};
use amq_io::{Disk, MemoryDisk, Pick};
use amq_model::{Name, Placed};
use amq_samples::{ADD_TX, HEADER, ROOMY, Sizes};
use amq_state::plain_result;
use std::alloc::Global;
use std::process::Abort;
use std::test::Fail;

/// Two adds are flushed, then an update and a delete; two adds more are durable at the closing alone.
const ADDS: &[u8] =
    b"add 1 7 6869\nadd 2 7 -\nflush\nupdate 1 8 6a\ndelete 2\nflush\nadd 3 7 -\nadd 4 7 79\n";

/// A transaction is flushed before its end; another one is prepared with a delete, and a third one goes
/// back.
const TRANSACTIONS: &[u8] =
    b"add 1 7 -\nbegin a\naddtx a 2 7 -\nflush\naddtx a 3 7 6a\ncommit a\nbegin b\ndeletetx b 1 -\nprepare b 01\nbegin c\nupdatetx c 2 7 -\nrollback c\n";

/// Four files have records of it: a transaction is flushed before its end, the next one is prepared in the
/// file behind that of its records, and a third one goes back.
const MOVES: &[u8] =
    b"add 1 7 6869\nbegin a\naddtx a 2 7 -\nflush\naddtx a 3 7 6a\ncommit a\nadd 4 7 -\nupdate 1 8 6b\nbegin b\ndeletetx b 4 -\naddtx b 5 7 -\nprepare b 01\nflush\nbegin c\nupdatetx c 1 9 -\nrollback c\ndelete 1\nadd 6 7 -\nadd 7 7 79\n";

/// As `TWO_FILES`, but three files.
const THREE_FILES: Sizes = Sizes {
    files: 3,
    ..TWO_FILES
};

/// As above, but five files, which are more than are used.
const FIVE_FILES: Sizes = Sizes {
    files: 5,
    ..TWO_FILES
};

/// What a crash leaves of the bytes that aren't synced.
const PICKS: &[Pick] = &[Pick::Keep, Pick::Revert, Pick::Fill(0)];

/// A run that no call fails, and the same with each call failing in turn: whatever a crash leaves then,
/// the records that were there before stand first, and behind them a kept part of the history.
struct Row {
    name: &'static str,
    sizes: Sizes,
    /// What is there before the run: a file, or what an earlier script leaves and these, which aren't
    /// synced.
    file: Option<File>,
    earlier: Option<&'static [u8]>,
    puts: &'static [File],
    /// How many records that has.
    base: usize,
    script: &'static [u8],
    /// How many calls the run has.
    calls: u64,
    /// How many records the history has, all of which the last receipt counts.
    history: usize,
    /// The files of the history's first and last record.
    files: (u64, u64),
    /// For no call that fails, the first one and so on, how many records each of `PICKS` leaves; where
    /// there are none, they aren't counted.
    counts: &'static [[usize; 3]],
}

/// A run on an empty disk.
const PLAYED: Row = Row {
    name: "",
    sizes: ROOMY,
    file: None,
    earlier: None,
    puts: &[],
    base: 0,
    script: &[],
    calls: 0,
    history: 0,
    files: (1, 1),
    counts: &[],
};

const ROWS: &[Row] = &[
    // The list, four calls that make a file, a write and a sync for each flush and for the closing, and
    // the list and the reads at the end.
    Row {
        name: "a crash at every moment",
        script: ADDS,
        calls: 18,
        history: 6,
        counts: &[
            [6, 6, 6],
            [0, 0, 0],
            [0, 0, 0],
            [0, 0, 0],
            [0, 0, 0],
            [0, 0, 0],
            [0, 0, 0],
            [0, 0, 0],
            [0, 0, 0],
            [0, 0, 0],
            [0, 0, 0],
            [2, 0, 0],
            [2, 2, 2],
            [4, 2, 2],
            [4, 4, 4],
            [6, 4, 4],
            [6, 6, 6],
            [6, 6, 6],
            [6, 6, 6],
        ],
        ..PLAYED
    },
    Row {
        name: "a crash at every moment of transactions",
        script: TRANSACTIONS,
        calls: 18,
        history: 8,
        ..PLAYED
    },
    // Nine calls of the opening, two for each of eight flushes, four for each of the two files that are
    // prepared on the way, and a list with four reads.
    Row {
        name: "a crash at every moment of two files",
        sizes: TWO_FILES,
        script: MOVES,
        calls: 38,
        history: 14,
        files: (1, 4),
        ..PLAYED
    },
    // The third file is prepared at the opening, and the fourth one on the way.
    Row {
        name: "a crash at every moment of three files",
        sizes: THREE_FILES,
        script: MOVES,
        calls: 38,
        history: 14,
        files: (1, 4),
        ..PLAYED
    },
    // All files are prepared at the opening, and one more, which is read too.
    Row {
        name: "a crash at every moment of five files",
        sizes: FIVE_FILES,
        script: MOVES,
        calls: 43,
        history: 14,
        files: (1, 4),
        ..PLAYED
    },
    // The opening rolls back the transaction of an add that an earlier run left: list, read, sync, four
    // calls for the new file, the rollback's write and sync, those of the closing, and a list with two
    // reads.
    Row {
        name: "a crash at every moment of an opening",
        file: Some(File {
            name: DATA_FILE,
            pieces: &[HEADER, ADD_TX],
            len: 49,
            fill: 0,
        }),
        base: 1,
        script: b"add 1 7 -\n",
        calls: 14,
        history: 2,
        files: (2, 2),
        ..PLAYED
    },
    // Three transactions are left, two of which the opening rolls back, with a temporary, a compacted and
    // a foreign file beside them: list, three reads and syncs, the removal of the first two, four calls
    // for the new file, the rollbacks' write and sync, and a list with four reads.
    Row {
        name: "a crash at every moment of an opening with leftovers",
        sizes: TWO_FILES,
        earlier: Some(LEFT_OPEN),
        puts: LEFTOVERS,
        base: 7,
        calls: 20,
        history: 2,
        files: (10, 10),
        ..PLAYED
    },
];

/// Runs that end at a call that fails, and what a crash leaves there.
struct LostRow {
    name: &'static str,
    script: &'static [u8],
    fails: u64,
    ended: Ended,
    text: &'static [u8],
    /// How many records the history has, and how many of them the last receipt counts.
    history: (usize, usize),
    images: &'static [Image],
}

/// What a crash leaves.
enum Loses {
    Picked(Pick),
    /// All that was written but these bytes of the first file, which are zeros, and no other file.
    Range(usize, usize),
}

/// What is left, the places of its records, the ids that are live and the number of transactions in doubt.
struct Image {
    loses: Loses,
    places: &'static [u64],
    live: &'static [u64],
    in_doubt: usize,
}

const LOST: &[LostRow] = &[
    // The first add is durable, so it is live whatever the crash leaves; the second one may be.
    LostRow {
        name: "the second flush fails",
        script: b"add 1 7 6869\nflush\nadd 2 7 6869\nflush\n",
        fails: 13,
        ended: DISK_FAULT,
        text: b"ok 0\ndurable 1\nok 1\nrefused Disk Sync\n",
        history: (2, 1),
        images: &[
            Image {
                loses: Loses::Picked(Pick::Keep),
                places: &[16, 41],
                live: &[1, 2],
                in_doubt: 0,
            },
            Image {
                loses: Loses::Picked(Pick::Revert),
                places: &[16],
                live: &[1],
                in_doubt: 0,
            },
            Image {
                loses: Loses::Picked(Pick::Fill(0)),
                places: &[16],
                live: &[1],
                in_doubt: 0,
            },
        ],
    },
    // Three adds wait for a sync that fails, and a crash leaves the first and the third of them.
    LostRow {
        name: "a record lost in the middle",
        script: b"add 1 7 -\nadd 2 7 -\nadd 3 7 -\nflush\n",
        fails: 11,
        ended: DISK_FAULT,
        text: b"ok 0\nok 1\nok 2\nrefused Disk Sync\n",
        history: (3, 0),
        images: &[Image {
            loses: Loses::Range(39, 62),
            places: &[16, 62],
            live: &[1, 3],
            in_doubt: 0,
        }],
    },
    // The sync of the second flush fails, and a crash loses one record of the buffer: without its add the
    // commit has no effect, and without its delete the prepare leaves nothing in doubt.
    LostRow {
        name: "each record of a buffer lost in turn",
        script: TRANSACTIONS,
        fails: 13,
        ended: DISK_FAULT,
        text: b"ok 0\ntx 1\nok 1\ndurable 2\nok 2\nok 3\ntx 2\nok 4\nok 5\ntx 3\nrefused Disk Sync\n",
        history: (6, 2),
        images: &[
            Image {
                loses: Loses::Range(70, 102),
                places: &[16, 39, 102, 124, 154],
                live: &[1],
                in_doubt: 1,
            },
            Image {
                loses: Loses::Range(102, 124),
                places: &[16, 39, 70, 124, 154],
                live: &[1],
                in_doubt: 1,
            },
            Image {
                loses: Loses::Range(124, 154),
                places: &[16, 39, 70, 102, 154],
                live: &[1, 2, 3],
                in_doubt: 0,
            },
            Image {
                loses: Loses::Range(154, 181),
                places: &[16, 39, 70, 102, 124],
                live: &[1, 2, 3],
                in_doubt: 0,
            },
        ],
    },
];

/// The disk on which the row's run begins. Its call of this number fails, none for 0.
fn begun(rt: &impl Abort, alloc: Global, row: &Row, fails: u64) -> Result<MemoryDisk, Fail> {
    let mut disk = disk_of(alloc, row.file, fails)?;
    if let Some(script) = row.earlier {
        disk = run(alloc, Some(row.sizes), REPLAY, script, disk, &WHOLE)?.disk;
    }
    put_all(rt, alloc, &mut disk, row.puts)?;
    Ok(disk)
}

/// What the row's run leaves where the call of this number fails.
fn played(rt: &impl Abort, alloc: Global, row: &Row, fails: u64) -> Result<Left, Fail> {
    let disk = begun(rt, alloc, row, fails)?;
    run(alloc, Some(row.sizes), REPLAY, row.script, disk, &WHOLE)
}

/// The run that no call fails has the row's calls and history.
fn check_played(
    rt: &impl Abort,
    alloc: Global,
    row: &Row,
    left: &Left,
    first: u64,
) -> Result<(), Fail> {
    let name = row.name;
    let calls = left.disk.moment().saturating_sub(first);
    let (history, durable) = history(alloc, &left.kept)?;
    let firsts = history.as_slice().first().map_or(0, |placed| placed.file);
    let lasts = history.as_slice().last().map_or(0, |placed| placed.file);
    assert_eq!(rt; calls, row.calls, "{name}");
    assert_eq!(rt;
        (history.len(), durable),
        (row.history, row.history),
        "{name}"
    );
    assert_eq!(rt; (firsts, lasts), row.files, "{name}");
    Ok(())
}

/// What this pick of a crash leaves is the base, and behind it a kept part of the history.
fn check_image(
    rt: &impl Abort,
    alloc: Global,
    name: &str,
    base: &[Placed],
    left: &Left,
    pick: Pick,
) -> Result<usize, Fail> {
    let records = records(rt, alloc, left.disk.crash(pick)?, name)?;
    match records.as_slice().strip_prefix(base) {
        Some(rest) => check(rt, alloc, rest, &left.kept, name)?,
        None => panic!(rt; "{name}: not the base"),
    }
    Ok(records.len())
}

/// Each of `PICKS` leaves the base and a kept part of the history, and as many records as are wanted.
fn check_images(
    rt: &impl Abort,
    alloc: Global,
    name: &str,
    base: &[Placed],
    left: &Left,
    wanted: Option<&[usize; 3]>,
) -> Result<(), Fail> {
    let mut counts = Vec::new(alloc);
    for pick in PICKS {
        counts.push(check_image(rt, alloc, name, base, left, *pick)?)?;
    }
    if let Some(wanted) = wanted {
        assert_eq!(rt; counts.as_slice(), wanted.as_slice(), "{name}");
    }
    Ok(())
}

/// What a crash leaves where this call of the row's run fails, none for 0.
fn check_call(
    rt: &impl Abort,
    alloc: Global,
    row: &Row,
    base: &[Placed],
    first: u64,
    call: u64,
) -> Result<(), Fail> {
    let name = named(alloc, row.name, call)?;
    let (fails, ended) = match call {
        0 => (0, OK),
        _ => (first.saturating_add(call), DISK_FAULT),
    };
    let left = played(rt, alloc, row, fails)?;
    assert_eq!(rt; left.status.code(), ended.code, "{}", name.as_str());
    let wanted = row.counts.get(call as usize);
    check_images(rt, alloc, name.as_str(), base, &left, wanted)
}

/// What a crash leaves at each moment of the row's run.
fn check_calls(rt: &impl Abort, alloc: Global, row: &Row) -> Result<(), Fail> {
    let before = begun(rt, alloc, row, 0)?;
    let first = before.moment();
    let base = records(rt, alloc, before, row.name)?;
    assert_eq!(rt; base.len(), row.base, "{}", row.name);
    let whole = played(rt, alloc, row, 0)?;
    check_played(rt, alloc, row, &whole, first)?;
    for call in 0..=row.calls {
        check_call(rt, alloc, row, &base, first, call)?;
    }
    Ok(())
}

#[test]
fn crashes_at_every_moment(rt: HostRuntime) -> Result<(), Fail> {
    for row in ROWS {
        check_calls(&rt, rt.alloc(), row)?;
    }
    Ok(())
}

/// What the crash leaves, as a disk.
fn crashed(
    alloc: Global,
    name: &'static str,
    disk: &MemoryDisk,
    loses: &Loses,
) -> Result<MemoryDisk, Fail> {
    match loses {
        Loses::Picked(pick) => Ok(disk.crash(*pick)?),
        Loses::Range(from, to) => {
            let mut file = disk.look(DATA_FILE)?.ok_or(name)?;
            let range = file.as_mut_slice().get_mut(*from..*to);
            range.ok_or(name)?.fill(0);
            let file_name = Name::of(alloc, DATA_FILE)?.ok_or(name)?;
            Ok(MemoryDisk::of_files(alloc, vec![in alloc; (file_name, file)]?)?)
        }
    }
}

/// The image is a kept part of the history, and has what is wanted.
fn check_lost(
    rt: &impl Abort,
    alloc: Global,
    name: &'static str,
    left: &Left,
    wanted: &Image,
) -> Result<(), Fail> {
    let disk = crashed(alloc, name, &left.disk, &wanted.loses)?;
    let records = records(rt, alloc, disk, name)?;
    check(rt, alloc, &records, &left.kept, name)?;
    let mut places = Vec::new(alloc);
    for placed in records.iter() {
        places.push(placed.place)?;
    }
    let state = plain_result(alloc, &records)?;
    let mut live = Vec::new(alloc);
    for entry in state.live.as_slice() {
        live.push(entry.id)?;
    }
    assert_eq!(rt; places.as_slice(), wanted.places, "{name}");
    assert_eq!(rt; live.as_slice(), wanted.live, "{name}");
    assert_eq!(rt; state.in_doubt.as_slice().len(), wanted.in_doubt, "{name}");
    Ok(())
}

/// The run ends as the row says, and a crash leaves its images.
fn check_lost_row(rt: &impl Abort, alloc: Global, row: &LostRow) -> Result<(), Fail> {
    let name = row.name;
    let disk = disk_of(alloc, None, row.fails)?;
    let left = run(alloc, Some(ROOMY), REPLAY, row.script, disk, &WHOLE)?;
    check_ended(rt, alloc, name, &left, &row.ended, row.text)?;
    let (history, durable) = history(alloc, &left.kept)?;
    assert_eq!(rt; (history.len(), durable), row.history, "{name}");
    for image in row.images {
        check_lost(rt, alloc, name, &left, image)?;
    }
    Ok(())
}

#[test]
fn records_that_a_crash_loses(rt: HostRuntime) -> Result<(), Fail> {
    for row in LOST {
        check_lost_row(&rt, rt.alloc(), row)?;
    }
    Ok(())
}
