//! Runs with each call of the disk, the source or the sink failing in turn.

use crate::disks::{DATA_FILE, File, disk_of};
use crate::running::{
    COMMIT, DISK_FAULT, Ended, Left, PRINT, REPLAY, SINK_FAULT, SOURCE_FAULT, Streams, check_ended,
    last_count, named, run,
};
use amq_io::Disk;
use amq_samples::{ADD_TX, HEADER, NARROW, SMALL, Sizes};
use std::alloc::Global;
use std::process::Abort;
use std::test::Fail;

/// Whose calls fail.
enum Fails {
    Disk,
    Source,
    Sink,
}

/// What is left where a call fails: the text, how many appends the last receipt counts (`None` in the
/// `Some` where there is none), and the number of steps. What is `None` isn't looked at.
type End = (&'static [u8], Option<Option<u64>>, Option<usize>);

/// A script, and its ends where the call of the number `first` fails, the next one, and so on.
struct Row {
    name: &'static str,
    sizes: Sizes,
    words: &'static [&'static str],
    file: Option<File>,
    script: &'static [u8],
    piece: u64,
    fails: Fails,
    first: u64,
    ended: Ended,
    moment: Option<u64>,
    ends: &'static [End],
}

const ROWS: &[Row] = &[
    // The calls are the list and four for each of two files at the opening, a write and a sync for the
    // flush, the same at the closing, and the list and two reads at the end.
    Row {
        name: "a disk that fails",
        sizes: SMALL,
        words: REPLAY,
        file: None,
        script: b"add 1 7 6869\nflush\ndelete 1\n",
        piece: 4096,
        fails: Fails::Disk,
        first: 1,
        ended: DISK_FAULT,
        moment: None,
        ends: &[
            (b"", None, None),
            (b"", None, None),
            (b"", None, None),
            (b"", None, None),
            (b"", None, None),
            (b"", None, None),
            (b"", None, None),
            (b"", None, None),
            (b"", None, None),
            (b"ok 0\nrefused Disk WriteAt\n", None, None),
            (b"ok 0\nrefused Disk Sync\n", None, None),
            (b"ok 0\ndurable 1\nok 1\n", None, None),
            (b"ok 0\ndurable 1\nok 1\n", None, None),
            (b"ok 0\ndurable 1\nok 1\n", None, None),
            (b"ok 0\ndurable 1\nok 1\n", None, None),
            (b"ok 0\ndurable 1\nok 1\n", None, None),
        ],
    },
    // Each add behind the first goes on to a further file: the second to the one that is prepared, the
    // third to one that is prepared for it, in four calls behind the flush. The rows begin at the first
    // flush.
    Row {
        name: "a disk that fails at a further file",
        sizes: NARROW,
        words: REPLAY,
        file: None,
        script: b"add 1 7 6869\nadd 2 7 6869\nadd 3 7 6869\n",
        piece: 4096,
        fails: Fails::Disk,
        first: 10,
        ended: DISK_FAULT,
        moment: None,
        ends: &[
            (b"ok 0\nrefused Disk WriteAt\n", Some(Some(0)), None),
            (b"ok 0\nrefused Disk Sync\n", Some(Some(0)), None),
            (b"ok 0\nok 1\nrefused Disk WriteAt\n", Some(Some(1)), None),
            (b"ok 0\nok 1\nrefused Disk Sync\n", Some(Some(1)), None),
            (b"ok 0\nok 1\nrefused Disk Create\n", Some(Some(2)), None),
            (b"ok 0\nok 1\nrefused Disk WriteAt\n", Some(Some(2)), None),
            (b"ok 0\nok 1\nrefused Disk Sync\n", Some(Some(2)), None),
            (b"ok 0\nok 1\nrefused Disk Rename\n", Some(Some(2)), None),
            (b"ok 0\nok 1\nok 2\n", Some(Some(2)), None),
            (b"ok 0\nok 1\nok 2\n", Some(Some(2)), None),
            (b"ok 0\nok 1\nok 2\n", Some(Some(3)), None),
            (b"ok 0\nok 1\nok 2\n", Some(Some(3)), None),
            (b"ok 0\nok 1\nok 2\n", Some(Some(3)), None),
            (b"ok 0\nok 1\nok 2\n", Some(Some(3)), None),
        ],
    },
    // The calls of an opening are the list, a read and a sync of the file that is there, four for the
    // new file, a write and a sync for the rollback. Where one of them fails, nothing is written.
    Row {
        name: "an opening that fails",
        sizes: SMALL,
        words: REPLAY,
        file: Some(File {
            name: DATA_FILE,
            pieces: &[HEADER, ADD_TX],
            len: 256,
            fill: b'J',
        }),
        script: b"tick 0\n",
        piece: 4096,
        fails: Fails::Disk,
        first: 1,
        ended: DISK_FAULT,
        moment: None,
        ends: &[
            (b"", Some(None), Some(0)),
            (b"", Some(None), Some(0)),
            (b"", Some(None), Some(0)),
            (b"", Some(Some(0)), Some(0)),
            (b"", Some(Some(0)), Some(0)),
            (b"", Some(Some(0)), Some(0)),
            (b"", Some(Some(0)), Some(0)),
            (b"", Some(Some(0)), Some(1)),
            (b"", Some(Some(0)), Some(1)),
        ],
    },
    // The script has 32 bytes, so the source is read five times.
    Row {
        name: "a source that fails",
        sizes: SMALL,
        words: REPLAY,
        file: None,
        script: b"add 1 7 6869\nadd 1 7 -\ndelete 2\n",
        piece: 8,
        fails: Fails::Source,
        first: 1,
        ended: SOURCE_FAULT,
        moment: Some(0),
        ends: &[
            (b"", None, None),
            (b"", None, None),
            (b"", None, None),
            (b"", None, None),
            (b"", None, None),
        ],
    },
    // The text has 77 bytes, so the sink is given it in five pieces.
    Row {
        name: "a sink that fails",
        sizes: SMALL,
        words: REPLAY,
        file: None,
        script: b"add 1 7 6869\nadd 1 7 -\ndelete 2\n",
        piece: 16,
        fails: Fails::Sink,
        first: 1,
        ended: SINK_FAULT,
        moment: None,
        ends: &[
            (b"", None, None),
            (b"ok 0\nrefused Alr", None, None),
            (b"ok 0\nrefused AlreadyLive 1\nrefus", None, None),
            (
                b"ok 0\nrefused AlreadyLive 1\nrefused NoRecord 2\nli",
                None,
                None,
            ),
            (
                b"ok 0\nrefused AlreadyLive 1\nrefused NoRecord 2\nlive 1\nadd 1 7 686",
                None,
                None,
            ),
        ],
    },
    // A print lists and reads the one file that there is.
    Row {
        name: "a print with a disk that fails",
        sizes: SMALL,
        words: PRINT,
        file: Some(File {
            name: DATA_FILE,
            pieces: &[HEADER, ADD_TX],
            len: 256,
            fill: b'J',
        }),
        script: b"",
        piece: 4096,
        fails: Fails::Disk,
        first: 1,
        ended: DISK_FAULT,
        moment: None,
        ends: &[(b"", Some(None), Some(0)), (b"", Some(None), Some(0))],
    },
    // Its text has 18 bytes, so the sink is given it in two pieces.
    Row {
        name: "a print with a sink that fails",
        sizes: SMALL,
        words: PRINT,
        file: None,
        script: b"",
        piece: 16,
        fails: Fails::Sink,
        first: 1,
        ended: SINK_FAULT,
        moment: Some(1),
        ends: &[
            (b"", Some(None), Some(0)),
            (b"live 0\nin doubt ", Some(None), Some(0)),
        ],
    },
    // A settling makes the calls of an opening, and the list and two reads at the end.
    Row {
        name: "a settling with a disk that fails",
        sizes: SMALL,
        words: COMMIT,
        file: None,
        script: b"",
        piece: 4096,
        fails: Fails::Disk,
        first: 1,
        ended: DISK_FAULT,
        moment: None,
        ends: &[
            (b"", Some(None), Some(0)),
            (b"", None, Some(0)),
            (b"", None, Some(0)),
            (b"", None, Some(0)),
            (b"", None, Some(0)),
            (b"", None, Some(0)),
            (b"", None, Some(0)),
            (b"", None, Some(0)),
            (b"", None, Some(0)),
            (b"refused NoTx 1\n", Some(Some(0)), Some(1)),
            (b"refused NoTx 1\n", Some(Some(0)), Some(1)),
            (b"refused NoTx 1\n", Some(Some(0)), Some(1)),
        ],
    },
    // Its text has 33 bytes.
    Row {
        name: "a settling with a sink that fails",
        sizes: SMALL,
        words: COMMIT,
        file: None,
        script: b"",
        piece: 16,
        fails: Fails::Sink,
        first: 1,
        ended: SINK_FAULT,
        moment: None,
        ends: &[
            (b"", Some(Some(0)), Some(1)),
            (b"refused NoTx 1\nl", Some(Some(0)), Some(1)),
            (
                b"refused NoTx 1\nlive 0\nin doubt 0",
                Some(Some(0)),
                Some(1),
            ),
        ],
    },
];

/// The disk's number and the streams with which a call of this number fails.
fn failing(row: &Row, call: u64) -> (u64, Streams) {
    let piece = row.piece;
    let (disk, source, sink) = match row.fails {
        Fails::Disk => (call, 0, 0),
        Fails::Source => (0, call, 0),
        Fails::Sink => (0, 0, call),
    };
    (
        disk,
        Streams {
            piece,
            source,
            sink,
        },
    )
}

/// What is wanted of the receipts, of the steps and of the moment.
fn check_left(rt: &impl Abort, name: &str, moment: Option<u64>, end: &End, left: &Left) {
    let (_, last, steps) = end;
    if let Some(last) = last {
        assert_eq!(rt; last_count(&left.kept), *last, "{name}");
    }
    if let Some(steps) = steps {
        assert_eq!(rt; left.kept.steps.as_slice().len(), *steps, "{name}");
    }
    if let Some(moment) = moment {
        assert_eq!(rt; left.disk.moment(), moment, "{name}");
    }
}

/// The run where this call fails ends like this.
fn check_end(rt: &impl Abort, alloc: Global, row: &Row, call: u64, end: &End) -> Result<(), Fail> {
    let name = named(alloc, row.name, call)?;
    let (fails, streams) = failing(row, call);
    let disk = disk_of(alloc, row.file, fails)?;
    let left = run(
        alloc,
        Some(row.sizes),
        row.words,
        row.script,
        disk,
        &streams,
    )?;
    check_ended(rt, alloc, name.as_str(), &left, &row.ended, end.0)?;
    check_left(rt, name.as_str(), row.moment, end, &left);
    Ok(())
}

#[test]
fn each_call_failing_in_turn(rt: HostRuntime) -> Result<(), Fail> {
    for row in ROWS {
        let mut call = row.first;
        for end in row.ends {
            check_end(&rt, rt.alloc(), row, call, end)?;
            call = call.saturating_add(1);
        }
    }
    Ok(())
}
