//! Runs of which the status, the text and the files are compared.

use crate::disks::{DATA_FILE, File, SECOND_FILE, disk_of, put_all};
use crate::running::{
    COMMIT, DISK_FAULT, Ended, Left, OK, PRINT, REPLAY, ROLLBACK, SINK_FAULT, Streams, WHOLE,
    check_ended, last_count, run,
};
use amq_engine::Kept;
use amq_io::{Disk, MemoryDisk, Pick};
use amq_samples::{
    ADD, ADD_OF_GREATEST_LENGTH, ADD_OF_NEGATIVE_LENGTH, ADD_OF_WRONG_SIZE, ADD_TX, COMMIT_OF_0,
    COMMIT_OF_1, COMMIT_OF_2, HEADER, NARROW, SECOND_ADD, SECOND_HEADER, SHORT, SMALL, Sizes,
    joined,
};
use std::alloc::Global;
use std::process::Abort;
use std::test::Fail;

const SHORT_SCRIPT: &[u8] = b"add 1 7 6869\nadd 1 7 -\ndelete 2\n";

const SHORT_TEXT: &[u8] =
    b"ok 0\nrefused AlreadyLive 1\nrefused NoRecord 2\nlive 1\nadd 1 7 6869\nin doubt 0\n";

/// With bodies of 41 and 42 bytes.
const LONG_SCRIPT: &[u8] =
    b"add 1 7 -\nadd 2 7 0000000000000000000000000000000000000000000000000000000000000000000000000000000000\nadd 3 7 000000000000000000000000000000000000000000000000000000000000000000000000000000000000\n";

const LONG_TEXT: &[u8] =
    b"ok 0\nok 1\nrefused TooLarge 65 64\nlive 2\nadd 1 7 -\nadd 2 7 0000000000000000000000000000000000000000000000000000000000000000000000000000000000\nin doubt 0\n";

/// Three transactions are left: one with a record and no end, one that is prepared, and one whose records
/// stand in two files.
pub const LEFT_OPEN: &[u8] =
    b"add 1 7 6869\nbegin a\naddtx a 2 7 -\nbegin b\ndeletetx b 1 -\nprepare b 01\nflush\nbegin c\naddtx c 5 7 6a\naddtx c 6 7 6b\nadd 3 7 -\n";

/// The report of what that leaves once it is opened again.
const LEFT_OPEN_REPORT: &[u8] =
    b"live 2\nadd 1 7 6869\nadd 3 7 -\nin doubt 1\ntx 2 extra 01 records 0 deletes 1\n  delete 1 -\n";

const NOTHING: &[u8] = b"live 0\nin doubt 0\n";

const FIRST: &[u8] = b"live 1\nadd 1 7 6869\nin doubt 0\n";

const SECOND: &[u8] = b"live 1\nadd 2 7 796f\nin doubt 0\n";

const THIRD: &[u8] = b"live 1\nadd 3 7 6869\nin doubt 0\n";

const OUT_OF_ORDER: &[u8] = b"live 2\nadd 2 7 796f\nupdate 2 9 -\nin doubt 0\n";

/// The digits of 985 zero bytes, of 986 and of 977.
const ZEROS_985: &[u8] = &[b'0'; 1970];

const ZEROS_986: &[u8] = &[b'0'; 1972];

const ZEROS_977: &[u8] = &[b'0'; 1954];

const WORDS_NOT_BUILT: Ended = Ended {
    status: "NotBuilt { part: Words }",
    code: 12,
};

const SCRIPT_NOT_BUILT: Ended = Ended {
    status: "NotBuilt { part: Script }",
    code: 12,
};

const DIRECTORY_NOT_BUILT: Ended = Ended {
    status: "NotBuilt { part: Directory }",
    code: 12,
};

const OF_VERSION_3: Ended = Ended {
    status: "Directory { fault: Version { name: Name { text: \"activemq-data-1.amq\" }, found: 3 } }",
    code: 7,
};

const OF_USER_VERSION_5: Ended = Ended {
    status: "Directory { fault: UserVersion { name: Name { text: \"activemq-data-1.amq\" }, found: 5, wanted: 0 } }",
    code: 7,
};

const OF_ONE_ID: Ended = Ended {
    status: "Directory { fault: TwoFiles { id: 1, first: Name { text: \"activemq-data-1.amq\" }, second: Name { text: \"activemq-data-2.amq\" } } }",
    code: 7,
};

const FILE_IDS_SPENT: Ended = Ended {
    status: "FileIdsSpent { highest: 2147483647 }",
    code: 10,
};

/// Headers of the file of id 1 with version 3 and with user version 5.
const HEADER_OF_VERSION_3: &[u8] =
    b"\x00\x00\x00\x03\x00\x00\x00\x00\x00\x00\x00\x00\x00\x00\x00\x01";

const HEADER_OF_USER_VERSION_5: &[u8] =
    b"\x00\x00\x00\x02\x00\x00\x00\x05\x00\x00\x00\x00\x00\x00\x00\x01";

/// A header and an add in the file of the greatest id.
const GREATEST_HEADER: &[u8] = b"\x00\x00\x00\x02\x00\x00\x00\x00\x00\x00\x00\x00\x7f\xff\xff\xff";

const ADD_IN_GREATEST: &[u8] =
    b"\x0b\x7f\xff\xff\xff\x00\x00\x00\x00\x00\x00\x00\x00\x01\x00\x00\x00\x02\x07\x68\x69\x00\x00\x00\x19";

/// The headers of the file of the id before the greatest, and of the one before that.
const LAST_BUT_ONE_HEADER: &[u8] =
    b"\x00\x00\x00\x02\x00\x00\x00\x00\x00\x00\x00\x00\x7f\xff\xff\xfe";

const LAST_BUT_TWO_HEADER: &[u8] =
    b"\x00\x00\x00\x02\x00\x00\x00\x00\x00\x00\x00\x00\x7f\xff\xff\xfd";

/// Adds with no body of the transactions 1 to 3 in the file of the id before the greatest.
const OPEN_IN_LAST_BUT_ONE: &[u8] =
    b"\x0d\x7f\xff\xff\xfe\x00\x00\x00\x00\x00\x00\x00\x00\x01\x00\x00\x00\x00\x00\x00\x00\x01\x00\x00\x00\x00\x07\x00\x00\x00\x1f\x0d\x7f\xff\xff\xfe\x00\x00\x00\x00\x00\x00\x00\x00\x02\x00\x00\x00\x00\x00\x00\x00\x02\x00\x00\x00\x00\x07\x00\x00\x00\x1f\x0d\x7f\xff\xff\xfe\x00\x00\x00\x00\x00\x00\x00\x00\x03\x00\x00\x00\x00\x00\x00\x00\x03\x00\x00\x00\x00\x07\x00\x00\x00\x1f";

/// A rollback of the greatest transaction number.
const GREATEST_ROLLBACK: &[u8] =
    b"\x13\x00\x00\x00\x01\x00\x7f\xff\xff\xff\xff\xff\xff\xff\x00\x00\x00\x12";

/// An add of id 1 and type 7 with no body.
const EMPTY_ADD: &[u8] =
    b"\x0b\x00\x00\x00\x01\x00\x00\x00\x00\x00\x00\x00\x00\x01\x00\x00\x00\x00\x07\x00\x00\x00\x17";

/// An update of id 1 and type 8 with the body `j`.
const UPDATE: &[u8] =
    b"\x0c\x00\x00\x00\x01\x00\x00\x00\x00\x00\x00\x00\x00\x01\x00\x00\x00\x01\x08\x6a\x00\x00\x00\x18";

/// What stands before and behind the body of an add of id 1 and type 7 with 985 bytes.
const HEAD_OF_985: &[u8] =
    b"\x0b\x00\x00\x00\x01\x00\x00\x00\x00\x00\x00\x00\x00\x01\x00\x00\x03\xd9\x07";

const TAIL_OF_985: &[u8] = b"\x00\x00\x03\xf0";

/// In the file of id 2, an add of id 2 and type 7 with no body.
const ADD_IN_SECOND: &[u8] =
    b"\x0b\x00\x00\x00\x02\x00\x00\x00\x00\x00\x00\x00\x00\x02\x00\x00\x00\x00\x07\x00\x00\x00\x17";

/// In the file of id 2, a commit of transaction 1 that counts none.
const COMMIT_IN_SECOND: &[u8] =
    b"\x12\x00\x00\x00\x02\x00\x00\x00\x00\x00\x00\x00\x00\x01\x00\x00\x00\x00\x00\x00\x00\x16";

/// Up to the first multiple of 512 behind the header.
const FIRST_PADDING: &[u8] = &[0; 496];

/// Up to the next one behind a record of 25 bytes.
const PADDING: &[u8] = &[0; 487];

/// Bytes with which a new file is filled.
const FILLING: &[u8] = b"JJJJJJJJJJJJJJJJJJJJJJJJJJJJJJJJJ";

/// The headers of the files of id 4 and 7, and a delete of id 1 and an update of id 2 in the latter.
const HEADER_OF_4: &[u8] = b"\x00\x00\x00\x02\x00\x00\x00\x00\x00\x00\x00\x00\x00\x00\x00\x04";

const HEADER_OF_7: &[u8] = b"\x00\x00\x00\x02\x00\x00\x00\x00\x00\x00\x00\x00\x00\x00\x00\x07";

const DELETE_IN_7: &[u8] =
    b"\x10\x00\x00\x00\x07\x00\x00\x00\x00\x00\x00\x00\x00\x01\x00\x00\x00\x12";

const UPDATE_IN_7: &[u8] =
    b"\x0c\x00\x00\x00\x07\x00\x00\x00\x00\x00\x00\x00\x00\x02\x00\x00\x00\x00\x09\x00\x00\x00\x17";

/// A header that is a byte short.
const SHORT_HEADER: &[u8] = b"\x00\x00\x00\x02\x00\x00\x00\x00\x00\x00\x00\x00\x00\x00\x00";

/// A file has room for four or five short records.
pub const TWO_FILES: Sizes = Sizes {
    file: 128,
    buffer: 64,
    files: 2,
};

/// Files that are soon made, and a buffer for one or two records.
const SOON_MADE: Sizes = Sizes {
    file: 1024,
    buffer: 64,
    files: 2,
};

/// On what disk a run begins.
enum On {
    /// One with the row's file, or with none.
    New,
    /// The one that the run of the row before left.
    Left,
    /// What a crash behind that run left.
    Crashed(Pick),
}

/// What is wanted of a file: that it is there or not, or that it has these pieces, and `fill` behind them
/// up to this length.
#[derive(Clone, Copy)]
enum Holds {
    There,
    Gone,
    Whole(&'static [&'static [u8]], usize, u8),
}

/// A run, and what is wanted of it. What is `None` isn't looked at.
struct Row {
    name: &'static str,
    on: On,
    file: Option<File>,
    /// These are made on that disk and aren't synced.
    puts: &'static [File],
    sizes: Option<Sizes>,
    words: &'static [&'static str],
    script: &'static [&'static [u8]],
    streams: Streams,
    /// The call of the disk that fails, 0 for none.
    fails: u64,
    ended: Ended,
    text: &'static [&'static [u8]],
    moment: Option<u64>,
    /// How many appends the last receipt counts, `None` in the `Some` where there is none.
    last: Option<Option<u64>>,
    /// The seats and the numbers of the steps.
    steps: Option<&'static [(u32, u64)]>,
    /// The first step's command, as it is written for debugging.
    command: Option<&'static str>,
    /// How many records the base has.
    base: Option<usize>,
    /// Whether the files that were there are as they were.
    same: bool,
    holds: &'static [(&'static str, Holds)],
    /// How many files the disk has.
    files: Option<usize>,
}

/// A replay on an empty disk that does all.
const REPLAYED: Row = Row {
    name: "",
    on: On::New,
    file: None,
    puts: &[],
    sizes: Some(SMALL),
    words: REPLAY,
    script: &[],
    streams: WHOLE,
    fails: 0,
    ended: OK,
    text: &[],
    moment: None,
    last: None,
    steps: None,
    command: None,
    base: None,
    same: false,
    holds: &[],
    files: None,
};

const SCRIPT_UNBUILT: Row = Row {
    ended: SCRIPT_NOT_BUILT,
    moment: Some(0),
    ..REPLAYED
};

const WORDS_UNBUILT: Row = Row {
    script: &[SHORT_SCRIPT],
    ended: WORDS_NOT_BUILT,
    moment: Some(0),
    ..REPLAYED
};

/// A print beside a script that isn't read.
const PRINTED: Row = Row {
    words: PRINT,
    script: &[SHORT_SCRIPT],
    ..REPLAYED
};

/// A print of files that stay as they are.
const PRINTED_SHORT: Row = Row {
    sizes: Some(SOON_MADE),
    words: PRINT,
    same: true,
    ..REPLAYED
};

/// A transaction is prepared, and takes no further record.
const PREPARED: Row = Row {
    name: "a transaction is prepared, to be committed",
    script: &[b"begin a\naddtx a 3 7 6869\nprepare a 0102\naddtx a 4 7 -\n"],
    text: &[
        b"tx 1\nok 0\nok 1\nrefused TxPrepared 1\nlive 0\nin doubt 1\ntx 1 extra 0102 records 1 deletes 0\n  add 3 7 6869\n",
    ],
    ..REPLAYED
};

/// A later opening, which reads no source, commits it.
const SETTLED: Row = Row {
    name: "a transaction is committed by a number of 19 digits",
    on: On::Left,
    words: &["folder", "settle", "commit", "0000000000000000001"],
    script: &[SHORT_SCRIPT],
    streams: SOURCE_FAILS,
    text: &[b"ok 0\n", THIRD],
    ..REPLAYED
};

/// Then there is none of that number.
const SETTLED_AGAIN: Row = Row {
    on: On::Crashed(Pick::Revert),
    script: &[SHORT_SCRIPT],
    text: &[b"refused NoTx 1\n", THIRD],
    ..REPLAYED
};

/// The first read of the source fails.
const SOURCE_FAILS: Streams = Streams {
    piece: 4096,
    source: 1,
    sink: 0,
};

/// An empty file with the control file's name.
const CONTROL_FILE: File = File {
    name: "journal-rename-control.ctr",
    pieces: &[],
    len: 0,
    fill: 0,
};

/// A file of version 3, filled as a broker does.
const OF_VERSION: File = File {
    name: DATA_FILE,
    pieces: &[HEADER_OF_VERSION_3, ADD],
    len: 256,
    fill: b'J',
};

const WITH_ADD: File = File {
    pieces: &[HEADER, ADD],
    ..OF_VERSION
};

/// The same under another name.
const WITH_ADD_AGAIN: File = File {
    name: SECOND_FILE,
    ..WITH_ADD
};

/// A file filled with zeros.
const ZEROS: File = File {
    name: DATA_FILE,
    pieces: &[],
    len: 600,
    fill: 0,
};

/// The pieces of a file of id 7, padded to 512 bytes.
const LAST_PIECES: &[&[u8]] = &[
    HEADER_OF_7,
    FIRST_PADDING,
    DELETE_IN_7,
    PADDING,
    UPDATE_IN_7,
];

/// The file of the greatest id among four.
const LAST_OF_4: File = File {
    name: "activemq-data-10.amq",
    pieces: LAST_PIECES,
    len: 2048,
    fill: 0,
};

/// A temporary, a compacted and a foreign file.
pub const LEFTOVERS: &[File] = &[
    File {
        name: "activemq-data-9.amq.tmp",
        pieces: &[],
        len: 5,
        fill: 1,
    },
    File {
        name: "activemq-data-3.amq.cmp",
        pieces: &[],
        len: 40,
        fill: 2,
    },
    File {
        name: "notes.txt",
        pieces: &[],
        len: 3,
        fill: 3,
    },
];

/// With the default configuration, whose files have 10,485,760 bytes.
const DEFAULT_ROWS: &[Row] = &[
    Row {
        name: "a tick at the default timeout",
        sizes: None,
        script: &[b"add 1 7 -\nupdate 1 8 6a\ntick 2\ntick 3\n"],
        text: &[
            b"ok 0\nok 1\ndurable 0\ndurable 2\nlive 2\nadd 1 7 -\nupdate 1 8 6a\nin doubt 0\n",
        ],
        last: Some(Some(2)),
        holds: &[(
            DATA_FILE,
            Holds::Whole(&[HEADER, EMPTY_ADD, UPDATE], 10_485_760, b'J'),
        )],
        ..REPLAYED
    },
    // A flush with the default configuration: the second file is prepared, and there is no third one.
    Row {
        name: "two files at first",
        sizes: None,
        script: &[b"add 1 7 6869\nflush\n"],
        text: &[b"ok 0\ndurable 1\nlive 1\nadd 1 7 6869\nin doubt 0\n"],
        files: Some(2),
        holds: &[
            (DATA_FILE, Holds::There),
            (
                SECOND_FILE,
                Holds::Whole(&[SECOND_HEADER], 10_485_760, b'J'),
            ),
        ],
        ..REPLAYED
    },
];

/// Scripts, their answers and their reports.
const SCRIPTS: &[Row] = &[
    // An add of 1,008 bytes fills the first file behind its header, so the next one stands at place 16 of the
    // second file. One of 1,009 bytes fits no file.
    Row {
        name: "an add that fills a file",
        sizes: Some(SHORT),
        script: &[b"add 1 7 ", ZEROS_985, b"\nadd 2 7 -\n"],
        text: &[
            b"ok 0\nok 1\nlive 2\nadd 1 7 ",
            ZEROS_985,
            b"\nadd 2 7 -\nin doubt 0\n",
        ],
        holds: &[
            (
                DATA_FILE,
                Holds::Whole(&[HEADER, HEAD_OF_985, &[0; 985], TAIL_OF_985], 1024, b'J'),
            ),
            (
                SECOND_FILE,
                Holds::Whole(&[SECOND_HEADER, ADD_IN_SECOND], 1024, b'J'),
            ),
        ],
        ..REPLAYED
    },
    Row {
        name: "an add that fits no file",
        sizes: Some(SHORT),
        script: &[b"add 1 7 ", ZEROS_986, b"\n"],
        text: &[b"refused TooLarge 1009 1008\n", NOTHING],
        ..REPLAYED
    },
    // The add of a transaction fills the first file, so its commit stands in the second one, where it counts
    // no records.
    Row {
        name: "a transaction over two files",
        sizes: Some(SHORT),
        script: &[b"begin a\naddtx a 1 7 ", ZEROS_977, b"\ncommit a\n"],
        text: &[
            b"tx 1\nok 0\nok 1\nlive 1\nadd 1 7 ",
            ZEROS_977,
            b"\nin doubt 0\n",
        ],
        holds: &[(
            SECOND_FILE,
            Holds::Whole(&[SECOND_HEADER, COMMIT_IN_SECOND], 1024, b'J'),
        )],
        ..REPLAYED
    },
    // Each add but the first goes on to a further file, and makes the one before it durable, so the last one
    // alone waits for the tick of its own timeout.
    Row {
        name: "ticks behind a further file",
        sizes: Some(NARROW),
        script: &[b"add 1 7 6869\ntick 1\nadd 2 7 6869\ntick 3\ntick 4\n"],
        text: &[
            b"ok 0\ndurable 0\nok 1\ndurable 1\ndurable 2\nlive 2\nadd 1 7 6869\nadd 2 7 6869\nin doubt 0\n",
        ],
        ..REPLAYED
    },
    // Scripts and their texts. A record of 64 bytes just fits the buffer; lines without words say nothing.
    Row {
        name: "an add again, and a delete of nothing",
        script: &[SHORT_SCRIPT],
        text: &[SHORT_TEXT],
        ..REPLAYED
    },
    Row {
        name: "bodies of 41 and 42 bytes",
        script: &[LONG_SCRIPT],
        text: &[LONG_TEXT],
        ..REPLAYED
    },
    Row {
        name: "an update of nothing",
        script: &[b"update 9 7 -\n"],
        text: &[b"refused NoRecord 9\nlive 0\nin doubt 0\n"],
        ..REPLAYED
    },
    Row {
        name: "flushes and ticks",
        script: &[b"flush\nadd 1 7 -\ntick 9\nflush\ndelete 1\ntick 8\ntick 12\n"],
        text: &[
            b"durable 0\nok 0\ndurable 1\ndurable 1\nok 1\ndurable 1\ndurable 2\nlive 0\nin doubt 0\n",
        ],
        ..REPLAYED
    },
    Row {
        name: "lines without words",
        script: &[b"\n# nothing\n   \nadd 1 7 6869\n\n  delete   1  "],
        text: &[b"ok 0\nok 1\nlive 0\nin doubt 0\n"],
        ..REPLAYED
    },
    Row {
        name: "an empty script",
        script: &[b""],
        text: &[b"live 0\nin doubt 0\n"],
        ..REPLAYED
    },
];

/// Scripts with transactions.
const TRANSACTIONS: &[Row] = &[
    // Transactions: refusals in their order, ids held by an open transaction, and labels that are named again.
    Row {
        name: "an add to a prepared transaction",
        script: &[b"begin a\naddtx a 3 7 6869\nprepare a 0102\naddtx a 4 7 -\n"],
        text: &[
            b"tx 1\nok 0\nok 1\nrefused TxPrepared 1\nlive 0\nin doubt 1\ntx 1 extra 0102 records 1 deletes 0\n  add 3 7 6869\n",
        ],
        ..REPLAYED
    },
    Row {
        name: "an id that is held",
        script: &[b"add 1 7 -\nbegin a\ndeletetx a 1 -\nupdate 1 7 6a\nadd 1 7 -\ndelete 2\n"],
        text: &[
            b"ok 0\ntx 1\nok 1\nrefused Held 1 1\nrefused Held 1 1\nrefused NoRecord 2\nlive 1\nadd 1 7 -\nin doubt 0\n",
        ],
        ..REPLAYED
    },
    Row {
        name: "a label that begins again",
        script: &[b"begin a\ncommit a\nbegin a\naddtx a 1 7 -\nrollback a\ncommit a\n"],
        text: &[b"tx 1\nok 0\ntx 2\nok 1\nok 2\nrefused NoTx 2\nlive 0\nin doubt 0\n"],
        ..REPLAYED
    },
    Row {
        name: "an id deleted twice and added again",
        script: &[
            b"begin a\naddtx a 1 7 -\ndeletetx a 1 -\ndeletetx a 1 -\naddtx a 1 8 6a\ncommit a\n",
        ],
        text: &[
            b"tx 1\nok 0\nok 1\nrefused NoRecord 1\nok 2\nok 3\nlive 1\nadd 1 8 6a\nin doubt 0\n",
        ],
        ..REPLAYED
    },
    Row {
        name: "numbers that are bound and have no transaction",
        script: &[b"bind a 9223372036854775807\ncommit a\nbind a 5\naddtx a 1 7 -\nprepare a -\n"],
        text: &[
            b"bound 9223372036854775807\nrefused NoTx 9223372036854775807\nbound 5\nrefused NoTx 5\nrefused NoTx 5\nlive 0\nin doubt 0\n",
        ],
        ..REPLAYED
    },
    Row {
        name: "two transactions of one id",
        script: &[
            b"add 1 7 -\nbegin a\nupdatetx a 1 7 -\nbegin b\naddtx b 1 7 -\ndeletetx b 2 -\nrollback a\ndeletetx b 1 -\ncommit b\n",
        ],
        text: &[
            b"ok 0\ntx 1\nok 1\ntx 2\nrefused Held 1 1\nrefused NoRecord 2\nok 2\nok 3\nok 4\nlive 0\nin doubt 0\n",
        ],
        ..REPLAYED
    },
    Row {
        name: "a record too large of no transaction",
        script: &[
            b"begin a\ncommit a\naddtx a 1 7 00000000000000000000000000000000000000000000000000000000000000000000\n",
        ],
        text: &[b"tx 1\nok 0\nrefused TooLarge 65 64\nlive 0\nin doubt 0\n"],
        ..REPLAYED
    },
    Row {
        name: "refusals of a prepared transaction",
        script: &[
            b"add 1 7 -\nbegin a\nprepare a -\nbegin b\ndeletetx b 1 -\ndeletetx a 1 -\nprepare a -\ncommit a\nprepare a -\nrollback b\n",
        ],
        text: &[
            b"ok 0\ntx 1\nok 1\ntx 2\nok 2\nrefused TxPrepared 1\nrefused TxPrepared 1\nok 3\nrefused NoTx 1\nok 4\nlive 1\nadd 1 7 -\nin doubt 0\n",
        ],
        ..REPLAYED
    },
    Row {
        name: "a label bound to another transaction",
        script: &[
            b"begin a\nbegin b\naddtx b 1 7 -\nbind a 2\nupdatetx a 1 9 6b\ncommit a\nadd 1 7 -\n",
        ],
        text: &[
            b"tx 1\ntx 2\nok 0\nbound 2\nok 1\nok 2\nrefused AlreadyLive 1\nlive 2\nadd 1 7 -\nupdate 1 9 6b\nin doubt 0\n",
        ],
        ..REPLAYED
    },
    Row {
        name: "ids in their order",
        script: &[
            b"begin a\nadd 1 7 -\nadd 2 7 -\nadd 3 7 -\nadd 4 7 -\nadd 5 7 -\nadd 6 7 -\nadd 7 7 -\nadd 8 7 -\nadd 9 7 -\nadd 10 7 -\ncommit a\n",
        ],
        text: &[
            b"tx 1\nok 0\nok 1\nok 2\nok 3\nok 4\nok 5\nok 6\nok 7\nok 8\nok 9\nok 10\nlive 10\nadd 1 7 -\nadd 2 7 -\nadd 3 7 -\nadd 4 7 -\nadd 5 7 -\nadd 6 7 -\nadd 7 7 -\nadd 8 7 -\nadd 9 7 -\nadd 10 7 -\nin doubt 0\n",
        ],
        ..REPLAYED
    },
];

/// Scripts of forms that aren't built yet.
const UNBUILT: &[Row] = &[
    // What is not built is left alone, here and below: nothing is written, and no call of the disk is made.
    Row {
        name: "a compaction",
        script: &[b"compact\n"],
        ..SCRIPT_UNBUILT
    },
    Row {
        name: "a reclaiming",
        script: &[b"add 1 7 6869\nreclaim\n"],
        ..SCRIPT_UNBUILT
    },
    Row {
        name: "a step",
        script: &[b"step 1\n"],
        ..SCRIPT_UNBUILT
    },
    Row {
        name: "an add with no body",
        script: &[b"add 1 7\n"],
        ..SCRIPT_UNBUILT
    },
    Row {
        name: "a body of half a byte",
        script: &[b"add 1 7 6"],
        ..SCRIPT_UNBUILT
    },
    Row {
        name: "a byte that is no text",
        script: &[b"\xff\n"],
        ..SCRIPT_UNBUILT
    },
];

/// Words of forms that aren't built yet, and a directory that is left alone.
const WORDS: &[Row] = &[
    Row {
        name: "no words",
        words: &[],
        ..WORDS_UNBUILT
    },
    Row {
        name: "no command",
        words: &["folder"],
        ..WORDS_UNBUILT
    },
    Row {
        name: "an unknown command",
        words: &["folder", "records"],
        ..WORDS_UNBUILT
    },
    Row {
        name: "a folder like an option",
        words: &["-folder", "replay"],
        ..WORDS_UNBUILT
    },
    Row {
        name: "a word too many",
        words: &["folder", "replay", "replay"],
        ..WORDS_UNBUILT
    },
    Row {
        name: "a settling of no number",
        words: &["folder", "settle", "commit"],
        ..WORDS_UNBUILT
    },
    Row {
        name: "an unknown end",
        words: &["folder", "settle", "end", "1"],
        ..WORDS_UNBUILT
    },
    Row {
        name: "an empty number",
        words: &["folder", "settle", "commit", ""],
        ..WORDS_UNBUILT
    },
    Row {
        name: "a number with a letter",
        words: &["folder", "settle", "commit", "1x"],
        ..WORDS_UNBUILT
    },
    Row {
        name: "a number too great",
        words: &["folder", "settle", "rollback", "9223372036854775808"],
        ..WORDS_UNBUILT
    },
    Row {
        name: "a number of twenty digits",
        words: &["folder", "settle", "commit", "00000000000000000001"],
        ..WORDS_UNBUILT
    },
    Row {
        name: "a settling of a folder like an option",
        words: &["-folder", "settle", "commit", "1"],
        ..WORDS_UNBUILT
    },
    // Neither a replay nor a settling opens a directory with the control file's name; it is only listed.
    Row {
        name: "a replay beside a control file",
        file: Some(CONTROL_FILE),
        words: REPLAY,
        script: &[SHORT_SCRIPT],
        ended: DIRECTORY_NOT_BUILT,
        moment: Some(1),
        ..REPLAYED
    },
    Row {
        name: "a settling beside a control file",
        file: Some(CONTROL_FILE),
        words: COMMIT,
        script: &[SHORT_SCRIPT],
        ended: DIRECTORY_NOT_BUILT,
        moment: Some(1),
        ..REPLAYED
    },
];

/// Prints, and directories with faults.
const DIRECTORIES: &[Row] = &[
    // A print of what is there: the source isn't read, nothing is opened, and the file that the print found is
    // as it was.
    Row {
        name: "a print of nothing",
        text: &[NOTHING],
        moment: Some(1),
        ..PRINTED
    },
    Row {
        name: "a print of a file, which reads no source",
        file: Some(WITH_ADD),
        streams: SOURCE_FAILS,
        text: &[FIRST],
        steps: Some(&[]),
        last: Some(None),
        same: true,
        ..PRINTED
    },
    // A directory with a fault: another version, and another user version.
    Row {
        name: "a print of another version",
        file: Some(OF_VERSION),
        ended: OF_VERSION_3,
        same: true,
        ..PRINTED
    },
    Row {
        name: "a print of another user version",
        file: Some(File {
            pieces: &[HEADER_OF_USER_VERSION_5, ADD],
            ..OF_VERSION
        }),
        ended: OF_USER_VERSION_5,
        same: true,
        ..PRINTED
    },
    // A print ends with a disk that fails, with a sink that fails, and at a file with the control file's name.
    Row {
        name: "a print with a disk that fails",
        fails: 1,
        ended: DISK_FAULT,
        ..PRINTED
    },
    Row {
        name: "a print with a sink that fails",
        streams: Streams {
            piece: 4,
            source: 0,
            sink: 2,
        },
        ended: SINK_FAULT,
        text: &[b"live"],
        ..PRINTED
    },
    Row {
        name: "a print beside a control file",
        file: Some(CONTROL_FILE),
        ended: DIRECTORY_NOT_BUILT,
        ..PRINTED
    },
    // A call makes each of three files of other names, and the print makes a list and one read.
    Row {
        name: "a print that reads no file of another name",
        file: Some(WITH_ADD),
        puts: LEFTOVERS,
        text: &[FIRST],
        moment: Some(5),
        same: true,
        ..PRINTED
    },
    // Two files of one id.
    Row {
        name: "a print of two files of one id",
        file: Some(WITH_ADD),
        puts: &[WITH_ADD_AGAIN],
        ended: OF_ONE_ID,
        same: true,
        ..PRINTED
    },
    Row {
        name: "a replay of two files of one id",
        file: Some(WITH_ADD),
        puts: &[WITH_ADD_AGAIN],
        ended: OF_ONE_ID,
        last: Some(None),
        same: true,
        holds: &[("activemq-data-3.amq", Holds::Gone)],
        ..REPLAYED
    },
    // Neither a replay nor a settling changes a directory with a fault.
    Row {
        name: "a replay of another version",
        file: Some(File {
            pieces: &[HEADER_OF_VERSION_3],
            ..OF_VERSION
        }),
        words: REPLAY,
        ended: OF_VERSION_3,
        last: Some(None),
        same: true,
        holds: &[(SECOND_FILE, Holds::Gone)],
        ..REPLAYED
    },
    Row {
        name: "a settling of another version",
        file: Some(File {
            pieces: &[HEADER_OF_VERSION_3],
            ..OF_VERSION
        }),
        words: COMMIT,
        ended: OF_VERSION_3,
        last: Some(None),
        same: true,
        holds: &[(SECOND_FILE, Holds::Gone)],
        ..REPLAYED
    },
];

/// Openings of what an earlier run left.
const OPENINGS: &[Row] = &[
    // A transaction is prepared, and a later opening, which reads no source, commits it; then there is none of
    // that number, neither for a commit nor, on the same disk, for a rollback.
    PREPARED,
    SETTLED,
    Row {
        name: "a commit of a transaction that is settled",
        words: COMMIT,
        ..SETTLED_AGAIN
    },
    PREPARED,
    SETTLED,
    Row {
        name: "a rollback of a transaction that is settled",
        words: ROLLBACK,
        ..SETTLED_AGAIN
    },
    // The same, rolled back.
    Row {
        name: "a transaction is prepared, to be rolled back",
        script: &[b"begin a\naddtx a 3 7 6869\nprepare a 0102\n"],
        text: &[
            b"tx 1\nok 0\nok 1\nlive 0\nin doubt 1\ntx 1 extra 0102 records 1 deletes 0\n  add 3 7 6869\n",
        ],
        ..REPLAYED
    },
    Row {
        name: "a transaction is rolled back",
        on: On::Left,
        words: ROLLBACK,
        script: &[SHORT_SCRIPT],
        text: &[b"ok 0\n", NOTHING],
        ..REPLAYED
    },
    // What an earlier opening left unfinished is removed, a file of another name stays, and the new file has
    // a greater number than all names.
    Row {
        name: "a print of leftovers and other files",
        puts: &[
            File {
                name: "activemq-data-9.amq.tmp",
                pieces: &[],
                len: 5,
                fill: b'n',
            },
            File {
                name: "notes.txt",
                pieces: &[],
                len: 5,
                fill: b'n',
            },
        ],
        text: &[NOTHING],
        ..PRINTED
    },
    Row {
        name: "a replay of leftovers and other files",
        on: On::Left,
        text: &[NOTHING],
        holds: &[
            ("activemq-data-9.amq.tmp", Holds::Gone),
            ("notes.txt", Holds::Whole(&[b"nnnnn"], 5, 0)),
            ("activemq-data-10.amq", Holds::There),
            (DATA_FILE, Holds::Gone),
        ],
        ..REPLAYED
    },
    // There is no number for a further file, so the directory isn't opened; a print reports it.
    Row {
        name: "a replay of the greatest file id",
        file: Some(File {
            pieces: &[GREATEST_HEADER, ADD_IN_GREATEST],
            ..OF_VERSION
        }),
        script: &[SHORT_SCRIPT],
        ended: FILE_IDS_SPENT,
        ..REPLAYED
    },
    Row {
        name: "a print of the greatest file id",
        on: On::Left,
        text: &[FIRST],
        ..PRINTED
    },
    // The opening begins a file of the number before the greatest, and the second add goes on to the one of
    // the greatest. The third needs a further file, and there is no number for it.
    Row {
        name: "a move behind the greatest file id",
        file: Some(File {
            pieces: &[LAST_BUT_TWO_HEADER],
            ..OF_VERSION
        }),
        sizes: Some(NARROW),
        script: &[b"add 1 7 6869\nadd 2 7 796f\nadd 3 7 6869\n"],
        text: &[
            b"ok 0\nok 1\nrefused FileIdsSpent 2147483647\nlive 2\nadd 1 7 6869\nadd 2 7 796f\nin doubt 0\n",
        ],
        ..REPLAYED
    },
    // The file of the greatest number has room for two rollbacks, and there are three.
    Row {
        name: "rollbacks behind the greatest file id",
        file: Some(File {
            pieces: &[LAST_BUT_ONE_HEADER, OPEN_IN_LAST_BUT_ONE],
            ..OF_VERSION
        }),
        sizes: Some(NARROW),
        script: &[SHORT_SCRIPT],
        ended: FILE_IDS_SPENT,
        last: Some(Some(0)),
        same: true,
        ..REPLAYED
    },
    // The greatest number of a transaction is used, so there is none for another one.
    Row {
        name: "the greatest transaction number",
        file: Some(File {
            pieces: &[HEADER, GREATEST_ROLLBACK],
            ..OF_VERSION
        }),
        script: &[b"begin a\ncommit a\n"],
        text: &[
            b"refused TxNumbersSpent 9223372036854775807\nrefused NoTx 0\n",
            NOTHING,
        ],
        ..REPLAYED
    },
    // The opening rolls back what was left open. Its append has the place 0, and it is durable.
    Row {
        name: "a transaction that was left open",
        file: Some(File {
            pieces: &[HEADER, ADD_TX],
            ..OF_VERSION
        }),
        script: &[b"tick 0\nadd 1 7 -\n"],
        text: &[b"durable 1\nok 1\nlive 1\nadd 1 7 -\nin doubt 0\n"],
        steps: Some(&[(0, 1), (1, 1)]),
        command: Some("Rollback { tx: 5 }"),
        base: Some(1),
        last: Some(Some(2)),
        ..REPLAYED
    },
    // The journal is closed and loaded again before the sink is called.
    Row {
        name: "a script before an empty one",
        script: &[SHORT_SCRIPT],
        text: &[SHORT_TEXT],
        ..REPLAYED
    },
    Row {
        name: "an empty script and a sink that fails",
        on: On::Left,
        streams: Streams {
            piece: 4096,
            source: 0,
            sink: 1,
        },
        ended: SINK_FAULT,
        ..REPLAYED
    },
    Row {
        name: "a print behind a sink that failed",
        on: On::Left,
        text: &[FIRST],
        ..PRINTED
    },
    Row {
        name: "streams that move a byte a call",
        script: &[SHORT_SCRIPT],
        streams: Streams {
            piece: 1,
            source: 0,
            sink: 0,
        },
        text: &[SHORT_TEXT],
        ..REPLAYED
    },
];

/// Directories as a broker writes them, and what is left unfinished.
const BROKERS: &[Row] = &[
    // Prints of a file filled with zeros, which is not synced, and stays as it is: a record with a wrong check
    // size or length is passed over, and so is one of another file; a commit counts its transaction's
    // records; a broker may pad with zeros.
    Row {
        name: "a wrong check size",
        puts: &[File {
            pieces: &[HEADER, ADD_OF_WRONG_SIZE, SECOND_ADD],
            ..ZEROS
        }],
        text: &[SECOND],
        ..PRINTED_SHORT
    },
    Row {
        name: "a negative length",
        puts: &[File {
            pieces: &[HEADER, ADD_OF_NEGATIVE_LENGTH, SECOND_ADD],
            ..ZEROS
        }],
        text: &[SECOND],
        ..PRINTED_SHORT
    },
    Row {
        name: "the greatest length",
        puts: &[File {
            pieces: &[HEADER, ADD_OF_GREATEST_LENGTH, SECOND_ADD],
            ..ZEROS
        }],
        text: &[SECOND],
        ..PRINTED_SHORT
    },
    Row {
        name: "a record of another file",
        puts: &[File {
            pieces: &[SECOND_HEADER, ADD],
            ..ZEROS
        }],
        text: &[NOTHING],
        ..PRINTED_SHORT
    },
    Row {
        name: "a commit that counts more",
        puts: &[File {
            pieces: &[HEADER, ADD_TX, FILLING, COMMIT_OF_2],
            ..ZEROS
        }],
        text: &[NOTHING],
        ..PRINTED_SHORT
    },
    Row {
        name: "a commit that counts right",
        puts: &[File {
            pieces: &[HEADER, ADD_TX, FILLING, COMMIT_OF_1],
            ..ZEROS
        }],
        text: &[THIRD],
        ..PRINTED_SHORT
    },
    Row {
        name: "a commit of nothing",
        puts: &[File {
            pieces: &[HEADER, COMMIT_OF_0],
            ..ZEROS
        }],
        text: &[NOTHING],
        ..PRINTED_SHORT
    },
    Row {
        name: "a header padded with zeros",
        puts: &[File {
            pieces: &[HEADER, FIRST_PADDING, ADD],
            ..ZEROS
        }],
        text: &[FIRST],
        ..PRINTED_SHORT
    },
    // The ids of the files rise against the order of their names, the records are padded to 512 bytes and
    // the files filled with zeros, one has a header alone, and one is too short for a header. A print and an
    // opening give the same report.
    Row {
        name: "a print of files out of order",
        puts: &[
            LAST_OF_4,
            File {
                name: "activemq-data-003.amq",
                pieces: &[HEADER_OF_4],
                len: 16,
                fill: 0,
            },
            File {
                name: SECOND_FILE,
                pieces: &[HEADER, FIRST_PADDING, ADD, PADDING, SECOND_ADD],
                len: 2048,
                fill: 0,
            },
            File {
                name: "activemq-data-31.amq",
                pieces: &[SHORT_HEADER],
                len: 15,
                fill: 0,
            },
        ],
        text: &[OUT_OF_ORDER],
        ..PRINTED_SHORT
    },
    Row {
        name: "an opening of files out of order",
        on: On::Left,
        sizes: Some(SOON_MADE),
        text: &[OUT_OF_ORDER],
        holds: &[
            ("activemq-data-32.amq", Holds::There),
            ("activemq-data-10.amq", Holds::Whole(LAST_PIECES, 2048, 0)),
        ],
        ..REPLAYED
    },
    // The opening rolls the two transactions back that aren't prepared, removes what was left unfinished,
    // keeps the foreign file, and gives its new file the number behind the greatest in a name.
    Row {
        name: "three transactions are left",
        sizes: Some(TWO_FILES),
        script: &[LEFT_OPEN],
        text: &[
            b"ok 0\ntx 1\nok 1\ntx 2\nok 2\nok 3\ndurable 4\ntx 3\nok 4\nok 5\nok 6\n",
            LEFT_OPEN_REPORT,
        ],
        last: Some(Some(7)),
        ..REPLAYED
    },
    Row {
        name: "an opening of a directory with leftovers",
        on: On::Left,
        sizes: Some(TWO_FILES),
        puts: LEFTOVERS,
        text: &[LEFT_OPEN_REPORT],
        holds: &[
            ("activemq-data-9.amq.tmp", Holds::Gone),
            ("activemq-data-3.amq.cmp", Holds::Gone),
            ("notes.txt", Holds::Whole(&[b"\x03\x03\x03"], 3, 0)),
            ("activemq-data-10.amq", Holds::There),
        ],
        ..REPLAYED
    },
];

/// The disk on which the row's run begins.
fn begun(
    rt: &impl Abort,
    alloc: Global,
    row: &Row,
    before: MemoryDisk,
) -> Result<MemoryDisk, Fail> {
    let mut disk = match row.on {
        On::New => disk_of(alloc, row.file, row.fails)?,
        On::Left => before,
        On::Crashed(pick) => before.crash(pick)?,
    };
    put_all(rt, alloc, &mut disk, row.puts)?;
    Ok(disk)
}

/// What the row wants of the steps, of the receipts and of the base.
fn check_kept(rt: &impl Abort, alloc: Global, row: &Row, kept: &Kept) -> Result<(), Fail> {
    let name = row.name;
    if let Some(last) = row.last {
        assert_eq!(rt; last_count(kept), last, "{name}");
    }
    if let Some(steps) = row.steps {
        let mut seats = Vec::new(alloc);
        for step in kept.steps.as_slice() {
            seats.push((step.seat, step.number))?;
        }
        assert_eq!(rt; seats.as_slice(), steps, "{name}");
    }
    if let Some(base) = row.base {
        assert_eq!(rt; kept.base.as_slice().len(), base, "{name}");
    }
    Ok(())
}

/// The first step's command is the row's.
fn check_command(rt: &impl Abort, alloc: Global, row: &Row, kept: &Kept) -> Result<(), Fail> {
    if let Some(command) = row.command {
        let step = kept.steps.as_slice().first().ok_or(row.name)?;
        let first = format!(in alloc; "{:?}", step.command)?;
        assert_eq!(rt; first.as_str(), command, "{}", row.name);
    }
    Ok(())
}

/// The file of the disk is as it is wanted.
fn check_file(
    rt: &impl Abort,
    alloc: Global,
    name: &str,
    disk: &MemoryDisk,
    file: &str,
    holds: &Holds,
) -> Result<(), Fail> {
    let found = disk.look(file)?;
    match holds {
        Holds::There => assert!(rt; found.is_some(), "{name}: {file}"),
        Holds::Gone => assert!(rt; found.is_none(), "{name}: {file}"),
        Holds::Whole(pieces, len, fill) => {
            let wanted = joined(alloc, pieces, *len, *fill)?;
            assert!(rt; found == Some(wanted), "{name}: {file}");
        }
    }
    Ok(())
}

/// The file is as it was.
fn check_same(
    rt: &impl Abort,
    alloc: Global,
    name: &str,
    disk: &MemoryDisk,
    file: &File,
) -> Result<(), Fail> {
    let holds = Holds::Whole(file.pieces, file.len, file.fill);
    check_file(rt, alloc, name, disk, file.name, &holds)
}

/// What the row wants of the files.
fn check_files(rt: &impl Abort, alloc: Global, row: &Row, disk: &MemoryDisk) -> Result<(), Fail> {
    for (file, holds) in row.holds {
        check_file(rt, alloc, row.name, disk, file, holds)?;
    }
    if row.same {
        for file in row.puts {
            check_same(rt, alloc, row.name, disk, file)?;
        }
        if let Some(file) = row.file {
            check_same(rt, alloc, row.name, disk, &file)?;
        }
    }
    Ok(())
}

/// The run of the row leaves what is wanted.
fn check_row(rt: &impl Abort, alloc: Global, row: &Row, left: &Left) -> Result<(), Fail> {
    let text = joined(alloc, row.text, 0, 0)?;
    check_ended(rt, alloc, row.name, left, &row.ended, &text)?;
    if let Some(moment) = row.moment {
        assert_eq!(rt; left.disk.moment(), moment, "{}", row.name);
    }
    check_kept(rt, alloc, row, &left.kept)?;
    check_command(rt, alloc, row, &left.kept)?;
    check_files(rt, alloc, row, &left.disk)
}

/// Runs the rows one behind the other.
fn check_rows(rt: &impl Abort, alloc: Global, rows: &[Row]) -> Result<(), Fail> {
    let mut disk = MemoryDisk::new(alloc)?;
    for row in rows {
        let on = begun(rt, alloc, row, disk)?;
        let script = joined(alloc, row.script, 0, 0)?;
        let left = run(alloc, row.sizes, row.words, &script, on, &row.streams)?;
        check_row(rt, alloc, row, &left)?;
        disk = left.disk;
        if let Some(files) = row.files {
            assert_eq!(rt; disk.list()?.len(), files, "{}", row.name);
        }
    }
    Ok(())
}

// A table in each function, since a proof of all rows at once takes too many steps.
fn check_scripts(rt: &impl Abort, alloc: Global) -> Result<(), Fail> {
    check_rows(rt, alloc, SCRIPTS)
}

fn check_transactions(rt: &impl Abort, alloc: Global) -> Result<(), Fail> {
    check_rows(rt, alloc, TRANSACTIONS)
}

fn check_unbuilt(rt: &impl Abort, alloc: Global) -> Result<(), Fail> {
    check_rows(rt, alloc, UNBUILT)
}

fn check_words(rt: &impl Abort, alloc: Global) -> Result<(), Fail> {
    check_rows(rt, alloc, WORDS)
}

fn check_directories(rt: &impl Abort, alloc: Global) -> Result<(), Fail> {
    check_rows(rt, alloc, DIRECTORIES)
}

fn check_openings(rt: &impl Abort, alloc: Global) -> Result<(), Fail> {
    check_rows(rt, alloc, OPENINGS)
}

fn check_brokers(rt: &impl Abort, alloc: Global) -> Result<(), Fail> {
    check_rows(rt, alloc, BROKERS)
}

#[test]
fn runs(rt: HostRuntime) -> Result<(), Fail> {
    let alloc = rt.alloc();
    check_scripts(&rt, alloc)?;
    check_transactions(&rt, alloc)?;
    check_unbuilt(&rt, alloc)?;
    check_words(&rt, alloc)?;
    check_directories(&rt, alloc)?;
    check_openings(&rt, alloc)?;
    check_brokers(&rt, alloc)
}

#[test]
fn runs_with_the_default_configuration(rt: HostRuntime) -> Result<(), Fail> {
    check_rows(&rt, rt.alloc(), DEFAULT_ROWS)
}
