//! What an engine is asked from its opening to its close, what it answers, and what it leaves.
use amq_engine::Receipted;
use amq_io::Pick;
use amq_model::{Brief, DiskCall, Refusal};
use amq_samples::{ADD, HEADER, NARROW, SECOND_HEADER, SMALL, Sizes};

/// What an engine is asked. An update has type 8, and the other records have type 7.
#[derive(Clone, Copy)]
pub enum Ask {
    Add(u64, &'static [u8]),
    Update(u64, &'static [u8]),
    Delete(u64),
    Begin,
    /// An add of a transaction.
    AddTx(u64, u64, &'static [u8]),
    Commit(u64),
    /// The command.
    FlushCommand,
    /// The engine's own call.
    Flush,
    Tick(u64),
}

/// What it answers.
#[derive(Clone, Copy, Debug, PartialEq)]
pub enum Told {
    /// The place of the append.
    Appended(u64),
    /// The number of the transaction.
    Begun(u64),
    /// How many appends are durable.
    Durable(u64),
    Refused(Refusal),
    /// Refused, since this disk call failed.
    Failed(DiskCall),
    /// Refused, since this disk call failed before.
    Closed(DiskCall),
}

/// The file in use, how many appends there were, and how many of them are durable.
pub type Stand = (u64, u64, u64);

/// What it is asked, what it answers, and how it stands behind that.
pub type Step = (Ask, Told, Stand);

/// What is wanted of a file.
#[derive(Clone, Copy)]
pub enum Wanted {
    Gone,
    There,
    /// These pieces, and behind them the byte 0x4a up to this length.
    Joined(&'static [&'static [u8]], usize),
    /// These bytes at this place.
    Part(usize, &'static [u8]),
    /// The records in the file of this id.
    Records(u32, &'static [Brief]),
}

/// An engine from its opening to its close, on a disk that has no data file before.
#[derive(Clone, Copy)]
pub struct Row {
    pub name: &'static str,
    pub sizes: Sizes,
    /// The number of the disk call that fails; 0 for none.
    pub fails: u64,
    /// The names of empty files that are there before, each made by one disk call.
    pub before: &'static [&'static str],
    /// The file in use behind the opening.
    pub first: u64,
    pub steps: &'static [Step],
    /// What the close answers.
    pub outcome: Told,
    /// How many disk calls there were.
    pub moment: u64,
    pub left: &'static [(&'static str, Wanted)],
    /// The last receipt, where it is compared.
    pub receipt: Option<Receipted>,
    /// Crashes behind the close, and how many records the first file then has, the first of which is the
    /// add of id 1.
    pub crashes: &'static [(Pick, usize)],
}

const FIRST_FILE: &str = "activemq-data-1.amq";

const SECOND_FILE: &str = "activemq-data-2.amq";

const THIRD_FILE: &str = "activemq-data-3.amq";

/// The greatest number of a file.
const GREATEST: u64 = 2_147_483_647;

/// An opening makes a list, and four calls for each of two files. It is closed at once.
const ROW: Row = Row {
    name: "no row",
    sizes: NARROW,
    fails: 0,
    before: &[],
    first: 1,
    steps: &[],
    outcome: Told::Durable(0),
    moment: 9,
    left: &[],
    receipt: None,
    crashes: &[],
};

/// An add that stays in the buffer.
const ADD_1: Step = (Ask::Add(1, b"hi"), Told::Appended(0), (1, 1, 0));

/// One that doesn't fit behind it, so it begins the file that was prepared.
const ADD_2: Step = (Ask::Add(2, b"hi"), Told::Appended(1), (2, 2, 1));

const ADD_3: Ask = Ask::Add(3, b"hi");

pub const ROWS: &[Row] = &[
    // The second record doesn't fit behind the first, so it begins the file that was prepared.
    Row {
        name: "a move",
        steps: &[ADD_1, (Ask::Add(2, b"yo"), Told::Appended(1), (2, 2, 1))],
        outcome: Told::Durable(2),
        moment: 13,
        left: &[
            (FIRST_FILE, Wanted::Joined(&[HEADER, ADD], 64)),
            (
                SECOND_FILE,
                Wanted::Joined(
                    &[
                        SECOND_HEADER,
                        b"\x0b\x00\x00\x00\x02\x00\x00\x00\x00\x00\x00\x00\x00\x02\x00\x00\x00\x02\x07yo\x00\x00\x00\x19",
                    ],
                    64,
                ),
            ),
        ],
        ..ROW
    },
    // The opening makes one disk call, and four for each of two files. The first add makes none; the
    // second goes on to the prepared file, with the two calls of a flush; the third has a file prepared,
    // with four more. The close flushes the last add.
    Row {
        name: "disk calls of no add",
        left: &[(THIRD_FILE, Wanted::Gone)],
        ..ROW
    },
    Row {
        name: "disk calls of one add",
        steps: &[(Ask::Add(0, b"hi"), Told::Appended(0), (1, 1, 0))],
        outcome: Told::Durable(1),
        moment: 11,
        left: &[(THIRD_FILE, Wanted::Gone)],
        ..ROW
    },
    Row {
        name: "disk calls of two adds",
        steps: &[
            (Ask::Add(0, b"hi"), Told::Appended(0), (1, 1, 0)),
            (Ask::Add(1, b"hi"), Told::Appended(1), (2, 2, 1)),
        ],
        outcome: Told::Durable(2),
        moment: 13,
        left: &[(THIRD_FILE, Wanted::Gone)],
        ..ROW
    },
    Row {
        name: "disk calls of three adds",
        steps: &[
            (Ask::Add(0, b"hi"), Told::Appended(0), (1, 1, 0)),
            (Ask::Add(1, b"hi"), Told::Appended(1), (2, 2, 1)),
            (Ask::Add(2, b"hi"), Told::Appended(2), (3, 3, 2)),
        ],
        outcome: Told::Durable(3),
        moment: 19,
        left: &[(THIRD_FILE, Wanted::There)],
        ..ROW
    },
    // The third add has a file prepared and goes on to it, with six disk calls, the 12th to the 17th. Each
    // of them fails in turn; the first two are those of the flush.
    Row {
        name: "the write of a move's flush fails",
        fails: 12,
        steps: &[
            ADD_1,
            ADD_2,
            (ADD_3, Told::Failed(DiskCall::WriteAt), (2, 2, 1)),
            (
                Ask::FlushCommand,
                Told::Closed(DiskCall::WriteAt),
                (2, 2, 1),
            ),
        ],
        outcome: Told::Closed(DiskCall::WriteAt),
        moment: 12,
        receipt: Some(Receipted {
            durable: 1,
            moment: 11,
            steps: 1,
        }),
        ..ROW
    },
    Row {
        name: "the sync of a move's flush fails",
        fails: 13,
        steps: &[
            ADD_1,
            ADD_2,
            (ADD_3, Told::Failed(DiskCall::Sync), (2, 2, 1)),
            (Ask::FlushCommand, Told::Closed(DiskCall::Sync), (2, 2, 1)),
        ],
        outcome: Told::Closed(DiskCall::Sync),
        moment: 13,
        receipt: Some(Receipted {
            durable: 1,
            moment: 11,
            steps: 1,
        }),
        ..ROW
    },
    Row {
        name: "the create of a move's file fails",
        fails: 14,
        steps: &[
            ADD_1,
            ADD_2,
            (ADD_3, Told::Failed(DiskCall::Create), (2, 2, 2)),
            (Ask::FlushCommand, Told::Closed(DiskCall::Create), (2, 2, 2)),
        ],
        outcome: Told::Closed(DiskCall::Create),
        moment: 14,
        receipt: Some(Receipted {
            durable: 2,
            moment: 13,
            steps: 2,
        }),
        ..ROW
    },
    Row {
        name: "the write of a move's file fails",
        fails: 15,
        steps: &[
            ADD_1,
            ADD_2,
            (ADD_3, Told::Failed(DiskCall::WriteAt), (2, 2, 2)),
            (
                Ask::FlushCommand,
                Told::Closed(DiskCall::WriteAt),
                (2, 2, 2),
            ),
        ],
        outcome: Told::Closed(DiskCall::WriteAt),
        moment: 15,
        receipt: Some(Receipted {
            durable: 2,
            moment: 13,
            steps: 2,
        }),
        ..ROW
    },
    Row {
        name: "the sync of a move's file fails",
        fails: 16,
        steps: &[
            ADD_1,
            ADD_2,
            (ADD_3, Told::Failed(DiskCall::Sync), (2, 2, 2)),
            (Ask::FlushCommand, Told::Closed(DiskCall::Sync), (2, 2, 2)),
        ],
        outcome: Told::Closed(DiskCall::Sync),
        moment: 16,
        receipt: Some(Receipted {
            durable: 2,
            moment: 13,
            steps: 2,
        }),
        ..ROW
    },
    Row {
        name: "the rename of a move's file fails",
        fails: 17,
        steps: &[
            ADD_1,
            ADD_2,
            (ADD_3, Told::Failed(DiskCall::Rename), (2, 2, 2)),
            (Ask::FlushCommand, Told::Closed(DiskCall::Rename), (2, 2, 2)),
        ],
        outcome: Told::Closed(DiskCall::Rename),
        moment: 17,
        receipt: Some(Receipted {
            durable: 2,
            moment: 13,
            steps: 2,
        }),
        ..ROW
    },
    // The COMMIT doesn't fit behind the ADD_TX. It counts the records of its own file, which has none.
    Row {
        name: "a commit in a file without adds",
        steps: &[
            (Ask::Begin, Told::Begun(1), (1, 0, 0)),
            (Ask::AddTx(1, 0, b""), Told::Appended(0), (1, 1, 0)),
            (Ask::Commit(1), Told::Appended(1), (2, 2, 1)),
        ],
        outcome: Told::Durable(2),
        moment: 13,
        left: &[
            (
                FIRST_FILE,
                Wanted::Joined(
                    &[
                        HEADER,
                        b"\x0d\x00\x00\x00\x01\x00\x00\x00\x00\x00\x00\x00\x00\x01\x00\x00\x00\x00\x00\x00\x00\x00\x00\x00\x00\x00\x07\x00\x00\x00\x1f",
                    ],
                    64,
                ),
            ),
            (
                SECOND_FILE,
                Wanted::Joined(
                    &[
                        SECOND_HEADER,
                        b"\x12\x00\x00\x00\x02\x00\x00\x00\x00\x00\x00\x00\x00\x01\x00\x00\x00\x00\x00\x00\x00\x16",
                    ],
                    64,
                ),
            ),
        ],
        ..ROW
    },
    // Three adds of 64 bytes stand in the first file, and two in the second, which the COMMIT counts.
    Row {
        name: "a commit of adds in two files",
        sizes: SMALL,
        steps: &[
            (Ask::Begin, Told::Begun(1), (1, 0, 0)),
            (Ask::AddTx(1, 0, &[0x61; 33]), Told::Appended(0), (1, 1, 0)),
            (Ask::AddTx(1, 1, &[0x61; 33]), Told::Appended(1), (1, 2, 1)),
            (Ask::AddTx(1, 2, &[0x61; 33]), Told::Appended(2), (1, 3, 2)),
            (Ask::AddTx(1, 3, &[0x61; 33]), Told::Appended(3), (2, 4, 3)),
            (Ask::AddTx(1, 4, &[0x61; 33]), Told::Appended(4), (2, 5, 4)),
            (Ask::Commit(1), Told::Appended(5), (2, 6, 5)),
        ],
        outcome: Told::Durable(6),
        moment: 21,
        left: &[
            (
                FIRST_FILE,
                Wanted::Records(
                    1,
                    &[
                        Brief::PutTx { tx: 1, id: 0 },
                        Brief::PutTx { tx: 1, id: 1 },
                        Brief::PutTx { tx: 1, id: 2 },
                    ],
                ),
            ),
            (
                SECOND_FILE,
                Wanted::Records(
                    2,
                    &[
                        Brief::PutTx { tx: 1, id: 3 },
                        Brief::PutTx { tx: 1, id: 4 },
                        Brief::Commit { tx: 1, count: 2 },
                    ],
                ),
            ),
            (
                SECOND_FILE,
                Wanted::Part(
                    144,
                    b"\x12\x00\x00\x00\x02\x00\x00\x00\x00\x00\x00\x00\x00\x01\x00\x00\x00\x02\x00\x00\x00\x16",
                ),
            ),
        ],
        ..ROW
    },
    // A record of 64 bytes fits the buffer alone, so the one before it is flushed; one of 65 never fits.
    Row {
        name: "a full buffer",
        sizes: SMALL,
        steps: &[
            (Ask::Add(1, b""), Told::Appended(0), (1, 1, 0)),
            (
                Ask::Add(3, &[0x61; 42]),
                Told::Refused(Refusal::TooLarge { len: 65, limit: 64 }),
                (1, 1, 0),
            ),
            (Ask::Add(2, &[0x61; 41]), Told::Appended(1), (1, 2, 1)),
        ],
        outcome: Told::Durable(2),
        moment: 13,
        ..ROW
    },
    // Two commands whose records fit make no disk call; the tick that flushes both makes two, behind the
    // nine of the opening.
    Row {
        name: "a tick at the timeout",
        sizes: SMALL,
        steps: &[
            (Ask::Add(1, b""), Told::Appended(0), (1, 1, 0)),
            (Ask::Update(1, b"j"), Told::Appended(1), (1, 2, 0)),
            (Ask::Tick(2), Told::Durable(0), (1, 2, 0)),
            (Ask::Tick(3), Told::Durable(2), (1, 2, 2)),
        ],
        outcome: Told::Durable(2),
        moment: 11,
        ..ROW
    },
    // The second flush's sync fails, which is the disk's 13th call.
    Row {
        name: "closed after a sync that failed",
        sizes: SMALL,
        fails: 13,
        steps: &[
            ADD_1,
            (Ask::Flush, Told::Durable(1), (1, 1, 1)),
            (Ask::Add(2, b"yo"), Told::Appended(1), (1, 2, 1)),
            (Ask::Flush, Told::Failed(DiskCall::Sync), (1, 2, 1)),
            (Ask::Flush, Told::Closed(DiskCall::Sync), (1, 2, 1)),
            (Ask::Tick(9), Told::Closed(DiskCall::Sync), (1, 2, 1)),
            (Ask::Add(3, b""), Told::Closed(DiskCall::Sync), (1, 2, 1)),
        ],
        outcome: Told::Closed(DiskCall::Sync),
        moment: 13,
        receipt: Some(Receipted {
            durable: 1,
            moment: 11,
            steps: 1,
        }),
        crashes: &[(Pick::Keep, 2), (Pick::Revert, 1), (Pick::Fill(0), 1)],
        ..ROW
    },
    // The third add has a file of the greatest number prepared. With that one given, a command that needs
    // a further file is refused, and one that fits the file in use is not.
    Row {
        name: "the greatest number, prepared by an add",
        before: &["activemq-data-2147483644.amq.tmp"],
        first: GREATEST - 2,
        steps: &[
            (Ask::Add(1, b"hi"), Told::Appended(0), (GREATEST - 2, 1, 0)),
            (Ask::Add(2, b"hi"), Told::Appended(1), (GREATEST - 1, 2, 1)),
            (ADD_3, Told::Appended(2), (GREATEST, 3, 2)),
            (
                Ask::Add(4, b"hi"),
                Told::Refused(Refusal::FileIdsSpent { highest: GREATEST }),
                (GREATEST, 3, 2),
            ),
            (Ask::Delete(3), Told::Appended(3), (GREATEST, 4, 2)),
        ],
        outcome: Told::Durable(4),
        moment: 21,
        left: &[
            ("activemq-data-2147483644.amq.tmp", Wanted::Gone),
            (
                "activemq-data-2147483645.amq",
                Wanted::Records(2_147_483_645, &[Brief::Put { id: 1 }]),
            ),
            (
                "activemq-data-2147483646.amq",
                Wanted::Records(2_147_483_646, &[Brief::Put { id: 2 }]),
            ),
            (
                "activemq-data-2147483647.amq",
                Wanted::Records(
                    2_147_483_647,
                    &[Brief::Put { id: 3 }, Brief::Kill { id: 3 }],
                ),
            ),
        ],
        ..ROW
    },
    // The opening prepares the file of the greatest number. So the second add is not refused, though that
    // number is given.
    Row {
        name: "the greatest number, prepared by the opening",
        before: &["activemq-data-2147483645.amq.tmp"],
        first: GREATEST - 1,
        steps: &[
            (Ask::Add(1, b"hi"), Told::Appended(0), (GREATEST - 1, 1, 0)),
            (Ask::Add(2, b"hi"), Told::Appended(1), (GREATEST, 2, 1)),
            (
                ADD_3,
                Told::Refused(Refusal::FileIdsSpent { highest: GREATEST }),
                (GREATEST, 2, 1),
            ),
            (Ask::Delete(2), Told::Appended(2), (GREATEST, 3, 1)),
        ],
        outcome: Told::Durable(3),
        moment: 15,
        left: &[
            ("activemq-data-2147483645.amq.tmp", Wanted::Gone),
            ("activemq-data-2147483646.amq", Wanted::There),
            ("activemq-data-2147483647.amq", Wanted::There),
        ],
        ..ROW
    },
];
