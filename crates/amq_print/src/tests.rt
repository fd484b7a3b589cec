use crate::{push_answer, push_bound, record_lines, report};
use amq_model::{
    Answer, Bytes, DataFile, DiskCall, Entry, EntryKind, InDoubt, Items, LoadState, Name, Phase,
    Placed, Record, Refusal, Removal, Reply,
};
use std::alloc::{AllocError, Global};
use std::test::Fail;

fn entry(alloc: Global, kind: EntryKind, id: u64, body: &[u8]) -> Result<Entry, AllocError> {
    Ok(Entry {
        kind,
        id,
        user_type: 7,
        body: Bytes::of(body.to_vec(alloc)?),
    })
}

/// Answers, the bound behind them if there is one, and their lines.
const ANSWERS: &[(&str, &[Answer], Option<u64>, &str)] = &[
    (
        "replies",
        &[
            Answer::Done(Reply::Appended { place: 0 }),
            Answer::Done(Reply::Begun { tx: 1 }),
            Answer::Done(Reply::Appended { place: 1 }),
            Answer::Refused(Refusal::Held { id: 1, tx: 1 }),
            Answer::Refused(Refusal::NoRecord { id: 2 }),
            Answer::Done(Reply::Durable {
                count: 18446744073709551615,
            }),
        ],
        Some(5),
        "ok 0\ntx 1\nok 1\nrefused Held 1 1\nrefused NoRecord 2\ndurable 18446744073709551615\nbound 5\n",
    ),
    (
        "refusals of a record or a transaction",
        &[
            Answer::Refused(Refusal::Closed {
                fault: DiskCall::WriteAt,
            }),
            Answer::Refused(Refusal::TooLarge { len: 65, limit: 64 }),
            Answer::Refused(Refusal::NoTx { tx: 1 }),
            Answer::Refused(Refusal::TxPrepared { tx: 1 }),
            Answer::Refused(Refusal::AlreadyLive { id: 10 }),
        ],
        None,
        "refused Closed WriteAt\nrefused TooLarge 65 64\nrefused NoTx 1\nrefused TxPrepared 1\nrefused AlreadyLive 10\n",
    ),
    (
        "refusals of numbers and the disk, with no line for want of memory",
        &[
            Answer::Refused(Refusal::TxNumbersSpent {
                highest: 9223372036854775807,
            }),
            Answer::Refused(Refusal::Compacting {
                phase: Phase::Reading,
            }),
            Answer::Refused(Refusal::FileIdsSpent {
                highest: 2147483647,
            }),
            Answer::Refused(Refusal::NoMemory),
            Answer::Refused(Refusal::Disk {
                call: DiskCall::Sync,
            }),
        ],
        None,
        "refused TxNumbersSpent 9223372036854775807\nrefused Compacting Reading\nrefused FileIdsSpent 2147483647\nrefused Disk Sync\n",
    ),
];

#[test]
fn answer_lines(rt: HostRuntime) -> Result<(), Fail> {
    for (name, answers, bound, lines) in ANSWERS {
        let mut out = Vec::new(rt.alloc());
        for answer in *answers {
            push_answer(&mut out, answer)?;
        }
        if let Some(bound) = bound {
            push_bound(&mut out, *bound)?;
        }
        assert_eq!(rt; out.as_slice(), lines.as_bytes(), "{name}");
    }
    Ok(())
}

/// One transaction in doubt, of an add and a delete, and two live records.
fn in_doubt(alloc: Global) -> Result<LoadState, AllocError> {
    let mut records = Vec::new(alloc);
    records.push(entry(alloc, EntryKind::Add, 3, &[0x68, 0x69])?)?;
    let mut deletes = Vec::new(alloc);
    deletes.push(Removal {
        id: 9,
        body: Bytes::of(Vec::new(alloc)),
    })?;
    let mut in_doubt = Vec::new(alloc);
    in_doubt.push(InDoubt {
        tx: 1,
        extra: Bytes::of([1, 2].to_vec(alloc)?),
        records: Items::of(records),
        deletes: Items::of(deletes),
    })?;
    let mut live = Vec::new(alloc);
    live.push(entry(alloc, EntryKind::Add, 1, &[])?)?;
    live.push(entry(alloc, EntryKind::Update, 2, &[0xaf, 0x00, 0xff])?)?;
    Ok(LoadState {
        live: Items::of(live),
        in_doubt: Items::of(in_doubt),
    })
}

#[test]
fn reports(rt: HostRuntime) -> Result<(), Fail> {
    let alloc = rt.alloc();
    let empty = LoadState {
        live: Items::of(Vec::new(alloc)),
        in_doubt: Items::of(Vec::new(alloc)),
    };
    let in_doubt = in_doubt(alloc)?;
    let rows = [
        ("an empty state", &empty, "live 0\nin doubt 0\n"),
        (
            "a transaction in doubt",
            &in_doubt,
            "live 2\nadd 1 7 -\nupdate 2 7 af00ff\nin doubt 1\ntx 1 extra 0102 records 1 deletes 1\n  add 3 7 6869\n  delete 9 -\n",
        ),
    ];
    for (name, state, text) in rows {
        let out = report(alloc, state)?;
        assert_eq!(rt; out.as_slice(), text.as_bytes(), "{name}");
    }
    Ok(())
}

/// A file by its name, id and version.
type File = (&'static str, u64, u32);

const FIRST: &[File] = &[("activemq-data-1.amq", 1, 2)];

const SEVERAL: &[File] = &[
    ("activemq-data-9.amq", 2, 2),
    ("activemq-data-3.amq", 3, 1),
    ("activemq-data-1.amq.cmp", 4, 2),
];

const SEVENTH: &[File] = &[("activemq-data-7.amq", 7, 2)];

/// The lines of `SEVERAL` with the records of `all_kinds`.
const LINES_OF_SEVERAL: &str =
    "file 2 activemq-data-9.amq version 2 user 6\n16 ADD compact 255 id 1 type 255 body af\n40 UPDATE compact 1 id 1 type 0 body -\n63 UPDATE_TX compact 0 tx 5 id 3 type 8 body -\nfile 3 activemq-data-3.amq version 1 user 6\nfile 4 activemq-data-1.amq.cmp version 2 user 6\n16 DELETE_TX compact 0 tx 5 id 9 body 01\n47 DELETE compact 0 id 1\n";

fn data_files(alloc: Global, files: &[File]) -> Result<Vec<DataFile>, Fail> {
    let mut made = Vec::new(alloc);
    for (name, id, version) in files {
        let name = Name::of(alloc, name)?.ok_or("no name")?;
        made.push(DataFile {
            name,
            id: *id,
            len: 1024,
            version: *version,
        })?;
    }
    Ok(made)
}

fn placed(file: u64, place: u64, compact: u8, rec: Record) -> Placed {
    Placed {
        file,
        place,
        compact,
        rec,
    }
}

/// A transaction of one add, whose COMMIT counts two.
fn transaction(alloc: Global) -> Result<Vec<Placed>, AllocError> {
    let add = Record::AddTx {
        tx: 5,
        id: 3,
        user_type: 7,
        body: Bytes::of(b"hi".to_vec(alloc)?),
    };
    let mut base = Vec::new(alloc);
    base.push(placed(1, 16, 0, add))?;
    base.push(placed(1, 82, 0, Record::Commit { tx: 5, count: 2 }))?;
    Ok(base)
}

/// One record of each kind, in three files.
fn all_kinds(alloc: Global) -> Result<Vec<Placed>, AllocError> {
    let empty = Bytes::of(Vec::new(alloc));
    let mut base = Vec::new(alloc);
    let rec = Record::Add {
        id: 1,
        user_type: 255,
        body: Bytes::of([0xaf].to_vec(alloc)?),
    };
    base.push(placed(2, 16, 255, rec))?;
    let rec = Record::Update {
        id: 1,
        user_type: 0,
        body: empty,
    };
    base.push(placed(2, 40, 1, rec))?;
    let rec = Record::UpdateTx {
        tx: 5,
        id: 3,
        user_type: 8,
        body: Bytes::of(Vec::new(alloc)),
    };
    base.push(placed(2, 63, 0, rec))?;
    let rec = Record::DeleteTx {
        tx: 5,
        id: 9,
        body: Bytes::of([1].to_vec(alloc)?),
    };
    base.push(placed(4, 16, 0, rec))?;
    base.push(placed(4, 47, 0, Record::Delete { id: 1 }))?;
    let rec = Record::Prepare {
        tx: 5,
        count: 2,
        extra: Bytes::of([1, 2].to_vec(alloc)?),
    };
    base.push(placed(7, 16, 0, rec))?;
    base.push(placed(7, 44, 0, Record::Rollback { tx: 5 }))?;
    Ok(base)
}

#[test]
fn records(rt: HostRuntime) -> Result<(), Fail> {
    let alloc = rt.alloc();
    let one = transaction(alloc)?;
    let all = all_kinds(alloc)?;
    // The same records with the first file's behind the others.
    let mut turned = all_kinds(alloc)?;
    let of_first = turned.len().min(3);
    turned.rotate_left(of_first);
    let rows = [
        (
            "one file",
            FIRST,
            one.as_slice(),
            0,
            "file 1 activemq-data-1.amq version 2 user 0\n16 ADD_TX compact 0 tx 5 id 3 type 7 body 6869\n82 COMMIT compact 0 tx 5 number 2\n",
        ),
        (
            "several files",
            SEVERAL,
            all.as_slice(),
            6,
            LINES_OF_SEVERAL,
        ),
        (
            "several files, turned",
            SEVERAL,
            turned.as_slice(),
            6,
            LINES_OF_SEVERAL,
        ),
        (
            "the seventh file",
            SEVENTH,
            turned.as_slice(),
            2147483647,
            "file 7 activemq-data-7.amq version 2 user 2147483647\n16 PREPARE compact 0 tx 5 number 2 extra 0102\n44 ROLLBACK compact 0 tx 5\n",
        ),
    ];
    for (name, files, base, user_version, lines) in rows {
        let files = data_files(alloc, files)?;
        let out = record_lines(alloc, &files, base, user_version)?;
        assert_eq!(rt; out.as_slice(), lines.as_bytes(), "{name}");
    }
    Ok(())
}
