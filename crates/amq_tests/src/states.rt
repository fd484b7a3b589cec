//! Worked lists with their results, and both programs for the result on a table of small lists.
use amq_model::{EntryEnd, EntryKind, LoadState, NoMemory, Placed};
use amq_record::{RecordRef, Spot, record_at};
use amq_samples::{
    ADD, ADD_OF_GREATEST_LENGTH, ADD_OF_NEGATIVE_LENGTH, ADD_OF_WRONG_SIZE, ADD_TX, COMMIT_OF_0,
    COMMIT_OF_1, COMMIT_OF_2, HEADER, SECOND_ADD,
};
use amq_state::{Loading, plain_result};
use std::alloc::Global;
use std::process::Abort;
use std::test::Fail;

/// An expected entry of user type 7: its kind, id and body.
type Expected<'a> = (EntryKind, u64, &'a [u8]);

const ADDED_3: Expected<'static> = (EntryKind::Add, 3, b"hi");

const ADDED_2: Expected<'static> = (EntryKind::Add, 2, b"yo");

/// A file: the id that it is read as, the parts behind its header, and its live records.
struct FileRow {
    name: &'static str,
    fid: u32,
    parts: &'static [&'static [u8]],
    live: &'static [Expected<'static>],
}

const FILES: &[FileRow] = &[
    FileRow {
        name: "behind a wrong size",
        fid: 1,
        parts: &[ADD_OF_WRONG_SIZE, SECOND_ADD],
        live: &[ADDED_2],
    },
    FileRow {
        name: "behind a negative length",
        fid: 1,
        parts: &[ADD_OF_NEGATIVE_LENGTH, SECOND_ADD],
        live: &[ADDED_2],
    },
    FileRow {
        name: "behind the greatest length",
        fid: 1,
        parts: &[ADD_OF_GREATEST_LENGTH, SECOND_ADD],
        live: &[ADDED_2],
    },
    FileRow {
        name: "another file's id",
        fid: 2,
        parts: &[ADD],
        live: &[],
    },
    FileRow {
        name: "a padded header",
        fid: 1,
        parts: &[&[0; 496], ADD],
        live: &[(EntryKind::Add, 1, b"hi")],
    },
    FileRow {
        name: "a commit that counts too many",
        fid: 1,
        parts: &[ADD_TX, &[0x4a; 33], COMMIT_OF_2],
        live: &[],
    },
    FileRow {
        name: "a commit that counts right",
        fid: 1,
        parts: &[ADD_TX, &[0x4a; 33], COMMIT_OF_1],
        live: &[ADDED_3],
    },
    FileRow {
        name: "a commit of nothing",
        fid: 1,
        parts: &[COMMIT_OF_0],
        live: &[],
    },
];

/// The state has these live records.
fn has_live(rt: &impl Abort, name: &str, state: &LoadState, live: &[Expected<'_>]) {
    assert_eq!(rt; state.live.len(), live.len(), "{name}");
    for (entry, (kind, id, body)) in state.live.as_slice().iter().zip(live) {
        assert_eq!(rt; entry.kind, *kind, "{name}");
        assert_eq!(rt; entry.id, *id, "{name}");
        assert_eq!(rt; entry.user_type, 7, "{name}");
        assert_eq!(rt; entry.body.as_slice(), *body, "{name}");
    }
}

/// The file of the row, whose records are looked for at each place, has its live records.
fn file_has_live(rt: &impl Abort, alloc: Global, row: &FileRow) -> Result<(), Fail> {
    let name = row.name;
    let fid = row.fid;
    assert!(rt; fid < 10, "{name}");
    let mut bytes = Vec::from_slice(alloc, HEADER)?;
    for part in row.parts {
        bytes.extend_from_slice(part)?;
    }
    let mut spots = Vec::new(alloc);
    for place in 0..bytes.len() {
        if let Some(spot) = record_at(bytes.as_slice(), fid, 2, place) {
            spots.push(spot)?;
        }
    }
    let mut loading = Loading::new(alloc);
    loading.feed_file(1, spots.as_slice())?;
    let state = loading.finish()?;
    has_live(rt, name, &state, row.live);
    assert!(rt; state.in_doubt.is_empty(), "{name}");
    Ok(())
}

/// A load of the records of three files, each of which may have none.
fn loaded(
    alloc: Global,
    first: &[Spot<'_>],
    second: &[Spot<'_>],
    third: &[Spot<'_>],
) -> Result<Loading, NoMemory> {
    let mut loading = Loading::new(alloc);
    loading.feed_file(1, first)?;
    loading.feed_file(2, second)?;
    loading.feed_file(3, third)?;
    Ok(loading)
}

/// The record at this place.
fn at(place: u64, rec: RecordRef<'_>) -> Spot<'_> {
    Spot {
        place,
        len: 0,
        compact: 0,
        rec,
    }
}

const fn add_tx(tx: u64, id: u64, body: &[u8]) -> RecordRef<'_> {
    RecordRef::AddTx {
        tx,
        id,
        user_type: 7,
        body,
    }
}

fn a_commit_counts_its_own_file(rt: &impl Abort, alloc: Global) -> Result<(), Fail> {
    let first = [at(16, add_tx(5, 3, b"hi"))];
    let second = [
        at(16, add_tx(5, 4, b"yo")),
        at(49, RecordRef::Commit { tx: 5, count: 1 }),
    ];
    let loading = loaded(alloc, &first, &second, &[])?;
    let summary = loading.summary()?;
    assert_eq!(rt; summary.live.as_slice(), [3, 4].as_slice());
    assert!(rt; summary.open_txs.is_empty());
    assert_eq!(rt; summary.highest_tx, 5);
    let live = [ADDED_3, (EntryKind::Add, 4, b"yo".as_slice())];
    has_live(rt, "counts its own file", &loading.finish()?, &live);
    Ok(())
}

fn an_id_of_three_records(rt: &impl Abort, alloc: Global) -> Result<(), Fail> {
    let file = [
        at(
            16,
            RecordRef::Update {
                id: 9,
                user_type: 7,
                body: b"",
            },
        ),
        at(39, add_tx(5, 3, b"hi")),
        at(
            72,
            RecordRef::DeleteTx {
                tx: 5,
                id: 3,
                body: b"",
            },
        ),
        at(102, add_tx(5, 3, b"yo")),
        at(135, RecordRef::Commit { tx: 5, count: 3 }),
    ];
    let loading = loaded(alloc, &file, &[], &[])?;
    let live = [
        (EntryKind::Update, 9, b"".as_slice()),
        (EntryKind::Add, 3, b"yo"),
    ];
    has_live(rt, "three records", &loading.finish()?, &live);
    Ok(())
}

fn a_number_prepared_again(rt: &impl Abort, alloc: Global) -> Result<(), Fail> {
    let file = [
        at(16, add_tx(5, 3, b"hi")),
        at(
            49,
            RecordRef::Prepare {
                tx: 5,
                count: 2,
                extra: b"\x01",
            },
        ),
        at(76, RecordRef::Rollback { tx: 5 }),
        at(94, add_tx(5, 4, b"yo")),
        at(
            127,
            RecordRef::Prepare {
                tx: 5,
                count: 1,
                extra: b"\x02",
            },
        ),
        at(
            154,
            RecordRef::DeleteTx {
                tx: 5,
                id: 1,
                body: b"",
            },
        ),
        at(
            184,
            RecordRef::Prepare {
                tx: 5,
                count: 2,
                extra: b"\x01\x02",
            },
        ),
        at(
            212,
            RecordRef::Prepare {
                tx: 6,
                count: 1,
                extra: b"",
            },
        ),
    ];
    let loading = loaded(alloc, &file, &[], &[])?;
    let summary = loading.summary()?;
    let open = summary.open_txs.as_slice();
    assert_eq!(rt; open.len(), 2);
    assert_eq!(rt; open[0].tx, 5);
    assert!(rt; open[0].prepared);
    assert_eq!(rt;
        open[0].touched.as_slice(),
        [(1, EntryEnd::Gone), (4, EntryEnd::Put)].as_slice()
    );
    assert_eq!(rt; open[1].tx, 6);
    assert!(rt; !open[1].prepared);
    assert!(rt; open[1].touched.is_empty());
    let state = loading.finish()?;
    has_live(rt, "prepared again", &state, &[]);
    let doubts = state.in_doubt.as_slice();
    assert_eq!(rt; doubts.len(), 1);
    assert_eq!(rt; doubts[0].tx, 5);
    assert_eq!(rt; doubts[0].extra.as_slice(), b"\x01\x02".as_slice());
    assert_eq!(rt; doubts[0].records.len(), 1);
    assert_eq!(rt; doubts[0].deletes.len(), 1);
    Ok(())
}

/// A record of a small list, by its kind and numbers; `Next` moves on to the next file.
#[derive(Clone, Copy, Debug)]
enum Item {
    Add(u64),
    Update(u64),
    Delete(u64),
    AddTx(u64, u64),
    UpdateTx(u64, u64),
    DeleteTx(u64, u64),
    Prepare(u64, u32),
    Commit(u64, u32),
    Rollback(u64),
    Next,
}

use Item::{Add, AddTx, Commit, Delete, DeleteTx, Next, Prepare, Rollback, Update, UpdateTx};

/// Lists of records of up to three files.
const LISTS: &[&[Item]] = &[
    &[],
    &[Add(1), Add(1), Update(1)],
    &[Add(1), Update(1), Delete(1), Add(1)],
    &[Delete(1), Add(1), Delete(2)],
    &[Update(3), Delete(3), Update(3)],
    &[Add(2), Add(1), Delete(2), Update(1), Add(2), Update(2)],
    &[AddTx(5, 1), Commit(5, 1)],
    &[AddTx(5, 1), Commit(5, 2), Commit(5, 1)],
    &[AddTx(5, 1), Rollback(5), Commit(5, 1)],
    &[Commit(5, 0), Rollback(5), Prepare(5, 0)],
    &[Commit(5, 0), AddTx(5, 1), Commit(5, 1), Commit(5, 0)],
    &[AddTx(5, 1), Add(2), AddTx(5, 3), Commit(5, 2), Delete(2)],
    &[Add(1), DeleteTx(5, 1), Add(1), Commit(5, 1), Add(1)],
    &[Add(1), DeleteTx(5, 1)],
    &[Add(1), DeleteTx(5, 1), Rollback(5)],
    &[AddTx(5, 1), DeleteTx(5, 1), AddTx(5, 1), Commit(5, 3)],
    &[AddTx(5, 1), UpdateTx(5, 1), DeleteTx(5, 1), Commit(5, 3)],
    &[
        AddTx(5, 1),
        AddTx(6, 2),
        Commit(6, 1),
        UpdateTx(5, 2),
        Commit(5, 2),
    ],
    &[
        AddTx(5, 1),
        AddTx(6, 1),
        DeleteTx(6, 1),
        Commit(6, 2),
        Commit(5, 1),
    ],
    &[AddTx(5, 1), Commit(6, 1), Commit(5, 1)],
    &[AddTx(5, 1), Commit(5, 1), AddTx(5, 2), Commit(5, 1)],
    &[AddTx(5, 1), Commit(5, 1), AddTx(5, 2), Commit(5, 2)],
    &[AddTx(5, 1), Prepare(5, 1)],
    &[AddTx(5, 1), Prepare(5, 2)],
    &[
        AddTx(5, 1),
        Prepare(5, 2),
        Rollback(5),
        AddTx(5, 2),
        Prepare(5, 1),
    ],
    &[AddTx(5, 1), Prepare(5, 1), DeleteTx(5, 2), Prepare(5, 2)],
    &[AddTx(5, 1), Prepare(5, 1), DeleteTx(5, 2), Prepare(5, 1)],
    &[Prepare(5, 0), AddTx(5, 1), Commit(5, 1)],
    &[Prepare(5, 0), Prepare(6, 0), Rollback(5), Prepare(4, 1)],
    &[
        AddTx(7, 1),
        Prepare(7, 1),
        AddTx(2, 2),
        Prepare(2, 1),
        Prepare(9, 0),
    ],
    &[AddTx(5, 1), Next, Commit(5, 0)],
    &[AddTx(5, 1), Next, Commit(5, 1)],
    &[AddTx(5, 1), Next, AddTx(5, 2), Commit(5, 1)],
    &[
        AddTx(5, 1),
        AddTx(5, 2),
        Next,
        AddTx(5, 3),
        Next,
        Commit(5, 0),
    ],
    &[
        AddTx(5, 1),
        Next,
        AddTx(5, 2),
        Prepare(5, 1),
        Next,
        Prepare(5, 0),
    ],
    &[
        AddTx(5, 1),
        Next,
        AddTx(5, 2),
        Prepare(5, 2),
        Next,
        AddTx(5, 3),
        Prepare(5, 1),
    ],
    &[
        Add(1),
        AddTx(5, 1),
        Next,
        Delete(1),
        Commit(5, 0),
        Next,
        Update(1),
    ],
    &[
        AddTx(5, 1),
        Rollback(5),
        Next,
        AddTx(5, 1),
        Commit(5, 1),
        Next,
        DeleteTx(5, 1),
    ],
];

/// The bytes of the record at this place, which tell neighbours apart.
fn bytes_at(place: u64) -> &'static [u8] {
    match place % 4 {
        0 => b"",
        1 => b"a",
        2 => b"bc",
        _ => b"def",
    }
}

/// The item as a record, but for `Next`.
fn record_of(item: Item, bytes: &[u8]) -> Option<RecordRef<'_>> {
    Some(match item {
        Add(id) => RecordRef::Add {
            id,
            user_type: 7,
            body: bytes,
        },
        Update(id) => RecordRef::Update {
            id,
            user_type: 8,
            body: bytes,
        },
        Delete(id) => RecordRef::Delete { id },
        AddTx(tx, id) => add_tx(tx, id, bytes),
        UpdateTx(tx, id) => RecordRef::UpdateTx {
            tx,
            id,
            user_type: 8,
            body: bytes,
        },
        DeleteTx(tx, id) => RecordRef::DeleteTx {
            tx,
            id,
            body: bytes,
        },
        Prepare(tx, count) => RecordRef::Prepare {
            tx,
            count,
            extra: bytes,
        },
        Commit(tx, count) => RecordRef::Commit { tx, count },
        Rollback(tx) => RecordRef::Rollback { tx },
        Next => return None,
    })
}

/// Adds the records of a file to a list.
fn add_placed(
    alloc: Global,
    list: &mut Vec<Placed>,
    file: u64,
    spots: &[Spot<'_>],
) -> Result<(), Fail> {
    for spot in spots {
        list.push(Placed {
            file,
            place: spot.place,
            compact: spot.compact,
            rec: spot.rec.to_record(alloc)?,
        })?;
    }
    Ok(())
}

/// Both programs give the same of the list.
fn same_of_both(rt: &impl Abort, alloc: Global, items: &[Item]) -> Result<(), Fail> {
    let mut first = Vec::new(alloc);
    let mut second = Vec::new(alloc);
    let mut third = Vec::new(alloc);
    let mut file = 1u8;
    for (i, item) in items.iter().enumerate() {
        let place = i as u64;
        match record_of(*item, bytes_at(place)) {
            None => file = file.saturating_add(1),
            Some(rec) if file == 1 => first.push(at(place, rec))?,
            Some(rec) if file == 2 => second.push(at(place, rec))?,
            Some(rec) => third.push(at(place, rec))?,
        }
    }
    let mut list = Vec::new(alloc);
    add_placed(alloc, &mut list, 1, &first)?;
    add_placed(alloc, &mut list, 2, &second)?;
    add_placed(alloc, &mut list, 3, &third)?;
    let loading = loaded(alloc, &first, &second, &third)?;
    same_result(rt, alloc, items, loading, plain_result(alloc, &list)?)
}

/// The ids of the live records, each once, ascending.
fn ids_of(alloc: Global, state: &LoadState) -> Result<Vec<u64>, Fail> {
    let mut ids = Vec::new(alloc);
    for entry in state.live.as_slice() {
        ids.push(entry.id)?;
    }
    ids.sort_unstable();
    ids.dedup();
    Ok(ids)
}

/// The load of the list gives what the plain program gives of it.
fn same_result(
    rt: &impl Abort,
    alloc: Global,
    items: &[Item],
    loading: Loading,
    plain: LoadState,
) -> Result<(), Fail> {
    let summary = loading.summary()?;
    let ids = ids_of(alloc, &plain)?;
    assert_eq!(rt; summary.live.as_slice(), ids.as_slice(), "{items:?}");
    let open = summary.open_txs.as_slice();
    let prepared = open.iter().filter(|open| open.prepared).count();
    assert_eq!(rt; prepared, plain.in_doubt.len(), "{items:?}");
    assert_eq!(rt; summary.state, plain, "{items:?}");
    assert_eq!(rt; loading.finish()?, plain, "{items:?}");
    Ok(())
}

#[test]
fn states(rt: HostRuntime) -> Result<(), Fail> {
    let alloc = rt.alloc();
    for row in FILES {
        file_has_live(&rt, alloc, row)?;
    }
    a_commit_counts_its_own_file(&rt, alloc)?;
    an_id_of_three_records(&rt, alloc)?;
    a_number_prepared_again(&rt, alloc)?;
    for items in LISTS {
        same_of_both(&rt, alloc, items)?;
    }
    Ok(())
}
