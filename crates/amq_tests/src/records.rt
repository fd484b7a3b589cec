//! The format's vectors, written and read: file id 1, compact count 0.
use amq_record::{RecordRef, encode_into, encoded_len, record_at};
use amq_samples::{ADD, ADD_TX, COMMIT_OF_2};
use std::alloc::Global;
use std::process::Abort;
use std::test::Fail;

/// A delete of id 1.
pub const DELETE: &[u8] =
    b"\x10\x00\x00\x00\x01\x00\x00\x00\x00\x00\x00\x00\x00\x01\x00\x00\x00\x12";

/// Each kind of record, with its bytes.
const SPELLED: &[(RecordRef<'static>, &[u8])] = &[
    (
        RecordRef::Add {
            id: 1,
            user_type: 7,
            body: b"hi",
        },
        ADD,
    ),
    (
        RecordRef::Update {
            id: 1,
            user_type: 7,
            body: b"yo",
        },
        b"\x0c\x00\x00\x00\x01\x00\x00\x00\x00\x00\x00\x00\x00\x01\x00\x00\x00\x02\x07\x79\x6f\x00\x00\x00\x19",
    ),
    (RecordRef::Delete { id: 1 }, DELETE),
    (
        RecordRef::AddTx {
            tx: 5,
            id: 3,
            user_type: 7,
            body: b"hi",
        },
        ADD_TX,
    ),
    (
        RecordRef::UpdateTx {
            tx: 5,
            id: 3,
            user_type: 8,
            body: b"",
        },
        b"\x0e\x00\x00\x00\x01\x00\x00\x00\x00\x00\x00\x00\x00\x05\x00\x00\x00\x00\x00\x00\x00\x03\x00\x00\x00\x00\x08\x00\x00\x00\x1f",
    ),
    (
        RecordRef::DeleteTx {
            tx: 5,
            id: 1,
            body: b"",
        },
        b"\x0f\x00\x00\x00\x01\x00\x00\x00\x00\x00\x00\x00\x00\x05\x00\x00\x00\x00\x00\x00\x00\x01\x00\x00\x00\x00\x00\x00\x00\x1e",
    ),
    (
        RecordRef::Prepare {
            tx: 5,
            count: 2,
            extra: b"\x01\x02",
        },
        b"\x11\x00\x00\x00\x01\x00\x00\x00\x00\x00\x00\x00\x00\x05\x00\x00\x00\x02\x00\x00\x00\x02\x01\x02\x00\x00\x00\x1c",
    ),
    (RecordRef::Commit { tx: 5, count: 2 }, COMMIT_OF_2),
    (
        RecordRef::Rollback { tx: 5 },
        b"\x13\x00\x00\x00\x01\x00\x00\x00\x00\x00\x00\x00\x00\x05\x00\x00\x00\x12",
    ),
];

/// Where a record is looked for: in how many of the bytes of `ADD`, of a file of which id, at which place;
/// and whether it is there.
const LOOKED_FOR: &[(&str, usize, u32, usize, bool)] = &[
    ("the whole", 25, 1, 0, true),
    ("another file's id", 25, 2, 0, false),
    ("a byte is missing", 24, 1, 0, false),
    ("at its second byte", 25, 1, 1, false),
    ("at its last byte", 25, 1, 24, false),
    ("at its end", 25, 1, 25, false),
    ("far behind it", 25, 1, 1000, false),
];

/// The record is written as `spelled` behind 16 other bytes, and read again there.
fn check(
    rt: &impl Abort,
    alloc: Global,
    wanted: RecordRef<'_>,
    spelled: &[u8],
) -> Result<(), Fail> {
    let rec = wanted.to_record(alloc)?;
    let len = encoded_len(&rec);
    assert_eq!(rt; len, spelled.len() as u64, "{wanted:?}");
    assert!(rt; len <= 40, "{wanted:?}");
    let mut out = Vec::with_capacity(alloc, 56)?;
    out.extend_from_slice(&[0x4a; 16])?;
    encode_into(&mut out, 1, 0, &rec);
    assert_eq!(rt; &out.as_slice()[16..], spelled, "{wanted:?}");
    out.extend_from_slice(&[0x4a; 2])?;
    let Some(spot) = record_at(out.as_slice(), 1, 2, 16) else {
        panic!(rt; "nothing is read of {wanted:?}");
    };
    assert_eq!(rt;
        (spot.place, spot.len, spot.compact),
        (16, len, 0),
        "{wanted:?}"
    );
    assert_eq!(rt; spot.rec, wanted);
    assert_eq!(rt; spot.rec.brief(), rec.brief(), "{wanted:?}");
    assert_eq!(rt; spot.rec.to_record(alloc)?, rec, "{wanted:?}");
    Ok(())
}

#[test]
fn records(rt: HostRuntime) -> Result<(), Fail> {
    for (rec, spelled) in SPELLED {
        check(&rt, rt.alloc(), *rec, spelled)?;
    }
    for (name, len, fid, place, there) in LOOKED_FOR {
        assert!(rt; *len <= ADD.len() && *fid < 10, "{name}");
        let found = record_at(&ADD[..*len], *fid, 2, *place);
        assert_eq!(rt; found.is_some(), *there, "{name}");
    }
    Ok(())
}
