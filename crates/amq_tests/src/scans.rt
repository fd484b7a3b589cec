//! The records of files.
use amq_model::Brief;
use amq_samples::{ADD, ADD_OF_WRONG_SIZE, ADD_TX, COMMIT_OF_2, HEADER, SECOND_ADD};
use amq_scan::scan;
use std::alloc::Global;
use std::process::Abort;
use std::test::Fail;

/// A file of id 1: the parts behind its header, and its records with their places.
struct Row {
    name: &'static str,
    parts: &'static [&'static [u8]],
    records: &'static [(u64, Brief)],
}

const ROWS: &[Row] = &[
    Row {
        name: "a record behind a wrong one",
        parts: &[ADD_OF_WRONG_SIZE, SECOND_ADD],
        records: &[(41, Brief::Put { id: 2 })],
    },
    Row {
        name: "records with filling between",
        parts: &[ADD_TX, &[0x4a; 33], COMMIT_OF_2],
        records: &[
            (16, Brief::PutTx { tx: 5, id: 3 }),
            (82, Brief::Commit { tx: 5, count: 2 }),
        ],
    },
    Row {
        name: "records within one that lies about its size",
        parts: &[
            b"\x0b\x00\x00\x00\x01\x00\x00\x00\x00\x00\x00\x00\x00\x03\x00\x00\x00\x32\x07",
            ADD,
            SECOND_ADD,
            b"\x00\x00\x00\x48",
        ],
        records: &[(35, Brief::Put { id: 1 }), (60, Brief::Put { id: 2 })],
    },
    Row {
        name: "a padded header",
        parts: &[&[0; 496], ADD],
        records: &[(512, Brief::Put { id: 1 })],
    },
    Row {
        name: "no records",
        parts: &[],
        records: &[],
    },
];

/// The file of id 1 with these parts behind its header has these records at these places.
fn check(
    rt: &impl Abort,
    alloc: Global,
    name: &str,
    parts: &[&[u8]],
    records: &[(u64, Brief)],
) -> Result<(), Fail> {
    let mut bytes = Vec::from_slice(alloc, HEADER)?;
    for part in parts {
        bytes.extend_from_slice(part)?;
    }
    let mut found = Vec::new(alloc);
    for spot in &scan(alloc, bytes.as_slice(), 1, 2)? {
        found.push((spot.place, spot.rec.brief()))?;
    }
    assert_eq!(rt; found.as_slice(), records, "{name}");
    Ok(())
}

#[test]
fn scans(rt: HostRuntime) -> Result<(), Fail> {
    for Row {
        name,
        parts,
        records,
    } in ROWS {
        check(&rt, rt.alloc(), name, parts, records)?;
    }
    let cut = "a record cut at its last byte";
    check(&rt, rt.alloc(), cut, &[&ADD[..24]], &[])
}
