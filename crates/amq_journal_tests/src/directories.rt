//! What a load answers of a directory.
use crate::files::{named, put};
use amq_header::{Header, write_header};
use amq_io::{Disk, MemoryDisk};
use amq_loader::{LoadFault, Loaded, load, load_state};
use amq_model::{DirFault, Items, Name};
use std::alloc::{AllocError, Global};
use std::process::Abort;
use std::test::Fail;

const USER_VERSION: u32 = 7;

/// What a file has.
#[derive(Clone, Copy)]
enum Content {
    /// The header with this id, and no record.
    OfId(u64),
    /// One with this version, user version and id.
    Header(u32, u32, u64),
    /// The first 15 bytes of the header with this id.
    Cut(u64),
    Bytes(&'static [u8]),
}

/// What a load gives.
#[derive(Clone, Copy)]
struct Found {
    ids: &'static [u64],
    highest_file: u64,
    highest_tx: u64,
    leftovers: &'static [&'static str],
    /// How many disk calls it makes.
    calls: u64,
}

/// What a load answers; the two loads answer the same fault.
#[derive(Clone, Copy)]
enum Answer {
    Loaded(Found),
    NotBuilt,
    /// Two files of this id.
    TwoFiles(u64, &'static str, &'static str),
    /// The version of this file.
    Version(&'static str, u32),
    /// The user version of this file, where another one is wanted.
    UserVersion(&'static str, u32, u32),
}

/// A directory.
#[derive(Clone, Copy)]
struct Row {
    name: &'static str,
    files: &'static [(&'static str, Content)],
    answer: Answer,
}

const ROWS: &[Row] = &[
    Row {
        name: "an empty directory",
        files: &[],
        answer: Answer::Loaded(Found {
            ids: &[],
            highest_file: 0,
            highest_tx: 0,
            leftovers: &[],
            calls: 1,
        }),
    },
    Row {
        name: "two files of one id",
        files: &[
            ("activemq-data-1.amq", Content::OfId(1)),
            ("activemq-data-9.amq", Content::OfId(1)),
        ],
        answer: Answer::TwoFiles(1, "activemq-data-1.amq", "activemq-data-9.amq"),
    },
    Row {
        name: "another user version",
        files: &[("activemq-data-2.amq", Content::Header(2, 8, 1))],
        answer: Answer::UserVersion("activemq-data-2.amq", 8, 7),
    },
    Row {
        name: "another version, in a file whose name comes first",
        files: &[
            ("activemq-data-2.amq", Content::Header(2, 8, 1)),
            ("activemq-data-10.amq", Content::Header(3, 8, 1)),
        ],
        answer: Answer::Version("activemq-data-10.amq", 3),
    },
    Row {
        name: "short files are passed over",
        files: &[
            ("activemq-data-1.amq", Content::Bytes(b"")),
            ("activemq-data-2.amq", Content::Cut(3)),
            ("activemq-data-3.amq", Content::OfId(3)),
        ],
        answer: Answer::Loaded(Found {
            ids: &[3],
            highest_file: 3,
            highest_tx: 0,
            leftovers: &[],
            calls: 2,
        }),
    },
    Row {
        name: "names and numbers",
        files: &[
            ("activemq-data-10.amq", Content::OfId(2_147_483_653)),
            ("activemq-data-2.amq", Content::OfId(4)),
            ("activemq-data-0012.amq", Content::OfId(12)),
            ("activemq-data-00000000000000000007.amq", Content::OfId(7)),
            ("activemq-data-9223372036854775808.amq", Content::OfId(8)),
        ],
        answer: Answer::Loaded(Found {
            ids: &[4, 12, 2_147_483_653],
            highest_file: 2_147_483_653,
            highest_tx: 0,
            leftovers: &[],
            calls: 4,
        }),
    },
    Row {
        name: "leftovers by name",
        files: &[
            ("activemq-data-5.amq", Content::OfId(5)),
            ("activemq-data-40.amq.tmp", Content::Bytes(b"a")),
            ("activemq-data-30.amq.cmp", Content::Bytes(b"b")),
            ("journal-rename-control.ctr.tmp", Content::Bytes(b"c")),
            ("notes.txt.tmp", Content::Bytes(b"d")),
        ],
        answer: Answer::Loaded(Found {
            ids: &[5],
            highest_file: 40,
            highest_tx: 0,
            leftovers: &[
                "activemq-data-30.amq.cmp",
                "activemq-data-40.amq.tmp",
                "journal-rename-control.ctr.tmp",
            ],
            calls: 2,
        }),
    },
    Row {
        name: "a control file is not built",
        files: &[
            ("activemq-data-1.amq", Content::Bytes(b"0123456789abcdefg")),
            ("journal-rename-control.ctr", Content::Bytes(b"")),
        ],
        answer: Answer::NotBuilt,
    },
];

/// The bytes of a header.
fn header_bytes(
    alloc: Global,
    version: u32,
    user_version: u32,
    id: u64,
) -> Result<Vec<u8>, AllocError> {
    let header = Header {
        version,
        user_version,
        id,
    };
    Vec::from_slice(alloc, &write_header(&header))
}

/// The bytes of a file.
fn bytes_of(alloc: Global, content: Content) -> Result<Vec<u8>, AllocError> {
    match content {
        Content::OfId(id) => header_bytes(alloc, 2, USER_VERSION, id),
        Content::Header(version, user_version, id) => {
            header_bytes(alloc, version, user_version, id)
        }
        Content::Cut(id) => {
            let mut bytes = header_bytes(alloc, 2, USER_VERSION, id)?;
            bytes.truncate(15);
            Ok(bytes)
        }
        Content::Bytes(bytes) => Vec::from_slice(alloc, bytes),
    }
}

/// A disk with these files.
fn disk_of(
    rt: &impl Abort,
    alloc: Global,
    files: &[(&'static str, Content)],
) -> Result<MemoryDisk, Fail> {
    let mut disk = MemoryDisk::new(alloc)?;
    for (name, content) in files {
        let bytes = bytes_of(alloc, *content)?;
        put(rt, alloc, &mut disk, name, &bytes)?;
    }
    Ok(disk)
}

/// What the load of all answers.
fn loaded_of(alloc: Global, disk: &mut MemoryDisk) -> Result<Loaded, LoadFault> {
    load(alloc, disk, USER_VERSION)
}

/// Why the state alone isn't loaded, if it isn't.
fn state_fault(alloc: Global, disk: &mut MemoryDisk) -> Option<LoadFault> {
    load_state(alloc, disk, USER_VERSION).err()
}

/// The fault of this answer, `None` where the directory is loaded.
fn fault_of(alloc: Global, answer: Answer) -> Result<Option<LoadFault>, Fail> {
    match answer {
        Answer::Loaded(_) => Ok(None),
        Answer::NotBuilt => Ok(Some(LoadFault::NotBuilt)),
        Answer::TwoFiles(id, first, second) => {
            let first = named(alloc, first)?;
            let second = named(alloc, second)?;
            Ok(directory(DirFault::TwoFiles { id, first, second }))
        }
        Answer::Version(name, found) => {
            let name = named(alloc, name)?;
            Ok(directory(DirFault::Version { name, found }))
        }
        Answer::UserVersion(name, found, wanted) => {
            let name = named(alloc, name)?;
            Ok(directory(DirFault::UserVersion {
                name,
                found,
                wanted,
            }))
        }
    }
}

fn directory(fault: DirFault) -> Option<LoadFault> {
    Some(LoadFault::Directory(fault))
}

/// The names are these.
fn check_names(rt: &impl Abort, row: &str, names: &Items<Name>, wanted: &[&'static str]) {
    assert_eq!(rt; names.len(), wanted.len(), "{row}");
    for (name, text) in names.as_slice().iter().zip(wanted) {
        assert_eq!(rt; name.as_str(), *text, "{row}");
    }
}

/// What was loaded is this.
fn check_loaded(
    rt: &impl Abort,
    alloc: Global,
    row: &str,
    loaded: &Loaded,
    found: Found,
) -> Result<(), Fail> {
    let mut ids = Vec::new(alloc);
    for file in loaded.files.as_slice() {
        ids.push(file.id)?;
    }
    assert_eq!(rt; ids.as_slice(), found.ids, "{row}");
    assert_eq!(rt; loaded.highest_file, found.highest_file, "{row}");
    assert_eq!(rt; loaded.highest_tx, found.highest_tx, "{row}");
    check_names(rt, row, &loaded.leftovers, found.leftovers);
    Ok(())
}

#[test]
fn loads(rt: HostRuntime) -> Result<(), Fail> {
    let alloc = rt.alloc();
    for row in ROWS {
        let mut disk = disk_of(&rt, alloc, row.files)?;
        let wanted = fault_of(alloc, row.answer)?;
        assert_eq!(rt; state_fault(alloc, &mut disk), wanted, "{}", row.name);
        let before = disk.moment();
        match (loaded_of(alloc, &mut disk), row.answer) {
            (Ok(loaded), Answer::Loaded(found)) => {
                check_loaded(&rt, alloc, row.name, &loaded, found)?;
                let calls = disk.moment().checked_sub(before);
                assert_eq!(rt; calls, Some(found.calls), "{}", row.name);
            }
            (Ok(_), _) => panic!(rt; "{}: the directory was loaded", row.name),
            (Err(fault), _) => assert_eq!(rt; Some(fault), wanted, "{}", row.name),
        }
    }
    Ok(())
}
