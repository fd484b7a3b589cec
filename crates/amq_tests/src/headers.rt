//! The bytes of headers, and the classes and names of files.
use amq_header::{
    FileClass, Header, compacted_name, data_name, file_class, read_header, temporary_name,
    write_header,
};
use amq_model::{Name, NoMemory};
use amq_samples::HEADER;
use std::alloc::Global;
use std::test::Fail;

/// Headers with the bytes that they are read from, the first 16 of which are those that are written.
const HEADERS: &[(&str, &[u8], Header)] = &[
    (
        "a first file's",
        HEADER,
        Header {
            version: 2,
            user_version: 0,
            id: 1,
        },
    ),
    (
        "one with other bytes behind it",
        b"\x00\x00\x00\x03\x01\x02\x03\x04\x00\x00\x00\x01\x02\x03\x04\x05\x0b\x00",
        Header {
            version: 3,
            user_version: 0x0102_0304,
            id: 0x1_0203_0405,
        },
    ),
];

/// Names with their classes.
const CLASSES: &[(&str, FileClass)] = &[
    ("activemq-data-1.amq", FileClass::DataFile(1)),
    ("activemq-data-0001.amq", FileClass::DataFile(1)),
    ("activemq-data-0.amq", FileClass::DataFile(0)),
    (
        "activemq-data-9223372036854775807.amq",
        FileClass::DataFile(9_223_372_036_854_775_807),
    ),
    ("activemq-data-9223372036854775808.amq", FileClass::Other),
    ("activemq-data-00000000000000000001.amq", FileClass::Other),
    ("activemq-data-.amq", FileClass::Other),
    ("activemq-data-1a.amq", FileClass::Other),
    ("activemq-data-1.amq.cmp", FileClass::Compacted(1)),
    ("activemq-data-1.amq.tmp", FileClass::Temporary(Some(1))),
    (
        "activemq-data-12.amq.cmp.tmp",
        FileClass::Temporary(Some(12)),
    ),
    ("activemq-data-1.amq.tmp.tmp", FileClass::Other),
    ("activemq-data-1.amq.tmp.cmp", FileClass::Other),
    ("journal-rename-control.ctr", FileClass::Control),
    ("journal-rename-control.ctr.tmp", FileClass::Temporary(None)),
    ("notes.txt", FileClass::Other),
    ("", FileClass::Other),
];

/// Classes with the names that are made for them.
const NAMES: &[(FileClass, &str)] = &[
    (FileClass::DataFile(1), "activemq-data-1.amq"),
    (
        FileClass::DataFile(9_223_372_036_854_775_807),
        "activemq-data-9223372036854775807.amq",
    ),
    (FileClass::Compacted(3), "activemq-data-3.amq.cmp"),
    (FileClass::Temporary(Some(20)), "activemq-data-20.amq.tmp"),
];

/// The name of a file of this class, where one is made for it.
fn name_of(alloc: Global, class: FileClass) -> Result<Option<Name>, NoMemory> {
    let most = i64::MAX as u64;
    Ok(match class {
        FileClass::DataFile(number) if number <= most => Some(data_name(alloc, number)?),
        FileClass::Compacted(number) if number <= most => Some(compacted_name(alloc, number)?),
        FileClass::Temporary(Some(number)) if number <= most => {
            Some(temporary_name(alloc, number)?)
        }
        _ => None,
    })
}

#[test]
fn headers(rt: HostRuntime) -> Result<(), Fail> {
    for (name, bytes, header) in HEADERS {
        assert!(rt; bytes.len() >= 16, "{name}");
        assert_eq!(rt; write_header(header).as_slice(), &bytes[..16], "{name}");
        assert_eq!(rt; read_header(bytes), Some(*header), "{name}");
    }
    assert_eq!(rt; read_header(&HEADER[..15]), None);
    for (name, class) in CLASSES {
        assert_eq!(rt; file_class(name), *class, "{name:?}");
    }
    for (class, text) in NAMES {
        let Some(name) = name_of(rt.alloc(), *class)? else {
            panic!(rt; "no name for {class:?}");
        };
        assert_eq!(rt; name.as_str(), *text, "{class:?}");
    }
    Ok(())
}
