//! The source and the sink in memory.
use amq_io::{Failed, MemorySink, MemorySource, Sink, SinkError, Source};
use std::alloc::Global;
use std::process::Abort;
use std::test::Fail;

/// A source of the bytes 1 and 2, which gives one a call and fails at its second: how long the piece is,
/// and what is read.
const READ: &[(usize, Result<&[u8], Failed>)] = &[
    (4, Ok(&[1])),
    (4, Err(Failed)),
    (0, Ok(&[])),
    (4, Ok(&[2])),
    (4, Ok(&[])),
];

/// A sink that takes two bytes a call and fails at its second: what it is given, and how much it takes.
const WRITTEN: &[(&[u8], Result<usize, SinkError>)] = &[
    (&[1, 2, 3], Ok(2)),
    (&[3], Err(SinkError::Failed)),
    (&[3], Ok(1)),
    (&[], Ok(0)),
];

fn reads(rt: &impl Abort, alloc: Global) -> Result<(), Fail> {
    let mut source = MemorySource::new(vec![in alloc; 1, 2]?, 1, vec![in alloc; 2]?);
    for (i, (len, told)) in READ.iter().enumerate() {
        let mut piece = [0u8; 4];
        assert!(rt; *len <= 4, "call {i}");
        match source.read(&mut piece[..*len]) {
            Ok(read) => assert_eq!(rt; Ok(&piece[..read]), *told, "call {i}"),
            Err(Failed) => assert_eq!(rt; Err(Failed), *told, "call {i}"),
        }
    }
    Ok(())
}

fn writes(rt: &impl Abort, alloc: Global) -> Result<(), Fail> {
    let mut sink = MemorySink::new(alloc, 2, vec![in alloc; 2]?);
    for (i, (bytes, told)) in WRITTEN.iter().enumerate() {
        assert_eq!(rt; sink.write(bytes), *told, "call {i}");
    }
    assert_eq!(rt; sink.bytes(), [1, 2, 3].as_slice());
    Ok(())
}

#[test]
fn streams(rt: HostRuntime) -> Result<(), Fail> {
    let alloc = rt.alloc();
    reads(&rt, alloc)?;
    writes(&rt, alloc)?;
    assert_eq!(rt;
        format!(in alloc; "{}", SinkError::NoMemory)?.as_str(),
        "no memory"
    );
    Ok(())
}
