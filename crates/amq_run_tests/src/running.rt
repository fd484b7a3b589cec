//! A run of the program, and what it leaves.

use amq_cli::{Status, offline, offline_with};
use amq_engine::Kept;
use amq_io::{MemoryDisk, MemorySink, MemorySource};
use amq_samples::Sizes;
use std::alloc::{AllocError, Global};
use std::process::Abort;
use std::test::Fail;

pub const REPLAY: &[&str] = &["folder", "replay"];

pub const PRINT: &[&str] = &["folder", "print"];

pub const COMMIT: &[&str] = &["folder", "settle", "commit", "1"];

pub const ROLLBACK: &[&str] = &["folder", "settle", "rollback", "1"];

/// What a run left.
#[derive(Drop)]
pub struct Left {
    pub status: Status,
    pub disk: MemoryDisk,
    pub kept: Kept,
    pub text: Vec<u8>,
}

/// How many bytes a stream moves a call, and which of its calls is to fail, counted from 1, none for 0.
#[derive(Clone, Copy)]
pub struct Streams {
    pub piece: u64,
    pub source: u64,
    pub sink: u64,
}

/// No call fails.
pub const WHOLE: Streams = Streams {
    piece: 4096,
    source: 0,
    sink: 0,
};

/// How a run ends: its status as it is written for debugging, with all that it holds, and its code.
#[derive(Clone, Copy)]
pub struct Ended {
    pub status: &'static str,
    pub code: u8,
}

pub const OK: Ended = Ended {
    status: "Ok",
    code: 0,
};

pub const SOURCE_FAULT: Ended = Ended {
    status: "SourceFault",
    code: 4,
};

pub const SINK_FAULT: Ended = Ended {
    status: "SinkFault",
    code: 5,
};

pub const DISK_FAULT: Ended = Ended {
    status: "DiskFault",
    code: 6,
};

/// Runs the command with a configuration of these sizes, or with the default one.
pub fn run(
    alloc: Global,
    sizes: Option<Sizes>,
    words: &[&str],
    script: &[u8],
    disk: MemoryDisk,
    streams: &Streams,
) -> Result<Left, Fail> {
    let script = Vec::from_slice(alloc, script)?;
    let piece = streams.piece.max(1);
    let mut source = MemorySource::new(script, piece, vec![in alloc; streams.source]?);
    let mut sink = MemorySink::new(alloc, piece, vec![in alloc; streams.sink]?);
    let (status, disk, kept) = match sizes {
        Some(sizes) => {
            let config = sizes.config().ok_or("no configuration")?;
            offline_with(alloc, config, words, disk, &mut source, &mut sink)
        }
        None => offline(alloc, words, disk, &mut source, &mut sink),
    };
    let text = Vec::from_slice(alloc, sink.bytes())?;
    Ok(Left {
        status,
        disk,
        kept,
        text,
    })
}

/// The status as it is written for debugging.
fn status_text(alloc: Global, status: &Status) -> Result<String, AllocError> {
    format!(in alloc; "{status:?}")
}

/// The name of a row, and of a call that fails.
pub fn named(alloc: Global, name: &str, call: u64) -> Result<String, AllocError> {
    format!(in alloc; "{name}, call {call}")
}

/// The run ended like this, and wrote this text.
pub fn check_ended(
    rt: &impl Abort,
    alloc: Global,
    name: &str,
    left: &Left,
    ended: &Ended,
    text: &[u8],
) -> Result<(), Fail> {
    let status = status_text(alloc, &left.status)?;
    assert_eq!(rt; status.as_str(), ended.status, "{name}");
    assert_eq!(rt; left.status.code(), ended.code, "{name}");
    assert_eq!(rt; left.text.as_slice(), text, "{name}");
    Ok(())
}

/// How many appends the last receipt counts.
pub fn last_count(kept: &Kept) -> Option<u64> {
    kept.receipts.as_slice().last().map(|r| r.durable)
}
