use crate::outcome::{Outcome, Shortest};
use amq_script::{Mode, parse};
use anyhow::Result;
use std::alloc::{AllocError, Global};
use std::rt::Clock;
use std::time::Instant;

/// How long each body is, in bytes.
const BODY_LEN: usize = 100;

/// Reads a script of `size` bytes or one line more.
pub fn parse_script<R: AllocGlobal + Clock>(rt: &R, size: usize, repeats: u32) -> Result<Outcome> {
    let script = script(rt.alloc(), size)?;
    let mut shortest = Shortest::new();
    let mut lines = 0;
    for _ in 0..repeats {
        let start = Instant::now(rt)?;
        let read = parse(rt.alloc(), script.as_bytes(), Mode::Replay)?;
        shortest.note_since(rt, start)?;
        lines = read
            .producers
            .as_slice()
            .first()
            .map_or(0, |producer| producer.len());
    }
    Ok(Outcome {
        bytes: script.len(),
        records: lines,
        live: None,
        micros: shortest.micros,
    })
}

/// A transaction of `addtx` lines.
fn script(alloc: Global, size: usize) -> Result<String, AllocError> {
    let mut script = String::from_str(alloc, "begin a\n")?;
    for id in 0..size {
        if script.len() >= size {
            break;
        }
        write!(&mut script, "addtx a {id} 31 ")?;
        push_body(&mut script, id)?;
    }
    Ok(script)
}

/// The digits of a body, and the line's end.
fn push_body(script: &mut String, id: usize) -> Result<(), AllocError> {
    for j in 0..BODY_LEN {
        let byte = id.wrapping_add(j) % 256;
        write!(script, "{byte:02x}")?;
    }
    script.push_str("\n")
}
