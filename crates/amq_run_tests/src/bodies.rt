//! Runs with long bodies, which are printed again.

use crate::disks::disk_of;
use crate::running::{OK, PRINT, REPLAY, WHOLE, check_ended, run};
use amq_samples::joined;
use std::alloc::{AllocError, Global};
use std::process::Abort;
use std::test::Fail;

/// How many digits a body of 100,000 bytes has, two for a byte.
const OF_100_000_BYTES: usize = 200_000;

/// How many the longest one has: its record has as many bytes as the buffer, 501,760.
const OF_GREATEST_LENGTH: usize = 1_003_474;

/// The digits of one byte more.
const TOO_MANY: usize = 1_003_476;

/// So many digits 1 between these texts.
fn around(
    alloc: Global,
    before: &[u8],
    digits: usize,
    behind: &[u8],
) -> Result<Vec<u8>, AllocError> {
    let len = before.len().saturating_add(digits);
    let mut text = joined(alloc, &[before], len, b'1')?;
    text.extend_from_slice(behind)?;
    Ok(text)
}

/// An add with a body of so many digits is answered, reported, and printed again.
fn check_body(rt: &impl Abort, alloc: Global, digits: usize) -> Result<(), Fail> {
    let script = around(alloc, b"add 1 7 ", digits, b"\nflush\n")?;
    let text = around(
        alloc,
        b"ok 0\ndurable 1\nlive 1\nadd 1 7 ",
        digits,
        b"\nin doubt 0\n",
    )?;
    let left = run(
        alloc,
        None,
        REPLAY,
        &script,
        disk_of(alloc, None, 0)?,
        &WHOLE,
    )?;
    check_ended(rt, alloc, "a long body", &left, &OK, &text)?;
    let report = around(alloc, b"live 1\nadd 1 7 ", digits, b"\nin doubt 0\n")?;
    let printed = run(alloc, None, PRINT, b"", left.disk, &WHOLE)?;
    check_ended(rt, alloc, "a long body printed", &printed, &OK, &report)
}

#[test]
fn a_body_of_100_000_bytes(rt: HostRuntime) -> Result<(), Fail> {
    check_body(&rt, rt.alloc(), OF_100_000_BYTES)
}

#[test]
fn a_body_of_the_greatest_length(rt: HostRuntime) -> Result<(), Fail> {
    check_body(&rt, rt.alloc(), OF_GREATEST_LENGTH)
}

#[test]
fn a_body_that_is_too_long(rt: HostRuntime) -> Result<(), Fail> {
    let alloc = rt.alloc();
    let script = around(alloc, b"add 1 7 ", TOO_MANY, b"\nflush\n")?;
    let left = run(
        alloc,
        None,
        REPLAY,
        &script,
        disk_of(alloc, None, 0)?,
        &WHOLE,
    )?;
    check_ended(
        &rt,
        alloc,
        "a body that is too long",
        &left,
        &OK,
        b"refused TooLarge 501761 501760\ndurable 0\nlive 0\nin doubt 0\n",
    )
}
