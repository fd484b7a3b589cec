use crate::outcome::Outcome;
use crate::scans::scan_file;
use anyhow::Result;
use std::rt::Clock;

/// What a new file is filled with.
const FILLING: u8 = 0x4a;

/// Scans `size` bytes of filling.
pub fn scan_filling<R: AllocGlobal + Clock>(rt: &R, size: usize, repeats: u32) -> Result<Outcome> {
    let bytes = vec![in rt.alloc(); FILLING; size]?;
    scan_file(rt, bytes.as_slice(), repeats)
}
