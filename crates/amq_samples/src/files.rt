//! Files of pieces.
use std::alloc::{AllocError, Global};

/// The pieces, one behind the other, and behind them `fill` up to this length.
pub fn joined(
    alloc: Global,
    pieces: &[&[u8]],
    len: usize,
    fill: u8,
) -> Result<Vec<u8>, AllocError> {
    let mut bytes = Vec::new(alloc);
    for piece in pieces {
        bytes.extend_from_slice(piece)?;
    }
    if bytes.len() < len {
        bytes.resize(len, fill)?;
    }
    Ok(bytes)
}
