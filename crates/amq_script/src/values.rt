//! What a word is: a label, a number or a body.
ghost use Rattle.std.specs.Prelude.{◌≡◌, ◌&&◌, nat_le};
ghost use Rattle.std.specs.List.{list_all};
ghost use Rattle.amq_model.specs.Script.{is_label, label_of, number_within, number_of, user_type_of, steps_of, body_of};
ghost use Rattle.amq_script.specs.Faults.{Reads};

use crate::faults::LineFault;
use amq_model::{Bytes, Name, ScriptCause, number_spelled};
use hex::FromHexError;
use std::alloc::Global;

/// A label: 1 to 16 letters a to z.
pub fn label(alloc: Global, word: &[u8]) -> Result<Name, LineFault>
    ensures { Reads result (label_of word.now) }
{
    if !is_label(word) {
        return Err(LineFault::Wrong(ScriptCause::Label));
    }
    let Ok(text) = std::str::from_utf8(word) else {
        return Err(LineFault::Wrong(ScriptCause::Label));
    };
    match Name::of(alloc, text) {
        Ok(Some(name)) => Ok(name),
        Ok(None) => Err(LineFault::Wrong(ScriptCause::Label)),
        Err(_) => Err(LineFault::NoMemory),
    }
}

/// Whether the word is 1 to 16 letters a to z.
fn is_label(word: &[u8]) -> bool
    ensures { result ≡ is_label word.now }
{
    !word.is_empty() && word.len() <= 16 && all_letters(word)
}

/// Whether each byte is a letter a to z.
fn all_letters(word: &[u8]) -> bool
    ensures { result ≡ list_all (λ b. nat_le 97 b && nat_le b 122) word.now }
{
    word.iter().all(|byte| byte.is_ascii_lowercase())
}

/// An id, a transaction's number or a moment.
pub fn number(word: &[u8]) -> Result<u64, ScriptCause>
    ensures { result ≡ number_of word.now }
{
    number_spelled(word).ok_or(ScriptCause::Number)
}

/// A user type.
pub fn user_type(word: &[u8]) -> Result<u8, ScriptCause>
    ensures { result ≡ user_type_of word.now }
{
    let value = number_within(3, 0, 255, word)?;
    Ok(value as u8)
}

/// A count of compaction steps.
pub fn steps(word: &[u8]) -> Result<u64, ScriptCause>
    ensures { result ≡ steps_of word.now }
{
    number_within(7, 1, 1_000_000, word)
}

/// A number of at most so many digits, in this range.
fn number_within(digits: usize, least: u64, most: u64, word: &[u8]) -> Result<u64, ScriptCause>
    ensures { result ≡ number_within digits least most word.now }
{
    match number_spelled(word) {
        Some(value) if word.len() <= digits && value >= least && value <= most => Ok(value),
        _ => Err(ScriptCause::Number),
    }
}

/// A body: a dash for no bytes, or hexadecimal digits.
pub fn body(alloc: Global, word: &[u8]) -> Result<Bytes, LineFault>
    ensures { Reads result (body_of word.now) }
{
    if word == b"-".as_slice() {
        return Ok(Bytes::of(Vec::new(alloc)));
    }
    if word.is_empty() {
        return Err(LineFault::Wrong(ScriptCause::Hex));
    }
    match hex::decode(alloc, word) {
        Ok(bytes) => Ok(Bytes::of(bytes)),
        Err(error) => match error {
            FromHexError::OutOfMemory => Err(LineFault::NoMemory),
            _ => Err(LineFault::Wrong(ScriptCause::Hex)),
        },
    }
}
