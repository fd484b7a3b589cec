//! Lines of words.
ghost use Rattle.std.specs.Prelude.{◌+◌, ◌<◌, ◌≤◌, ◌≡◌, ◌++◌, ◌∷◌, [], OnOk, OnErr, length, take, map};
ghost use Rattle.std.specs.List.{flat_map, join_with_byte};
ghost use Rattle.std.specs.Fmt.{decimal};
ghost use Rattle.std.specs.Vec.{vec_capacity};
ghost use Rattle.amq_model.specs.Texts.{line, hex, hex_digits};
ghost use Rattle.amq_print.specs.Words.{word_text};

use amq_model::NoMemory;
use itoa::Buffer;
use std::alloc::AllocError;

/// How many bytes of a body are turned into digits at a time.
const PIECE: usize = 64;

/// A word of a line.
#[derive(Clone, Copy)]
pub enum Word<'a> {
    /// A text as it stands.
    Text(&'a str),
    /// A number in decimal.
    Number(u64),
    /// A body in hexadecimal digits.
    Hex(&'a [u8]),
}

/// The number as a word: of at most twenty digits.
pub fn number(number: u64) -> Word<'static>
    ensures word { result ≡ Word.Number number }
    ensures short { length (decimal number) ≤ 20 }
{
    Word::Number(number)
}

/// Appends a line of these words. After `NoMemory` the text is as before, and had no room for the line.
pub fn push_line(out: &mut Vec<u8>, words: &[Word]) -> Result<(), NoMemory>
    ensures ok { OnOk result (out.new.items ≡ out.old.items ++ line (map word_text words.now)) }
    ensures err { OnErr result (out.new.items ≡ out.old.items) }
    ensures some { 0 < length (line (map word_text words.now)) }
    ensures full { OnErr result
        (vec_capacity out.old < length out.old.items + length (line (map word_text words.now))) }
{
    let kept = out.len();
    match write_line(out, words) {
        Ok(()) => Ok(()),
        Err(_) => {
            out.truncate(kept);
            Err(NoMemory)
        }
    }
}

/// Appends a space, the name, a space and the value. After want of memory a part of it may stand there.
pub fn write_field(out: &mut Vec<u8>, name: &str, value: Word) -> Result<(), AllocError>
    ensures { OnOk result
        (out.new.items ≡ out.old.items ++ (32 ∷ name.now) ++ (32 ∷ word_text value.entry)) }
{
    out.push(b' ')?;
    out.extend_from_slice(name.as_bytes())?;
    out.push(b' ')?;
    write_word(out, &value)
}

/// Appends a line of these words. After want of memory a part of it may stand behind the text.
fn write_line(out: &mut Vec<u8>, words: &[Word]) -> Result<(), AllocError>
    ensures ok { OnOk result (out.new.items ≡ out.old.items ++ line (map word_text words.now)) }
    ensures err { OnErr result (take (length out.old.items) out.new.items ≡ out.old.items) }
    ensures full { OnErr result
        (vec_capacity out.old < length out.old.items + length (line (map word_text words.now))) }
{
    write_words(out, words)?;
    out.push(b'\n')?;
    Ok(())
}

/// Appends the words with a space between each two. After want of memory a part of them may stand
/// behind the text.
pub fn write_words(out: &mut Vec<u8>, words: &[Word]) -> Result<(), AllocError>
    ensures ok { OnOk result
        (out.new.items ≡ out.old.items ++ join_with_byte 32 (map word_text words.now)) }
    ensures err { OnErr result (take (length out.old.items) out.new.items ≡ out.old.items) }
    ensures full { OnErr result
        (vec_capacity out.old < length out.old.items + length (join_with_byte 32 (map word_text words.now))) }
    ensures capacity { vec_capacity out.old ≤ vec_capacity out.new }
{
    for (i, word) in words.iter().enumerate() {
        if i > 0 {
            out.push(b' ')?;
        }
        write_word(out, word)?;
    }
    Ok(())
}

/// Appends the word.
fn write_word(out: &mut Vec<u8>, word: &Word) -> Result<(), AllocError>
    ensures ok { OnOk result (out.new.items ≡ out.old.items ++ word_text word.now) }
    ensures err { OnErr result (take (length out.old.items) out.new.items ≡ out.old.items) }
    ensures full { OnErr result
        (vec_capacity out.old < length out.old.items + length (word_text word.now)) }
    ensures capacity { vec_capacity out.old ≤ vec_capacity out.new }
{
    match word {
        Word::Text(text) => out.extend_from_slice(text.as_bytes()),
        Word::Number(number) => write_number(out, *number),
        Word::Hex(bytes) => write_hex(out, bytes),
    }
}

/// Appends the number in decimal.
fn write_number(out: &mut Vec<u8>, number: u64) -> Result<(), AllocError>
    ensures ok { OnOk result (out.new.items ≡ out.old.items ++ word_text (Word.Number number)) }
    ensures err { OnErr result (out.new.items ≡ out.old.items) }
    ensures full { OnErr result
        (vec_capacity out.old < length out.old.items + length (word_text (Word.Number number))) }
    ensures capacity { vec_capacity out.old ≤ vec_capacity out.new }
{
    let mut buffer = Buffer::new();
    out.extend_from_slice(buffer.format(number).as_bytes())
}

/// Appends the bytes in hexadecimal digits, or a dash where there are none.
fn write_hex(out: &mut Vec<u8>, bytes: &[u8]) -> Result<(), AllocError>
    ensures ok { OnOk result (out.new.items ≡ out.old.items ++ hex bytes.now) }
    ensures err { OnErr result (take (length out.old.items) out.new.items ≡ out.old.items) }
    ensures full { OnErr result
        (vec_capacity out.old < length out.old.items + length (hex bytes.now)) }
    ensures capacity { vec_capacity out.old ≤ vec_capacity out.new }
{
    if bytes.is_empty() {
        out.push(b'-')?;
        return Ok(());
    }
    for piece in bytes.chunks(PIECE) {
        write_digits(out, piece)?;
    }
    Ok(())
}

/// Appends the bytes of one piece, at most `PIECE` of them, in hexadecimal digits.
fn write_digits(out: &mut Vec<u8>, piece: &[u8]) -> Result<(), AllocError>
    requires { length piece.now ≤ 64 }
    ensures ok { OnOk result (out.new.items ≡ out.old.items ++ flat_map hex_digits piece.now) }
    ensures err { OnErr result (out.new.items ≡ out.old.items) }
    ensures full { OnErr result
        (vec_capacity out.old < length out.old.items + length (flat_map hex_digits piece.now)) }
    ensures capacity { vec_capacity out.old ≤ vec_capacity out.new }
{
    let mut digits = [0; 2 * PIECE];
    let digits = &mut digits[..2 * piece.len()];
    hex::encode_to_slice(piece, digits).unwrap();
    out.extend_from_slice(digits)
}
