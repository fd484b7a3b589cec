//! The words of a line.
ghost use Rattle.std.specs.Prelude.{◌≡◌, ◌++◌, OnOk, map};
ghost use Rattle.amq_model.specs.Script.{words_said, words_of};

use amq_model::NoMemory;

/// Puts the words that a line says in the place of those that were there: none where its first byte
/// is `#`. The memory of the list serves again.
pub fn split_words<'a>(words: &mut Vec<&'a [u8]>, line: &'a [u8]) -> Result<(), NoMemory>
    ensures { OnOk result (map (λ word. word.now) words.new.items ≡ words_said line.now) }
{
    words.clear();
    if line.first() == Some(&b'#') {
        return Ok(());
    }
    push_words(words, line)
}

/// Appends the parts of a line between its spaces that aren't empty.
fn push_words<'a>(words: &mut Vec<&'a [u8]>, line: &'a [u8]) -> Result<(), NoMemory>
    ensures { OnOk result (map (λ word. word.now) words.new.items
        ≡ map (λ word. word.now) words.old.items ++ words_of line.now) }
{
    let parts = line
        .split(|byte| *byte == b' ')
        .filter(|word| !word.is_empty());
    match words.extend(parts) {
        Ok(()) => Ok(()),
        Err(_) => Err(NoMemory),
    }
}
