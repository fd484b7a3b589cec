//! What a line says.
ghost use Rattle.std.specs.Prelude.{map};
ghost use Rattle.amq_model.specs.Script.{words_say, keyword_said};
ghost use Rattle.amq_script.specs.Faults.{Reads};

use crate::arguments::arguments_said;
use crate::faults::LineFault;
use crate::keywords::{argument_count, has_lines, is_outside, keyword_named};
use crate::labels::Labels;
use amq_model::{Keyword, Mode, Said, ScriptCause};
use std::alloc::Global;

/// What a line of these words says, behind so many sections and the labels of the last one; nothing
/// where it has no words.
pub fn words_say(
    alloc: Global,
    mode: Mode,
    sections: usize,
    labels: &Labels,
    words: &[&[u8]],
) -> Result<Option<Said>, LineFault>
    ensures { Reads result
        (words_say mode sections labels.now (map (λ word. word.now) words.now)) }
{
    if words.is_empty() {
        return Ok(None);
    }
    let keyword = keyword_named(words[0]);
    let said = keyword_said(alloc, mode, sections, labels, words, keyword)?;
    Ok(Some(said))
}

/// What a line with this first word says.
fn keyword_said(
    alloc: Global,
    mode: Mode,
    sections: usize,
    labels: &Labels,
    words: &[&[u8]],
    keyword: Option<Keyword>,
) -> Result<Said, LineFault>
    ensures { Reads result
        (keyword_said mode sections labels.now (map (λ word. word.now) words.now) keyword) }
{
    let Some(keyword) = keyword else {
        return Err(LineFault::Wrong(ScriptCause::UnknownWord));
    };
    if !has_lines(mode, keyword) {
        return Err(LineFault::Wrong(ScriptCause::UnknownWord));
    }
    if is_outside(mode, sections, keyword) {
        return Err(LineFault::Wrong(ScriptCause::Section));
    }
    if words.len() != argument_count(keyword) + 1 {
        return Err(LineFault::Wrong(ScriptCause::Arguments));
    }
    arguments_said(alloc, labels, words, keyword)
}
