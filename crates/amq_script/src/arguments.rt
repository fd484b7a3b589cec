//! What the arguments of a line say.
ghost use Rattle.std.specs.Prelude.{◌≡◌, ◌≤◌, [], map};
ghost use Rattle.amq_model.specs.Script.{word_at, known_label_of, stored_at, arguments_said};
ghost use Rattle.amq_script.specs.Faults.{Reads};

use crate::faults::LineFault;
use crate::labels::Labels;
use crate::values;
use amq_model::{Bytes, Command, Keyword, Line, Name, Said, ScriptCause};
use std::alloc::Global;

/// What a line of this keyword says, behind lines that named these labels. The words begin with the
/// keyword's own.
pub fn arguments_said(
    alloc: Global,
    labels: &Labels,
    words: &[&[u8]],
    keyword: Keyword,
) -> Result<Said, LineFault>
    ensures { Reads result
        (arguments_said labels.now (map (λ word. word.now) words.now) keyword) }
{
    match keyword {
        Keyword::Add => add(alloc, words),
        Keyword::Update => update(alloc, words),
        Keyword::Delete => delete(words),
        Keyword::Begin => begin(alloc, words),
        Keyword::Bind => bind(alloc, words),
        Keyword::AddTx => add_tx(alloc, labels, words),
        Keyword::UpdateTx => update_tx(alloc, labels, words),
        Keyword::DeleteTx => delete_tx(alloc, labels, words),
        Keyword::Prepare => prepare(alloc, labels, words),
        Keyword::Commit => commit(alloc, labels, words),
        Keyword::Rollback => rollback(alloc, labels, words),
        Keyword::Flush => Ok(Said::Says(Line::Plain(Command::Flush))),
        Keyword::Tick => tick(words),
        Keyword::Reclaim => Ok(Said::Says(Line::Reclaim)),
        Keyword::Compact => Ok(Said::Says(Line::Compact)),
        Keyword::Step => step(words),
        Keyword::Producer => Ok(Said::Section),
    }
}

/// `add ID TYPE BODY`
fn add(alloc: Global, words: &[&[u8]]) -> Result<Said, LineFault>
    ensures { Reads result
        (arguments_said [] (map (λ word. word.now) words.now) Keyword.Add) }
{
    let (id, user_type, body) = stored_at(alloc, words, 1)?;
    Ok(Said::Says(Line::Plain(Command::Add {
        id,
        user_type,
        body,
    })))
}

/// `update ID TYPE BODY`
fn update(alloc: Global, words: &[&[u8]]) -> Result<Said, LineFault>
    ensures { Reads result
        (arguments_said [] (map (λ word. word.now) words.now) Keyword.Update) }
{
    let (id, user_type, body) = stored_at(alloc, words, 1)?;
    Ok(Said::Says(Line::Plain(Command::Update {
        id,
        user_type,
        body,
    })))
}

/// `delete ID`
fn delete(words: &[&[u8]]) -> Result<Said, LineFault>
    ensures { Reads result
        (arguments_said [] (map (λ word. word.now) words.now) Keyword.Delete) }
{
    let id = values::number(word_at(words, 1))?;
    Ok(Said::Says(Line::Plain(Command::Delete { id })))
}

/// `begin LABEL`
fn begin(alloc: Global, words: &[&[u8]]) -> Result<Said, LineFault>
    ensures { Reads result
        (arguments_said [] (map (λ word. word.now) words.now) Keyword.Begin) }
{
    let label = values::label(alloc, word_at(words, 1))?;
    let command = Command::Begin;
    Ok(Said::Says(Line::Labelled { label, command }))
}

/// `bind LABEL TX`
fn bind(alloc: Global, words: &[&[u8]]) -> Result<Said, LineFault>
    ensures { Reads result
        (arguments_said [] (map (λ word. word.now) words.now) Keyword.Bind) }
{
    let label = values::label(alloc, word_at(words, 1))?;
    let tx = values::number(word_at(words, 2))?;
    Ok(Said::Says(Line::Bind { label, tx }))
}

/// `addtx LABEL ID TYPE BODY`
fn add_tx(alloc: Global, labels: &Labels, words: &[&[u8]]) -> Result<Said, LineFault>
    ensures { Reads result
        (arguments_said labels.now (map (λ word. word.now) words.now) Keyword.AddTx) }
{
    let label = known_label(alloc, labels, word_at(words, 1))?;
    let (id, user_type, body) = stored_at(alloc, words, 2)?;
    let command = Command::AddTx {
        tx: 0,
        id,
        user_type,
        body,
    };
    Ok(Said::Says(Line::Labelled { label, command }))
}

/// `updatetx LABEL ID TYPE BODY`
fn update_tx(alloc: Global, labels: &Labels, words: &[&[u8]]) -> Result<Said, LineFault>
    ensures { Reads result
        (arguments_said labels.now (map (λ word. word.now) words.now) Keyword.UpdateTx) }
{
    let label = known_label(alloc, labels, word_at(words, 1))?;
    let (id, user_type, body) = stored_at(alloc, words, 2)?;
    let command = Command::UpdateTx {
        tx: 0,
        id,
        user_type,
        body,
    };
    Ok(Said::Says(Line::Labelled { label, command }))
}

/// `deletetx LABEL ID BODY`
fn delete_tx(alloc: Global, labels: &Labels, words: &[&[u8]]) -> Result<Said, LineFault>
    ensures { Reads result
        (arguments_said labels.now (map (λ word. word.now) words.now) Keyword.DeleteTx) }
{
    let label = known_label(alloc, labels, word_at(words, 1))?;
    let id = values::number(word_at(words, 2))?;
    let body = values::body(alloc, word_at(words, 3))?;
    let command = Command::DeleteTx { tx: 0, id, body };
    Ok(Said::Says(Line::Labelled { label, command }))
}

/// `prepare LABEL BODY`
fn prepare(alloc: Global, labels: &Labels, words: &[&[u8]]) -> Result<Said, LineFault>
    ensures { Reads result
        (arguments_said labels.now (map (λ word. word.now) words.now) Keyword.Prepare) }
{
    let label = known_label(alloc, labels, word_at(words, 1))?;
    let extra = values::body(alloc, word_at(words, 2))?;
    let command = Command::Prepare { tx: 0, extra };
    Ok(Said::Says(Line::Labelled { label, command }))
}

/// `commit LABEL`
fn commit(alloc: Global, labels: &Labels, words: &[&[u8]]) -> Result<Said, LineFault>
    ensures { Reads result
        (arguments_said labels.now (map (λ word. word.now) words.now) Keyword.Commit) }
{
    let label = known_label(alloc, labels, word_at(words, 1))?;
    let command = Command::Commit { tx: 0 };
    Ok(Said::Says(Line::Labelled { label, command }))
}

/// `rollback LABEL`
fn rollback(alloc: Global, labels: &Labels, words: &[&[u8]]) -> Result<Said, LineFault>
    ensures { Reads result
        (arguments_said labels.now (map (λ word. word.now) words.now) Keyword.Rollback) }
{
    let label = known_label(alloc, labels, word_at(words, 1))?;
    let command = Command::Rollback { tx: 0 };
    Ok(Said::Says(Line::Labelled { label, command }))
}

/// `tick N`
fn tick(words: &[&[u8]]) -> Result<Said, LineFault>
    ensures { Reads result
        (arguments_said [] (map (λ word. word.now) words.now) Keyword.Tick) }
{
    let moment = values::number(word_at(words, 1))?;
    Ok(Said::Says(Line::Tick(moment)))
}

/// `step N`
fn step(words: &[&[u8]]) -> Result<Said, LineFault>
    ensures { Reads result
        (arguments_said [] (map (λ word. word.now) words.now) Keyword.Step) }
{
    let steps = values::steps(word_at(words, 1))?;
    Ok(Said::Says(Line::Step(steps)))
}

/// An id, a user type and a body, from this place on.
fn stored_at(alloc: Global, words: &[&[u8]], place: usize) -> Result<(u64, u8, Bytes), LineFault>
    requires { place ≤ 2 }
    ensures { Reads result (stored_at (map (λ word. word.now) words.now) place) }
{
    let id = values::number(word_at(words, place))?;
    let user_type = values::user_type(word_at(words, place + 1))?;
    let body = values::body(alloc, word_at(words, place + 2))?;
    Ok((id, user_type, body))
}

/// A label that an earlier line of the section named.
fn known_label(alloc: Global, labels: &Labels, word: &[u8]) -> Result<Name, LineFault>
    ensures { Reads result (known_label_of labels.now word.now) }
{
    let label = values::label(alloc, word)?;
    if labels.has(&label) {
        Ok(label)
    } else {
        Err(LineFault::Wrong(ScriptCause::Unbegun))
    }
}

/// The word at this place; past the end it is empty.
fn word_at<'a>(words: &[&'a [u8]], place: usize) -> &'a [u8]
    ensures { result.now ≡ word_at (map (λ word. word.now) words.now) place }
{
    if place < words.len() {
        words[place]
    } else {
        &[]
    }
}
