//! The words that begin a line.
ghost use Rattle.std.specs.Prelude.{◌≡◌};
ghost use Rattle.amq_model.specs.Script.{keyword_named, has_lines, is_outside, argument_count};

use amq_model::{Keyword, Mode};

/// The keyword with this name, in one mode or the other.
pub fn keyword_named(word: &[u8]) -> Option<Keyword>
    ensures { result ≡ keyword_named word.now }
{
    if word == b"add".as_slice() {
        Some(Keyword::Add)
    } else if word == b"update".as_slice() {
        Some(Keyword::Update)
    } else if word == b"delete".as_slice() {
        Some(Keyword::Delete)
    } else if word == b"begin".as_slice() {
        Some(Keyword::Begin)
    } else if word == b"bind".as_slice() {
        Some(Keyword::Bind)
    } else if word == b"addtx".as_slice() {
        Some(Keyword::AddTx)
    } else if word == b"updatetx".as_slice() {
        Some(Keyword::UpdateTx)
    } else if word == b"deletetx".as_slice() {
        Some(Keyword::DeleteTx)
    } else if word == b"prepare".as_slice() {
        Some(Keyword::Prepare)
    } else if word == b"commit".as_slice() {
        Some(Keyword::Commit)
    } else if word == b"rollback".as_slice() {
        Some(Keyword::Rollback)
    } else if word == b"flush".as_slice() {
        Some(Keyword::Flush)
    } else if word == b"tick".as_slice() {
        Some(Keyword::Tick)
    } else if word == b"reclaim".as_slice() {
        Some(Keyword::Reclaim)
    } else if word == b"compact".as_slice() {
        Some(Keyword::Compact)
    } else if word == b"step".as_slice() {
        Some(Keyword::Step)
    } else if word == b"producer".as_slice() {
        Some(Keyword::Producer)
    } else {
        None
    }
}

/// Whether the mode has lines of this keyword.
pub fn has_lines(mode: Mode, keyword: Keyword) -> bool
    ensures { result ≡ has_lines mode keyword }
{
    match mode {
        Mode::Replay => !matches!(keyword, Keyword::Producer),
        Mode::Run => !matches!(
            keyword,
            Keyword::Tick | Keyword::Reclaim | Keyword::Compact | Keyword::Step
        ),
    }
}

/// Whether a line of this keyword stands outside the sections of a run, behind so many of them.
pub fn is_outside(mode: Mode, sections: usize, keyword: Keyword) -> bool
    ensures { result ≡ is_outside mode sections keyword }
{
    match (mode, keyword) {
        (Mode::Replay, _) => false,
        (Mode::Run, Keyword::Producer) => sections >= 64,
        (Mode::Run, _) => sections == 0,
    }
}

/// How many words follow the keyword.
pub fn argument_count(keyword: Keyword) -> usize
    ensures { result ≡ argument_count keyword }
{
    match keyword {
        Keyword::Flush | Keyword::Reclaim | Keyword::Compact | Keyword::Producer => 0,
        Keyword::Delete
        | Keyword::Begin
        | Keyword::Commit
        | Keyword::Rollback
        | Keyword::Tick
        | Keyword::Step => 1,
        Keyword::Bind | Keyword::Prepare => 2,
        Keyword::Add | Keyword::Update | Keyword::DeleteTx => 3,
        Keyword::AddTx | Keyword::UpdateTx => 4,
    }
}
