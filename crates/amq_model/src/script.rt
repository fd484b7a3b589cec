use crate::{Command, Name};

/// How a script is run: by one caller, or by producers side by side, one a section.
#[derive(Clone, Copy, Debug, PartialEq, Eq)]
pub enum Mode {
    Replay,
    Run,
}

/// The word that begins a line of a script.
#[derive(Clone, Copy, Debug, PartialEq, Eq)]
pub enum Keyword {
    Add,
    Update,
    Delete,
    Begin,
    Bind,
    AddTx,
    UpdateTx,
    DeleteTx,
    Prepare,
    Commit,
    Rollback,
    Flush,
    Tick,
    Reclaim,
    Compact,
    Step,
    Producer,
}

/// A line of a script.
///
/// In `Labelled` the command's `tx` is 0 and is filled in from the label; `Begin` sets the label, and
/// `Bind` sets it to `tx`. `Tick` has a moment in ticks, `Step` a number of compaction steps.
#[derive(Clone, Debug, Drop, PartialEq, Eq)]
pub enum Line {
    Plain(Command),
    Labelled { label: Name, command: Command },
    Bind { label: Name, tx: u64 },
    Tick(u64),
    Reclaim,
    Compact,
    Step(u64),
}

/// What a line that isn't passed over says: that a section begins, or a line of one.
#[derive(Clone, Debug, Drop, PartialEq, Eq)]
pub enum Said {
    Section,
    Says(Line),
}

/// Why a line is outside the grammar, in the order in which a line is tried.
#[derive(Clone, Copy, Debug, PartialEq, Eq, thiserror::Error)]
pub enum ScriptCause {
    /// The first word isn't a line of this mode.
    #[error("unknown word")]
    UnknownWord,
    /// A line before the first section, or a section too many.
    #[error("section")]
    Section,
    /// The count of words is wrong.
    #[error("arguments")]
    Arguments,
    /// A word that is no label.
    #[error("label")]
    Label,
    /// A label that no earlier line of the section named.
    #[error("label not begun")]
    Unbegun,
    /// A word that is no number of its range.
    #[error("number")]
    Number,
    /// A word that is no body.
    #[error("body")]
    Hex,
}
