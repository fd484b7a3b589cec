use crate::{Command, Placed, Refusal, Reply};

/// What a command was answered.
#[derive(Clone, Copy, Debug, PartialEq, Eq)]
pub enum Answer {
    Done(Reply),
    Refused(Refusal),
}

/// A command, its answer and the record that it appended.
///
/// `seat` is that of the producer, 0 for the opening's own; `number` counts the seat's commands from 1.
#[derive(Clone, Debug, Drop, PartialEq, Eq)]
pub struct Step {
    pub seat: u32,
    pub number: u64,
    pub command: Command,
    pub answer: Answer,
    pub placed: Option<Placed>,
}
