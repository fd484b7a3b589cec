//! The words of a command.
ghost use Rattle.std.specs.Prelude.{◌≡◌};
ghost use Rattle.amq_cli.specs.Words.{asked, task_named, settling, settling_spelled, folder_named};

use amq_model::{Command, number_spelled};

/// What is asked of the program.
#[derive(Debug, Drop, PartialEq, Eq)]
pub enum Task {
    /// To run the lines of a script on a journal.
    Replay,
    /// To write the report of what the directory has.
    Print,
    /// To end a transaction with this command.
    Settle(Command),
}

/// What the words ask for; `None` where they have no meaning, or one that isn't built yet.
pub fn task_of(words: &[&str]) -> Option<Task>
    ensures { result ≡ asked words.now }
{
    match words {
        [folder, command] if is_folder(folder) => task_named(command),
        [folder, command, end, digits] if is_folder(folder) && *command == "settle" => {
            settling_spelled(end, digits)
        }
        _ => None,
    }
}

/// The command of one word.
fn task_named(command: &str) -> Option<Task>
    ensures { result ≡ task_named command.now }
{
    match command {
        "replay" => Some(Task::Replay),
        "print" => Some(Task::Print),
        _ => None,
    }
}

/// The end that these two words ask for: which one, and of which transaction.
fn settling_spelled(end: &str, digits: &str) -> Option<Task>
    ensures { result ≡ settling_spelled end.now digits.now }
{
    match number_spelled(digits.as_bytes()) {
        Some(tx) => settling(end, tx),
        None => None,
    }
}

/// The end of this transaction by the word for it.
fn settling(end: &str, tx: u64) -> Option<Task>
    ensures { result ≡ settling end.now tx }
{
    match end {
        "commit" => Some(Task::Settle(Command::Commit { tx })),
        "rollback" => Some(Task::Settle(Command::Rollback { tx })),
        _ => None,
    }
}

/// Whether a word names a folder: it isn't empty and doesn't begin with a dash.
fn is_folder(word: &str) -> bool
    ensures { result ≡ folder_named word.now }
{
    match word.as_bytes() {
        [] => false,
        [first, ..] => *first != b'-',
    }
}
