//! Running the lines of a script on a journal.
ghost use Rattle.std.specs.Prelude.{◌≡◌, ◌-◌, ◌^◌, ◌<◌, [], All, IsTrue, None, Some, Err};
ghost use Rattle.amq_engine.specs.Engine.{is_noted};
ghost use Rattle.amq_cli.specs.Replay.{with_number, begun_number, is_begin, is_built};
ghost use Rattle.amq_cli.specs.Labelled.{number_in};
ghost use Rattle.amq_cli.specs.Playing.{HasPlayed};
ghost use Rattle.amq_cli.specs.Replaying.{GivesCommand, AnswersLine, PlaysLine, Replays};

use crate::labels::Labels;
use amq_engine::{Engine, Kept};
use amq_io::Disk;
use amq_model::{Answer, Command, Line, Name, Refusal, Reply};
use amq_print::{LONGEST_LINE, push_answer, push_bound};
use std::alloc::Global;

/// The producer of a replay.
const SEAT: u32 = 1;

/// Whether a refusal answers its command: not where the journal is closed, or had no memory.
fn is_answer(refusal: Refusal) -> bool
    ensures { result ≡ is_noted (Err refusal) }
{
    !matches!(
        refusal,
        Refusal::Closed { .. } | Refusal::Disk { .. } | Refusal::NoMemory
    )
}

/// Gives a command, which has this number among the commands. A refusal that isn't an answer ends
/// the replay.
fn give<D: Disk>(
    engine: &mut Engine<D, Kept>,
    number: &mut u64,
    command: Command,
) -> Result<Answer, Refusal>
    requires open { engine.old.closed ≡ None }
    requires few { number.old < 2 ^ 64 - 1 }
    ensures gives { GivesCommand D.past D.faults command number.old number.new result
        engine.old engine.new }
{
    let given = *number;
    *number += 1;
    match engine.command(SEAT, given, command) {
        Ok(reply) => Ok(Answer::Done(reply)),
        Err(refusal) if is_answer(refusal) => Ok(Answer::Refused(refusal)),
        Err(refusal) => Err(refusal),
    }
}

/// The command with the number of its transaction.
fn with_number(number: u64, command: Command) -> Command
    ensures { result ≡ with_number number command }
{
    match command {
        Command::AddTx {
            tx: _,
            id,
            user_type,
            body,
        } => Command::AddTx {
            tx: number,
            id,
            user_type,
            body,
        },
        Command::UpdateTx {
            tx: _,
            id,
            user_type,
            body,
        } => Command::UpdateTx {
            tx: number,
            id,
            user_type,
            body,
        },
        Command::DeleteTx { tx: _, id, body } => Command::DeleteTx {
            tx: number,
            id,
            body,
        },
        Command::Prepare { tx: _, extra } => Command::Prepare { tx: number, extra },
        Command::Commit { tx: _ } => Command::Commit { tx: number },
        Command::Rollback { tx: _ } => Command::Rollback { tx: number },
        command => command,
    }
}

/// The number that a begin was given, 0 where it was refused.
fn begun_number(answer: &Answer) -> u64
    ensures { result ≡ begun_number (Some answer.now) }
{
    match answer {
        Answer::Done(Reply::Begun { tx }) => *tx,
        _ => 0,
    }
}

/// Whether the command begins a transaction.
fn is_begin(command: &Command) -> bool
    ensures { result ≡ is_begin command.now }
{
    matches!(command, Command::Begin)
}

/// Gives the command of a line with a label. A begin lets the label stand for its number.
fn give_labelled<D: Disk>(
    engine: &mut Engine<D, Kept>,
    labels: &mut Labels,
    number: &mut u64,
    label: &Name,
    command: Command,
) -> Result<Answer, Refusal>
    requires open { engine.old.closed ≡ None }
    requires few { number.old < 2 ^ 64 - 1 }
    ensures answers { AnswersLine D.past D.faults (Line.Labelled label.now command)
        (number_in labels.old) (number_in labels.new) number.old number.new result
        engine.old engine.new }
{
    if !is_begin(&command) {
        return give(engine, number, with_number(labels.number(label), command));
    }
    if labels.reserve(label).is_err() {
        return Err(Refusal::NoMemory);
    }
    let answer = give(engine, number, Command::Begin)?;
    labels.set(label, begun_number(&answer));
    Ok(answer)
}

/// Answers a line, and writes the line of text for it.
///
/// A refusal that isn't an answer ends the replay: with its line where a disk call failed, without one
/// for want of memory. A line is answered only once its text has room, so that no answer goes without
/// it.
fn play_line<D: Disk>(
    engine: &mut Engine<D, Kept>,
    labels: &mut Labels,
    number: &mut u64,
    line: Line,
    text: &mut Vec<u8>,
) -> Result<(), Refusal>
    requires built { IsTrue (is_built line) }
    requires open { engine.old.closed ≡ None }
    requires few { number.old < 2 ^ 64 - 1 }
    ensures plays { PlaysLine D.past D.faults line (number_in labels.old) (number_in labels.new)
        number.old number.new text.old.items text.new.items result engine.old engine.new }
{
    if text.reserve(LONGEST_LINE).is_err() {
        return Err(Refusal::NoMemory);
    }
    let answered = match line {
        Line::Plain(command) => give(engine, number, command),
        Line::Labelled { label, command } => give_labelled(engine, labels, number, &label, command),
        Line::Bind { label, tx } => {
            if labels.reserve(&label).is_err() {
                return Err(Refusal::NoMemory);
            }
            labels.set(&label, tx);
            push_bound(text, tx).unwrap();
            return Ok(());
        }
        Line::Tick(now) => match engine.tick(now) {
            Ok(count) => Ok(Answer::Done(Reply::Durable { count })),
            Err(refusal) => Err(refusal),
        },
        _ => unreachable!(),
    };
    match answered {
        Ok(answer) => {
            push_answer(text, &answer).unwrap();
            Ok(())
        }
        Err(refusal) => {
            push_answer(text, &Answer::Refused(refusal)).unwrap();
            Err(refusal)
        }
    }
}

/// Answers the lines in order, and writes the line of text for each.
pub fn replay<D: Disk>(
    alloc: Global,
    engine: &mut Engine<D, Kept>,
    mut lines: Vec<Line>,
    text: &mut Vec<u8>,
) -> Result<(), Refusal>
    requires built { All (λ line. IsTrue (is_built line)) lines.items }
    requires open { engine.old.closed ≡ None }
    requires begun { HasPlayed engine.old.config.buffer_timeout [] (λ label. 0) 1 engine.old
        text.old.items }
    ensures replays { Replays D.past D.faults lines.items text.new.items result
        engine.old engine.new }
{
    // The last one stands at the front, so that each is taken from the end.
    lines.reverse();
    let mut labels = Labels::new(alloc);
    let mut number = 1;
    while let Some(line) = lines.pop() {
        play_line(engine, &mut labels, &mut number, line, text)?;
    }
    Ok(())
}
