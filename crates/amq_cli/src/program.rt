//! The commands of the program, over any disk, source and sink.
ghost use Rattle.std.specs.Prelude.{◌≡◌, ◌∷◌, [], IfOk, IfErr, All, IsTrue};
ghost use Rattle.amq_model.specs.Configs.{IsConfig};
ghost use Rattle.amq_cli.specs.Words.{asked};
ghost use Rattle.amq_cli.specs.Offline.{defaults};
ghost use Rattle.amq_cli.specs.Outcome.{Outcome, Played, seen_disk, seen_stream};
ghost use Rattle.amq_cli.specs.Replay.{is_built};

use crate::output::write;
use crate::print::print;
use crate::run::run;
use crate::script::read_script;
use crate::status::{Status, Unbuilt};
use crate::words::{Task, task_of};
use amq_engine::Kept;
use amq_io::{Disk, Sink, Source};
use amq_model::{Command, Config, Line};
use std::alloc::Global;

/// The configuration of a broker that sets nothing.
const DEFAULTS: Config = Config {
    file_size: 10_485_760,
    min_files: 2,
    pool_files: None,
    compact_min_files: 10,
    compact_percentage: 30,
    buffer_size: 501_760,
    buffer_timeout: 3,
    user_version: 0,
};

/// Runs a command of the program with the default configuration: see `offline_with`.
pub fn offline<D: Disk, S: Source, K: Sink>(
    alloc: Global,
    words: &[&str],
    disk: D,
    source: &mut S,
    sink: &mut K,
) -> (Status, D, Kept)
    ensures outcome { Outcome (asked words.now) defaults result.0 result.2
        (seen_disk D.past D.moment D.faults disk)
        (seen_disk D.past D.moment D.faults result.1)
        (seen_stream S.left S.faults source.old)
        (seen_stream S.left S.faults source.new)
        (seen_stream K.taken K.faults sink.old)
        (seen_stream K.taken K.faults sink.new) }
{
    offline_with(alloc, DEFAULTS, words, disk, source, sink)
}

/// Runs a command of the program, and hands back the disk and what was done on it.
///
/// The words are `DIR replay`, `DIR print`, `DIR settle commit TX` or `DIR settle rollback TX`; the disk
/// is the folder that the first one names.
///
/// `replay` opens the journal and runs the lines of the script that the source has. Its answers and then
/// the report of what is loaded again are written to the sink. Where a call of the disk fails or memory
/// is short once the journal is open, the lines so far are written, without a report. `settle` does the
/// same with the one command that ends the transaction. `print` only reads the disk, and writes the
/// report of what is loaded.
pub fn offline_with<D: Disk, S: Source, K: Sink>(
    alloc: Global,
    config: Config,
    words: &[&str],
    mut disk: D,
    source: &mut S,
    sink: &mut K,
) -> (Status, D, Kept)
    requires config { IsConfig config }
    ensures outcome { Outcome (asked words.now) config result.0 result.2
        (seen_disk D.past D.moment D.faults disk)
        (seen_disk D.past D.moment D.faults result.1)
        (seen_stream S.left S.faults source.old)
        (seen_stream S.left S.faults source.new)
        (seen_stream K.taken K.faults sink.old)
        (seen_stream K.taken K.faults sink.new) }
{
    let lines = match task_of(words) {
        Some(Task::Replay) => read_script(alloc, source),
        Some(Task::Settle(command)) => one_line(alloc, command),
        Some(Task::Print) => {
            let status = print(alloc, config.user_version, &mut disk, sink);
            return (status, disk, Kept::new(alloc));
        }
        None => Err(Status::NotBuilt {
            part: Unbuilt::Words,
        }),
    };
    match lines {
        Ok(lines) => play(alloc, config, lines, disk, sink),
        Err(status) => (status, disk, Kept::new(alloc)),
    }
}

/// The one line that gives a command.
fn one_line(alloc: Global, command: Command) -> Result<Vec<Line>, Status>
    ensures line { IfOk result (λ lines. lines.items ≡ Line.Plain command ∷ []) }
    ensures memory { IfErr result (λ status. status ≡ Status.NoMemory) }
{
    let mut lines = Vec::new(alloc);
    match lines.push(Line::Plain(command)) {
        Ok(()) => Ok(lines),
        Err(_) => Err(Status::NoMemory),
    }
}

/// Runs the lines on a journal, and writes their text.
fn play<D: Disk, K: Sink>(
    alloc: Global,
    config: Config,
    lines: Vec<Line>,
    disk: D,
    sink: &mut K,
) -> (Status, D, Kept)
    requires config { IsConfig config }
    requires built { All (λ line. IsTrue (is_built line)) lines.items }
    ensures played { Played config lines.items result.0 result.2
        (seen_disk D.past D.moment D.faults disk)
        (seen_disk D.past D.moment D.faults result.1)
        (seen_stream K.taken K.faults sink.old)
        (seen_stream K.taken K.faults sink.new) }
{
    let mut text = Vec::new(alloc);
    let (outcome, disk, kept) = run(alloc, config, lines, disk, &mut text);
    let status = match outcome {
        Status::NotBuilt { .. } | Status::Directory { .. } | Status::FileIdsSpent { .. } => outcome,
        _ => write(sink, &text, outcome),
    };
    (status, disk, kept)
}
