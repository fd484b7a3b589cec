//! Reading the script of a replay.
ghost use Rattle.std.specs.Prelude.{◌≡◌, ◌≤◌, Some, IsTrue, All, IfOk, IfErr, OnOk};
ghost use Rattle.std.specs.List.{list_all};
ghost use Rattle.amq_cli.specs.Counts.{HasSourceCount};
ghost use Rattle.amq_cli.specs.Replay.{is_built, built_lines, script_lines};
ghost use Rattle.amq_cli.specs.Script.{IsSaid, HasScriptCause, HasReadCause};

use crate::input::{INPUT_LIMIT, InputFault, read_whole};
use crate::status::{Status, Unbuilt};
use amq_io::Source;
use amq_model::{Items, Line, Mode};
use amq_script::{ScriptFault, parse};
use std::alloc::Global;

const NOT_BUILT: Status = Status::NotBuilt {
    part: Unbuilt::Script,
};

/// Reads the source to its end, and the lines that it says.
pub fn read_script<S: Source>(alloc: Global, source: &mut S) -> Result<Vec<Line>, Status>
    ensures said { IfOk result (λ lines. IsSaid lines.items (S.left source.old)
        (S.left source.new)) }
    ensures built { IfOk result (λ lines. All (λ line. IsTrue (is_built line)) lines.items) }
    ensures cause { IfErr result (λ status. HasReadCause status (S.left source.old)
        (S.faults source.old) (S.faults source.new)) }
    ensures count { IfErr result (λ status. HasSourceCount status (S.faults source.old)
        (S.faults source.new)) }
    ensures sound { OnOk result (S.faults source.new ≡ S.faults source.old) }
{
    match read_whole(alloc, source) {
        Ok(bytes) => lines_of(alloc, &bytes),
        Err(InputFault::Failed) => Err(Status::SourceFault),
        Err(InputFault::NoMemory) => Err(Status::NoMemory),
        Err(InputFault::TooLong) => Err(Status::InputTooLong { limit: INPUT_LIMIT }),
    }
}

/// The lines that a script says.
fn lines_of(alloc: Global, bytes: &[u8]) -> Result<Vec<Line>, Status>
    ensures said { IfOk result (λ lines. script_lines bytes.now ≡ Some lines.items) }
    ensures built { IfOk result (λ lines. All (λ line. IsTrue (is_built line)) lines.items) }
    ensures cause { IfErr result (λ status. HasScriptCause status (script_lines bytes.now)) }
{
    match parse(alloc, bytes, Mode::Replay) {
        Ok(script) => lines_of_one(script.producers),
        Err(ScriptFault::At { .. }) => Err(NOT_BUILT),
        Err(ScriptFault::NoMemory) => Err(Status::NoMemory),
    }
}

/// The lines of the one producer.
fn lines_of_one(producers: Items<Items<Line>>) -> Result<Vec<Line>, Status>
    ensures said { IfOk result (λ lines. built_lines producers ≡ Some lines.items) }
    ensures built { IfOk result (λ lines. All (λ line. IsTrue (is_built line)) lines.items) }
    ensures cause { IfErr result (λ status. HasScriptCause status (built_lines producers)) }
{
    let mut producers = producers.into_vec();
    match producers.pop() {
        Some(lines) if producers.is_empty() && are_built(lines.as_slice()) => Ok(lines.into_vec()),
        _ => Err(NOT_BUILT),
    }
}

/// Whether a replay takes each of these lines today.
fn are_built(lines: &[Line]) -> bool
    ensures { result ≡ list_all is_built lines.now }
{
    lines.iter().all(is_built)
}

/// Whether a replay takes the line today: all but those of giving up files and of compaction.
fn is_built(line: &Line) -> bool
    ensures { result ≡ is_built line.now }
{
    !matches!(line, Line::Reclaim | Line::Compact | Line::Step(_))
}
