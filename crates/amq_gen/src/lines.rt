//! The lines of one record.
ghost use Rattle.std.specs.Prelude.{◌≡◌, ◌^◌, ◌++◌, ◌∷◌, [], ◌<◌, codes, OnOk};
ghost use Rattle.amq_model.specs.Generator.{transaction, delete_behind, upkeep_behind, lines_made};

use crate::sequence;
use amq_model::{Bytes, Command, Line, Name, NoMemory};
use std::alloc::Global;

/// Appends the lines of the record of this number, whose body is made from these bits. After
/// `NoMemory` a part of them may stand there.
pub fn push_record(
    alloc: Global,
    lines: &mut Vec<Line>,
    label: &Name,
    number: u64,
    bits: u64,
) -> Result<(), NoMemory>
    requires label { label.now ≡ codes "t" }
    requires bits { bits < 2 ^ 31 }
    ensures { OnOk result (lines.new.items ≡ lines.old.items ++ lines_made number bits) }
{
    let add = Command::AddTx {
        tx: 0,
        id: number,
        user_type: 31,
        body: sequence::body(alloc, bits)?,
    };
    push_transaction(lines, label, add)?;
    push_delete(alloc, lines, label, number)?;
    push_upkeep(lines, number)
}

/// Appends the delete of the record 16 before this one.
fn push_delete(
    alloc: Global,
    lines: &mut Vec<Line>,
    label: &Name,
    number: u64,
) -> Result<(), NoMemory>
    requires { label.now ≡ codes "t" }
    ensures { OnOk result (lines.new.items ≡ lines.old.items ++ delete_behind number) }
{
    if number <= 16 {
        return Ok(());
    }
    let delete = Command::DeleteTx {
        tx: 0,
        id: number - 16,
        body: Bytes::of(Vec::new(alloc)),
    };
    push_transaction(lines, label, delete)
}

/// Appends a transaction of one command.
fn push_transaction(lines: &mut Vec<Line>, label: &Name, command: Command) -> Result<(), NoMemory>
    requires { label.now ≡ codes "t" }
    ensures { OnOk result (lines.new.items ≡ lines.old.items ++ transaction command) }
{
    push_labelled(lines, label, Command::Begin)?;
    push_labelled(lines, label, command)?;
    push_labelled(lines, label, Command::Commit { tx: 0 })
}

/// Appends the flush behind each 64th record, and the reclaim behind each 256th.
fn push_upkeep(lines: &mut Vec<Line>, number: u64) -> Result<(), NoMemory>
    ensures { OnOk result (lines.new.items ≡ lines.old.items ++ upkeep_behind number) }
{
    if number % 64 == 0 {
        push(lines, Line::Plain(Command::Flush))?;
    }
    if number % 256 == 0 {
        push(lines, Line::Reclaim)?;
    }
    Ok(())
}

/// Appends a command of a label.
fn push_labelled(lines: &mut Vec<Line>, label: &Name, command: Command) -> Result<(), NoMemory>
    ensures { OnOk result
        (lines.new.items ≡ lines.old.items ++ Line.Labelled label.now command ∷ []) }
{
    let label = label.copy()?;
    push(lines, Line::Labelled { label, command })
}

/// Appends a line.
fn push(lines: &mut Vec<Line>, line: Line) -> Result<(), NoMemory>
    ensures { OnOk result (lines.new.items ≡ lines.old.items ++ line ∷ []) }
{
    match lines.push(line) {
        Ok(()) => Ok(()),
        Err(_) => Err(NoMemory),
    }
}
