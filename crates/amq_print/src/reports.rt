ghost use Rattle.std.specs.Prelude.{◌≡◌, ◌++◌, ◌∷◌, [], IfOk, OnOk, codes};
ghost use Rattle.std.specs.List.{flat_map};
ghost use Rattle.std.specs.Fmt.{decimal};
ghost use Rattle.amq_model.specs.Texts.{line, report_of, entry_line, removal_line, in_doubt_lines, kind_name, indented};

use crate::words::Word::{Hex, Number, Text};
use crate::words::push_line;
use amq_model::{Entry, EntryKind, InDoubt, LoadState, NoMemory, Removal};
use std::alloc::Global;

/// The report of what a load gave: its live records, then its transactions in doubt.
pub fn report(alloc: Global, state: &LoadState) -> Result<Vec<u8>, NoMemory>
    ensures { IfOk result (λ text. text.items ≡ report_of state.now) }
{
    let mut out = Vec::new(alloc);
    push_live_count(&mut out, state.live.len() as u64)?;
    push_entries(&mut out, state.live.as_slice())?;
    push_in_doubt_count(&mut out, state.in_doubt.len() as u64)?;
    for transaction in state.in_doubt.as_slice() {
        push_in_doubt(&mut out, transaction)?;
    }
    Ok(out)
}

/// Appends the first line of a report: how many records are live.
pub fn push_live_count(out: &mut Vec<u8>, count: u64) -> Result<(), NoMemory>
    ensures { OnOk result
        (out.new.items ≡ out.old.items ++ line (codes "live" ∷ decimal count ∷ [])) }
{
    push_line(out, &[Text("live"), Number(count)])
}

/// Appends the line behind the live records: how many transactions are in doubt.
pub fn push_in_doubt_count(out: &mut Vec<u8>, count: u64) -> Result<(), NoMemory>
    ensures { OnOk result
        (out.new.items ≡ out.old.items ++ line (codes "in" ∷ codes "doubt" ∷ decimal count ∷ [])) }
{
    push_line(out, &[Text("in"), Text("doubt"), Number(count)])
}

/// Appends the lines of live records.
fn push_entries(out: &mut Vec<u8>, entries: &[Entry]) -> Result<(), NoMemory>
    ensures { OnOk result (out.new.items ≡ out.old.items ++ flat_map entry_line entries.now) }
{
    for entry in entries {
        push_entry(out, entry)?;
    }
    Ok(())
}

/// Appends the line of a record.
pub fn push_entry(out: &mut Vec<u8>, entry: &Entry) -> Result<(), NoMemory>
    ensures { OnOk result (out.new.items ≡ out.old.items ++ entry_line entry.now) }
{
    push_line(
        out,
        &[
            Text(kind_text(entry.kind)),
            Number(entry.id),
            Number(u64::from(entry.user_type)),
            Hex(entry.body.as_slice()),
        ],
    )
}

/// Appends the lines of a transaction in doubt.
pub fn push_in_doubt(out: &mut Vec<u8>, transaction: &InDoubt) -> Result<(), NoMemory>
    ensures { OnOk result (out.new.items ≡ out.old.items ++ in_doubt_lines transaction.now) }
{
    push_line(
        out,
        &[
            Text("tx"),
            Number(transaction.tx),
            Text("extra"),
            Hex(transaction.extra.as_slice()),
            Text("records"),
            Number(transaction.records.len() as u64),
            Text("deletes"),
            Number(transaction.deletes.len() as u64),
        ],
    )?;
    push_records(out, transaction.records.as_slice())?;
    push_deletes(out, transaction.deletes.as_slice())
}

/// Appends the lines of the adds and updates of a transaction in doubt.
fn push_records(out: &mut Vec<u8>, records: &[Entry]) -> Result<(), NoMemory>
    ensures { OnOk result (out.new.items
        ≡ out.old.items ++ flat_map (λ e. indented (entry_line e)) records.now) }
{
    for entry in records {
        push_indent(out)?;
        push_entry(out, entry)?;
    }
    Ok(())
}

/// Appends the lines of the deletes of a transaction in doubt.
fn push_deletes(out: &mut Vec<u8>, deletes: &[Removal]) -> Result<(), NoMemory>
    ensures { OnOk result (out.new.items
        ≡ out.old.items ++ flat_map (λ r. indented (removal_line r)) deletes.now) }
{
    for delete in deletes {
        push_indent(out)?;
        push_line(
            out,
            &[
                Text("delete"),
                Number(delete.id),
                Hex(delete.body.as_slice()),
            ],
        )?;
    }
    Ok(())
}

/// Appends two spaces.
fn push_indent(out: &mut Vec<u8>) -> Result<(), NoMemory>
    ensures { OnOk result (out.new.items ≡ out.old.items ++ codes "  ") }
{
    match out.extend_from_slice(b"  ") {
        Ok(()) => Ok(()),
        Err(_) => Err(NoMemory),
    }
}

/// The word of a kind.
fn kind_text(kind: EntryKind) -> &'static str
    ensures { result.now ≡ kind_name kind }
{
    match kind {
        EntryKind::Add => "add",
        EntryKind::Update => "update",
    }
}
