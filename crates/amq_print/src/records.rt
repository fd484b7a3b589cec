//! The lines of the records in data files.
ghost use Rattle.std.specs.Prelude.{◌≡◌, ◌∷◌, ◌++◌, true, IfOk, OnOk, filter};
ghost use Rattle.std.specs.List.{flat_map};
ghost use Rattle.std.specs.List.Sorted.{IsNonDecreasingBy};
ghost use Rattle.amq_model.specs.declared.record.Placed.{Placed};
ghost use Rattle.amq_model.specs.RecordLines.{record_kind, stored_fields, record_fields, record_line, file_line, is_in, record_lines_of};

use crate::words::Word::{Hex, Number, Text};
use crate::words::{push_line, write_field, write_words};
use amq_model::{Bytes, DataFile, NoMemory, Placed, Record};
use std::alloc::{AllocError, Global};

/// The lines of data files, each with those of its records among `base`.
///
/// Near linear where `base` ascends by file, as what a load gives does. In any other order each file
/// takes a walk over all of `base`.
pub fn record_lines(
    alloc: Global,
    files: &[DataFile],
    base: &[Placed],
    user_version: u32,
) -> Result<Vec<u8>, NoMemory>
    ensures { IfOk result (λ text. text.items ≡ record_lines_of files.now base.now user_version) }
{
    let ascends = ascends_by_file(base);
    let mut out = Vec::new(alloc);
    for file in files {
        push_file(&mut out, file, user_version)?;
        push_records(&mut out, part_with(base, ascends, file.id), file.id)?;
    }
    Ok(out)
}

/// Whether no record stands before one of a lesser file.
fn ascends_by_file(base: &[Placed]) -> bool
    ensures { result ≡ true → IsNonDecreasingBy (λ (p : Placed). p.file) base.now }
{
    base.is_sorted_by_key(|placed| placed.file)
}

/// A part of `base` with all records of a file: where `base` ascends by file, it has no others.
fn part_with<'a>(base: &'a [Placed], ascends: bool, file: u64) -> &'a [Placed]
    requires { ascends ≡ true → IsNonDecreasingBy (λ (p : Placed). p.file) base.now }
    ensures { filter (is_in file) result.now ≡ filter (is_in file) base.now }
{
    if !ascends {
        return base;
    }
    let first = base.partition_point(|placed| placed.file < file);
    let rest = &base[first..];
    let count = rest.partition_point(|placed| placed.file <= file);
    &rest[..count]
}

/// Appends a data file's own line.
fn push_file(out: &mut Vec<u8>, file: &DataFile, user_version: u32) -> Result<(), NoMemory>
    ensures { OnOk result (out.new.items ≡ out.old.items ++ file_line user_version file.now) }
{
    push_line(
        out,
        &[
            Text("file"),
            Number(file.id),
            Text(file.name.as_str()),
            Text("version"),
            Number(u64::from(file.version)),
            Text("user"),
            Number(u64::from(user_version)),
        ],
    )
}

/// Appends the lines of the records that stand in the file.
fn push_records(out: &mut Vec<u8>, records: &[Placed], file: u64) -> Result<(), NoMemory>
    ensures { OnOk result (out.new.items
        ≡ out.old.items ++ flat_map record_line (filter (is_in file) records.now)) }
{
    for placed in records {
        if placed.file == file {
            push_record(out, placed)?;
        }
    }
    Ok(())
}

/// Appends the line of a record.
fn push_record(out: &mut Vec<u8>, placed: &Placed) -> Result<(), NoMemory>
    ensures { OnOk result (out.new.items ≡ out.old.items ++ record_line placed.now) }
{
    match write_record(out, placed) {
        Ok(()) => Ok(()),
        Err(_) => Err(NoMemory),
    }
}

/// Appends the line of a record. After want of memory a part of it may stand there.
fn write_record(out: &mut Vec<u8>, placed: &Placed) -> Result<(), AllocError>
    ensures { OnOk result (out.new.items ≡ out.old.items ++ record_line placed.now) }
{
    write_words(
        out,
        &[
            Number(placed.place),
            Text(kind_text(&placed.rec)),
            Text("compact"),
            Number(u64::from(placed.compact)),
        ],
    )?;
    write_fields(out, &placed.rec)?;
    out.push(b'\n')?;
    Ok(())
}

/// Appends the kind's fields, a space before each word.
fn write_fields(out: &mut Vec<u8>, rec: &Record) -> Result<(), AllocError>
    ensures { OnOk result
        (out.new.items ≡ out.old.items ++ flat_map (λ word. 32 ∷ word) (record_fields rec.now)) }
{
    match rec {
        Record::Add {
            id,
            user_type,
            body,
        }
        | Record::Update {
            id,
            user_type,
            body,
        } => write_stored(out, *id, *user_type, body),
        Record::AddTx {
            tx,
            id,
            user_type,
            body,
        }
        | Record::UpdateTx {
            tx,
            id,
            user_type,
            body,
        } => {
            write_field(out, "tx", Number(*tx))?;
            write_stored(out, *id, *user_type, body)
        }
        Record::DeleteTx { tx, id, body } => {
            write_field(out, "tx", Number(*tx))?;
            write_field(out, "id", Number(*id))?;
            write_field(out, "body", Hex(body.as_slice()))
        }
        Record::Delete { id } => write_field(out, "id", Number(*id)),
        Record::Prepare { tx, count, extra } => {
            write_count(out, *tx, *count)?;
            write_field(out, "extra", Hex(extra.as_slice()))
        }
        Record::Commit { tx, count } => write_count(out, *tx, *count),
        Record::Rollback { tx } => write_field(out, "tx", Number(*tx)),
    }
}

/// Appends an id, a user type and a body, a space before each word.
fn write_stored(out: &mut Vec<u8>, id: u64, user_type: u8, body: &Bytes) -> Result<(), AllocError>
    ensures { OnOk result (out.new.items
        ≡ out.old.items ++ flat_map (λ word. 32 ∷ word) (stored_fields id user_type body.now)) }
{
    write_field(out, "id", Number(id))?;
    write_field(out, "type", Number(u64::from(user_type)))?;
    write_field(out, "body", Hex(body.as_slice()))
}

/// Appends a transaction and its number of records, a space before each word.
fn write_count(out: &mut Vec<u8>, tx: u64, count: u32) -> Result<(), AllocError>
    ensures { OnOk result (out.new.items
        ≡ out.old.items ++ flat_map (λ word. 32 ∷ word) (record_fields (Record.Commit tx count))) }
{
    write_field(out, "tx", Number(tx))?;
    write_field(out, "number", Number(u64::from(count)))
}

/// The name of a kind.
fn kind_text(rec: &Record) -> &'static str
    ensures { result.now ≡ record_kind rec.now }
{
    match rec {
        Record::Add { .. } => "ADD",
        Record::Update { .. } => "UPDATE",
        Record::AddTx { .. } => "ADD_TX",
        Record::UpdateTx { .. } => "UPDATE_TX",
        Record::DeleteTx { .. } => "DELETE_TX",
        Record::Delete { .. } => "DELETE",
        Record::Prepare { .. } => "PREPARE",
        Record::Commit { .. } => "COMMIT",
        Record::Rollback { .. } => "ROLLBACK",
    }
}
