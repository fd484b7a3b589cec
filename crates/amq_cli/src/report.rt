//! Writing a report in pieces: its text never stands in memory as a whole.
ghost use Rattle.std.specs.Prelude.{◌≡◌, ◌⊎◌, ◌++◌, ◌∷◌, [], IfErr, OnOk, OnErr, Err, is_ok};
ghost use Rattle.std.specs.List.{flat_map};
ghost use Rattle.amq_model.specs.Texts.{entry_line, in_doubt_lines, report_of};
ghost use Rattle.amq_cli.specs.Offline.{IsEnd, IsWritten};
ghost use Rattle.amq_cli.specs.Output.{HasOutputCause, IsPartWritten};
ghost use Rattle.amq_cli.specs.Report.{IsSent};

use crate::output::write_whole;
use crate::status::Status;
use amq_io::{Sink, SinkError};
use amq_model::{Entry, InDoubt, LoadState, NoMemory};
use amq_print::{push_entry, push_in_doubt, push_in_doubt_count, push_live_count};
use std::alloc::Global;

/// The least number of bytes that are written at a time, but for the last ones.
const PIECE: usize = 65_536;

/// Writes the report of the state, and says how the run ended.
pub fn write_report<K: Sink>(alloc: Global, state: &LoadState, sink: &mut K) -> Status
    ensures status { IsEnd result Status.Ok (K.faults sink.old) (K.faults sink.new) }
    ensures part { IsPartWritten (report_of state.now) (K.taken sink.old) (K.taken sink.new) }
    ensures ok { result ≡ Status.Ok → IsWritten (report_of state.now) (K.taken sink.old)
        (K.taken sink.new) }
    ensures count { (result ≡ Status.SinkFault) ⊎ (K.faults sink.new ≡ K.faults sink.old) }
{
    match write_lines(alloc, state, sink) {
        Ok(()) => Status::Ok,
        Err(SinkError::NoMemory) => Status::NoMemory,
        Err(SinkError::Failed) => Status::SinkFault,
    }
}

/// Writes the lines of the report. Those that the sink hasn't taken yet wait.
fn write_lines<K: Sink>(alloc: Global, state: &LoadState, sink: &mut K) -> Result<(), SinkError>
    ensures ok { OnOk result (IsWritten (report_of state.now) (K.taken sink.old)
        (K.taken sink.new)) }
    ensures part { OnErr result (IsPartWritten (report_of state.now) (K.taken sink.old)
        (K.taken sink.new)) }
    ensures cause { IfErr result (λ error. HasOutputCause error (K.faults sink.old)
        (K.faults sink.new)) }
    ensures sound { OnOk result (K.faults sink.new ≡ K.faults sink.old) }
{
    let mut waiting = Vec::new(alloc);
    grown(push_live_count(&mut waiting, state.live.len() as u64))?;
    write_entries(&mut waiting, state.live.as_slice(), sink)?;
    grown(push_in_doubt_count(&mut waiting, state.in_doubt.len() as u64))?;
    write_in_doubts(&mut waiting, state.in_doubt.as_slice(), sink)?;
    write_whole(sink, waiting.as_slice())
}

/// Writes the lines of live records behind what waits.
fn write_entries<K: Sink>(
    waiting: &mut Vec<u8>,
    entries: &[Entry],
    sink: &mut K,
) -> Result<(), SinkError>
    ensures ok { OnOk result
        (IsSent (waiting.old.items ++ flat_map entry_line entries.now)
        waiting.new.items (K.taken sink.old) (K.taken sink.new)) }
    ensures part { OnErr result
        (IsPartWritten (waiting.old.items ++ flat_map entry_line entries.now)
        (K.taken sink.old) (K.taken sink.new)) }
    ensures cause { IfErr result (λ error. HasOutputCause error (K.faults sink.old)
        (K.faults sink.new)) }
    ensures sound { OnOk result (K.faults sink.new ≡ K.faults sink.old) }
{
    for entry in entries {
        write_entry(waiting, entry, sink)?;
    }
    Ok(())
}

/// Writes the line of a live record behind what waits.
fn write_entry<K: Sink>(waiting: &mut Vec<u8>, entry: &Entry, sink: &mut K) -> Result<(), SinkError>
    ensures ok { OnOk result
        (IsSent (waiting.old.items ++ entry_line entry.now)
        waiting.new.items (K.taken sink.old) (K.taken sink.new)) }
    ensures part { OnErr result
        (IsPartWritten (waiting.old.items ++ entry_line entry.now)
        (K.taken sink.old) (K.taken sink.new)) }
    ensures cause { IfErr result (λ error. HasOutputCause error (K.faults sink.old)
        (K.faults sink.new)) }
    ensures sound { OnOk result (K.faults sink.new ≡ K.faults sink.old) }
{
    grown(push_entry(waiting, entry))?;
    write_piece(waiting, sink)
}

/// Writes the lines of transactions in doubt behind what waits.
fn write_in_doubts<K: Sink>(
    waiting: &mut Vec<u8>,
    transactions: &[InDoubt],
    sink: &mut K,
) -> Result<(), SinkError>
    ensures ok { OnOk result
        (IsSent (waiting.old.items ++ flat_map in_doubt_lines transactions.now)
        waiting.new.items (K.taken sink.old) (K.taken sink.new)) }
    ensures part { OnErr result
        (IsPartWritten (waiting.old.items ++ flat_map in_doubt_lines transactions.now)
        (K.taken sink.old) (K.taken sink.new)) }
    ensures cause { IfErr result (λ error. HasOutputCause error (K.faults sink.old)
        (K.faults sink.new)) }
    ensures sound { OnOk result (K.faults sink.new ≡ K.faults sink.old) }
{
    for transaction in transactions {
        write_in_doubt(waiting, transaction, sink)?;
    }
    Ok(())
}

/// Writes the lines of a transaction in doubt behind what waits.
fn write_in_doubt<K: Sink>(
    waiting: &mut Vec<u8>,
    transaction: &InDoubt,
    sink: &mut K,
) -> Result<(), SinkError>
    ensures ok { OnOk result
        (IsSent (waiting.old.items ++ in_doubt_lines transaction.now)
        waiting.new.items (K.taken sink.old) (K.taken sink.new)) }
    ensures part { OnErr result
        (IsPartWritten (waiting.old.items ++ in_doubt_lines transaction.now)
        (K.taken sink.old) (K.taken sink.new)) }
    ensures cause { IfErr result (λ error. HasOutputCause error (K.faults sink.old)
        (K.faults sink.new)) }
    ensures sound { OnOk result (K.faults sink.new ≡ K.faults sink.old) }
{
    grown(push_in_doubt(waiting, transaction))?;
    write_piece(waiting, sink)
}

/// Writes all that waits, where it is a piece.
fn write_piece<K: Sink>(waiting: &mut Vec<u8>, sink: &mut K) -> Result<(), SinkError>
    ensures ok { OnOk result
        (IsSent waiting.old.items waiting.new.items (K.taken sink.old) (K.taken sink.new)) }
    ensures part { OnErr result
        (IsPartWritten waiting.old.items (K.taken sink.old) (K.taken sink.new)) }
    ensures cause { IfErr result (λ error. HasOutputCause error (K.faults sink.old)
        (K.faults sink.new)) }
    ensures sound { OnOk result (K.faults sink.new ≡ K.faults sink.old) }
{
    if waiting.len() < PIECE {
        return Ok(());
    }
    write_whole(sink, waiting.as_slice())?;
    waiting.clear();
    Ok(())
}

/// Want of memory for a line, told as a sink tells it.
fn grown(pushed: Result<(), NoMemory>) -> Result<(), SinkError>
    ensures same { is_ok result ≡ is_ok pushed }
    ensures err { IfErr result (λ error. error ≡ SinkError.NoMemory) }
{
    match pushed {
        Ok(()) => Ok(()),
        Err(NoMemory) => Err(SinkError::NoMemory),
    }
}
