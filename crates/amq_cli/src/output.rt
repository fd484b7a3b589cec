//! Writing text to a sink.
ghost use Rattle.std.specs.Prelude.{◌≡◌, ◌++◌, IfErr, OnOk, OnErr, option_map};
ghost use Rattle.amq_cli.specs.Offline.{IsEnd, IsGiven, IsWritten};
ghost use Rattle.amq_cli.specs.Output.{HasOutputCause, IsBrokenOff, IsPartWritten};

use crate::status::Status;
use amq_io::{Sink, SinkError};

/// Writes all the bytes, in as many pieces as the sink takes.
pub fn write_whole<K: Sink>(sink: &mut K, bytes: &[u8]) -> Result<(), SinkError>
    ensures whole { OnOk result
        (K.taken sink.new ≡ option_map (λ text. text ++ bytes.now) (K.taken sink.old)) }
    ensures part { OnErr result (IsPartWritten bytes.now (K.taken sink.old) (K.taken sink.new)) }
    ensures broken { OnErr result (IsBrokenOff bytes.now (K.taken sink.old) (K.taken sink.new)) }
    ensures cause { IfErr result (λ error.
        HasOutputCause error (K.faults sink.old) (K.faults sink.new)) }
    ensures sound { OnOk result (K.faults sink.new ≡ K.faults sink.old) }
{
    let mut written = 0;
    while written < bytes.len() {
        let (_, rest) = bytes.split_at(written);
        written += sink.write(rest)?;
    }
    Ok(())
}

/// Writes the text, and says how the run ended.
pub fn write<K: Sink>(sink: &mut K, text: &[u8], outcome: Status) -> Status
    ensures status { IsEnd result outcome (K.faults sink.old) (K.faults sink.new) }
    ensures part { IsPartWritten text.now (K.taken sink.old) (K.taken sink.new) }
    ensures given { IsGiven result outcome text.now (K.faults sink.old) (K.faults sink.new)
        (K.taken sink.old) (K.taken sink.new) }
    ensures sound { result ≡ Status.Ok → K.faults sink.new ≡ K.faults sink.old }
    ensures ok { result ≡ Status.Ok → IsWritten text.now (K.taken sink.old) (K.taken sink.new) }
{
    match write_whole(sink, text) {
        Ok(()) => outcome,
        Err(SinkError::NoMemory) => Status::NoMemory,
        Err(SinkError::Failed) => match outcome {
            Status::Ok => Status::SinkFault,
            _ => outcome,
        },
    }
}
