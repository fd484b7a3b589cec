ghost use Rattle.std.specs.Prelude.{◌≡◌, ◌+◌, ◌<◌, ◌≤◌, ◌++◌, length, OnOk, OnErr};
ghost use Rattle.std.specs.Vec.{vec_capacity};
ghost use Rattle.amq_model.specs.Texts.{reply_line, refusal_line, bound_line, disk_call_name, phase_name};

use crate::words::Word::Text;
use crate::words::{number, push_line};
use amq_model::{Answer, DiskCall, NoMemory, Phase, Refusal, Reply};

/// The most bytes that the line of an answer or of a bound label has.
pub const LONGEST_LINE: usize = 59;

/// Appends the line of what a command was answered; a refusal for want of memory has no line.
///
/// After `NoMemory` the text is as before, had no room for the line, and the line has bytes.
pub fn push_answer(out: &mut Vec<u8>, answer: &Answer) -> Result<(), NoMemory>
    ensures ok { OnOk result (out.new.items ≡ out.old.items ++ reply_line answer.now) }
    ensures err { OnErr result (out.new.items ≡ out.old.items) }
    ensures some { OnErr result (0 < length (reply_line answer.now)) }
    ensures full { OnErr result (vec_capacity out.old < length out.old.items + length (reply_line answer.now)) }
    ensures longest { length (reply_line answer.now) ≤ LONGEST_LINE }
{
    match *answer {
        Answer::Done(Reply::Appended { place }) => push_line(out, &[Text("ok"), number(place)]),
        Answer::Done(Reply::Begun { tx }) => push_line(out, &[Text("tx"), number(tx)]),
        Answer::Done(Reply::Durable { count }) => {
            push_line(out, &[Text("durable"), number(count)])
        }
        Answer::Refused(refusal) => push_refusal(out, refusal),
    }
}

/// Appends the line of a label that was bound to a transaction's number.
///
/// After `NoMemory` the text is as before, and had no room for the line.
pub fn push_bound(out: &mut Vec<u8>, tx: u64) -> Result<(), NoMemory>
    ensures ok { OnOk result (out.new.items ≡ out.old.items ++ bound_line tx) }
    ensures err { OnErr result (out.new.items ≡ out.old.items) }
    ensures some { OnErr result (0 < length (bound_line tx)) }
    ensures full { OnErr result (vec_capacity out.old < length out.old.items + length (bound_line tx)) }
    ensures longest { length (bound_line tx) ≤ LONGEST_LINE }
{
    push_line(out, &[Text("bound"), number(tx)])
}

/// Appends the line of a refusal.
fn push_refusal(out: &mut Vec<u8>, refusal: Refusal) -> Result<(), NoMemory>
    ensures ok { OnOk result (out.new.items ≡ out.old.items ++ refusal_line refusal) }
    ensures err { OnErr result (out.new.items ≡ out.old.items) }
    ensures some { OnErr result (0 < length (refusal_line refusal)) }
    ensures full { OnErr result (vec_capacity out.old < length out.old.items + length (refusal_line refusal)) }
    ensures longest { length (refusal_line refusal) ≤ LONGEST_LINE }
{
    let refused = Text("refused");
    match refusal {
        Refusal::Closed { fault } => {
            push_line(out, &[refused, Text("Closed"), Text(disk_call_text(fault))])
        }
        Refusal::TooLarge { len, limit } => {
            push_line(
                out,
                &[refused, Text("TooLarge"), number(len), number(limit)],
            )
        }
        Refusal::NoTx { tx } => push_line(out, &[refused, Text("NoTx"), number(tx)]),
        Refusal::TxPrepared { tx } => push_line(out, &[refused, Text("TxPrepared"), number(tx)]),
        Refusal::Held { id, tx } => {
            push_line(out, &[refused, Text("Held"), number(id), number(tx)])
        }
        Refusal::AlreadyLive { id } => push_line(out, &[refused, Text("AlreadyLive"), number(id)]),
        Refusal::NoRecord { id } => push_line(out, &[refused, Text("NoRecord"), number(id)]),
        Refusal::TxNumbersSpent { highest } => {
            push_line(out, &[refused, Text("TxNumbersSpent"), number(highest)])
        }
        Refusal::Compacting { phase } => {
            push_line(out, &[refused, Text("Compacting"), Text(phase_text(phase))])
        }
        Refusal::FileIdsSpent { highest } => {
            push_line(out, &[refused, Text("FileIdsSpent"), number(highest)])
        }
        Refusal::Disk { call } => {
            push_line(out, &[refused, Text("Disk"), Text(disk_call_text(call))])
        }
        Refusal::NoMemory => Ok(()),
    }
}

/// The name of a disk call.
fn disk_call_text(call: DiskCall) -> &'static str
    ensures { result.now ≡ disk_call_name call }
{
    match call {
        DiskCall::List => "List",
        DiskCall::Read => "Read",
        DiskCall::Create => "Create",
        DiskCall::WriteAt => "WriteAt",
        DiskCall::Sync => "Sync",
        DiskCall::Rename => "Rename",
        DiskCall::Remove => "Remove",
    }
}

/// The name of a phase.
fn phase_text(phase: Phase) -> &'static str
    ensures { result.now ≡ phase_name phase }
{
    match phase {
        Phase::Idle => "Idle",
        Phase::Reading => "Reading",
        Phase::Packing => "Packing",
        Phase::Writing => "Writing",
        Phase::Control => "Control",
        Phase::Swapped => "Swapped",
        Phase::Freeing => "Freeing",
        Phase::Renaming => "Renaming",
        Phase::Dropping => "Dropping",
    }
}
