//! The end of the file in use: the records that wait in the buffer, and writing them out.
ghost use Rattle.std.specs.Prelude.{◌≡◌, ◌⊎◌, ◌+◌, ◌-◌, ◌^◌, ◌<◌, ◌≤◌, ℕ, Bool, false, true, [], length, ◌&&◌, is_ok, is_some, if◌then◌else◌, option_map, None, IfSome, OnOk, OnErr};
ghost use Rattle.amq_model.specs.declared.config.Config.{Config};
ghost use Rattle.amq_model.specs.RecordAt.{len_of};
ghost use Rattle.amq_model.specs.Calls.{counted};
ghost use Rattle.amq_model.specs.Leaves.{Told, IsThere, IsWithin, SparesAllBut};
ghost use Rattle.amq_io.specs.Faults.{HasFault};
ghost use Rattle.amq_tx.specs.State.{TxState};
ghost use Rattle.amq_pool.specs.Pools.{PoolOf};
ghost use Rattle.amq_loader.specs.Loads.{IsTidy};
ghost use Rattle.amq_engine.specs.DataFiles.{Works};
ghost use Rattle.amq_engine.specs.Receipts.{GoesOn};
ghost use Rattle.amq_engine.specs.Engine.{Stage, IsValid, receipted, end_of_tail, written_out, with_put, reply_of, placed_behind};

use crate::chronicle::Chronicle;
use crate::put::put;
use amq_buffer::TimedBuffer;
use amq_io::{Disk, DiskFault};
use amq_model::{Placed, Record, Reply};
use amq_pool::PoolFile;

/// The compact count of a record that is written first.
const COMPACT: u8 = 0;

/// The end of the file in use.
///
/// `file` is its name and id. Its durable records end at `end`; behind them belong the records in the buffer. `appended` counts
/// all appends of this opening, `durable` those of them that are durable.
#[derive(Debug, Drop)]
pub struct Tail {
    pub file: PoolFile,
    pub buffer: TimedBuffer,
    pub end: u64,
    pub appended: u64,
    pub durable: u64,
}

/// Writes the records in the buffer to the file, syncs it, and notes the receipt of all appends.
///
/// Where none waits it makes no disk call. After an `Err` they wait on.
pub fn write_out<D: Disk, C: Chronicle>(
    disk: &mut D,
    chronicle: &mut C,
    tail: &mut Tail,
) -> Result<(), DiskFault>
    requires there { Told (D.past disk.old) (IsThere tail.old.file.name) }
    requires within { Told (D.past disk.old) (IsWithin tail.old.file.name (end_of_tail tail.old)) }
    requires size { end_of_tail tail.old ≤ 268435456 }
    requires room { (tail.old.buffer.bytes ≡ [] → ⊥) → 1 ≤ C.receipt_room chronicle.old }
    requires start { 16 ≤ tail.old.end }
    ensures valid { (stage : Stage) (config : Config) (table : TxState) (pool : PoolOf)
        → IsValid stage (D.past disk.old) (D.moment disk.old) (C.lists chronicle.old)
        (C.receipt_room chronicle.old) config table pool tail.old
        → IsValid stage (D.past disk.new) (D.moment disk.new) (C.lists chronicle.new)
        (C.receipt_room chronicle.new) config table pool tail.new }
    ensures ok { OnOk result (tail.new ≡ written_out tail.old) }
    ensures same { OnErr result (tail.new ≡ tail.old) }
    ensures receipt { C.lists chronicle.new
        ≡ receipted (is_ok result && is_some tail.old.buffer.since) tail.old.appended
        (D.moment disk.new) (C.lists chronicle.old) }
    ensures steps { C.step_room chronicle.new ≡ C.step_room chronicle.old }
    ensures room { C.receipt_room chronicle.old ≤ C.receipt_room chronicle.new + 1 }
    ensures idle { tail.old.buffer.since ≡ None → disk.new ≡ disk.old }
    ensures quiet { tail.old.buffer.since ≡ None → is_ok result ≡ true }
    ensures cause { HasFault result (D.faults disk.old) (D.faults disk.new) }
    ensures time { OnOk result (tail.old.buffer.since ≡ None
        ⊎ (D.moment disk.new ≡ counted (counted (D.moment disk.old)))) }
    ensures later { D.moment disk.old ≤ D.moment disk.new }
    ensures goes_on { GoesOn (D.past disk.old) (D.past disk.new) }
    ensures tidy { OnOk result (Told (D.past disk.old) IsTidy → Told (D.past disk.new) IsTidy) }
    ensures works { (size first : ℕ)
        → Works (SparesAllBut (λ n. n ≡ tail.old.file.name)) size first first (D.past disk.old)
        (D.past disk.new) }
    ensures calls { D.moment disk.new
        ≤ D.moment disk.old + (if is_some tail.old.buffer.since then 2 else 0) }
{
    if tail.buffer.is_empty() {
        return Ok(());
    }
    put(disk, tail.file.name.as_str(), tail.end, tail.buffer.bytes())?;
    let moment = disk.moment();
    tail.end += tail.buffer.bytes().len() as u64;
    tail.durable = tail.appended;
    tail.buffer.clear();
    chronicle.receipt(tail.durable, moment);
    Ok(())
}

/// Puts the record of an accepted command into the buffer, and answers the command: with the number that
/// it was given, with the record's place, or with how many appends are durable.
pub fn put_record(
    tail: &mut Tail,
    clock: u64,
    given: Option<u64>,
    rec: Option<Record>,
) -> (Reply, Option<Placed>)
    requires short { IfSome rec (λ rec. len_of rec < 2 ^ 31) }
    requires fits { IfSome rec
        (λ rec. length tail.old.buffer.bytes + len_of rec ≤ tail.old.buffer.capacity) }
    requires size { end_of_tail tail.old ≤ 268435456 }
    requires number { tail.old.file.id < 2 ^ 31 }
    requires count { tail.old.appended < 2 ^ 64 - 1 }
    ensures tail { tail.new ≡ with_put clock rec tail.old }
    ensures reply { result.0 ≡ reply_of tail.old given rec }
    ensures placed { result.1 ≡ option_map (placed_behind tail.old) rec }
{
    let Some(rec) = rec else {
        let reply = match given {
            Some(tx) => Reply::Begun { tx },
            None => Reply::Durable {
                count: tail.durable,
            },
        };
        return (reply, None);
    };
    let reply = Reply::Appended {
        place: tail.appended,
    };
    let place = tail.end + tail.buffer.bytes().len() as u64;
    tail.buffer.put(tail.file.id as u32, &rec, clock);
    tail.appended += 1;
    let placed = Placed {
        file: tail.file.id,
        place,
        compact: COMPACT,
        rec,
    };
    (reply, Some(placed))
}
