//! Going on to further files.
ghost use Rattle.std.specs.Prelude.{◌≡◌, ◌⊎◌, ◌+◌, ◌-◌, ◌^◌, ◌<◌, ◌≤◌, ℕ, min, Bool, true, false, ◌&&◌, ◌||◌, not, is_ok, is_some, if◌then◌else◌, [], length, Option, None, option_map, OnOk, OnErr};
ghost use Rattle.amq_model.specs.declared.config.Config.{Config};
ghost use Rattle.amq_model.specs.RecordAt.{len_of};
ghost use Rattle.amq_model.specs.Calls.{counted};
ghost use Rattle.amq_model.specs.Leaves.{Told, IsThere, IsWithin, SparesAllBut};
ghost use Rattle.amq_io.specs.Faults.{HasFault};
ghost use Rattle.amq_tx.specs.State.{TxState};
ghost use Rattle.amq_pool.specs.Pools.{with_next};
ghost use Rattle.amq_loader.specs.Loads.{IsTidy};
ghost use Rattle.amq_engine.specs.declared.tail.Tail.{Tail};
ghost use Rattle.amq_engine.specs.Lists.{Lists};
ghost use Rattle.amq_engine.specs.DataFiles.{IsPreparing, IsUsedOrNew, Worked, WorkedTo};
ghost use Rattle.amq_engine.specs.Receipts.{GoesOn};
ghost use Rattle.amq_engine.specs.Engine.{Stage, IsValid, end_of_tail, passes, flushes, record_len, written_out, next_file, without_next, gone_on, readied, pool_readied, receipted, Waits, Wrote, with_files, is_nil};

use crate::chronicle::Chronicle;
use crate::tail::{Tail, write_out};
use amq_buffer::TimedBuffer;
use amq_io::{Disk, DiskFault};
use amq_model::{Command, Record};
use amq_pool::{Pool, PoolFault};
use amq_record::encoded_len;

/// Where the first record of a file stands.
pub const FIRST_PLACE: u64 = 16;

/// The greatest number of a file.
pub const MOST_NUMBER: u64 = 0x7fff_ffff;

/// Whether a record of this length, put behind the last append, would end behind the end of the file.
pub fn passes(file_size: u64, end: u64, rec: &Option<Record>) -> bool
    requires within { end ≤ file_size }
    ensures { result ≡ passes file_size end (option_map len_of rec.now) }
{
    match rec {
        Some(rec) => file_size - end < encoded_len(rec),
        None => false,
    }
}

/// Prepares one file, in four disk calls.
pub fn prepare<D: Disk>(disk: &mut D, pool: &mut Pool) -> Result<(), DiskFault>
    requires number { pool.old.highest < 2 ^ 31 - 1 }
    ensures valid { (stage : Stage) (lists : Option Lists) (room : ℕ) (config : Config)
        (table : TxState) (tail : Tail)
        → IsValid stage (D.past disk.old) (D.moment disk.old) lists room config table pool.old
        tail
        → IsValid stage (D.past disk.new) (D.moment disk.new) lists room config table pool.new
        tail }
    ensures prepared { OnOk result (pool.new ≡ with_next pool.old) }
    ensures unchanged { OnErr result (pool.new ≡ pool.old) }
    ensures cause { HasFault result (D.faults disk.old) (D.faults disk.new) }
    ensures calls { D.moment disk.new ≤ D.moment disk.old + 4 }
    ensures later { D.moment disk.old ≤ D.moment disk.new }
    ensures goes_on { GoesOn (D.past disk.old) (D.past disk.new) }
    ensures works { OnOk result (Worked true
        (SparesAllBut (IsPreparing (pool.old.highest + 1) (pool.old.highest + 1)))
        pool.old.config.file_size pool.old.highest (pool.old.highest + 1) (D.past disk.old)
        (D.past disk.new)) }
    ensures failed_works { OnErr result (Worked false
        (SparesAllBut (IsPreparing (pool.old.highest + 1) (pool.old.highest + 1)))
        pool.old.config.file_size pool.old.highest (pool.old.highest + 1) (D.past disk.old)
        (D.past disk.new)) }
    ensures tidy { OnOk result (Told (D.past disk.old) IsTidy → Told (D.past disk.new) IsTidy) }
{
    match pool.prepare_step(disk) {
        Ok(()) => Ok(()),
        Err(PoolFault::Disk { call }) => Err(DiskFault::Disk(call)),
        Err(PoolFault::NoMemory) => Err(DiskFault::NoMemory),
        Err(PoolFault::FileIdsSpent { .. }) => unreachable!(),
    }
}

/// Flushes, and goes on to the prepared file with the least id, or to one that is prepared now.
pub fn go_on<D: Disk, C: Chronicle>(
    disk: &mut D,
    chronicle: &mut C,
    pool: &mut Pool,
    tail: &mut Tail,
) -> Result<(), DiskFault>
    requires there { Told (D.past disk.old) (IsThere tail.old.file.name) }
    requires within { Told (D.past disk.old) (IsWithin tail.old.file.name (end_of_tail tail.old)) }
    requires size { end_of_tail tail.old ≤ 268435456 }
    requires room { (tail.old.buffer.bytes ≡ [] → ⊥) → 1 ≤ C.receipt_room chronicle.old }
    requires start { 16 ≤ tail.old.end }
    requires number { pool.old.prepared ≡ [] → pool.old.highest < 2 ^ 31 - 1 }
    ensures valid { (stage : Stage) (config : Config) (table : TxState)
        → IsValid stage (D.past disk.old) (D.moment disk.old) (C.lists chronicle.old)
        (C.receipt_room chronicle.old) config table pool.old tail.old
        → IsValid stage (D.past disk.new) (D.moment disk.new) (C.lists chronicle.new)
        (C.receipt_room chronicle.new) config table pool.new tail.new }
    ensures ok { OnOk result (tail.new ≡ gone_on (next_file pool.old) (written_out tail.old)) }
    ensures pool { OnOk result (pool.new ≡ without_next pool.old) }
    ensures err { OnErr result (Waits tail.old (C.lists chronicle.old) tail.new
        (C.lists chronicle.new)
        ⊎ ((pool.old.prepared ≡ [])
        × Wrote (D.moment disk.old) tail.old (C.lists chronicle.old) tail.new
        (C.lists chronicle.new))) }
    ensures same_pool { OnErr result (pool.new ≡ pool.old) }
    ensures receipt { OnOk result (C.lists chronicle.new
        ≡ receipted (is_some tail.old.buffer.since) tail.old.appended
        (counted (counted (D.moment disk.old))) (C.lists chronicle.old)) }
    ensures steps { C.step_room chronicle.new ≡ C.step_room chronicle.old }
    ensures room { C.receipt_room chronicle.old ≤ C.receipt_room chronicle.new + 1 }
    ensures idle { tail.old.buffer.since ≡ None
        → (pool.old.prepared ≡ [] → ⊥)
        → disk.new ≡ disk.old }
    ensures cause { HasFault result (D.faults disk.old) (D.faults disk.new) }
    ensures calls { D.moment disk.new
        ≤ D.moment disk.old
        + (if is_some tail.old.buffer.since then 2 else 0)
        + (if is_nil pool.old.prepared then 4 else 0) }
    ensures later { D.moment disk.old ≤ D.moment disk.new }
    ensures goes_on { GoesOn (D.past disk.old) (D.past disk.new) }
    ensures works { OnOk result (Worked true
        (SparesAllBut (IsUsedOrNew tail.old.file.name (pool.old.highest + 1)
        (if is_nil pool.old.prepared then pool.old.highest + 1 else pool.old.highest)))
        pool.old.config.file_size pool.old.highest
        (if is_nil pool.old.prepared then pool.old.highest + 1 else pool.old.highest)
        (D.past disk.old) (D.past disk.new)) }
    ensures failed_works { OnErr result (Worked false
        (SparesAllBut (IsUsedOrNew tail.old.file.name (pool.old.highest + 1)
        (if is_nil pool.old.prepared then pool.old.highest + 1 else pool.old.highest)))
        pool.old.config.file_size pool.old.highest
        (if is_nil pool.old.prepared then pool.old.highest + 1 else pool.old.highest)
        (D.past disk.old) (D.past disk.new)) }
    ensures tidy { OnOk result (Told (D.past disk.old) IsTidy → Told (D.past disk.new) IsTidy) }
{
    write_out(disk, chronicle, tail)?;
    if pool.free_count() == 0 {
        prepare(disk, pool)?;
    }
    let Some(file) = pool.take() else {
        unreachable!()
    };
    tail.file = file;
    tail.end = FIRST_PLACE;
    Ok(())
}

/// Makes the journal ready for an accepted command: it goes on to a further file where that is asked
/// for, and else writes the buffer out where the command asks for that, or has a record that doesn't fit.
pub fn ready<D: Disk, C: Chronicle>(
    disk: &mut D,
    chronicle: &mut C,
    pool: &mut Pool,
    tail: &mut Tail,
    moves: bool,
    command: &Command,
    rec: &Option<Record>,
) -> Result<(), DiskFault>
    requires record { option_map len_of rec.now ≡ record_len command.now }
    requires there { Told (D.past disk.old) (IsThere tail.old.file.name) }
    requires within { Told (D.past disk.old) (IsWithin tail.old.file.name (end_of_tail tail.old)) }
    requires size { end_of_tail tail.old ≤ 268435456 }
    requires room { (tail.old.buffer.bytes ≡ [] → ⊥) → 1 ≤ C.receipt_room chronicle.old }
    requires start { 16 ≤ tail.old.end }
    requires number { moves ≡ true → pool.old.prepared ≡ [] → pool.old.highest < 2 ^ 31 - 1 }
    ensures valid { (stage : Stage) (config : Config) (table : TxState)
        → IsValid stage (D.past disk.old) (D.moment disk.old) (C.lists chronicle.old)
        (C.receipt_room chronicle.old) config table pool.old tail.old
        → IsValid stage (D.past disk.new) (D.moment disk.new) (C.lists chronicle.new)
        (C.receipt_room chronicle.new) config table pool.new tail.new }
    ensures ok { OnOk result (tail.new
        ≡ readied moves
        (flushes tail.old.buffer.capacity (length tail.old.buffer.bytes) command.now)
        pool.old tail.old) }
    ensures pool { OnOk result (pool.new ≡ pool_readied moves pool.old) }
    ensures err { OnErr result (Waits tail.old (C.lists chronicle.old) tail.new
        (C.lists chronicle.new)
        ⊎ ((moves ≡ true)
        × (pool.old.prepared ≡ [])
        × Wrote (D.moment disk.old) tail.old (C.lists chronicle.old) tail.new
        (C.lists chronicle.new))) }
    ensures same_pool { OnErr result (pool.new ≡ pool.old) }
    ensures receipt { OnOk result (C.lists chronicle.new
        ≡ receipted
        ((moves
        || flushes tail.old.buffer.capacity (length tail.old.buffer.bytes)
        command.now)
        && is_some tail.old.buffer.since) tail.old.appended
        (counted (counted (D.moment disk.old))) (C.lists chronicle.old)) }
    ensures steps { C.step_room chronicle.new ≡ C.step_room chronicle.old }
    ensures room { C.receipt_room chronicle.old ≤ C.receipt_room chronicle.new + 1 }
    ensures idle { (moves || flushes tail.old.buffer.capacity (length tail.old.buffer.bytes)
        command.now) && is_some tail.old.buffer.since ≡ false
        → moves && is_nil pool.old.prepared ≡ false
        → disk.new ≡ disk.old }
    ensures cause { HasFault result (D.faults disk.old) (D.faults disk.new) }
    ensures calls { D.moment disk.new ≤ D.moment disk.old
        + (if (moves || flushes tail.old.buffer.capacity (length tail.old.buffer.bytes)
        command.now) && is_some tail.old.buffer.since then 2 else 0)
        + (if moves && is_nil pool.old.prepared then 4 else 0) }
    ensures later { D.moment disk.old ≤ D.moment disk.new }
    ensures goes_on { GoesOn (D.past disk.old) (D.past disk.new) }
    ensures works { OnOk result (Worked true
        (SparesAllBut (IsUsedOrNew tail.old.file.name (pool.old.highest + 1)
        (if moves && is_nil pool.old.prepared then pool.old.highest + 1 else pool.old.highest)))
        pool.old.config.file_size pool.old.highest
        (if moves && is_nil pool.old.prepared then pool.old.highest + 1 else pool.old.highest)
        (D.past disk.old) (D.past disk.new)) }
    ensures failed_works { OnErr result (Worked false
        (SparesAllBut (IsUsedOrNew tail.old.file.name (pool.old.highest + 1)
        (if moves && is_nil pool.old.prepared then pool.old.highest + 1 else pool.old.highest)))
        pool.old.config.file_size pool.old.highest
        (if moves && is_nil pool.old.prepared then pool.old.highest + 1 else pool.old.highest)
        (D.past disk.old) (D.past disk.new)) }
    ensures tidy { OnOk result (Told (D.past disk.old) IsTidy → Told (D.past disk.new) IsTidy) }
{
    if moves {
        go_on(disk, chronicle, pool, tail)
    } else if writes_first(&tail.buffer, command, rec) {
        write_out(disk, chronicle, tail)
    } else {
        Ok(())
    }
}

/// Whether the buffer is written out before an accepted command: where it asks for that, or has a record
/// that doesn't fit.
fn writes_first(buffer: &TimedBuffer, command: &Command, rec: &Option<Record>) -> bool
    requires record { option_map len_of rec.now ≡ record_len command.now }
    ensures { result ≡ flushes buffer.now.capacity (length buffer.now.bytes) command.now }
{
    match rec {
        Some(rec) => !buffer.fits(encoded_len(rec)),
        None => matches!(command, Command::Flush),
    }
}

/// Prepares files until there are so many with these, or the numbers of files are spent.
pub fn fill_pool<D: Disk>(
    disk: &mut D,
    pool: &mut Pool,
    files: u64,
    min_files: u32,
) -> Result<(), DiskFault>
    requires numbers { pool.old.highest ≤ 2 ^ 31 - 1 }
    ensures valid { (stage : Stage) (lists : Option Lists) (room : ℕ) (config : Config)
        (table : TxState) (tail : Tail)
        → IsValid stage (D.past disk.old) (D.moment disk.old) lists room config table pool.old
        tail
        → IsValid stage (D.past disk.new) (D.moment disk.new) lists room config table pool.new
        tail }
    ensures filled { OnOk result (pool.new
        ≡ with_files (min (min_files - files) (2 ^ 31 - 1 - pool.old.highest)) pool.old) }
    ensures cause { HasFault result (D.faults disk.old) (D.faults disk.new) }
    ensures later { D.moment disk.old ≤ D.moment disk.new }
    ensures goes_on { GoesOn (D.past disk.old) (D.past disk.new) }
    ensures works { OnOk result (WorkedTo true pool.old.config.file_size (pool.old.highest + 1)
        pool.old.highest pool.new.highest (D.past disk.old) (D.past disk.new)) }
    ensures failed_works { OnErr result (WorkedTo false pool.old.config.file_size
        (pool.old.highest + 1) pool.old.highest pool.new.highest (D.past disk.old)
        (D.past disk.new)) }
    ensures more { pool.old.highest ≤ pool.new.highest }
    ensures few { OnErr result (pool.new.highest < pool.old.highest + (min_files - files)) }
    ensures tidy { OnOk result (Told (D.past disk.old) IsTidy → Told (D.past disk.new) IsTidy) }
{
    let missing = u64::from(min_files).saturating_sub(files);
    let left = MOST_NUMBER.saturating_sub(pool.highest());
    for _ in 0..missing.min(left) {
        prepare(disk, pool)?;
    }
    Ok(())
}
