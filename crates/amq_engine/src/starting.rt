//! An opening, from the directory to the parts of an engine.
ghost use Rattle.std.specs.Prelude.{◌≡◌, ◌⊎◌, ◌+◌, ◌-◌, ◌^◌, ◌≤◌, ℕ, List, [], length, take, min, option_map, None, IfSome, IfOk, IfErr, OnOk, OnErr, true, false};
ghost use Rattle.amq_model.specs.declared.record.Placed.{Placed};
ghost use Rattle.amq_model.specs.Configs.{IsConfig};
ghost use Rattle.amq_model.specs.Effect.{result_of};
ghost use Rattle.amq_model.specs.Answers.{history_of};
ghost use Rattle.amq_model.specs.Legal.{rolled_back, AreLegalOfRefused, end_of};
ghost use Rattle.amq_model.specs.Leaves.{Told};
ghost use Rattle.amq_io.specs.Cause.{NoneFailed};
ghost use Rattle.amq_tx.specs.Tables.{state_of};
ghost use Rattle.amq_pool.specs.Pools.{ids_of, numbered_file};
ghost use Rattle.amq_loader.specs.Loads.{IsStateOf, IsTidy};
ghost use Rattle.amq_engine.specs.declared.chronicle.Receipted.{Receipted};
ghost use Rattle.amq_engine.specs.Directory.{files_from};
ghost use Rattle.amq_engine.specs.DataFiles.{WorkedTo, HasOpenedFiles, HasFailedFiles, HasFilesSoFar, FailedFlushed, file_of_last};
ghost use Rattle.amq_engine.specs.Receipts.{IsCrashSafe, GoesOn, BeginsBySyncs, StartsWith};
ghost use Rattle.amq_engine.specs.Engine.{opened, rolling, IsValid, IsBlank, AreSpentAtLast, end_of_tail};
ghost use Rattle.amq_engine.specs.Opening.{HasBase, AreRolledBack, AreFirstRollbacks, EndsIn, IsFilled, HasOpenCause, HasRollCause, rollbacks_behind};
ghost use Rattle.amq_engine.specs.Owed.{AreOwedToSteps, AreOwedAtOpening};

use crate::chronicle::Chronicle;
use crate::moving::{FIRST_PLACE, fill_pool};
use crate::opening::{Begun, begin, fault_of};
use crate::rolling::roll_back;
use crate::tail::{Tail, write_out};
use amq_buffer::TimedBuffer;
use amq_io::Disk;
use amq_model::{Config, LoadState, OpenFault};
use amq_pool::Pool;
use amq_tx::TxTable;
use std::alloc::Global;

/// The parts of an engine that an opening makes, and what it loaded.
#[derive(Drop)]
pub struct Started {
    pub table: TxTable,
    pub pool: Pool,
    pub tail: Tail,
    pub state: LoadState,
}

/// Rolls these transactions back, flushes, and prepares files until there are `min_files` with the file
/// in use and the others, of which there are `files` before the first of this opening.
fn complete<D: Disk, C: Chronicle>(
    disk: &mut D,
    chronicle: &mut C,
    config: &Config,
    table: &mut TxTable,
    pool: &mut Pool,
    tail: &mut Tail,
    txs: &[u64],
    files: u64,
) -> Result<(), OpenFault>
    requires valid { (base : List Placed)
        × IsValid (rolling base 0) (D.past disk.old) (D.moment disk.old) (C.lists chronicle.old)
        (C.receipt_room chronicle.old) config.now (state_of table.old) pool.old tail.old
        × (txs.now ≡ rolled_back base) }
    requires begun { (pool.old.prepared ≡ [])
        × (pool.old.highest ≡ tail.old.file.id)
        × (end_of_tail tail.old ≡ 16) }
    requires blank { IfSome (C.lists chronicle.old) (λ l. l.steps ≡ []) }
    requires count { files ≤ tail.old.file.id }
    requires named { tail.old.file ≡ numbered_file pool.old.highest }
    ensures ok { OnOk result ((base : List Placed)
        → txs.now ≡ rolled_back base
        → IsValid (rolling base 0) (D.past disk.old) (D.moment disk.old) (C.lists chronicle.old)
        (C.receipt_room chronicle.old) config.now (state_of table.old) pool.old tail.old
        → IsValid (rolling base (length txs.now)) (D.past disk.new) (D.moment disk.new)
        (C.lists chronicle.new) (C.receipt_room chronicle.new) config.now
        (state_of table.new) pool.new tail.new) }
    ensures failed { OnErr result ((base : List Placed)
        → txs.now ≡ rolled_back base
        → IsValid (rolling base 0) (D.past disk.old) (D.moment disk.old) (C.lists chronicle.old)
        (C.receipt_room chronicle.old) config.now (state_of table.old) pool.old tail.old
        → (n : ℕ)
        × IsValid (rolling base n) (D.past disk.new) (D.moment disk.new)
        (C.lists chronicle.new) (C.receipt_room chronicle.new) config.now
        (state_of table.new) pool.new tail.new) }
    ensures base { option_map (λ l. l.base) (C.lists chronicle.new)
        ≡ option_map (λ l. l.base) (C.lists chronicle.old) }
    ensures flushed { OnOk result (tail.new.buffer.since ≡ None) }
    ensures ends { OnOk result (IfSome (C.lists chronicle.new) (λ l.
        EndsIn tail.old.file.id (history_of l.steps) tail.new.file.id (end_of_tail tail.new))) }
    ensures placed { IfSome (C.lists chronicle.new) (λ l.
        history_of l.steps
        ≡ take (length l.steps) (rollbacks_behind config.now tail.old.file.id 16 txs.now)) }
    ensures all { OnOk result
        (IfSome (C.lists chronicle.new) (λ l. length l.steps ≡ length txs.now)) }
    ensures later_file { OnOk result (tail.old.file.id ≤ tail.new.file.id) }
    ensures filled { OnOk result (let n = min
        (config.now.min_files - (files + (tail.new.file.id + 1 - tail.old.file.id)))
        (2 ^ 31 - 1 - tail.new.file.id) in
        (pool.new.highest ≡ tail.new.file.id + n)
        × (pool.new.prepared ≡ files_from (tail.new.file.id + 1) n)) }
    ensures cause { IfErr result (λ fault.
        HasRollCause config.now fault (C.lists chronicle.new) (D.faults disk.old)
        (D.faults disk.new)) }
    ensures faults { OnOk result (NoneFailed (D.faults disk.old) (D.faults disk.new)) }
    ensures later { (D.faults disk.old).0 ≤ (D.faults disk.new).0 }
    ensures goes_on { GoesOn (D.past disk.old) (D.past disk.new) }
    ensures works { OnOk result (WorkedTo true config.now.file_size pool.old.highest
        pool.old.highest pool.new.highest (D.past disk.old) (D.past disk.new)) }
    ensures failed_works { OnErr result (WorkedTo false config.now.file_size
        pool.old.highest pool.old.highest pool.new.highest (D.past disk.old) (D.past disk.new)) }
    ensures failed_most { OnErr result (IfSome (C.lists chronicle.new)
        (λ l. let last = file_of_last tail.old.file.id (history_of l.steps) in
        (pool.new.highest ≡ last) ⊎ ((last ≤ pool.new.highest)
        × (files + (pool.new.highest + 2 - tail.old.file.id) ≤ config.now.min_files)))) }
    ensures failed_flushed { OnErr result (IfSome (C.lists chronicle.new)
        (FailedFlushed config.now pool.old.highest pool.new.highest txs.now (D.past disk.old)
        (D.past disk.new))) }
    ensures tidy { OnOk result (Told (D.past disk.old) IsTidy → Told (D.past disk.new) IsTidy) }
    ensures first { (r : Receipted)
        → IfSome (C.lists chronicle.old) (StartsWith r)
        → IfSome (C.lists chronicle.new) (StartsWith r) }
    ensures owed { IfSome (C.lists chronicle.old) (AreOwedToSteps config.now)
        → IfSome (C.lists chronicle.new) (AreOwedAtOpening config.now) }
{
    let first = tail.file.id;
    roll_back(disk, chronicle, config, table, pool, tail, txs)?;
    if let Err(fault) = write_out(disk, chronicle, tail) {
        return Err(fault_of(fault));
    }
    let further = tail.file.id + 1 - first;
    match fill_pool(disk, pool, files + further, config.min_files) {
        Ok(()) => Ok(()),
        Err(fault) => Err(fault_of(fault)),
    }
}

/// Opens a journal: begins it, rolls back what is neither ended nor prepared, flushes, and prepares
/// files.
pub fn start<D: Disk, C: Chronicle>(
    alloc: Global,
    disk: &mut D,
    chronicle: &mut C,
    config: &Config,
) -> Result<Started, OpenFault>
    requires config { IsConfig config.now }
    requires blank { IfSome (C.lists chronicle.old) IsBlank }
    ensures valid { IfOk result (λ s.
        IsValid opened (D.past disk.new) (D.moment disk.new) (C.lists chronicle.new)
        (C.receipt_room chronicle.new) config.now (state_of s.table) s.pool s.tail) }
    ensures flushed { IfOk result (λ s. s.tail.buffer.since ≡ None) }
    ensures base { OnOk result (IfSome (C.lists chronicle.new)
        (λ l. Told (D.past disk.old) (HasBase config.now.user_version l.base))) }
    ensures state { IfOk result
        (λ s. IfSome (C.lists chronicle.new) (λ l. s.state ≡ result_of l.base)) }
    ensures tidy { OnOk result (Told (D.past disk.new) IsTidy) }
    ensures loaded { IfOk result
        (λ s. Told (D.past disk.old) (IsStateOf config.now.user_version s.state)) }
    ensures rolled { OnOk result
        (IfSome (C.lists chronicle.new) (λ l. AreRolledBack l.base l.steps)) }
    ensures files { IfOk result (λ s.
        IfSome (C.lists chronicle.new) (λ l.
        Told (D.past disk.old) (IsFilled config.now (rolled_back l.base) (history_of l.steps)
        s.tail.file.id (end_of_tail s.tail) s.pool.highest (ids_of s.pool.prepared)))) }
    ensures faults { OnOk result (NoneFailed (D.faults disk.old) (D.faults disk.new)) }
    ensures opened_files { IfOk result
        (λ s. HasOpenedFiles config.now s.pool.highest (D.past disk.old) (D.past disk.new)) }
    ensures journal_files { IfOk result (λ s. IfSome (C.lists chronicle.new)
        (λ l. HasFilesSoFar true config.now s.tail.file.id (end_of_tail s.tail) s.pool.highest l
        (D.past disk.old) (D.past disk.new))) }
    ensures failed_files { OnErr result (IfSome (C.lists chronicle.new)
        (λ l. HasFailedFiles config.now l (D.past disk.old) (D.past disk.new))) }
    ensures later { (D.faults disk.old).0 ≤ (D.faults disk.new).0 }
    ensures cause { IfErr result (λ fault.
        HasOpenCause config.now fault (C.lists chronicle.new) (D.past disk.old) (D.past disk.new)
        (D.faults disk.old) (D.faults disk.new)) }
    ensures failed_legal { OnErr result
        (IfSome (C.lists chronicle.new) (λ l. AreLegalOfRefused l.base l.steps config.now)) }
    ensures failed_appended { OnErr result
        (IfSome (C.lists chronicle.new) (λ l. length (history_of l.steps) ≡ length l.steps)) }
    ensures failed_safe { OnErr result (IfSome (C.lists chronicle.new)
        (IsCrashSafe (D.past disk.new) (D.moment disk.new) config.now.user_version)) }
    ensures failed_base { OnErr result (IfSome (C.lists chronicle.new)
        (λ l. IsBlank l ⊎ Told (D.past disk.old) (HasBase config.now.user_version l.base))) }
    ensures failed_rollbacks { OnErr result (IfSome (C.lists chronicle.new)
        (λ l. IsBlank l ⊎ Told (D.past disk.old) (AreFirstRollbacks config.now l))) }
    ensures failed_spent { OnErr result
        (IfSome (C.lists chronicle.new) (λ l. AreSpentAtLast [] l.steps)) }
    ensures unnoted { IfSome (C.lists chronicle.new) (λ l. l.receipts ≡ [] → IsBlank l) }
    ensures begins { IfSome (C.lists chronicle.new)
        (λ l. BeginsBySyncs l.receipts (D.past disk.old) (D.past disk.new)) }
    ensures owed { IfSome (C.lists chronicle.new) (AreOwedAtOpening config.now) }
    ensures ends { IfOk result (λ s.
        IfSome (C.lists chronicle.new) (λ l. end_of_tail s.tail ≡ end_of (history_of l.steps))) }
{
    let Ok(buffer) = TimedBuffer::new(alloc, config.buffer_size, config.buffer_timeout) else {
        return Err(OpenFault::NoMemory);
    };
    let Begun {
        mut table,
        mut pool,
        file,
        state,
        rollbacks,
        files,
    } = begin(alloc, disk, chronicle, config)?;
    let mut tail = Tail {
        file,
        buffer,
        end: FIRST_PLACE,
        appended: 0,
        durable: 0,
    };
    complete(
        disk,
        chronicle,
        config,
        &mut table,
        &mut pool,
        &mut tail,
        rollbacks.as_slice(),
        files,
    )?;
    Ok(Started {
        table,
        pool,
        tail,
        state,
    })
}
