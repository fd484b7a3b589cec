//! The rollbacks of an opening: of each transaction that was left open and isn't prepared.
ghost use Rattle.std.specs.Prelude.{◌≡◌, ◌⊎◌, ◌+◌, ◌^◌, ◌<◌, ◌≤◌, ◌++◌, ◌∷◌, ℕ, List, [], length, take, slice_get, Some, option_map, IfSome, IfErr, OnOk, OnErr, true, false};
ghost use Rattle.amq_model.specs.declared.record.Placed.{Placed};
ghost use Rattle.amq_model.specs.declared.history.Step.{Step};
ghost use Rattle.amq_model.specs.Answers.{history_of};
ghost use Rattle.amq_model.specs.Legal.{rolled_back};
ghost use Rattle.amq_model.specs.Leaves.{Told};
ghost use Rattle.amq_io.specs.Cause.{NoneFailed};
ghost use Rattle.amq_tx.specs.Tables.{state_of};
ghost use Rattle.amq_pool.specs.Pools.{numbered_file};
ghost use Rattle.amq_loader.specs.Loads.{IsTidy};
ghost use Rattle.amq_engine.specs.DataFiles.{WorkedTo, file_of_last};
ghost use Rattle.amq_engine.specs.declared.chronicle.Receipted.{Receipted};
ghost use Rattle.amq_engine.specs.Lists.{steps_in};
ghost use Rattle.amq_engine.specs.Receipts.{GoesOn, StartsWith};
ghost use Rattle.amq_engine.specs.Engine.{rolling, IsValid, end_of_tail};
ghost use Rattle.amq_engine.specs.Opening.{EndsIn, HasRollCause, NextNeedsFile, rollback_behind, rollbacks_behind};
ghost use Rattle.amq_engine.specs.Owed.{AreOwedToSteps, AreOwedAtOpening};

use crate::chronicle::Chronicle;
use crate::commands::{make_room, number_refusal};
use crate::moving::{passes, ready};
use crate::opening::fault_of;
use crate::tail::{Tail, put_record};
use amq_io::Disk;
use amq_model::{Answer, Command, Config, OpenFault, Record, Step};
use amq_pool::Pool;
use amq_tx::TxTable;

/// The seat of the opening's own steps.
const OPENING: u32 = 0;

/// Appends, as seat 0, a ROLLBACK for each of these transactions, in their order.
pub fn roll_back<D: Disk, C: Chronicle>(
    disk: &mut D,
    chronicle: &mut C,
    config: &Config,
    table: &mut TxTable,
    pool: &mut Pool,
    tail: &mut Tail,
    txs: &[u64],
) -> Result<(), OpenFault>
    requires valid { (base : List Placed)
        × IsValid (rolling base 0) (D.past disk.old) (D.moment disk.old) (C.lists chronicle.old)
        (C.receipt_room chronicle.old) config.now (state_of table.old) pool.old tail.old
        × (txs.now ≡ rolled_back base) }
    requires begun { (pool.old.prepared ≡ [])
        × (pool.old.highest ≡ tail.old.file.id)
        × (end_of_tail tail.old ≡ 16) }
    requires blank { IfSome (C.lists chronicle.old) (λ l. l.steps ≡ []) }
    requires named { tail.old.file ≡ numbered_file pool.old.highest }
    ensures ok { OnOk result ((base : List Placed)
        → txs.now ≡ rolled_back base
        → IsValid (rolling base 0) (D.past disk.old) (D.moment disk.old) (C.lists chronicle.old)
        (C.receipt_room chronicle.old) config.now (state_of table.old) pool.old tail.old
        → IsValid (rolling base (length txs.now)) (D.past disk.new) (D.moment disk.new)
        (C.lists chronicle.new) (C.receipt_room chronicle.new) config.now
        (state_of table.new) pool.new tail.new) }
    ensures failed { OnErr result ((base : List Placed)
        → txs.now ≡ rolled_back base
        → IsValid (rolling base 0) (D.past disk.old) (D.moment disk.old) (C.lists chronicle.old)
        (C.receipt_room chronicle.old) config.now (state_of table.old) pool.old tail.old
        → (n : ℕ)
        × IsValid (rolling base n) (D.past disk.new) (D.moment disk.new)
        (C.lists chronicle.new) (C.receipt_room chronicle.new) config.now
        (state_of table.new) pool.new tail.new) }
    ensures base { option_map (λ l. l.base) (C.lists chronicle.new)
        ≡ option_map (λ l. l.base) (C.lists chronicle.old) }
    ensures ends { OnOk result (IfSome (C.lists chronicle.new) (λ l.
        EndsIn tail.old.file.id (history_of l.steps) tail.new.file.id (end_of_tail tail.new))) }
    ensures placed { IfSome (C.lists chronicle.new) (λ l.
        history_of l.steps
        ≡ take (length l.steps) (rollbacks_behind config.now tail.old.file.id 16 txs.now)) }
    ensures all { OnOk result
        (IfSome (C.lists chronicle.new) (λ l. length l.steps ≡ length txs.now)) }
    ensures begun { OnOk result ((pool.new.prepared ≡ []) × (pool.new.highest ≡ tail.new.file.id)) }
    ensures later_file { OnOk result (tail.old.file.id ≤ tail.new.file.id) }
    ensures cause { IfErr result (λ fault.
        HasRollCause config.now fault (C.lists chronicle.new) (D.faults disk.old)
        (D.faults disk.new)) }
    ensures faults { OnOk result (NoneFailed (D.faults disk.old) (D.faults disk.new)) }
    ensures later_faults { (D.faults disk.old).0 ≤ (D.faults disk.new).0 }
    ensures later { D.moment disk.old ≤ D.moment disk.new }
    ensures goes_on { GoesOn (D.past disk.old) (D.past disk.new) }
    ensures named { OnOk result (tail.new.file ≡ numbered_file pool.new.highest) }
    ensures works { OnOk result (WorkedTo true config.now.file_size pool.old.highest
        pool.old.highest pool.new.highest (D.past disk.old) (D.past disk.new)) }
    ensures failed_works { OnErr result (WorkedTo false config.now.file_size
        pool.old.highest pool.old.highest pool.new.highest (D.past disk.old) (D.past disk.new)) }
    ensures failed_last { OnErr result (IfSome (C.lists chronicle.new)
        (λ l. pool.new.highest ≡ file_of_last tail.old.file.id (history_of l.steps))) }
    ensures failed_few { OnErr result
        (IfSome (C.lists chronicle.new) (λ l. length l.steps < length txs.now)) }
    ensures failed_needs { OnErr result (WorkedTo true config.now.file_size pool.old.highest
        pool.old.highest pool.new.highest (D.past disk.old) (D.past disk.new)
        ⊎ IfSome (C.lists chronicle.new) (NextNeedsFile config.now)) }
    ensures tidy { OnOk result (Told (D.past disk.old) IsTidy → Told (D.past disk.new) IsTidy) }
    ensures first { (r : Receipted)
        → IfSome (C.lists chronicle.old) (StartsWith r)
        → IfSome (C.lists chronicle.new) (StartsWith r) }
    ensures owed { IfSome (C.lists chronicle.old) (AreOwedToSteps config.now)
        → OnOk result (IfSome (C.lists chronicle.new) (AreOwedToSteps config.now)) }
    ensures failed_owed { IfSome (C.lists chronicle.old) (AreOwedToSteps config.now)
        → OnErr result (IfSome (C.lists chronicle.new) (AreOwedAtOpening config.now)) }
{
    for (done, tx) in txs.iter().enumerate() {
        roll_back_next(disk, chronicle, config, table, pool, tail, done as u64, *tx)?;
    }
    Ok(())
}

/// Appends a ROLLBACK for this transaction, behind so many.
fn roll_back_next<D: Disk, C: Chronicle>(
    disk: &mut D,
    chronicle: &mut C,
    config: &Config,
    table: &mut TxTable,
    pool: &mut Pool,
    tail: &mut Tail,
    done: u64,
    tx: u64,
) -> Result<(), OpenFault>
    requires few { done < 2 ^ 63 }
    requires valid { (base : List Placed)
        × IsValid (rolling base done) (D.past disk.old) (D.moment disk.old)
        (C.lists chronicle.old) (C.receipt_room chronicle.old) config.now
        (state_of table.old) pool.old tail.old
        × (slice_get (rolled_back base) done ≡ Some tx) }
    requires begun { (pool.old.prepared ≡ []) × (pool.old.highest ≡ tail.old.file.id) }
    requires ended { IfSome (C.lists chronicle.old) (λ l.
        (first : ℕ) × EndsIn first (history_of l.steps) tail.old.file.id (end_of_tail tail.old)) }
    requires named { tail.old.file ≡ numbered_file pool.old.highest }
    ensures ok { OnOk result ((base : List Placed)
        → slice_get (rolled_back base) done ≡ Some tx
        → IsValid (rolling base done) (D.past disk.old) (D.moment disk.old)
        (C.lists chronicle.old) (C.receipt_room chronicle.old) config.now
        (state_of table.old) pool.old tail.old
        → IsValid (rolling base (done + 1)) (D.past disk.new) (D.moment disk.new)
        (C.lists chronicle.new) (C.receipt_room chronicle.new) config.now
        (state_of table.new) pool.new tail.new) }
    ensures failed { OnErr result ((base : List Placed)
        → IsValid (rolling base done) (D.past disk.old) (D.moment disk.old)
        (C.lists chronicle.old) (C.receipt_room chronicle.old) config.now
        (state_of table.old) pool.old tail.old
        → IsValid (rolling base done) (D.past disk.new) (D.moment disk.new)
        (C.lists chronicle.new) (C.receipt_room chronicle.new) config.now
        (state_of table.new) pool.new tail.new) }
    ensures base { option_map (λ l. l.base) (C.lists chronicle.new)
        ≡ option_map (λ l. l.base) (C.lists chronicle.old) }
    ensures ends { OnOk result (IfSome (C.lists chronicle.new) (λ l.
        (first : ℕ) → EndsIn first (history_of l.steps) tail.new.file.id (end_of_tail tail.new))) }
    ensures stepped { OnOk result ((x : Step)
        × (x.placed
        ≡ Some (rollback_behind config.now tail.old.file.id (end_of_tail tail.old) tx))
        × (steps_in (C.lists chronicle.new)
        ≡ option_map (λ ss. ss ++ x ∷ []) (steps_in (C.lists chronicle.old)))) }
    ensures unstepped { OnErr result
        (steps_in (C.lists chronicle.new) ≡ steps_in (C.lists chronicle.old)) }
    ensures begun { OnOk result ((pool.new.prepared ≡ []) × (pool.new.highest ≡ tail.new.file.id)) }
    ensures later_file { OnOk result (tail.old.file.id ≤ tail.new.file.id) }
    ensures cause { IfErr result (λ fault.
        HasRollCause config.now fault (C.lists chronicle.new) (D.faults disk.old)
        (D.faults disk.new)) }
    ensures faults { OnOk result (NoneFailed (D.faults disk.old) (D.faults disk.new)) }
    ensures later_faults { (D.faults disk.old).0 ≤ (D.faults disk.new).0 }
    ensures later { D.moment disk.old ≤ D.moment disk.new }
    ensures goes_on { GoesOn (D.past disk.old) (D.past disk.new) }
    ensures named { OnOk result (tail.new.file ≡ numbered_file pool.new.highest) }
    ensures works { OnOk result (WorkedTo true config.now.file_size pool.old.highest
        pool.old.highest pool.new.highest (D.past disk.old) (D.past disk.new)) }
    ensures failed_works { OnErr result (WorkedTo false config.now.file_size
        pool.old.highest pool.old.highest pool.new.highest (D.past disk.old) (D.past disk.new)) }
    ensures same_pool { OnErr result (pool.new ≡ pool.old) }
    ensures failed_needs { OnErr result (WorkedTo true config.now.file_size pool.old.highest
        pool.old.highest pool.new.highest (D.past disk.old) (D.past disk.new)
        ⊎ IfSome (C.lists chronicle.new) (NextNeedsFile config.now)) }
    ensures tidy { OnOk result (Told (D.past disk.old) IsTidy → Told (D.past disk.new) IsTidy) }
    ensures first { (r : Receipted)
        → IfSome (C.lists chronicle.old) (StartsWith r)
        → IfSome (C.lists chronicle.new) (StartsWith r) }
    ensures owed { IfSome (C.lists chronicle.old) (AreOwedToSteps config.now)
        → OnOk result (IfSome (C.lists chronicle.new) (AreOwedToSteps config.now)) }
    ensures failed_owed { IfSome (C.lists chronicle.old) (AreOwedToSteps config.now)
        → OnErr result (IfSome (C.lists chronicle.new) (AreOwedAtOpening config.now)) }
{
    let command = Command::Rollback { tx };
    if make_room(chronicle, table, &command).is_err() {
        return Err(OpenFault::NoMemory);
    }
    let rec = Some(Record::Rollback { tx });
    let end = tail.end + tail.buffer.bytes().len() as u64;
    let moves = passes(config.file_size, end, &rec);
    if number_refusal(pool, moves).is_some() {
        return Err(OpenFault::FileIdsSpent {
            highest: pool.highest(),
        });
    }
    if let Err(fault) = ready(disk, chronicle, pool, tail, moves, &command, &rec) {
        return Err(fault_of(fault));
    }
    let given = table.apply(&command, tail.file.id);
    let (reply, placed) = put_record(tail, 0, given, rec);
    chronicle.step(Step {
        seat: OPENING,
        number: done + 1,
        command,
        answer: Answer::Done(reply),
        placed,
    });
    Ok(())
}
