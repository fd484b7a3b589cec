//! Commands: their records, and what refuses them.
ghost use Rattle.std.specs.Prelude.{◌≡◌, ◌^◌, ◌<◌, ◌≤◌, ◌++◌, List, IfOk, IfSome, OnOk, option_map};
ghost use Rattle.amq_model.specs.declared.record.Placed.{Placed};
ghost use Rattle.amq_model.specs.declared.history.Step.{Step};
ghost use Rattle.amq_model.specs.RecordAt.{len_of, IsRecord, IsBytes};
ghost use Rattle.amq_model.specs.Answers.{record_of, history_of};
ghost use Rattle.amq_model.specs.Legal.{number_for};
ghost use Rattle.amq_tx.specs.Tables.{state_of, HasRoom};
ghost use Rattle.amq_tx.specs.Refusing.{refusal_in};
ghost use Rattle.amq_tx.specs.Follows.{Follows, AreBelow};
ghost use Rattle.amq_pool.specs.Pools.{ids_of};
ghost use Rattle.amq_engine.specs.Engine.{IsCommandRefusal, refused, record_len, too_long, spent};

use crate::chronicle::Chronicle;
use crate::moving::MOST_NUMBER;
use amq_model::{Bytes, Command, Config, NoMemory, Record, Refusal};
use amq_pool::Pool;
use amq_record::encoded_len;
use amq_tx::TxTable;
use std::alloc::Global;

/// The record of a command, if it has one, with 0 as the number of records.
fn record_for(alloc: Global, command: &Command) -> Result<Option<Record>, NoMemory>
    ensures record { IfOk result (λ rec. rec ≡ record_of command.now 0) }
    ensures length { IfOk result (λ rec. option_map len_of rec ≡ record_len command.now) }
    ensures values { IfOk result (λ rec. IfSome rec (λ rec. len_of rec < 2 ^ 31 → IsRecord rec)) }
{
    match command {
        Command::Add {
            id,
            user_type,
            body,
        } => Ok(Some(Record::Add {
            id: *id,
            user_type: *user_type,
            body: copy_of(alloc, body)?,
        })),
        Command::Update {
            id,
            user_type,
            body,
        } => Ok(Some(Record::Update {
            id: *id,
            user_type: *user_type,
            body: copy_of(alloc, body)?,
        })),
        Command::Delete { id } => Ok(Some(Record::Delete { id: *id })),
        Command::AddTx {
            tx,
            id,
            user_type,
            body,
        } => Ok(Some(Record::AddTx {
            tx: *tx,
            id: *id,
            user_type: *user_type,
            body: copy_of(alloc, body)?,
        })),
        Command::UpdateTx {
            tx,
            id,
            user_type,
            body,
        } => Ok(Some(Record::UpdateTx {
            tx: *tx,
            id: *id,
            user_type: *user_type,
            body: copy_of(alloc, body)?,
        })),
        Command::DeleteTx { tx, id, body } => Ok(Some(Record::DeleteTx {
            tx: *tx,
            id: *id,
            body: copy_of(alloc, body)?,
        })),
        Command::Prepare { tx, extra } => Ok(Some(Record::Prepare {
            tx: *tx,
            count: 0,
            extra: copy_of(alloc, extra)?,
        })),
        Command::Commit { tx } => Ok(Some(Record::Commit { tx: *tx, count: 0 })),
        Command::Rollback { tx } => Ok(Some(Record::Rollback { tx: *tx })),
        Command::Begin | Command::Flush => Ok(None),
    }
}

/// Equal bytes in memory of their own.
fn copy_of(alloc: Global, body: &Bytes) -> Result<Bytes, NoMemory>
    ensures same { IfOk result (λ copy. copy ≡ body.now) }
    ensures bytes { IfOk result IsBytes }
{
    match body.as_slice().to_vec(alloc) {
        Ok(bytes) => Ok(Bytes::of(bytes)),
        Err(_) => Err(NoMemory),
    }
}

/// The record of a command that comes to stand in this file, with its number of records: in a PREPARE
/// and a COMMIT that of its transaction's adds, updates and deletes there.
pub fn numbered(
    table: &TxTable,
    command: &Command,
    file: u64,
    rec: Option<Record>,
) -> Option<Record>
    requires record { rec ≡ record_of command.now 0 }
    ensures record { (base : List Placed) (steps : List Step)
        → Follows (state_of table.now) base steps
        → AreBelow file base
        → result ≡ record_of command.now (number_for (base ++ history_of steps) command.now file) }
    ensures length { option_map len_of result ≡ option_map len_of rec }
    ensures values { IfSome rec IsRecord → IfSome result IsRecord }
{
    match rec {
        Some(Record::Prepare { tx, extra, .. }) => Some(Record::Prepare {
            tx,
            count: table.count_in(tx, file),
            extra,
        }),
        Some(Record::Commit { tx, .. }) => Some(Record::Commit {
            tx,
            count: table.count_in(tx, file),
        }),
        other => other,
    }
}

/// What refuses a command, in the order in which refusals are tried.
pub fn refusal_of(
    config: &Config,
    table: &TxTable,
    pool: &Pool,
    moves: bool,
    command: &Command,
    rec: &Option<Record>,
) -> Option<Refusal>
    requires record { option_map len_of rec.now ≡ record_len command.now }
    requires size { 16 ≤ config.now.file_size }
    ensures first { result
        ≡ refused config.now (refusal_in (state_of table.now) command.now)
        (spent moves pool.now.highest (ids_of pool.now.prepared)) command.now }
    ensures kind { IfSome result IsCommandRefusal }
{
    if let Some(refusal) = length_refusal(config, rec) {
        return Some(refusal);
    }
    if let Err(refusal) = table.check(command) {
        return Some(refusal);
    }
    number_refusal(pool, moves)
}

/// The refusal of a record that is longer than the limit.
fn length_refusal(config: &Config, rec: &Option<Record>) -> Option<Refusal>
    requires size { 16 ≤ config.now.file_size }
    ensures first { result ≡ too_long config.now (option_map len_of rec.now) }
{
    let len = encoded_len(rec.as_ref()?);
    let limit = config.buffer_size.min(config.file_size - 16);
    if limit < len {
        return Some(Refusal::TooLarge { len, limit });
    }
    None
}

/// The refusal where a further file is needed, none is prepared, and the numbers of files are spent.
pub fn number_refusal(pool: &Pool, moves: bool) -> Option<Refusal>
    ensures first { result ≡ spent moves pool.now.highest (ids_of pool.now.prepared) }
{
    if pool.free_count() > 0 {
        return None;
    }
    let highest = pool.highest();
    if moves && highest >= MOST_NUMBER {
        return Some(Refusal::FileIdsSpent { highest });
    }
    None
}

/// Makes all the room that a command takes, but that in the buffer and for its record.
///
/// After `NoMemory` the chronicle's lists and what the table tells are as they were.
pub fn make_room<C: Chronicle>(
    chronicle: &mut C,
    table: &mut TxTable,
    command: &Command,
) -> Result<(), NoMemory>
    ensures lists { C.lists chronicle.new ≡ C.lists chronicle.old }
    ensures step { OnOk result (1 ≤ C.step_room chronicle.new) }
    ensures receipts { OnOk result (2 ≤ C.receipt_room chronicle.new) }
    ensures room { C.receipt_room chronicle.old ≤ C.receipt_room chronicle.new }
    ensures table { state_of table.new ≡ state_of table.old }
    ensures reserved { OnOk result (HasRoom table.new command.now) }
{
    chronicle.room()?;
    table.reserve(command)
}

/// Makes all the room that a command takes, but that in the buffer, and its record.
///
/// After `NoMemory` the chronicle's lists and what the table tells are as they were.
pub fn room_for<C: Chronicle>(
    alloc: Global,
    chronicle: &mut C,
    table: &mut TxTable,
    command: &Command,
) -> Result<Option<Record>, NoMemory>
    ensures lists { C.lists chronicle.new ≡ C.lists chronicle.old }
    ensures step { OnOk result (1 ≤ C.step_room chronicle.new) }
    ensures receipts { OnOk result (2 ≤ C.receipt_room chronicle.new) }
    ensures room { C.receipt_room chronicle.old ≤ C.receipt_room chronicle.new }
    ensures table { state_of table.new ≡ state_of table.old }
    ensures reserved { OnOk result (HasRoom table.new command.now) }
    ensures record { IfOk result (λ rec. rec ≡ record_of command.now 0) }
    ensures length { IfOk result (λ rec. option_map len_of rec ≡ record_len command.now) }
    ensures values { IfOk result (λ rec. IfSome rec (λ rec. len_of rec < 2 ^ 31 → IsRecord rec)) }
{
    make_room(chronicle, table, command)?;
    record_for(alloc, command)
}
