//! Small scripts for the table of transactions, with their answers.
ghost use Rattle.std.specs.Prelude.{◌≡◌, ◌∷◌, [], IfOk};
ghost use Rattle.amq_model.specs.Answers.{tx_of};
ghost use Rattle.amq_tx.specs.Starting.{AreListed};

use amq_model::{Bytes, Command, EntryEnd, Items, NoMemory, OpenTx, Refusal};
use amq_tx::TxTable;
use std::alloc::Global;
use std::process::Abort;
use std::test::Fail;

/// A command by its ids and numbers alone; bodies are empty.
#[derive(Clone, Copy, Debug)]
enum Ask {
    Add(u64),
    Update(u64),
    Delete(u64),
    Begin,
    AddTx(u64, u64),
    UpdateTx(u64, u64),
    DeleteTx(u64, u64),
    Prepare(u64),
    Commit(u64),
    Rollback(u64),
    Flush,
}

/// What a command is answered: the number that it is given, if it is given one, or its refusal.
type Told = Result<Option<u64>, Refusal>;

const DONE: Told = Ok(None);

/// A transaction that is prepared takes no further record, and its records take effect at its COMMIT.
const PREPARED: &[(Ask, Told)] = &[
    (Ask::Begin, Ok(Some(1))),
    (Ask::AddTx(1, 3), DONE),
    (Ask::Prepare(1), DONE),
    (Ask::AddTx(1, 4), Err(Refusal::TxPrepared { tx: 1 })),
    (Ask::Prepare(1), Err(Refusal::TxPrepared { tx: 1 })),
    (Ask::Commit(1), DONE),
    (Ask::Commit(1), Err(Refusal::NoTx { tx: 1 })),
    (Ask::Add(3), Err(Refusal::AlreadyLive { id: 3 })),
    (Ask::Add(4), DONE),
];

/// An id that a transaction deletes is held until its end, and a ROLLBACK leaves it as it was.
const HELD: &[(Ask, Told)] = &[
    (Ask::Add(1), DONE),
    (Ask::Begin, Ok(Some(1))),
    (Ask::DeleteTx(1, 1), DONE),
    (Ask::Update(1), Err(Refusal::Held { id: 1, tx: 1 })),
    (Ask::Add(1), Err(Refusal::Held { id: 1, tx: 1 })),
    (Ask::Delete(2), Err(Refusal::NoRecord { id: 2 })),
    (Ask::Begin, Ok(Some(2))),
    (Ask::AddTx(2, 1), Err(Refusal::Held { id: 1, tx: 1 })),
    (Ask::AddTx(2, 5), DONE),
    (Ask::Rollback(2), DONE),
    (Ask::Add(5), DONE),
    (Ask::Rollback(1), DONE),
    (Ask::Update(1), DONE),
    (Ask::Delete(1), DONE),
    (Ask::Update(1), Err(Refusal::NoRecord { id: 1 })),
];

/// An id that is added, deleted and added again inside one transaction.
const ADDED_AGAIN: &[(Ask, Told)] = &[
    (Ask::Begin, Ok(Some(1))),
    (Ask::AddTx(1, 4), DONE),
    (Ask::AddTx(1, 4), Err(Refusal::AlreadyLive { id: 4 })),
    (Ask::DeleteTx(1, 4), DONE),
    (Ask::DeleteTx(1, 4), Err(Refusal::NoRecord { id: 4 })),
    (Ask::UpdateTx(1, 4), Err(Refusal::NoRecord { id: 4 })),
    (Ask::AddTx(1, 4), DONE),
    (Ask::Commit(1), DONE),
    (Ask::Update(4), DONE),
    (Ask::Flush, DONE),
];

/// The COMMIT of a transaction that has no record.
const EMPTY: &[(Ask, Told)] = &[
    (Ask::Begin, Ok(Some(1))),
    (Ask::Commit(1), DONE),
    (Ask::Rollback(1), Err(Refusal::NoTx { tx: 1 })),
    (Ask::Begin, Ok(Some(2))),
];

/// Behind a base where id 7 is live and transactions 5 and 9 both hold it; 9 is prepared, and deletes it.
const HELD_TWICE: &[(Ask, Told)] = &[
    (Ask::Add(7), Err(Refusal::Held { id: 7, tx: 5 })),
    (Ask::AddTx(5, 7), Err(Refusal::Held { id: 7, tx: 9 })),
    (Ask::UpdateTx(9, 7), Err(Refusal::TxPrepared { tx: 9 })),
    (Ask::Rollback(5), DONE),
    (Ask::Add(7), Err(Refusal::Held { id: 7, tx: 9 })),
    (Ask::Commit(9), DONE),
    (Ask::Delete(7), Err(Refusal::NoRecord { id: 7 })),
    (Ask::Begin, Ok(Some(10))),
];

/// Behind a base whose highest number is the last one.
const SPENT: &[(Ask, Told)] = &[
    (
        Ask::Begin,
        Err(Refusal::TxNumbersSpent {
            highest: 9223372036854775807,
        }),
    ),
    (Ask::Commit(0), Err(Refusal::NoTx { tx: 0 })),
];

/// Scripts over a base without live ids and open transactions, by the base's highest number.
const ROWS: &[(&str, u64, &[(Ask, Told)])] = &[
    ("prepared", 0, PREPARED),
    ("held", 0, HELD),
    ("added again", 0, ADDED_AGAIN),
    ("empty", 0, EMPTY),
    ("spent", 9223372036854775807, SPENT),
];

/// Behind the base of `HELD_TWICE`: an id, the transaction that is left out, and the least holder.
const HOLDERS: &[(u64, Option<u64>, Option<u64>)] = &[
    (7, None, Some(5)),
    (7, Some(5), Some(9)),
    (8, None, None),
];

/// Records of transaction 4, each with the file in which it stands.
const OF_4: &[(Ask, u64)] = &[
    (Ask::AddTx(4, 1), 1),
    (Ask::UpdateTx(4, 1), 1),
    (Ask::DeleteTx(4, 1), 2),
];

/// Behind those: a transaction, a file and the count of its records there.
const COUNTS: &[(u64, u64, u32)] = &[(4, 1, 2), (4, 2, 1), (4, 3, 0), (5, 1, 0)];

/// The command with these numbers.
fn command(alloc: Global, ask: Ask) -> Command {
    let none = || Bytes::of(Vec::new(alloc));
    match ask {
        Ask::Add(id) => Command::Add {
            id,
            user_type: 7,
            body: none(),
        },
        Ask::Update(id) => Command::Update {
            id,
            user_type: 7,
            body: none(),
        },
        Ask::Delete(id) => Command::Delete { id },
        Ask::Begin => Command::Begin,
        Ask::AddTx(tx, id) => Command::AddTx {
            tx,
            id,
            user_type: 7,
            body: none(),
        },
        Ask::UpdateTx(tx, id) => Command::UpdateTx {
            tx,
            id,
            user_type: 7,
            body: none(),
        },
        Ask::DeleteTx(tx, id) => Command::DeleteTx {
            tx,
            id,
            body: none(),
        },
        Ask::Prepare(tx) => Command::Prepare { tx, extra: none() },
        Ask::Commit(tx) => Command::Commit { tx },
        Ask::Rollback(tx) => Command::Rollback { tx },
        Ask::Flush => Command::Flush,
    }
}

/// The transaction that a command names.
fn transaction_of(command: &Command) -> Option<u64>
    ensures { result ≡ tx_of command.now }
{
    match command {
        Command::AddTx { tx, .. }
        | Command::UpdateTx { tx, .. }
        | Command::DeleteTx { tx, .. }
        | Command::Prepare { tx, .. }
        | Command::Commit { tx }
        | Command::Rollback { tx } => Some(*tx),
        _ => None,
    }
}

/// Answers the command, and applies it where it is accepted.
fn answer(table: &mut TxTable, command: &Command, file: u64) -> Result<Told, NoMemory> {
    if let Err(refusal) = table.check(command) {
        return Ok(Err(refusal));
    }
    table.reserve(command)?;
    if let Some(tx) = transaction_of(command) {
        if table.count_in(tx, file) == u32::MAX {
            return Err(NoMemory);
        }
    }
    Ok(Ok(table.apply(command, file)))
}

/// Plays the script, whose records stand in file 1, and compares each answer.
fn plays(
    rt: &impl Abort,
    alloc: Global,
    table: &mut TxTable,
    name: &str,
    script: &[(Ask, Told)],
) -> Result<(), Fail> {
    for (i, (ask, told)) in script.iter().enumerate() {
        let command = command(alloc, *ask);
        assert_eq!(rt; answer(table, &command, 1)?, *told, "{name}, {i}: {ask:?}");
    }
    Ok(())
}

/// The table of a base without live ids and open transactions.
fn empty(alloc: Global, highest: u64) -> Result<TxTable, NoMemory> {
    TxTable::new(alloc, Vec::new(alloc), Vec::new(alloc), highest)
}

/// An open transaction that touches id 7.
fn holds_7(alloc: Global, tx: u64, prepared: bool, end: EntryEnd) -> Result<OpenTx, NoMemory>
    ensures { IfOk result (λ o. o ≡ record { tx = tx; prepared = prepared; touched = (7, end) ∷ [] }) }
{
    let mut touched = Vec::new(alloc);
    if touched.push((7, end)).is_err() {
        return Err(NoMemory);
    }
    Ok(OpenTx {
        tx,
        prepared,
        touched: Items::of(touched),
    })
}

/// Two transactions that touch id 7: 5 puts it, and 9, which is prepared, deletes it.
fn two_holders(alloc: Global) -> Result<Vec<OpenTx>, Fail>
    ensures { IfOk result (λ v. AreListed v.items 9) }
{
    let first = holds_7(alloc, 5, false, EntryEnd::Put)?;
    let second = holds_7(alloc, 9, true, EntryEnd::Gone)?;
    let mut opened = Vec::new(alloc);
    opened.push(first)?;
    opened.push(second)?;
    Ok(opened)
}

/// The table of a base where id 7 is live and both transactions hold it.
fn held_twice(alloc: Global) -> Result<TxTable, Fail> {
    let mut live = Vec::new(alloc);
    live.push(7)?;
    Ok(TxTable::new(alloc, live, two_holders(alloc)?, 9)?)
}

/// Behind a base where two transactions hold an id.
fn holders(rt: &impl Abort, alloc: Global) -> Result<(), Fail> {
    let mut table = held_twice(alloc)?;
    for (id, except, told) in HOLDERS {
        assert_eq!(rt; table.holder(*id, *except), *told, "{id} but {except:?}");
    }
    plays(rt, alloc, &mut table, "held twice", HELD_TWICE)
}

/// How many records a transaction has in each file.
fn counts(rt: &impl Abort, alloc: Global) -> Result<(), Fail> {
    let mut table = empty(alloc, 3)?;
    assert_eq!(rt; answer(&mut table, &Command::Begin, 1)?, Ok(Some(4)));
    for (ask, file) in OF_4 {
        let command = command(alloc, *ask);
        assert_eq!(rt; answer(&mut table, &command, *file)?, DONE, "{ask:?}");
    }
    for (tx, file, count) in COUNTS {
        assert_eq!(rt; table.count_in(*tx, *file), *count, "{tx} in {file}");
    }
    Ok(())
}

#[test]
fn transactions(rt: HostRuntime) -> Result<(), Fail> {
    let alloc = rt.alloc();
    for (name, highest, script) in ROWS {
        let mut table = empty(alloc, *highest)?;
        plays(&rt, alloc, &mut table, name, script)?;
    }
    holders(&rt, alloc)?;
    counts(&rt, alloc)
}
