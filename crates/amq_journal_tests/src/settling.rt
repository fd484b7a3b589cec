//! What an opening does to the files of a directory.
ghost use Rattle.std.specs.Prelude.{◌≡◌, ◌≢◌, [], ◌∷◌, IfOk, All};
ghost use Rattle.amq_model.specs.Leaves.{IsThere};
ghost use Rattle.amq_io.specs.MemoryDisk.{content_of};
ghost use Rattle.amq_loader.specs.Bases.{AreThere, AreApart};

use crate::files::named;
use amq_io::{Disk, DiskFault, MemoryDisk, faults};
use amq_loader::{Loaded, settle_directory, sync_files};
use amq_model::{DataFile, DiskCall, Items, LoadState, Name};
use std::alloc::Global;
use std::process::Abort;
use std::test::Fail;

const DATA: &str = "activemq-data-1.amq";

const COMPACTED: &str = "activemq-data-1.amq.cmp";

const TEMPORARY: &str = "activemq-data-2.amq.tmp";

/// What an opening does to the files that it found.
#[derive(Clone, Copy)]
enum Work {
    /// It removes the compacted file and the temporary one.
    Settle,
    /// It lists the directory, and makes the data file durable.
    Sync,
}

/// A disk with a data file, a compacted and a temporary one, which its first three calls make.
#[derive(Clone, Copy)]
struct Row {
    name: &'static str,
    work: Work,
    /// The number of the call that fails; 0 for none.
    fails: u64,
    outcome: Result<(), DiskFault>,
    /// Whether the data file, the compacted one and the temporary one are there behind it.
    there: [bool; 3],
    moment: u64,
}

const ROWS: &[Row] = &[
    Row {
        name: "both leftovers are removed",
        work: Work::Settle,
        fails: 0,
        outcome: Ok(()),
        there: [true, false, false],
        moment: 5,
    },
    Row {
        name: "the second remove fails",
        work: Work::Settle,
        fails: 5,
        outcome: Err(DiskFault::Disk(DiskCall::Remove)),
        there: [true, false, true],
        moment: 5,
    },
    Row {
        name: "the data file is synced",
        work: Work::Sync,
        fails: 0,
        outcome: Ok(()),
        there: [true, true, true],
        moment: 5,
    },
    Row {
        name: "the sync fails",
        work: Work::Sync,
        fails: 5,
        outcome: Err(DiskFault::Disk(DiskCall::Sync)),
        there: [true, true, true],
        moment: 5,
    },
];

/// A disk with the three files, whose call of this number fails.
fn three_files(alloc: Global, fails: u64) -> Result<MemoryDisk, Fail> {
    let mut disk = MemoryDisk::failing(alloc, Vec::new(alloc), vec![in alloc; fails]?)?;
    for text in [DATA, COMPACTED, TEMPORARY] {
        let made = named(alloc, text)?;
        faults::create(&mut disk, made.as_str(), 20, 7)?;
    }
    Ok(disk)
}

/// What a load gives of such a directory, as far as it is settled.
fn loaded_of(alloc: Global, files: Vec<DataFile>, leftovers: Vec<Name>) -> Loaded
    ensures files { result.files ≡ files.items }
    ensures leftovers { result.leftovers ≡ leftovers.items }
{
    Loaded {
        files: Items::of(files),
        base: Items::of(Vec::new(alloc)),
        state: LoadState {
            live: Items::of(Vec::new(alloc)),
            in_doubt: Items::of(Vec::new(alloc)),
        },
        live: Items::of(Vec::new(alloc)),
        open_txs: Items::of(Vec::new(alloc)),
        highest_tx: 0,
        highest_file: 2,
        control: None,
        leftovers: Items::of(leftovers),
    }
}

/// The file has to be there.
fn need(rt: &impl Abort, disk: &MemoryDisk, name: &str)
    ensures { IsThere name.now (content_of disk.now) }
{
    match disk.look(name) {
        Ok(Some(_)) => {}
        _ => panic!(rt; "{name} isn't there"),
    }
}

/// Both leftovers, which have to be there.
fn leftovers(rt: &impl Abort, alloc: Global, disk: &MemoryDisk) -> Result<Vec<Name>, Fail>
    ensures there { IfOk result (λ names. All (λ n. IsThere n (content_of disk.now)) names.items) }
    ensures apart { IfOk result (λ names. AreApart names.items) }
{
    let first = named(alloc, COMPACTED)?;
    let second = named(alloc, TEMPORARY)?;
    let same = first == second;
    assert!(rt; !same);
    need(rt, disk, first.as_str());
    need(rt, disk, second.as_str());
    let mut names = Vec::new(alloc);
    names.push(first)?;
    names.push(second)?;
    Ok(names)
}

/// The one data file, which has to be there.
fn data_files(rt: &impl Abort, alloc: Global, disk: &MemoryDisk) -> Result<Vec<DataFile>, Fail>
    ensures { IfOk result (λ files. AreThere files.items (content_of disk.now)) }
{
    let name = named(alloc, DATA)?;
    need(rt, disk, name.as_str());
    let mut files = Vec::new(alloc);
    files.push(DataFile {
        name,
        id: 1,
        len: 20,
        version: 2,
    })?;
    Ok(files)
}

/// Removes both leftovers, which have to be there.
fn settle(
    rt: &impl Abort,
    alloc: Global,
    disk: &mut MemoryDisk,
) -> Result<Result<(), DiskFault>, Fail> {
    let names = leftovers(rt, alloc, disk)?;
    let loaded = loaded_of(alloc, Vec::new(alloc), names);
    Ok(settle_directory(disk, &loaded))
}

/// Lists the directory and makes the one data file durable.
fn sync(
    rt: &impl Abort,
    alloc: Global,
    disk: &mut MemoryDisk,
) -> Result<Result<(), DiskFault>, Fail> {
    let _infos = faults::list(disk)?;
    let files = data_files(rt, alloc, disk)?;
    let loaded = loaded_of(alloc, files, Vec::new(alloc));
    Ok(sync_files(disk, &loaded))
}

/// Does the row's work.
fn outcome_of(
    rt: &impl Abort,
    alloc: Global,
    disk: &mut MemoryDisk,
    work: Work,
) -> Result<Result<(), DiskFault>, Fail> {
    match work {
        Work::Settle => settle(rt, alloc, disk),
        Work::Sync => sync(rt, alloc, disk),
    }
}

#[test]
fn settled_and_synced(rt: HostRuntime) -> Result<(), Fail> {
    let alloc = rt.alloc();
    for row in ROWS {
        let mut disk = three_files(alloc, row.fails)?;
        let outcome = outcome_of(&rt, alloc, &mut disk, row.work)?;
        assert_eq!(rt; outcome, row.outcome, "{}", row.name);
        let data = disk.look(DATA)?.is_some();
        let compacted = disk.look(COMPACTED)?.is_some();
        let temporary = disk.look(TEMPORARY)?.is_some();
        assert_eq!(rt; [data, compacted, temporary], row.there, "{}", row.name);
        assert_eq!(rt; disk.moment(), row.moment, "{}", row.name);
    }
    Ok(())
}
