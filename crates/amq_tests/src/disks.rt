//! The disk in memory.
ghost use Rattle.std.specs.Prelude.{◌≡◌, ◌≢◌, IfOk};
ghost use Rattle.std.specs.List.{AllPairs};
ghost use Rattle.amq_model.specs.Leaves.{IsThere, IsWithin};
ghost use Rattle.amq_io.specs.MemoryDisk.{content_of};

use amq_io::{Disk, DiskError, DiskFault, MemoryDisk, Pick, faults};
use amq_model::{DiskCall, Name};
use std::alloc::Global;
use std::process::Abort;
use std::test::Fail;

/// A file by its name and its bytes.
type File = (&'static str, &'static [u8]);

/// A call of the disk, or a question that is no call: `Moment` and `IsGone`.
#[derive(Clone, Copy, Debug)]
enum Step {
    Create(&'static str, u64, u8),
    WriteAt(&'static str, usize, &'static [u8]),
    Sync(&'static str),
    Rename(&'static str, &'static str),
    Remove(&'static str),
    Read(&'static str, &'static [u8]),
    List(&'static [(&'static str, u64)]),
    Moment(u64),
    IsGone(&'static str),
}

use Step::{Create, IsGone, List, Moment, Read, Remove, Rename, Sync, WriteAt};

/// What a step is answered. What a read or a list gives stands in the step.
type Told = Result<(), DiskFault>;

const DONE: Told = Ok(());

/// A disk of no file or two, the numbers of the calls that fail, the steps, and what crashes then leave.
struct Row {
    name: &'static str,
    files: &'static [File],
    fails: &'static [u64],
    steps: &'static [(Step, Told)],
    left: &'static [(Pick, &'static [File])],
}

const ROWS: &[Row] = &[
    Row {
        name: "each call is answered",
        files: &[],
        fails: &[],
        steps: &[
            (Create("b", 4, 7), DONE),
            (Create("a", 0, 0), DONE),
            (WriteAt("b", 1, &[1, 2]), DONE),
            (Read("b", &[7, 1, 2, 7]), DONE),
            (Sync("b"), DONE),
            (Rename("b", "c"), DONE),
            (Remove("a"), DONE),
            (Moment(7), DONE),
            (IsGone("a"), DONE),
            (IsGone("b"), DONE),
            (Read("c", &[7, 1, 2, 7]), DONE),
            (Create("c", 2, 9), DONE),
            (Read("c", &[9, 9]), DONE),
        ],
        left: &[],
    },
    Row {
        name: "a list ascends by name",
        files: &[("b", &[1, 2]), ("a", &[3])],
        fails: &[],
        steps: &[
            (Create("aa", 3, 0), DONE),
            (List(&[("a", 1), ("aa", 3), ("b", 2)]), DONE),
        ],
        left: &[],
    },
    Row {
        name: "calls fail that are told to",
        files: &[("a", &[1, 2, 3]), ("b", &[4])],
        fails: &[2, 3, 5, 6, 7, 8],
        steps: &[
            (Read("a", &[1, 2, 3]), DONE),
            (
                WriteAt("a", 0, &[9]),
                Err(DiskFault::Disk(DiskCall::WriteAt)),
            ),
            (Read("a", &[]), Err(DiskFault::Disk(DiskCall::Read))),
            (Read("a", &[1, 2, 3]), DONE),
            (Sync("a"), Err(DiskFault::Disk(DiskCall::Sync))),
            (Rename("a", "b"), Err(DiskFault::Disk(DiskCall::Rename))),
            (Remove("a"), Err(DiskFault::Disk(DiskCall::Remove))),
            (Create("a", 1, 0), Err(DiskFault::Disk(DiskCall::Create))),
            (Read("a", &[1, 2, 3]), DONE),
            (Rename("a", "b"), DONE),
            (Read("b", &[1, 2, 3]), DONE),
            (IsGone("a"), DONE),
        ],
        left: &[],
    },
    Row {
        name: "a crash leaves what is durable",
        files: &[("a", &[1, 2, 3, 4]), ("b", &[5])],
        fails: &[4],
        steps: &[
            (WriteAt("a", 0, &[6]), DONE),
            (Sync("a"), DONE),
            (WriteAt("a", 1, &[7]), DONE),
            (
                WriteAt("a", 3, &[8]),
                Err(DiskFault::Disk(DiskCall::WriteAt)),
            ),
        ],
        left: &[
            (Pick::Keep, &[("a", &[6, 7, 3, 4])]),
            (Pick::Fill(9), &[("a", &[6, 9, 3, 9]), ("b", &[5])]),
        ],
    },
    Row {
        name: "a revert gives what was last synced",
        files: &[("given", &[1, 2, 3]), ("again", &[4, 5])],
        fails: &[12],
        steps: &[
            (WriteAt("given", 0, &[9]), DONE),
            (WriteAt("again", 0, &[6]), DONE),
            (Sync("again"), DONE),
            (WriteAt("again", 0, &[7, 7]), DONE),
            (WriteAt("again", 1, &[8]), DONE),
            (Create("never", 2, 7), DONE),
            (WriteAt("never", 0, &[8]), DONE),
            (Create("old", 2, 3), DONE),
            (Sync("old"), DONE),
            (WriteAt("old", 1, &[9]), DONE),
            (Rename("old", "new"), DONE),
            (Sync("given"), Err(DiskFault::Disk(DiskCall::Sync))),
        ],
        left: &[(
            Pick::Revert,
            &[
                ("given", &[1, 2, 3]),
                ("again", &[6, 5]),
                ("never", &[0, 0]),
                ("new", &[3, 3]),
            ],
        )],
    },
];

fn name(alloc: Global, text: &str) -> Result<Name, Fail> {
    Ok(Name::of(alloc, text)?.ok_or("no name")?)
}

/// Two files, whose names differ.
fn two_files(
    rt: &impl Abort,
    alloc: Global,
    first: (Name, Vec<u8>),
    second: (Name, Vec<u8>),
) -> Result<Vec<(Name, Vec<u8>)>, Fail>
    ensures { IfOk result (λ v. AllPairs (λ a b. a.0 ≢ b.0) v.items) }
{
    let same = first.0 == second.0;
    assert!(rt; !same);
    let mut files = Vec::new(alloc);
    files.push(first)?;
    files.push(second)?;
    Ok(files)
}

/// The disk that a row begins with.
fn disk_of(
    rt: &impl Abort,
    alloc: Global,
    files: &[File],
    fails: &[u64],
) -> Result<MemoryDisk, Fail> {
    let fails = Vec::from_slice(alloc, fails)?;
    let files = match files {
        [] => Vec::new(alloc),
        [(first, bytes), (second, others)] => {
            let first = (name(alloc, first)?, Vec::from_slice(alloc, bytes)?);
            let second = (name(alloc, second)?, Vec::from_slice(alloc, others)?);
            two_files(rt, alloc, first, second)?
        }
        _ => panic!(rt; "no file or two"),
    };
    Ok(MemoryDisk::failing(alloc, files, fails)?)
}

/// The length of a file that has to be there.
fn len_of(rt: &impl Abort, disk: &MemoryDisk, name: &str) -> usize
    ensures there { IsThere name.now (content_of disk.now) }
    ensures within { IsWithin name.now result (content_of disk.now) }
{
    match disk.look(name) {
        Ok(Some(bytes)) => bytes.len(),
        _ => panic!(rt; "{name} isn't there"),
    }
}

fn read(rt: &impl Abort, disk: &mut MemoryDisk, name: &str) -> Result<Vec<u8>, DiskFault> {
    let _len = len_of(rt, disk, name);
    faults::read(disk, name)
}

fn write(
    rt: &impl Abort,
    disk: &mut MemoryDisk,
    name: &str,
    place: usize,
    bytes: &[u8],
) -> Result<(), DiskFault> {
    let len = len_of(rt, disk, name);
    assert!(rt; bytes.len() <= len && place <= len - bytes.len());
    faults::write_at(disk, name, place as u64, bytes)
}

fn sync(rt: &impl Abort, disk: &mut MemoryDisk, name: &str) -> Result<(), DiskFault> {
    let _len = len_of(rt, disk, name);
    faults::sync(disk, name)
}

fn rename(rt: &impl Abort, disk: &mut MemoryDisk, from: &str, to: &Name) -> Result<(), DiskFault> {
    let _len = len_of(rt, disk, from);
    faults::rename(disk, from, to.as_str())
}

fn remove(rt: &impl Abort, disk: &mut MemoryDisk, name: &str) -> Result<(), DiskFault> {
    let _len = len_of(rt, disk, name);
    faults::remove(disk, name)
}

fn create(disk: &mut MemoryDisk, name: &Name, len: u64, fill: u8) -> Result<(), DiskFault> {
    faults::create(disk, name.as_str(), len, fill)
}

/// Reads the file, and compares its bytes where it is read.
fn reads(rt: &impl Abort, row: &str, disk: &mut MemoryDisk, name: &str, wanted: &[u8]) -> Told {
    let bytes = read(rt, disk, name)?;
    assert_eq!(rt; bytes.as_slice(), wanted, "{row}: {name}");
    Ok(())
}

/// Lists the files, and compares their names and lengths where they are listed.
fn lists(rt: &impl Abort, row: &str, disk: &mut MemoryDisk, wanted: &[(&str, u64)]) -> Told {
    let infos = faults::list(disk)?;
    assert_eq!(rt; infos.len(), wanted.len(), "{row}");
    for (info, (name, len)) in infos.iter().zip(wanted) {
        assert_eq!(rt; info.name.as_str(), *name, "{row}");
        assert_eq!(rt; info.len, *len, "{row}: {name}");
    }
    Ok(())
}

/// Takes the step.
fn answer(
    rt: &impl Abort,
    alloc: Global,
    row: &str,
    disk: &mut MemoryDisk,
    step: Step,
) -> Result<Told, Fail> {
    Ok(match step {
        Create(file, len, fill) => create(disk, &name(alloc, file)?, len, fill),
        WriteAt(file, place, bytes) => write(rt, disk, file, place, bytes),
        Sync(file) => sync(rt, disk, file),
        Rename(from, to) => rename(rt, disk, from, &name(alloc, to)?),
        Remove(file) => remove(rt, disk, file),
        Read(file, wanted) => reads(rt, row, disk, file, wanted),
        List(wanted) => lists(rt, row, disk, wanted),
        Moment(wanted) => {
            assert_eq!(rt; disk.moment(), wanted, "{row}");
            DONE
        }
        IsGone(file) => {
            assert!(rt; disk.look(file)?.is_none(), "{row}: {file}");
            DONE
        }
    })
}

/// A crash leaves a disk with these files, and each read is a call of it.
fn leaves(
    rt: &impl Abort,
    row: &str,
    disk: &MemoryDisk,
    pick: Pick,
    files: &[File],
) -> Result<(), Fail> {
    let mut left = disk.crash(pick)?;
    for (file, bytes) in files {
        assert_eq!(rt;
            reads(rt, row, &mut left, file, bytes),
            DONE,
            "{row}: {pick:?}, {file}"
        );
    }
    assert_eq!(rt; left.moment(), files.len() as u64, "{row}: {pick:?}");
    Ok(())
}

/// Takes the steps of the row, and compares each answer.
fn plays(rt: &impl Abort, alloc: Global, row: &Row) -> Result<(), Fail> {
    let mut disk = disk_of(rt, alloc, row.files, row.fails)?;
    let name = row.name;
    for (step, told) in row.steps {
        assert_eq!(rt;
            answer(rt, alloc, name, &mut disk, *step)?,
            *told,
            "{name}, {step:?}"
        );
    }
    for (pick, files) in row.left {
        leaves(rt, name, &disk, *pick, files)?;
    }
    Ok(())
}

#[test]
fn disks(rt: HostRuntime) -> Result<(), Fail> {
    let alloc = rt.alloc();
    for row in ROWS {
        plays(&rt, alloc, row)?;
    }
    assert_eq!(rt;
        format!(in alloc; "{}", DiskFault::Disk(DiskCall::WriteAt))?.as_str(),
        "disk call WriteAt failed"
    );
    assert_eq!(rt;
        format!(in alloc; "{}", DiskError::Failed)?.as_str(),
        "the call failed"
    );
    Ok(())
}
