//! The files that a pool prepares.
use amq_header::data_name;
use amq_io::{Disk, MemoryDisk};
use amq_model::{Config, DiskCall};
use amq_pool::{Pool, PoolFault};
use std::alloc::Global;
use std::process::Abort;
use std::test::Fail;

const CONFIG: Config = Config {
    file_size: 1024,
    min_files: 2,
    pool_files: None,
    compact_min_files: 10,
    compact_percentage: 30,
    buffer_size: 64,
    buffer_timeout: 3,
    user_version: 7,
};

/// The calls that prepare a file.
const CALLS: &[DiskCall] = &[
    DiskCall::Create,
    DiskCall::WriteAt,
    DiskCall::Sync,
    DiskCall::Rename,
];

fn two_files(rt: &impl Abort, alloc: Global) -> Result<(), Fail> {
    let mut disk = MemoryDisk::new(alloc)?;
    let mut pool = Pool::new(alloc, 1, &CONFIG);
    assert_eq!(rt; pool.prepare_step(&mut disk), Ok(()));
    assert_eq!(rt; pool.prepare_step(&mut disk), Ok(()));
    assert_eq!(rt; disk.moment(), 8);
    assert_eq!(rt; pool.highest(), 3);
    assert_eq!(rt; pool.free_count(), 2);
    let first = pool.take().ok_or("no file")?;
    assert_eq!(rt; first.id, 2);
    assert_eq!(rt; first.name.as_str(), "activemq-data-2.amq");
    let second = pool.take().ok_or("no file")?;
    assert_eq!(rt; second.id, 3);
    assert!(rt; pool.take().is_none());
    assert_eq!(rt; pool.free_count(), 0);
    assert_eq!(rt; pool.highest(), 3);
    let files = disk.list()?;
    assert_eq!(rt; files.len(), 2);
    Ok(())
}

fn bytes_of_a_file(rt: &impl Abort, alloc: Global) -> Result<(), Fail> {
    let mut disk = MemoryDisk::new(alloc)?;
    let mut pool = Pool::new(alloc, 1, &CONFIG);
    pool.prepare_step(&mut disk)?;
    let name = data_name(alloc, 2)?;
    let bytes = disk.read(name.as_str())?;
    assert_eq!(rt; bytes.len(), 1024);
    assert_eq!(rt;
        &bytes[..16],
        b"\x00\x00\x00\x02\x00\x00\x00\x07\x00\x00\x00\x00\x00\x00\x00\x02".as_slice()
    );
    assert!(rt; bytes.iter().skip(16).all(|byte| *byte == 0x4a));
    Ok(())
}

fn numbers_are_spent(rt: &impl Abort, alloc: Global) -> Result<(), Fail> {
    let mut disk = MemoryDisk::new(alloc)?;
    let mut pool = Pool::new(alloc, 2_147_483_646, &CONFIG);
    assert_eq!(rt; pool.prepare_step(&mut disk), Ok(()));
    assert_eq!(rt; pool.highest(), 2_147_483_647);
    let spent = PoolFault::FileIdsSpent {
        highest: 2_147_483_647,
    };
    assert_eq!(rt; pool.prepare_step(&mut disk), Err(spent));
    assert_eq!(rt; disk.moment(), 4);
    assert_eq!(rt; pool.free_count(), 1);
    Ok(())
}

/// The call of this number fails.
fn a_call_fails(rt: &impl Abort, alloc: Global, number: u64, call: DiskCall) -> Result<(), Fail> {
    let fails = vec![in alloc; number]?;
    let mut disk = MemoryDisk::failing(alloc, Vec::new(alloc), fails)?;
    let mut pool = Pool::new(alloc, 0, &CONFIG);
    assert_eq!(rt;
        pool.prepare_step(&mut disk),
        Err(PoolFault::Disk { call }),
        "{call:?}"
    );
    assert_eq!(rt; pool.highest(), 0, "{call:?}");
    assert!(rt; pool.take().is_none(), "{call:?}");
    Ok(())
}

#[test]
fn pools(rt: HostRuntime) -> Result<(), Fail> {
    let alloc = rt.alloc();
    two_files(&rt, alloc)?;
    bytes_of_a_file(&rt, alloc)?;
    numbers_are_spent(&rt, alloc)?;
    for (i, call) in CALLS.iter().enumerate() {
        a_call_fails(&rt, alloc, i as u64 + 1, *call)?;
    }
    Ok(())
}
