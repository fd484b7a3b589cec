use crate::folder_disk::FolderDisk;
use amq_cli::offline;
use amq_io::{Disk, DiskError, MemorySink, MemorySource};
use std::fs;
use std::test::Fail;

const FOLDER: &str = "amq_main_folder_disk";

const LONG_FILE: &str = "amq_main_long_file";

/// Files, with what a folder and a name of another form add, and the count of each call.
#[test]
fn works_on_the_files_of_a_folder(rt: HostRuntime) -> Result<(), Fail> {
    let _ = fs::remove_dir_all(&rt, FOLDER);
    fs::create_dir(&rt, FOLDER)?;
    fs::create_dir(&rt, "amq_main_folder_disk/within")?;
    fs::write(&rt, "amq_main_folder_disk/häftig", "left out")?;
    let mut disk = FolderDisk::at(&rt, FOLDER)?;
    disk.create("b.amq", 70_000, 7)?;
    disk.write_at("b.amq", 69_998, b"xy")?;
    disk.sync("b.amq")?;
    disk.create("c.amq", 3, 0)?;
    disk.rename("c.amq", "a.amq")?;
    disk.write_at("a.amq", 1, b"z")?;
    assert_eq!(rt; disk.read("a.amq")?.as_slice(), [0, 122, 0].as_slice());
    let infos = disk.list()?;
    assert_eq!(rt; infos.len(), 2);
    assert_eq!(rt; (infos[0].name.as_str(), infos[0].len), ("a.amq", 3));
    assert_eq!(rt; (infos[1].name.as_str(), infos[1].len), ("b.amq", 70_000));
    let bytes = disk.read("b.amq")?;
    assert_eq!(rt;
        bytes.as_slice().get(69_996..),
        Some([7, 7, 120, 121].as_slice())
    );
    disk.remove("b.amq")?;
    assert_eq!(rt; disk.list()?.len(), 1);
    assert_eq!(rt; disk.moment(), 11);
    fs::remove_dir_all(&rt, FOLDER)?;
    Ok(())
}

/// Calls on what isn't there fail, and each is counted.
#[test]
fn fails_where_nothing_is(rt: HostRuntime) -> Result<(), Fail> {
    let mut disk = FolderDisk::at(&rt, "amq_main_no_folder")?;
    assert_eq!(rt; disk.list().err(), Some(DiskError::Failed));
    assert_eq!(rt; disk.read("a").err(), Some(DiskError::Failed));
    assert_eq!(rt; disk.create("a", 1, 0), Err(DiskError::Failed));
    assert_eq!(rt; disk.write_at("a", 0, b"a"), Err(DiskError::Failed));
    assert_eq!(rt; disk.sync("a"), Err(DiskError::Failed));
    assert_eq!(rt; disk.rename("a", "b"), Err(DiskError::Failed));
    assert_eq!(rt; disk.remove("a"), Err(DiskError::Failed));
    assert_eq!(rt; disk.moment(), 7);
    Ok(())
}

/// A data file of 300,000,000 bytes, which takes no room on the disk, is refused by the length that the
/// list tells: the list is the only call.
#[test]
fn refuses_a_long_file_unread(rt: HostRuntime) -> Result<(), Fail> {
    let alloc = rt.alloc();
    let _ = fs::remove_dir_all(&rt, LONG_FILE);
    fs::create_dir(&rt, LONG_FILE)?;
    let file = fs::File::create(&rt, "amq_main_long_file/activemq-data-1.amq")?;
    file.set_len(300_000_000)?;
    let disk = FolderDisk::at(&rt, LONG_FILE)?;
    let mut source = MemorySource::new(Vec::new(alloc), 1, Vec::new(alloc));
    let mut sink = MemorySink::new(alloc, 1, Vec::new(alloc));
    let words = [LONG_FILE, "print"];
    let (status, disk, _kept) = offline(alloc, &words, disk, &mut source, &mut sink);
    let fault = format!(in alloc; "{status:?}")?;
    assert_eq!(rt;
        fault.as_str(),
        "Directory { fault: TooLong { name: Name { text: \"activemq-data-1.amq\" }, len: 300000000 } }"
    );
    assert_eq!(rt; disk.moment(), 1);
    fs::remove_dir_all(&rt, LONG_FILE)?;
    Ok(())
}
