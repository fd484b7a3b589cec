//! The program: it works on the folder that its first word names, reads a script from the standard
//! input, and writes to the standard output.
#![tactic(auto)]

mod folder;
mod folder_disk;
mod streams;
#[cfg(test)]
mod tests;

use amq_cli::{Status, Unbuilt, offline};
use amq_model::{DirFault, NoMemory};
use folder_disk::FolderDisk;
use std::env::{self, Env};
use std::fs::File;
use std::io::{ErrorKind, Input};
use std::process::ExitCode;
use std::rt::Files;
use streams::{StreamSink, StreamSource};

fn main(rt: HostRuntime) -> ExitCode {
    let status = match run(&rt) {
        Ok(status) => status,
        Err(NoMemory) => Status::NoMemory,
    };
    print_line(&rt, &status);
    ExitCode::from(status.code())
}

fn run<R>(rt: &R) -> Result<Status, NoMemory>
where
    R: Files<File = File> + AllocGlobal + Env + Input + Print + Clone + Drop,
{
    let alloc = rt.alloc();
    let Some(words) = words(rt)? else {
        let part = Unbuilt::Words;
        return Ok(Status::NotBuilt { part });
    };
    let words: Vec<&str> = words
        .iter()
        .map(|word| word.as_str())
        .collect(alloc)
        .map_err(|_| NoMemory)?;
    let path = words.first().copied().unwrap_or(".");
    let disk = FolderDisk::at(rt, path)?;
    let mut source = StreamSource::input(rt);
    let mut sink = StreamSink::output(rt);
    let (status, _disk, _kept) = offline(alloc, words.as_slice(), disk, &mut source, &mut sink);
    Ok(status)
}

/// The words behind the program's name; `None` where one of them isn't text.
fn words<R: Env + AllocGlobal>(rt: &R) -> Result<Option<Vec<String>>, NoMemory> {
    match env::args(rt) {
        Ok(args) => match args.skip(1).collect(rt.alloc()) {
            Ok(words) => Ok(Some(words)),
            Err(_) => Err(NoMemory),
        },
        Err(error) if error.kind() == ErrorKind::OutOfMemory => Err(NoMemory),
        Err(_) => Ok(None),
    }
}

/// Prints the line of a status on the standard error, for all but status 0.
fn print_line(rt: &impl Eprint, status: &Status) {
    let _ = match status {
        Status::Ok => Ok(()),
        Status::SourceFault => eprintln!(rt; "journal: source fault"),
        Status::SinkFault => eprintln!(rt; "journal: sink fault"),
        Status::DiskFault => eprintln!(rt; "journal: disk fault"),
        Status::Directory { fault } => return print_fault(rt, fault),
        Status::NoMemory => eprintln!(rt; "journal: no memory"),
        Status::FileIdsSpent { highest } => {
            eprintln!(rt; "journal: file ids spent at {highest}")
        }
        Status::InputTooLong { limit } => {
            eprintln!(rt; "journal: input longer than {limit} bytes")
        }
        Status::NotBuilt { part: _ } => eprintln!(rt; "journal: not built"),
    };
}

/// Prints the line of a directory that isn't loaded.
fn print_fault(rt: &impl Eprint, fault: &DirFault) {
    let _ = match fault {
        DirFault::TooLong { name, len } => {
            eprintln!(rt; "journal: directory: {len} bytes in {}", name.as_str())
        }
        DirFault::Version { name, found } => {
            eprintln!(rt; "journal: directory: version {found} in {}", name.as_str())
        }
        DirFault::UserVersion {
            name,
            found,
            wanted,
        } => {
            eprintln!(rt;
                "journal: directory: user version {found} in {}, not {wanted}",
                name.as_str()
            )
        }
        DirFault::TwoFiles { id, first, second } => {
            eprintln!(rt;
                "journal: directory: id {id} in {} and {}",
                first.as_str(),
                second.as_str()
            )
        }
    };
}
