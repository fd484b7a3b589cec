//! The outside of the journal: a directory of files, a source of bytes and a sink for them.
//!
//! `Disk`, `Source` and `Sink` are the traits that every crate above takes. Each keeps a count of its
//! faults, so that a refusal can't be made up, and may tell what it holds, so that theorems speak of the
//! bytes. `faults` has a disk's calls with the call named in each fault. `MemoryDisk`, `MemorySource`
//! and `MemorySink` tell everything, and fail at the calls that they are told to fail.
#![tactic(auto)]

mod asked;
mod crash;
mod disk;
mod entries;
pub mod faults;
mod listing;
mod memory_disk;
mod memory_file;
mod memory_sink;
mod memory_source;
mod pick;
mod sink;
mod source;

pub use disk::{Disk, DiskError, FileInfo};
pub use faults::DiskFault;
pub use memory_disk::MemoryDisk;
pub use memory_sink::MemorySink;
pub use memory_source::MemorySource;
pub use pick::Pick;
pub use sink::{Sink, SinkError};
pub use source::{Failed, Source};
