//! The tests of the crates below the loader, the engine and the program.
//!
//! Each file has one subject, and walks tables of rows: the bytes of records and headers, the scan of a
//! file, what a list of records means, the buffer, the table of transactions, the pool of files, and the
//! disk and the streams that the other tests stand on. A row that fails says which one it is. The tests
//! have a crate of their own since a crate with tests is proved twice.
#![tactic(auto)]

#[cfg(test)]
mod buffers;
#[cfg(test)]
mod disks;
#[cfg(test)]
mod headers;
#[cfg(test)]
mod pools;
#[cfg(test)]
mod records;
#[cfg(test)]
mod scans;
#[cfg(test)]
mod states;
#[cfg(test)]
mod streams;
#[cfg(test)]
mod transactions;
