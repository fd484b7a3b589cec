//! A directory, from its files to what they mean.
//!
//! `loading` has `load`, which only lists and reads, and `load_state`, which keeps less; `loaded` is what
//! a load gives, and `faults` why there is none. Below them stand `part`, one data file with its records,
//! `parts`, the files by their ids, and `names`, what the names of a directory say. `settling` has what an
//! opening does to the files that it found: `sync_files` makes the data files durable, and
//! `settle_directory` removes what earlier openings left unfinished.
#![tactic(auto)]

mod faults;
mod loaded;
mod loading;
mod names;
mod part;
mod parts;
mod settling;

pub use faults::LoadFault;
pub use loaded::Loaded;
pub use loading::{load, load_state};
pub use settling::{settle_directory, sync_files};
