//! The journal: one engine over one disk, owned by one thread.
//!
//! `chronicle` has the trait through which an engine tells what it did, and the chronicles `Kept` and
//! `Unkept`. `engine` has the engine itself: opening, commands, flushing, ticking, closing.
//!
//! An opening is `starting`, from the directory to the parts of an engine. It stands on `opening`, which
//! loads the directory, syncs and settles it and begins a new file, and on `rolling`, which appends the
//! rollbacks of transactions that were left open.
//!
//! Commands stand on `commands`, the records of commands and what refuses them; `moving`, which goes on
//! to further files; `tail`, the end of the file in use with the buffer behind it; `put`, which puts
//! bytes behind the last and syncs them; and `log`, a list with room made ahead.
#![tactic(auto)]

mod chronicle;
mod commands;
mod engine;
mod log;
mod moving;
mod opening;
mod put;
mod rolling;
mod starting;
mod tail;

pub use chronicle::{Chronicle, Kept, Receipted, Unkept};
pub use engine::{Engine, OpenFailed};
pub use log::Log;
