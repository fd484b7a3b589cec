//! The plain types of the journal, and the definitions of what they mean.
//!
//! The types stand here, since definitions or several crates cite them: records and their places,
//! what a load gives, commands with their answers, refusals, files of a directory. `specs/` has the
//! definitions, one module a subject; `docs/DEFINITIONS.md` says each in prose. `law` has the laws
//! about the definitions that the crates above rest on.
#![tactic(auto)]

mod bytes;
mod command;
mod config;
mod decimal;
mod directory;
mod history;
mod items;
mod law;
mod name;
mod record;
mod refusal;
mod script;
mod state;

pub use bytes::Bytes;
pub use command::{Command, Reply};
pub use config::Config;
pub use decimal::number_spelled;
pub use directory::{Control, DataFile, DirFault, OpenFault};
pub use history::{Answer, Step};
pub use items::Items;
pub use law::{a_call_may_leave, content_may_be_left, effect_grows};
pub use name::Name;
pub use record::{Brief, Placed, Record};
pub use refusal::{DiskCall, Phase, Refusal};
pub use script::{Keyword, Line, Mode, Said, ScriptCause};
pub use state::{Entry, EntryEnd, EntryKind, InDoubt, LoadState, OpenTx, Removal};

/// There was no memory. The one answer that has no other cause.
#[derive(Clone, Copy, Debug, PartialEq, Eq, thiserror::Error)]
#[error("no memory")]
pub struct NoMemory;
