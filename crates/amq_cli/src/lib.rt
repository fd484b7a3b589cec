//! The commands of the program: what its words, its source and its disk make of its sink and its status.
//!
//! `offline` in `program` is the one call that `amq_main` makes; `offline_with` takes a configuration. `words` and `script` read what is asked, `run`
//! and `replay` give it to a journal, `labels` has what a script's labels stand for, `print` and `report` write what a directory has, `input` and `output` are
//! the streams' two ends, and `status` has how a run ends.
#![tactic(auto)]

mod input;
mod labels;
mod output;
mod print;
mod program;
mod replay;
mod report;
mod run;
mod script;
mod status;
mod words;

pub use program::{offline, offline_with};
pub use status::{Status, Unbuilt};
