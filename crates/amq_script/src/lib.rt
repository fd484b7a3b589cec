//! The language of scripts: lines of words, and the first line outside the grammar.
//!
//! `docs/FORMAT.md` has each line. `words` splits a line, `values` reads its words, `labels` knows
//! which labels were named, `keywords`, `arguments` and `lines` say what a line says by its first
//! word, and `parsing` goes over the lines.
#![tactic(auto)]

mod arguments;
mod faults;
mod keywords;
mod labels;
mod law;
mod lines;
mod parsing;
mod values;
mod words;

pub use amq_model::{Mode, ScriptCause};
pub use faults::ScriptFault;
pub use law::{read_scripts, refused_scripts};
pub use parsing::{Script, parse};

#[cfg(test)]
mod tests;
