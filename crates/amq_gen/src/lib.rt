//! A script made from a number: records of pseudorandom sizes, each deleted 16 records later.
//!
//! `docs/FORMAT.md` has its lines. `sequence` is where the sizes and bytes come from, `lines` makes the
//! lines of one record, and `generating` the script.
#![tactic(auto)]

mod generating;
mod lines;
mod sequence;

pub use amq_model::NoMemory;
pub use amq_script::Script;
pub use generating::script_of;

#[cfg(test)]
mod tests;
