//! The texts that the program writes: reply lines, the report, and the lines of records.
//!
//! `docs/FORMAT.md` has each line. Numbers are decimal, bodies lower-case hexadecimal digits or `-`.
//! `words` writes a line, `replies`, `reports` and `records` say what stands in it.
#![tactic(auto)]

mod records;
mod replies;
mod reports;
mod words;

pub use records::record_lines;
pub use replies::{LONGEST_LINE, push_answer, push_bound};
pub use reports::{push_entry, push_in_doubt, push_in_doubt_count, push_live_count, report};

#[cfg(test)]
mod tests;
