//! The records of one file.
//!
//! A file's scan is the one ascending list of records from behind its header that don't overlap, such
//! that at no place outside them a record stands. `law` has what crashes leave of it and of a directory
//! of several files, and what is found of records that were written one behind the other.
#![tactic(auto)]

mod law;
mod scanning;

pub use law::{
    a_crash_leaves_a_part_of_a_directory, images_hold_durable, images_hold_part, more_are_behind,
    one_scan, torn_behind, written_are_found,
};
pub use scanning::scan;
