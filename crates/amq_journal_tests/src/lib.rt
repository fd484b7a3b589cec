//! What no clause of the loader and the engine says: directories, and engines from their opening to
//! their close, as tables that few functions walk.
//!
//! `directories` has what a load answers of a directory, and `settling` what an opening does to the files
//! of one. `engines` has what an engine is asked, what it answers and what it leaves, and `playing` plays
//! that. `files` makes files on a disk.
#![tactic(auto)]

#[cfg(test)]
mod directories;
#[cfg(test)]
mod engines;
#[cfg(test)]
mod files;
#[cfg(test)]
mod playing;
#[cfg(test)]
mod settling;
