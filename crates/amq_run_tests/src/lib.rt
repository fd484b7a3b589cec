//! Runs of the program on a disk in memory, as tables that few functions walk.
//!
//! `running` has a run and what it leaves, and `disks` the files that are there before it. `runs` has
//! the runs of which the status, the text and the files are compared, `failing` those with each call
//! failing in turn, `bodies` those with long bodies, and `crashes` what a crash leaves at every moment of
//! a run; `images` has how such an image is loaded and compared with what may be kept. No part of the
//! product uses this crate.
#![tactic(auto)]

#[cfg(test)]
mod bodies;
#[cfg(test)]
mod crashes;
#[cfg(test)]
mod disks;
#[cfg(test)]
mod failing;
#[cfg(test)]
mod images;
#[cfg(test)]
mod running;
#[cfg(test)]
mod runs;
