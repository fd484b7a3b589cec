//! The files that a journal has ready to move to, and the numbers that it gives files.
//!
//! `pool` has the `Pool`: it prepares one file a step and hands them out, the least id first. Below it
//! stands `prepare`, which makes a file that is whole and durable before it has its name, in four calls
//! of the disk; `making` gives it the names and the header of a number. `law` says that a prepared file
//! has its header, its length and no record, and that a crash leaves it whole.
#![tactic(auto)]

mod faults;
mod law;
mod making;
mod pool;
mod prepare;

pub use faults::PoolFault;
pub use law::{
    a_prepared_file_has_its_header, a_prepared_file_has_no_record, a_prepared_file_is_durable,
};
pub use pool::{Pool, PoolFile};
