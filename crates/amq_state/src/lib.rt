//! What a list of records means: the live records, the transactions in doubt and the open ones.
//!
//! A `Loading` is fed the records of one file after the other, and keeps them. A call goes over them
//! once: `tables` has the order of effect, the open transactions (`turn`) and the highest transaction
//! number; from these `live`, `doubts`, `open` and `numbers` take what is asked. `finish` moves the
//! records into its tables, `summary` borrows them. `law` has the plain program for the same result,
//! with `changes`, `parts` and `plain_live`.
#![tactic(auto)]

mod changes;
mod doubts;
mod law;
mod live;
mod loading;
mod numbers;
mod open;
mod owned;
mod parts;
mod plain_live;
mod tables;
mod turn;

pub use law::plain_result;
pub use loading::{Loading, Summary, copy_spots};
