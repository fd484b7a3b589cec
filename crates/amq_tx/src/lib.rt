//! The ids and the open transactions of a journal, and which commands they refuse.
//!
//! A `TxTable` begins with the live ids, the open transactions and the highest number of what a load
//! read. `check` refuses a command for what it knows of them: from `NoTx` to `TxNumbersSpent`, in the
//! order of `docs/FORMAT.md`. `reserve` makes the room that the command needs; `apply` takes in an
//! accepted one, and takes no memory. Nothing here walks the live ids or the open transactions: each is
//! found by its number, and so are the transactions that touch an id (`touches`). A COMMIT or ROLLBACK
//! goes over the ids of its own transaction (`turn`). `law` says that what a table knows is that of the
//! base and the steps behind it; `whole` that a crash leaves no transaction in part, where what isn't
//! durable yet lies in one file.
#![tactic(auto)]

mod changing;
mod ending;
mod law;
mod lookups;
mod opening;
mod parts;
mod table;
mod touches;
mod turn;
mod whole;

pub use law::{base_is_listed, follows_refused};
pub use table::TxTable;
pub use whole::{crash_leaves_kept, crash_leaves_whole, kept_of_earlier, part_of_front};
