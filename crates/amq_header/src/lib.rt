//! What stands at the head of a data file, and what the names of a journal's files say.
//!
//! `header` has the 16 bytes at a file's head, read and written. `classes` tells the class of a name,
//! and the number in it; `names` makes the names of data files, of compacted files and of temporary
//! ones. `law` says that each is the other's inverse.
#![tactic(auto)]

mod classes;
mod header;
mod law;
mod names;

pub use classes::{FileClass, file_class};
pub use header::{Header, read_header, write_header};
pub use law::{
    a_name_has_one_class, header_is_read_again, header_is_written_again, made_names_differ,
    made_names_have_their_class, temporary_names,
};
pub use names::{compacted_name, data_name, temporary_name};
