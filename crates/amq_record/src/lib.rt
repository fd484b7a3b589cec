//! One record: where it stands in a file's bytes, how long it is, and how it is written.
//!
//! Reading borrows: a `Spot` says where a record stands, and its `RecordRef` holds slices of the
//! file's bytes. Nothing here but `RecordRef::to_record` takes memory. `docs/FORMAT.md` has the bytes
//! of the nine kinds, `layout` says which fields each has, and reading, length and writing go by that.
//! `law` has the laws of the format that the crates above rest on.
#![tactic(auto)]

mod law;
mod layout;
mod parts;
mod reading;
mod spot;
mod writing;

pub use law::{no_spelling_begins_another, one_record_at_a_place, spelling_is_read_again};
pub use reading::record_at;
pub use spot::{RecordRef, Spot};
pub use writing::{encode_into, encoded_len};
