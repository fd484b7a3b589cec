//! The buffer in which records wait until they are written to their file together.
//!
//! A `TimedBuffer` takes its memory when it is made. Records are put one behind the other, in the bytes
//! that they have in the file; once the first of them is old enough, the buffer is due. `clear` empties
//! it when its bytes are durable.
#![tactic(auto)]

mod timed;

pub use timed::TimedBuffer;
