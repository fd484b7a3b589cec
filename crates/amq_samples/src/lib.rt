//! What the tests of several crates stand on.
//!
//! `configs` has configurations by the lengths of their files and buffer, `records` the bytes of records
//! and headers as a broker writes them, and `files` joins those to a file. No part of the product uses
//! this crate.
#![tactic(auto)]

mod configs;
mod files;
mod records;

pub use configs::{NARROW, ROOMY, SHORT, SMALL, Sizes};
pub use files::joined;
pub use records::{
    ADD, ADD_OF_GREATEST_LENGTH, ADD_OF_NEGATIVE_LENGTH, ADD_OF_WRONG_SIZE, ADD_TX, COMMIT_OF_0,
    COMMIT_OF_1, COMMIT_OF_2, HEADER, SECOND_ADD, SECOND_HEADER,
};
