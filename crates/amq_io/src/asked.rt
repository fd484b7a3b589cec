//! The record that a disk in memory keeps of its calls.
use amq_model::Name;

/// A call with its arguments.
#[derive(Drop)]
pub enum Asked {
    List,
    Read(String),
    Create(Name, u64, u8),
    WriteAt(String, u64, Vec<u8>),
    Sync(String),
    Rename(String, Name),
    Remove(String),
}

/// A call that began, whether it was made to fail, and the moment before it.
#[derive(Drop)]
pub struct PastCall {
    pub asked: Asked,
    pub failed: bool,
    pub before: u64,
}
