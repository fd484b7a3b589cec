//! What a load gives.

use amq_model::{Control, DataFile, Items, LoadState, Name, OpenTx, Placed};

/// What a directory gives when it is loaded.
#[derive(Debug, Drop)]
pub struct Loaded {
    /// The data files, ascending by id.
    pub files: Items<DataFile>,
    /// All their records, one file behind the other.
    pub base: Items<Placed>,
    /// The live records and the transactions in doubt.
    pub state: LoadState,
    /// The ids of the live records, each once, ascending.
    pub live: Items<u64>,
    /// The open transactions, by number.
    pub open_txs: Items<OpenTx>,
    /// The highest transaction number, 0 where there is none.
    pub highest_tx: u64,
    /// The greatest of the data files' ids and of the numbers in all names, 0 where there is none.
    pub highest_file: u64,
    /// The control file, where there is a readable one.
    pub control: Option<Control>,
    /// The names of the compacted and temporary files that the control file doesn't list.
    pub leftovers: Items<Name>,
}
