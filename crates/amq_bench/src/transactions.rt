use crate::numbers::Numbers;
use crate::record_file::RecordFile;
use amq_model::{Bytes, NoMemory, Record};
use std::alloc::Global;

/// What the user's records are, as far as the journal is told.
const USER_TYPE: u8 = 31;

/// A file of transactions of one record each, with the bodies of the journal's generator.
#[derive(Drop)]
pub struct Transactions {
    alloc: Global,
    file: RecordFile,
    numbers: Numbers,
    last: u64,
}

impl Transactions {
    pub fn new(alloc: Global, seed: u64) -> Result<Transactions, NoMemory> {
        Ok(Transactions {
            alloc,
            file: RecordFile::new(alloc)?,
            numbers: Numbers::from_seed(seed),
            last: 0,
        })
    }

    /// A transaction that adds this id.
    pub fn add(&mut self, id: u64) -> Result<(), NoMemory> {
        let tx = self.begin();
        let body = body(self.alloc, self.numbers.draw())?;
        self.file.put(&Record::AddTx {
            tx,
            id,
            user_type: USER_TYPE,
            body,
        })?;
        self.file.put(&Record::Commit { tx, count: 1 })
    }

    /// A transaction that deletes this id.
    pub fn delete(&mut self, id: u64) -> Result<(), NoMemory> {
        let tx = self.begin();
        let body = Bytes::of(Vec::new(self.alloc));
        self.file.put(&Record::DeleteTx { tx, id, body })?;
        self.file.put(&Record::Commit { tx, count: 1 })
    }

    /// The file, with all that was added and deleted.
    pub fn into_file(self) -> RecordFile {
        let Transactions {
            alloc: _,
            file,
            numbers: _,
            last: _,
        } = self;
        file
    }

    fn begin(&mut self) -> u64 {
        self.last = self.last.saturating_add(1);
        self.last
    }
}

/// A body of up to 199 bytes, each one more than the one before it.
fn body(alloc: Global, number: usize) -> Result<Bytes, NoMemory> {
    let mut bytes = Vec::new(alloc);
    for j in 0..number % 200 {
        let byte = (number.wrapping_add(j) % 256) as u8;
        if bytes.push(byte).is_err() {
            return Err(NoMemory);
        }
    }
    Ok(Bytes::of(bytes))
}
