ghost use Rattle.std.specs.Prelude.{◌≡◌, ◌++◌, OnOk, OnErr};
ghost use Rattle.amq_model.specs.RecordAt.{spelling};

use amq_model::{NoMemory, Record};
use amq_record::{encode_into, encoded_len};
use std::alloc::Global;

/// The file's id, which each of its records carries.
pub const FILE_ID: u32 = 1;

pub const FORMAT_VERSION: u32 = 2;

/// A record's length has its highest bit clear.
const LENGTH_LIMIT: u64 = 0x8000_0000;

/// The bytes of a file: its header, and records one behind the other.
#[derive(Drop)]
pub struct RecordFile {
    pub bytes: Vec<u8>,
}

impl RecordFile {
    pub fn new(alloc: Global) -> Result<RecordFile, NoMemory> {
        let header = [0, 0, 0, 2, 0, 0, 0, 0, 0, 0, 0, 0, 0, 0, 0, 1];
        match Vec::from_slice(alloc, &header) {
            Ok(bytes) => Ok(RecordFile { bytes }),
            Err(_) => Err(NoMemory),
        }
    }

    /// Writes the record behind the others.
    pub fn put(&mut self, rec: &Record) -> Result<(), NoMemory>
        ensures ok { OnOk result (self.new.bytes.items ≡ self.old.bytes.items ++ spelling 2 1 0 rec.now) }
        ensures err { OnErr result (self.new.bytes.items ≡ self.old.bytes.items) }
    {
        encode_behind(&mut self.bytes, rec)
    }
}

/// Writes the record behind these bytes, as one of the file of id 1.
pub fn encode_behind(out: &mut Vec<u8>, rec: &Record) -> Result<(), NoMemory>
    ensures ok { OnOk result (out.new.items ≡ out.old.items ++ spelling 2 1 0 rec.now) }
    ensures err { OnErr result (out.new.items ≡ out.old.items) }
{
    let len = encoded_len(rec);
    if len >= LENGTH_LIMIT || out.reserve(len as usize).is_err() {
        return Err(NoMemory);
    }
    encode_into(out, FILE_ID, 0, rec);
    Ok(())
}
