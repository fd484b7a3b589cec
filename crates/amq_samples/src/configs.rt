//! Configurations by their sizes.
ghost use Rattle.std.specs.Prelude.{◌≡◌, IfSome};
ghost use Rattle.amq_model.specs.Configs.{IsConfig};

use amq_model::Config;

/// How long a journal's files and its buffer are, in bytes, and how many files it makes at first.
#[derive(Clone, Copy, Debug)]
pub struct Sizes {
    pub file: u64,
    pub buffer: u64,
    pub files: u32,
}

/// A file has room for one short record.
pub const NARROW: Sizes = Sizes {
    file: 64,
    buffer: 64,
    files: 2,
};

/// A file has room for several records, the buffer for one or two.
pub const SMALL: Sizes = Sizes {
    file: 256,
    buffer: 64,
    files: 2,
};

/// A file and a buffer have room for several records.
pub const ROOMY: Sizes = Sizes {
    file: 256,
    buffer: 128,
    files: 2,
};

/// The buffer has room for any record that a file of 1,024 bytes has room for.
pub const SHORT: Sizes = Sizes {
    file: 1024,
    buffer: 501_760,
    files: 2,
};

impl Sizes {
    /// A broker's configuration with these sizes and a buffer's timeout of 3 ticks; none where they are out
    /// of an engine's ranges.
    pub fn config(&self) -> Option<Config>
        ensures range { IfSome result IsConfig }
    {
        let is_file = 64 <= self.file && self.file <= 268_435_456;
        let is_buffer = 64 <= self.buffer && self.buffer <= 1_048_576;
        if !is_file || !is_buffer || self.files < 2 || self.files > 1000 {
            return None;
        }
        Some(Config {
            file_size: self.file,
            min_files: self.files,
            pool_files: None,
            compact_min_files: 10,
            compact_percentage: 30,
            buffer_size: self.buffer,
            buffer_timeout: 3,
            user_version: 0,
        })
    }
}
