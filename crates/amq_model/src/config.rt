/// The parameters of a journal: the broker's, with its defaults.
///
/// Sizes are bytes; `buffer_timeout` is ticks; `compact_percentage` is 0 to 100; `pool_files` of `None`
/// never shrinks the pool.
#[derive(Clone, Copy, Debug, PartialEq, Eq)]
pub struct Config {
    pub file_size: u64,
    pub min_files: u32,
    pub pool_files: Option<u32>,
    pub compact_min_files: u32,
    pub compact_percentage: u32,
    pub buffer_size: u64,
    pub buffer_timeout: u64,
    pub user_version: u32,
}
