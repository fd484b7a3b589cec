/// What a crash makes of the pending bytes.
#[derive(Clone, Copy, Debug, PartialEq, Eq)]
pub enum Pick {
    /// Each is as it was written last.
    Keep,
    /// Each is as it was last synced. What a disk was made with counts as synced, and a byte that never
    /// was is 0.
    Revert,
    /// Each is this byte.
    Fill(u8),
}
