//! The 16 bytes at the head of a data file.
ghost use Rattle.std.specs.Prelude.{◌≡◌};
ghost use Rattle.amq_header.specs.Headers.{header_bytes, header_in};

/// What the head of a data file says: its format version, its user version and its id.
///
/// The lowest 31 bits of the id stand in each record of the file.
#[derive(Clone, Copy, Debug, PartialEq, Eq)]
pub struct Header {
    pub version: u32,
    pub user_version: u32,
    pub id: u64,
}

/// The header of a file with these bytes; `None` where there are fewer than 16.
pub fn read_header(bytes: &[u8]) -> Option<Header>
    ensures { result ≡ header_in bytes.now }
{
    let (version, rest) = bytes.split_first_chunk::<4>()?;
    let (user_version, rest) = rest.split_first_chunk::<4>()?;
    let (id, _) = rest.split_first_chunk::<8>()?;
    Some(Header {
        version: u32::from_be_bytes(*version),
        user_version: u32::from_be_bytes(*user_version),
        id: u64::from_be_bytes(*id),
    })
}

/// The 16 bytes of a header: version, user version and id, the highest byte first.
#[tactic(auto, unfolding(amq_model::specs::RecordAt::word, amq_model::specs::RecordAt::long))]
pub fn write_header(header: &Header) -> [u8; 16]
    ensures { result ≡ header_bytes header.now }
{
    let [v0, v1, v2, v3] = header.version.to_be_bytes();
    let [u0, u1, u2, u3] = header.user_version.to_be_bytes();
    let [i0, i1, i2, i3, i4, i5, i6, i7] = header.id.to_be_bytes();
    [
        v0, v1, v2, v3, u0, u1, u2, u3, i0, i1, i2, i3, i4, i5, i6, i7,
    ]
}
