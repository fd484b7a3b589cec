//! The parts of a record's bytes: each reader gives a value and the bytes behind it, or `None` where
//! the bytes are too few or a length has its highest bit set.
ghost use Rattle.std.specs.Prelude.{◌≡◌, ℕ, ◌<◌, ◌^◌, length};
ghost use Rattle.std.specs.Int.{w32, w64};
ghost use Rattle.amq_record.specs.Reading.{Gives, byte_at, number_at, bytes_at, len_at, sized_at, typed_at};

pub fn byte(bytes: &[u8]) -> Option<(u8, &[u8])>
    ensures { Gives (λ x. (x.0, x.1.now)) result (byte_at bytes.now) }
{
    match bytes {
        [] => None,
        [first, rest @ ..] => Some((*first, rest)),
    }
}

pub fn word(bytes: &[u8]) -> Option<(u32, &[u8])>
    ensures { Gives (λ x. (x.0, x.1.now)) result (number_at w32 bytes.now) }
{
    let (number, rest) = bytes.split_first_chunk::<4>()?;
    Some((u32::from_be_bytes(*number), rest))
}

pub fn long(bytes: &[u8]) -> Option<(u64, &[u8])>
    ensures { Gives (λ x. (x.0, x.1.now)) result (number_at w64 bytes.now) }
{
    let (number, rest) = bytes.split_first_chunk::<8>()?;
    Some((u64::from_be_bytes(*number), rest))
}

/// A length, and that many bytes.
#[tactic(auto, unfolding(crate::specs::Reading::sized_at))]
pub fn sized(bytes: &[u8]) -> Option<(&[u8], &[u8])>
    ensures { Gives (λ x. (x.0.now, x.1.now)) result (sized_at bytes.now) }
{
    let (len, rest) = body_len(bytes)?;
    part(rest, len)
}

/// A length, a user type, and that many bytes.
#[tactic(auto, unfolding(crate::specs::Reading::typed_at))]
pub fn typed(bytes: &[u8]) -> Option<(u8, &[u8], &[u8])>
    ensures { Gives (λ x. ((x.0, x.1.now), x.2.now)) result (typed_at bytes.now) }
{
    let (len, rest) = body_len(bytes)?;
    let (user_type, rest) = byte(rest)?;
    let (body, rest) = part(rest, len)?;
    Some((user_type, body, rest))
}

#[tactic(auto, unfolding(crate::specs::Reading::len_at))]
fn body_len(bytes: &[u8]) -> Option<(u32, &[u8])>
    ensures { Gives (λ x. (x.0, x.1.now)) result (len_at bytes.now) }
{
    let (len, rest) = word(bytes)?;
    if len < 0x8000_0000 {
        Some((len, rest))
    } else {
        None
    }
}

fn part(bytes: &[u8], len: u32) -> Option<(&[u8], &[u8])>
    ensures { Gives (λ x. (x.0.now, x.1.now)) result (bytes_at len bytes.now) }
{
    bytes.split_at_checked(len as usize)
}
