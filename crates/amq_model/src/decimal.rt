//! Numbers in decimal digits.
ghost use Rattle.std.specs.Prelude.{◌≡◌, ◌≤◌, IsTrue, length};
ghost use Rattle.std.specs.List.{list_all};
ghost use Rattle.amq_model.specs.Names.{is_digit, value_of, number_spelled};

/// The number that 1 to 19 digits spell, if it is at most 2^63 - 1. There may be leading zeros.
pub fn number_spelled(digits: &[u8]) -> Option<u64>
    ensures { result ≡ number_spelled digits.now }
{
    if digits.is_empty() || digits.len() > 19 || !all_digits(digits) {
        return None;
    }
    let value = value_of(digits);
    if value > i64::MAX as u64 {
        None
    } else {
        Some(value)
    }
}

/// Whether each byte is a decimal digit.
fn all_digits(bytes: &[u8]) -> bool
    ensures { result ≡ list_all is_digit bytes.now }
{
    bytes.iter().all(|byte| byte.is_ascii_digit())
}

/// The number that at most 19 digits spell.
fn value_of(digits: &[u8]) -> u64
    requires digits { IsTrue (list_all is_digit digits.now) }
    requires few { length digits.now ≤ 19 }
    ensures { result ≡ value_of digits.now }
{
    let mut value = 0;
    for digit in digits {
        value = value * 10 + u64::from(*digit - b'0');
    }
    value
}
