//! The pseudorandom numbers that a script is made from.
ghost use Rattle.std.specs.Prelude.{◌≡◌, ◌+◌, ◌*◌, ◌/◌, ◌%◌, ◌^◌, ◌<◌, IfOk};
ghost use Rattle.amq_model.specs.Generator.{body_made};

use amq_model::{Bytes, NoMemory};
use std::alloc::Global;

/// The number behind this one in the sequence: a linear congruential generator modulo 2^64.
pub fn next(x: u64) -> u64
    ensures { result ≡ (x * 6364136223846793005 + 1442695040888963407) % 2 ^ 64 }
{
    x.wrapping_mul(6364136223846793005)
        .wrapping_add(1442695040888963407)
}

/// The upper 31 bits, which a record's body is made from.
pub fn upper_bits(x: u64) -> u64
    ensures { result ≡ x / 2 ^ 33 }
{
    x >> 33
}

/// The body of these bits: up to 199 bytes, each one above the one before it, modulo 256.
pub fn body(alloc: Global, bits: u64) -> Result<Bytes, NoMemory>
    requires { bits < 2 ^ 31 }
    ensures { IfOk result (λ body. body ≡ body_made bits) }
{
    let mut bytes = Vec::new(alloc);
    for place in 0..bits % 200 {
        let byte = ((bits + place) % 256) as u8;
        if let Err(_) = bytes.push(byte) {
            return Err(NoMemory);
        }
    }
    Ok(Bytes::of(bytes))
}
