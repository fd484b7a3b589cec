//! Reading a source to its end.
ghost use Rattle.std.specs.Prelude.{◌≡◌, ◌+◌, ◌<◌, ◌≤◌, [], length, IfOk, IfErr, IfSome, OnOk, is_some};
ghost use Rattle.amq_io.specs.Cause.{Rose};
ghost use Rattle.amq_cli.specs.Input.{HasInputCause, HasInputCount, IsReadWhole};

use amq_io::Source;
use std::alloc::Global;

/// The longest input, in bytes.
pub const INPUT_LIMIT: u64 = 67_108_864;

/// How many bytes one read asks for.
const PIECE: usize = 65_536;

/// Why an input wasn't read.
#[derive(Clone, Copy, Debug, PartialEq, Eq)]
pub enum InputFault {
    Failed,
    NoMemory,
    TooLong,
}

/// Reads a source to its end.
pub fn read_whole<S: Source>(alloc: Global, source: &mut S) -> Result<Vec<u8>, InputFault>
    ensures whole { IfOk result (λ bytes. IsReadWhole bytes.items (S.left source.old)
        (S.left source.new)) }
    ensures short { IfOk result (λ bytes. length bytes.items ≤ INPUT_LIMIT) }
    ensures cause { IfErr result (λ fault. HasInputCause INPUT_LIMIT fault (S.left source.old)
        (S.faults source.old) (S.faults source.new)) }
    ensures count { IfErr result (λ fault. HasInputCount fault (S.faults source.old)
        (S.faults source.new)) }
    ensures sound { OnOk result (S.faults source.new ≡ S.faults source.old) }
{
    let mut bytes = Vec::new(alloc);
    let mut piece = [0; PIECE];
    'pieces: for _taken in 0..INPUT_LIMIT + 1 {
        let Ok(count) = source.read(&mut piece) else {
            return Err(InputFault::Failed);
        };
        if count == 0 {
            return Ok(bytes);
        }
        if bytes.extend_from_slice(&piece[..count]).is_err() {
            return Err(InputFault::NoMemory);
        }
        if bytes.len() as u64 > INPUT_LIMIT {
            return Err(InputFault::TooLong);
        }
    }
    unreachable!()
}
