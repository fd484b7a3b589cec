ghost use Rattle.std.specs.Prelude.{◌≡◌, ◌≤◌, ℕ, List, Option, IfOk, OnOk, OnErr, length, is_some};
ghost use Rattle.amq_io.specs.Cause.{Rose};
ghost use Rattle.amq_io.specs.Streams.{Gives, EndsOnlyAtTheEnd};

/// A call of a source failed.
#[derive(Clone, Copy, Debug, PartialEq, Eq, thiserror::Error)]
#[error("the call failed")]
pub struct Failed;

/// Bytes that are read from the front.
pub trait Source {
    /// The bytes that are left, of a source that tells them.
    ghost left: { Self → Option (List ℕ) };

    /// How often a call failed.
    ghost faults: { Self → ℕ };

    /// Reads the next bytes into the front of the piece, and says how many there were. None for a piece
    /// that isn't empty is the end.
    fn read(&mut self, into: &mut [u8]) -> Result<usize, Failed>
        ensures bound { IfOk result (λ n. n ≤ length into.old) }
        ensures next { IfOk result (λ n. Gives n into.new (left self.old) (left self.new)) }
        ensures end { IfOk result (λ n. EndsOnlyAtTheEnd n into.old (left self.old)) }
        ensures told { is_some (left self.new) ≡ is_some (left self.old) }
        ensures later { faults self.old ≤ faults self.new }
        ensures sound { OnOk result (faults self.new ≡ faults self.old) }
        ensures failed { OnErr result (Rose (faults self.old) (faults self.new)) };
}
