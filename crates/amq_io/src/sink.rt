ghost use Rattle.std.specs.Prelude.{◌≡◌, ◌<◌, ◌≤◌, ℕ, List, Option, IfOk, OnOk, OnErr, Err, length};
ghost use Rattle.amq_io.specs.Cause.{Rose};
ghost use Rattle.amq_io.specs.Streams.{Takes};

/// Why a sink took nothing.
#[derive(Clone, Copy, Debug, PartialEq, Eq, thiserror::Error)]
pub enum SinkError {
    /// The call failed, and the sink's count of faults rose.
    #[error("the call failed")]
    Failed,
    /// There was no memory.
    #[error("no memory")]
    NoMemory,
}

/// Bytes that are written one behind the other.
pub trait Sink {
    /// The bytes that were taken, of a sink that tells them.
    ghost taken: { Self → Option (List ℕ) };

    /// How often a call failed.
    ghost faults: { Self → ℕ };

    /// Takes some of the piece from its front, and says how many bytes: at least one of a piece that
    /// isn't empty.
    fn write(&mut self, bytes: &[u8]) -> Result<usize, SinkError>
        ensures bound { IfOk result (λ n. n ≤ length bytes.now) }
        ensures some { IfOk result (λ n. 0 < length bytes.now → 1 ≤ n) }
        ensures next { IfOk result (λ n. Takes n bytes.now (taken self.old) (taken self.new)) }
        ensures nothing { OnErr result (taken self.new ≡ taken self.old) }
        ensures later { faults self.old ≤ faults self.new }
        ensures sound { OnOk result (faults self.new ≡ faults self.old) }
        ensures memory { result ≡ Err SinkError.NoMemory → faults self.new ≡ faults self.old }
        ensures failed { result ≡ Err SinkError.Failed → Rose (faults self.old) (faults self.new) };
}
