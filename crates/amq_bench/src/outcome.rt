//! What a measure went over, and how long it took.
ghost use Rattle.std.specs.Prelude.{◌≤◌};

use std::rt::Clock;
use std::time::{Duration, Instant};
use std::{fmt, io};

/// What a measure went over.
#[derive(Clone, Copy, Debug, PartialEq, Eq)]
pub struct Outcome {
    pub bytes: usize,
    pub records: usize,
    /// How many records are live, where the measure is a load.
    pub live: Option<usize>,
    /// The shortest repeat, in microseconds.
    pub micros: u64,
}

impl fmt::Display for Outcome {
    fn fmt<W: fmt::Write>(&self, f: &mut fmt::Formatter<W>) -> fmt::Result {
        let bytes = self.bytes;
        let records = self.records;
        write!(f, "bytes {bytes} records {records}")?;
        match self.live {
            Some(live) => write!(f, " live {live}"),
            None => Ok(()),
        }
    }
}

/// The shortest of some times, in microseconds; the greatest u64 for none.
#[derive(Clone, Copy, Debug, PartialEq, Eq)]
pub struct Shortest {
    pub micros: u64,
}

impl Shortest {
    pub fn new() -> Shortest {
        Shortest { micros: u64::MAX }
    }

    /// Takes in the time since `start`.
    pub fn note_since(&mut self, clock: &impl Clock, start: Instant) -> io::Result<()>
        ensures { self.new.micros ≤ self.old.micros }
    {
        let micros = micros_of(start.elapsed(clock)?);
        self.micros = self.micros.min(micros);
        Ok(())
    }
}

fn micros_of(time: Duration) -> u64 {
    time.as_secs()
        .saturating_mul(1_000_000)
        .saturating_add(u64::from(time.subsec_micros()))
}
