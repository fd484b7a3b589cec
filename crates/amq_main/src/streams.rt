//! The standard input as a source, and the standard output as a sink. They tell no bytes.
ghost use Rattle.std.specs.Prelude.{◌≡◌, None};

use amq_io::{Failed, Sink, SinkError, Source};
use std::io::{Input, Read};

/// The standard input.
#[derive(Drop)]
pub struct StreamSource<R: Input> {
    reader: R::Reader,
    faults: u64,
}

impl<R: Input> StreamSource<R> {
    pub fn input(runtime: &R) -> StreamSource<R> {
        StreamSource {
            reader: runtime.reader(),
            faults: 0,
        }
    }
}

impl<R: Input> Source for StreamSource<R> {
    ghost left = { λ s. None };

    ghost faults = { λ s. s.faults };

    fn read(&mut self, into: &mut [u8]) -> Result<usize, Failed> {
        match self.reader.read(into) {
            Ok(count) => Ok(count),
            Err(_) => {
                self.faults = self.faults.saturating_add(1);
                Err(Failed)
            }
        }
    }
}

/// The standard output. What it takes is handed to the system at once.
#[derive(Drop)]
pub struct StreamSink<'a, R: Print> {
    runtime: &'a R,
    faults: u64,
}

impl<'a, R: Print> StreamSink<'a, R> {
    pub fn output(runtime: &'a R) -> StreamSink<'a, R> {
        StreamSink { runtime, faults: 0 }
    }
}

impl<R: Print> Sink for StreamSink<'_, R> {
    ghost taken = { λ s. None };

    ghost faults = { λ s. s.faults };

    fn write(&mut self, bytes: &[u8]) -> Result<usize, SinkError> {
        match self.runtime.write_some(bytes) {
            Ok(count) if count > 0 || bytes.is_empty() => Ok(count),
            _ => {
                self.faults = self.faults.saturating_add(1);
                Err(SinkError::Failed)
            }
        }
    }
}
