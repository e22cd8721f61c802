// A source and a sink over std's streams. They tell no bytes: what a real stream holds, no clause knows.
ghost use Rattle.std.specs.Prelude.{None};

use crate::{Failed, Sink, Source};
use std::io::{Read, Write};

/// A source over a reader. A read that fails counts as a fault.
#[derive(Drop)]
pub struct StreamSource<R: Read> {
    inner: R,
    faults: u64,
}

impl<R: Read> StreamSource<R> {
    pub fn new(inner: R) -> StreamSource<R> {
        StreamSource { inner, faults: 0 }
    }
}

impl<R: Read> Source for StreamSource<R> {
    ghost left = { λ _. None };

    ghost faults = { λ s. s.faults };

    fn read(&mut self, into: &mut [u8]) -> Result<usize, Failed> {
        match self.inner.read(into) {
            Ok(count) => Ok(count),
            Err(_) => {
                self.faults = self.faults.saturating_add(1);
                Err(Failed)
            }
        }
    }
}

/// A sink over a writer, which it flushes at each write. A write that fails or takes nothing counts as a fault, and
/// so does a flush that fails.
#[derive(Drop)]
pub struct StreamSink<W: Write> {
    inner: W,
    faults: u64,
}

impl<W: Write> StreamSink<W> {
    pub fn new(inner: W) -> StreamSink<W> {
        StreamSink { inner, faults: 0 }
    }
}

impl<W: Write> Sink for StreamSink<W> {
    ghost written = { λ _. None };

    ghost faults = { λ s. s.faults };

    fn write(&mut self, piece: &[u8]) -> Result<usize, Failed> {
        match self.inner.write(piece) {
            Ok(count) if count > 0 || piece.is_empty() => match self.inner.flush() {
                Ok(()) => Ok(count),
                Err(_) => {
                    self.faults = self.faults.saturating_add(1);
                    Err(Failed)
                }
            },
            _ => {
                self.faults = self.faults.saturating_add(1);
                Err(Failed)
            }
        }
    }
}
