// A source and a sink that never fail.
ghost use Rattle.std.specs.Prelude.{◌≡◌, ◌≤◌, None, Some, vec_len, OnErr};
ghost use Rattle.byte_streams.specs.Causes.{HasCause};

use crate::memory::give;
use crate::{Failed, Sink, Source};

/// The law of a count that is always 0: no call fails.
pub fn never_counted_never_failed<T>(answer: &Result<T, Failed>)
    requires { HasCause 0 0 answer.now }
    ensures { OnErr answer.now ⊥ }
{}

/// A source of bytes in memory that never fails.
#[derive(Drop)]
pub struct SureSource {
    bytes: Vec<u8>,
    at: usize,
    ghost in_bounds: { at ≤ vec_len bytes },
}

impl SureSource {
    ghost use Rattle.byte_streams.specs.Sure.{sure_bytes};

    pub fn new(bytes: Vec<u8>) -> SureSource
        ensures { sure_bytes result ≡ bytes.items }
    {
        SureSource { bytes, at: 0 }
    }
}

impl Source for SureSource {
    ghost use Rattle.byte_streams.specs.Sure.{sure_bytes};

    ghost left = { λ s. Some (sure_bytes s) };

    ghost faults = { λ _. 0 };

    fn read(&mut self, into: &mut [u8]) -> Result<usize, Failed> {
        let count = give(&self.bytes[self.at..], into, usize::MAX);
        self.at += count;
        Ok(count)
    }
}

/// A sink that takes every piece whole, and keeps no bytes.
#[derive(Drop)]
pub struct SureSink;

impl SureSink {
    pub fn new() -> SureSink {
        SureSink
    }
}

impl Sink for SureSink {
    ghost written = { λ _. None };

    ghost faults = { λ _. 0 };

    fn write(&mut self, piece: &[u8]) -> Result<usize, Failed> {
        Ok(piece.len())
    }
}
