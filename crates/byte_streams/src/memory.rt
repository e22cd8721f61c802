// A source and a sink in memory, which fail at the calls that they are told.
ghost use Rattle.std.specs.Prelude.{◌≡◌, ◌<◌, ◌≤◌, [], Some, IfOk, length, take, min, vec_len, vec_capacity};

use crate::{Failed, Sink, Source};
use std::alloc::{AllocError, Global};

/// A source of bytes in memory, for trials of failures.
#[derive(Drop)]
pub struct MemorySource {
    bytes: Vec<u8>,
    at: usize,
    most: usize,
    failing: Vec<u64>,
    calls: u64,
    faults: u64,
    ghost in_bounds: { at ≤ vec_len bytes },
    ghost progress: { 0 < most },
}

impl MemorySource {
    ghost use Rattle.byte_streams.specs.Memory.{source_bytes};

    /// A source of these bytes, at most `most` a call. `failing` has the numbers, from 0, of the calls that fail.
    pub fn new(bytes: Vec<u8>, most: usize, failing: Vec<u64>) -> MemorySource
        requires { 0 < most }
        ensures { source_bytes result ≡ bytes.items }
    {
        MemorySource {
            bytes,
            at: 0,
            most,
            failing,
            calls: 0,
            faults: 0,
        }
    }
}

// Copies from the front of `rest` to the front of `into`, at most so many bytes.
pub(crate) fn give(rest: &[u8], into: &mut [u8], most: usize) -> usize
    ensures count { result ≡ min most (min (length into.old) (length rest.now)) }
    ensures bytes { take result into.new ≡ take result rest.now }
    ensures bound { result ≤ length into.new }
{
    let count = most.min(into.len()).min(rest.len());
    into[..count].copy_from_slice(&rest[..count]);
    count
}

impl Source for MemorySource {
    ghost use Rattle.byte_streams.specs.Memory.{source_bytes};

    ghost left = { λ s. Some (source_bytes s) };

    ghost faults = { λ s. s.faults };

    fn read(&mut self, into: &mut [u8]) -> Result<usize, Failed> {
        let call = self.calls;
        self.calls = call.saturating_add(1);
        if self.failing.contains(&call) {
            self.faults = self.faults.saturating_add(1);
            return Err(Failed);
        }
        let count = give(&self.bytes[self.at..], into, self.most);
        self.at += count;
        Ok(count)
    }
}

/// A sink in memory, for trials of failures.
#[derive(Drop)]
pub struct MemorySink {
    bytes: Vec<u8>,
    room: usize,
    most: usize,
    failing: Vec<u64>,
    calls: u64,
    faults: u64,
    ghost in_room: { vec_len bytes ≤ room },
    ghost has_room: { room ≤ vec_capacity bytes },
    ghost progress: { 0 < most },
}

impl MemorySink {
    ghost use Rattle.byte_streams.specs.Memory.{sink_bytes};

    /// A sink with room for so many bytes, which takes at most `most` a call. `failing` has the numbers, from 0, of
    /// the calls that fail; so does each that finds no room.
    pub fn new(
        alloc: Global,
        room: usize,
        most: usize,
        failing: Vec<u64>,
    ) -> Result<MemorySink, AllocError>
        requires { 0 < most }
        ensures { IfOk result (λ sink. sink_bytes sink ≡ []) }
    {
        let bytes = Vec::with_capacity(alloc, room)?;
        Ok(MemorySink {
            bytes,
            room,
            most,
            failing,
            calls: 0,
            faults: 0,
        })
    }

    pub fn written(&self) -> &[u8]
        ensures { result.now ≡ sink_bytes self.now }
    {
        &self.bytes
    }
}

impl Sink for MemorySink {
    ghost use Rattle.byte_streams.specs.Memory.{sink_bytes};

    ghost written = { λ k. Some (sink_bytes k) };

    ghost faults = { λ k. k.faults };

    fn write(&mut self, piece: &[u8]) -> Result<usize, Failed> {
        let call = self.calls;
        self.calls = call.saturating_add(1);
        let count = self.most.min(piece.len()).min(self.room - self.bytes.len());
        let is_full = count == 0 && !piece.is_empty();
        if is_full || self.failing.contains(&call) {
            self.faults = self.faults.saturating_add(1);
            return Err(Failed);
        }
        match self.bytes.extend_from_slice(&piece[..count]) {
            Ok(()) => Ok(count),
            Err(_) => {
                self.faults = self.faults.saturating_add(1);
                Err(Failed)
            }
        }
    }
}
