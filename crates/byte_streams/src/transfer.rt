// The loops over a source and a sink.
ghost use Rattle.std.specs.Prelude.{◌≡◌, ◌<◌, ◌≤◌, ◌^◌, ◌+◌, ℕ, length, take, vec_len, IfOk, OnOk, OnErr, IsErrOf};
ghost use Rattle.std.specs.Io.KnownBytes.{Appends};
ghost use Rattle.byte_streams.specs.Taken.{IsWhole, IsCut, TakesAtMost};
ghost use Rattle.byte_streams.specs.Causes.{Rose, HasCause};

use crate::{Failed, Sink, Source};
use std::alloc::{AllocError, Global};
use thiserror::Error;

// The most bytes that one read asks for.
const PIECE: usize = 65536;

/// Why input was not read whole.
#[derive(Clone, Copy, Debug, PartialEq, Eq, Drop, Error)]
pub enum ReadFault {
    #[error("out of memory")]
    NoMemory,
    #[error("a read failed")]
    Failed,
    #[error("there are more bytes than the limit")]
    TooLong,
}

impl From<AllocError> for ReadFault {
    ghost use Rattle.byte_streams.specs.declared.transfer.ReadFault.TheVariants.{NoMemory};

    ghost from_gives = { λ _ e. e ≡ NoMemory };

    fn from(_: AllocError) -> ReadFault {
        ReadFault::NoMemory
    }
}

/// Reads to the end of input, and takes at most one byte more than the limit.
pub fn read_input<S: Source>(
    alloc: Global,
    source: &mut S,
    limit: usize,
) -> Result<Vec<u8>, ReadFault>
    requires { limit < 2 ^ 63 }
    ensures read { IfOk result (λ bytes. IsWhole (S.left source.old) (S.left source.new) limit bytes.items) }
    ensures too_long { IsErrOf result ReadFault.TooLong
        → IsCut (S.left source.old) (S.left source.new) limit }
    ensures taken { TakesAtMost (S.left source.old) (S.left source.new) (limit + 1) }
    ensures later { S.faults source.old ≤ S.faults source.new }
    ensures kept { ¬ (IsErrOf result ReadFault.Failed) → S.faults source.new ≡ S.faults source.old }
    ensures failed { IsErrOf result ReadFault.Failed
        → Rose (S.faults source.old) (S.faults source.new) }
{
    let mut piece = blank(alloc, PIECE)?;
    read_pieces(alloc, source, limit, &mut piece)
}

fn blank(alloc: Global, size: usize) -> Result<Vec<u8>, AllocError>
    ensures { IfOk result (λ piece. vec_len piece ≡ size) }
{
    vec![in alloc; 0u8; size]
}

fn read_pieces<S: Source>(
    alloc: Global,
    source: &mut S,
    limit: usize,
    piece: &mut [u8],
) -> Result<Vec<u8>, ReadFault>
    requires limit { limit < 2 ^ 63 }
    requires piece { 0 < length piece.old }
    ensures read { IfOk result (λ bytes. IsWhole (S.left source.old) (S.left source.new) limit bytes.items) }
    ensures too_long { IsErrOf result ReadFault.TooLong
        → IsCut (S.left source.old) (S.left source.new) limit }
    ensures taken { TakesAtMost (S.left source.old) (S.left source.new) (limit + 1) }
    ensures later { S.faults source.old ≤ S.faults source.new }
    ensures kept { ¬ (IsErrOf result ReadFault.Failed) → S.faults source.new ≡ S.faults source.old }
    ensures failed { IsErrOf result ReadFault.Failed
        → Rose (S.faults source.old) (S.faults source.new) }
{
    let mut bytes = Vec::new(alloc);
    while bytes.len() <= limit {
        let want = piece.len().min(limit - bytes.len() + 1);
        let count = match source.read(&mut piece[..want]) {
            Ok(count) => count,
            Err(Failed) => return Err(ReadFault::Failed),
        };
        if count == 0 {
            return Ok(bytes);
        }
        bytes.extend_from_slice(&piece[..count])?;
    }
    Err(ReadFault::TooLong)
}

/// Writes the whole line, or stops with a proper front of it written.
pub fn write_line<K: Sink>(sink: &mut K, line: &[u8]) -> Result<(), Failed>
    ensures whole { OnOk result (Appends (K.written sink.old) (K.written sink.new) line.now) }
    ensures front { OnErr result ((count : ℕ) × (count < length line.now)
        × Appends (K.written sink.old) (K.written sink.new) (take count line.now)) }
    ensures cause { HasCause (K.faults sink.old) (K.faults sink.new) result }
{
    let mut at = 0;
    while at < line.len() {
        at += sink.write(&line[at..])?;
    }
    Ok(())
}
