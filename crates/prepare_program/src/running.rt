// The program's run: read, answer, write.
ghost use Rattle.std.specs.Prelude.{◌≡◌, ◌⊎◌, ◌↔◌, ◌≤◌, ◌<◌, ◌+◌, length, IfSome};
ghost use Rattle.std.specs.Io.KnownBytes.{IsAtEnd};
ghost use Rattle.byte_streams.specs.Causes.{Rose};
ghost use Rattle.byte_streams.specs.Taken.{TakesAtMost};
ghost use Rattle.prepare_program.specs.Words.{IsPrepare};
ghost use Rattle.prepare_program.specs.Report.{Reports, Refuses, HasReason, IsForReadable};
ghost use Rattle.prepare_program.specs.Run.{limit, Answers, Writes, Begins, Overruns};

use crate::answering::{Line, answer};
use crate::words::is_prepare;
use byte_streams::{Failed, ReadFault, Sink, Source, read_input, write_line};
use std::alloc::Global;

// The most bytes of a request.
const MOST_BYTES: usize = 8388608;

// The statuses that a run ends with.
const DONE: u8 = 0;

const REFUSED: u8 = 1;

const BAD_WORDS: u8 = 2;

const READ_FAILED: u8 = 3;

const WRITE_FAILED: u8 = 4;

const NO_MEMORY: u8 = 5;

const TOO_LONG: u8 = 6;

/// Reads a request to the end of input, and writes the line that answers it. The answer is the program's status.
pub fn run<S: Source, K: Sink>(alloc: Global, words: &[String], source: &mut S, sink: &mut K) -> u8
    ensures status { result ≤ 6 }

    // Each status, by its number.
    ensures done { result ≡ 0 → IsPrepare words.now × IfSome (S.left source.old) (λ given.
        Writes (Reports given) (K.written sink.old) (K.written sink.new)) }
    ensures refused { result ≡ 1 → IsPrepare words.now × IfSome (S.left source.old) (λ given.
        Writes (Refuses given) (K.written sink.old) (K.written sink.new)) }
    ensures words { (result ≡ 2) ↔ (¬ (IsPrepare words.now)) }
    ensures read_failed { result ≡ 3 → Rose (S.faults source.old) (S.faults source.new) }
    ensures write_failed { result ≡ 4 → Rose (K.faults sink.old) (K.faults sink.new) }
    ensures front { result ≡ 4 → IsPrepare words.now × IfSome (S.left source.old) (λ given.
        Begins (Answers given) (K.written sink.old) (K.written sink.new)) }
    ensures too_long { result ≡ 6 → IfSome (S.left source.old) (Overruns (S.left source.new)) }

    // What it leaves alone, and what it reads.
    ensures unread { ¬ (IsPrepare words.now) → source.new ≡ source.old }
    ensures unwritten { (result ≡ 2) ⊎ (result ≡ 3) ⊎ (result ≡ 5) ⊎ (result ≡ 6) → sink.new ≡ sink.old }
    ensures ended { (result ≡ 0) ⊎ (result ≡ 1) ⊎ (result ≡ 4) → IsAtEnd (S.left source.new) }
    ensures taken { TakesAtMost (S.left source.old) (S.left source.new) (limit + 1) }
    ensures source_faults { S.faults source.old ≤ S.faults source.new }
    ensures sink_faults { K.faults sink.old ≤ K.faults sink.new }
    ensures no_read_failed { ¬ (result ≡ 3) → S.faults source.new ≡ S.faults source.old }
    ensures no_write_failed { ¬ (result ≡ 4) → K.faults sink.new ≡ K.faults sink.old }

    // Whether a request is answered by a report or by a refusal is a matter of the request alone.
    ensures reports_exactly { (result ≡ 0) ⊎ (result ≡ 1) → IfSome (S.left source.old) (λ given.
        (result ≡ 0) ↔ IsForReadable given) }
    ensures refuses_exactly { (result ≡ 0) ⊎ (result ≡ 1) → IfSome (S.left source.old) (λ given.
        (result ≡ 1) ↔ HasReason given) }

    // It doesn't give up by itself, but for want of memory.
    ensures completes { IsPrepare words.now → ¬ (Rose (S.faults source.old) (S.faults source.new))
        → ¬ (Rose (K.faults sink.old) (K.faults sink.new)) → IfSome (S.left source.old) (λ given.
        length given ≤ limit → ¬ (HasReason given) → (result ≡ 0) ⊎ (result ≡ 5)) }
    ensures refuses { IsPrepare words.now → ¬ (Rose (S.faults source.old) (S.faults source.new))
        → ¬ (Rose (K.faults sink.old) (K.faults sink.new)) → IfSome (S.left source.old) (λ given.
        length given ≤ limit → HasReason given → (result ≡ 1) ⊎ (result ≡ 5)) }
    ensures overruns { IsPrepare words.now → ¬ (Rose (S.faults source.old) (S.faults source.new))
        → IfSome (S.left source.old) (λ given. limit < length given → (result ≡ 6) ⊎ (result ≡ 5)) }
{
    if is_prepare(words) {
        prepare(alloc, source, sink)
    } else {
        BAD_WORDS
    }
}

// The run behind the word `prepare`.
fn prepare<S: Source, K: Sink>(alloc: Global, source: &mut S, sink: &mut K) -> u8
    ensures status { (result ≤ 6) × (¬ (result ≡ 2)) }
    ensures done { result ≡ 0 → IfSome (S.left source.old) (λ given.
        Writes (Reports given) (K.written sink.old) (K.written sink.new)) }
    ensures refused { result ≡ 1 → IfSome (S.left source.old) (λ given.
        Writes (Refuses given) (K.written sink.old) (K.written sink.new)) }
    ensures read_failed { result ≡ 3 → Rose (S.faults source.old) (S.faults source.new) }
    ensures write_failed { result ≡ 4 → Rose (K.faults sink.old) (K.faults sink.new) }
    ensures front { result ≡ 4 → IfSome (S.left source.old) (λ given.
        Begins (Answers given) (K.written sink.old) (K.written sink.new)) }
    ensures too_long { result ≡ 6 → IfSome (S.left source.old) (Overruns (S.left source.new)) }
    ensures unwritten { (result ≡ 3) ⊎ (result ≡ 5) ⊎ (result ≡ 6) → sink.new ≡ sink.old }
    ensures ended { (result ≡ 0) ⊎ (result ≡ 1) ⊎ (result ≡ 4) → IsAtEnd (S.left source.new) }
    ensures taken { TakesAtMost (S.left source.old) (S.left source.new) (limit + 1) }
    ensures source_faults { S.faults source.old ≤ S.faults source.new }
    ensures sink_faults { K.faults sink.old ≤ K.faults sink.new }
    ensures no_read_failed { ¬ (result ≡ 3) → S.faults source.new ≡ S.faults source.old }
    ensures no_write_failed { ¬ (result ≡ 4) → K.faults sink.new ≡ K.faults sink.old }
    ensures reports_exactly { (result ≡ 0) ⊎ (result ≡ 1) → IfSome (S.left source.old) (λ given.
        (result ≡ 0) ↔ IsForReadable given) }
    ensures refuses_exactly { (result ≡ 0) ⊎ (result ≡ 1) → IfSome (S.left source.old) (λ given.
        (result ≡ 1) ↔ HasReason given) }
    ensures overruns { ¬ (Rose (S.faults source.old) (S.faults source.new))
        → IfSome (S.left source.old) (λ given. limit < length given → (result ≡ 6) ⊎ (result ≡ 5)) }
{
    match read_input(alloc, source, MOST_BYTES) {
        Ok(bytes) => write_answer(alloc, &bytes, sink),
        Err(ReadFault::Failed) => READ_FAILED,
        Err(ReadFault::NoMemory) => NO_MEMORY,
        Err(ReadFault::TooLong) => TOO_LONG,
    }
}

// Answers the request in these bytes, which are all that was given.
#[tactic(auto, using(crate::proofs::Reasons::report_is_readable, crate::proofs::Reasons::readable_has_no_reason))]
fn write_answer<K: Sink>(alloc: Global, bytes: &[u8], sink: &mut K) -> u8
    ensures status { (result ≡ 0) ⊎ (result ≡ 1) ⊎ (result ≡ 4) ⊎ (result ≡ 5) }
    ensures done { result ≡ 0 → Writes (Reports bytes.now) (K.written sink.old) (K.written sink.new) }
    ensures refused { result ≡ 1 → Writes (Refuses bytes.now) (K.written sink.old) (K.written sink.new) }
    ensures front { result ≡ 4 → Begins (Answers bytes.now) (K.written sink.old) (K.written sink.new) }
    ensures reports_exactly { (result ≡ 0) ⊎ (result ≡ 1) → ((result ≡ 0) ↔ IsForReadable bytes.now) }
    ensures refuses_exactly { (result ≡ 0) ⊎ (result ≡ 1) → ((result ≡ 1) ↔ HasReason bytes.now) }
    ensures failed { result ≡ 4 → Rose (K.faults sink.old) (K.faults sink.new) }
    ensures unwritten { result ≡ 5 → sink.new ≡ sink.old }
    ensures faults { K.faults sink.old ≤ K.faults sink.new }
    ensures no_write_failed { ¬ (result ≡ 4) → K.faults sink.new ≡ K.faults sink.old }
{
    let Ok(line) = answer(alloc, bytes) else {
        return NO_MEMORY;
    };
    match line {
        Line::Report(text) => match write_line(sink, text.as_bytes()) {
            Ok(()) => DONE,
            Err(Failed) => WRITE_FAILED,
        },
        Line::Refusal(text) => match write_line(sink, text.as_bytes()) {
            Ok(()) => REFUSED,
            Err(Failed) => WRITE_FAILED,
        },
    }
}
