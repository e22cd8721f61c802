// What the run's clauses come to where nothing but memory can fail.
ghost use Rattle.std.specs.Prelude.{◌≡◌, ◌⊎◌, ◌≤◌, ◌<◌, length};
ghost use Rattle.prepare_program.specs.Words.{IsPrepare};
ghost use Rattle.prepare_program.specs.Report.{HasReason};
ghost use Rattle.prepare_program.specs.Run.{limit};

use crate::run;
use byte_streams::{SureSink, SureSource};
use std::alloc::Global;

/// The law of a run over a source and a sink that never fail. What is written, it forgets.
pub fn run_surely(alloc: Global, words: &[String], request: Vec<u8>) -> u8
    ensures no_fault { (¬ (result ≡ 3)) × (¬ (result ≡ 4)) }
    ensures completes { IsPrepare words.now → length request.items ≤ limit
        → ¬ (HasReason request.items) → (result ≡ 0) ⊎ (result ≡ 5) }
    ensures refuses { IsPrepare words.now → length request.items ≤ limit → HasReason request.items
        → (result ≡ 1) ⊎ (result ≡ 5) }
    ensures overruns { IsPrepare words.now → limit < length request.items
        → (result ≡ 6) ⊎ (result ≡ 5) }
{
    let mut source = SureSource::new(request);
    let mut sink = SureSink::new();
    run(alloc, words, &mut source, &mut sink)
}
