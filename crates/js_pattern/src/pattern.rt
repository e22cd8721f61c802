//! Patterns and the forms that occur in them.

ghost use Rattle.std.specs.Prelude.{◌≡◌, ◌≤◌, length, IfOk, IfErr};
ghost use Rattle.std.specs.Result.{result_ok};
ghost use Rattle.std.specs.Str.{chars};
ghost use Rattle.js_pattern.specs.Patterns as spec;
ghost use Rattle.js_pattern.specs.Scan.{scan};
ghost use Rattle.js_pattern.specs.declared.pattern.Forms.{Forms};

use crate::scanner::Scanner;
use bitflags::Flags;
use js_chars::RegExpFlags;
use thiserror::Error;

/// Which of the newer forms occur in a pattern.
#[derive(Clone, Copy, PartialEq, Eq, Debug)]
pub struct Forms {
    /// `(?<=` or `(?<!`
    pub look_behind: bool,
    /// `(?<name>`
    pub named_groups: bool,
    /// `\p{..}` or `\P{..}`, with the flag `u` or `v`
    pub property_escapes: bool,
}

/// The text is no pattern.
#[derive(Debug, Drop, Error)]
#[error("no pattern: at byte {at}")]
pub struct PatternFault {
    /// Where reading stopped, a hint.
    pub at: usize,
}

/// What the flags `u` and `v` change in the grammar.
#[derive(Clone, Copy)]
pub(crate) struct Mode {
    /// `\p` and `\P` begin property escapes.
    pub(crate) unicode: bool,
    /// Classes nest.
    pub(crate) nests: bool,
}

fn mode_of(flags: RegExpFlags) -> Mode
    ensures { result ≡ spec.mode_of flags }
{
    let nests = flags.contains(RegExpFlags::V);
    Mode {
        unicode: nests || flags.contains(RegExpFlags::U),
        nests,
    }
}

fn scan(text: &str, mode: Mode) -> Result<Forms, PatternFault>
    ensures scan { result_ok result ≡ scan mode (chars text.now) }
    ensures within { IfErr result (λ fault. fault.at ≤ length text.now) }
{
    let mut scanner = Scanner::start();
    let mut rest = text.char_indices();
    while let Some((at, c)) = rest.next() {
        let Some(next) = scanner.step(mode, c) else {
            return Err(PatternFault { at });
        };
        scanner = next;
    }
    scanner.finish().ok_or(PatternFault { at: text.len() })
}

/// Reads a pattern, in time linear in the text. Quantifiers and ranges of classes are not checked.
pub fn read_pattern(text: &str, flags: RegExpFlags) -> Result<Forms, PatternFault>
    ensures read { IfOk result (λ forms. spec.IsPattern (spec.mode_of flags) (chars text.now) forms) }
    ensures pattern { (forms : Forms) → spec.IsPattern (spec.mode_of flags) (chars text.now) forms → result ≡ Ok forms }
    ensures within { IfErr result (λ fault. fault.at ≤ length text.now) }
{
    scan(text, mode_of(flags))
}
