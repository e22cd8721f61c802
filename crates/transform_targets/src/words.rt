//! Words that name targets.
ghost use Rattle.std.specs.Prelude.{◌≡◌, ◌∷◌, ◌<◌, ◌+◌, ◌*◌, ◌-◌, IfOk, IfErr, Ok};
ghost use Rattle.std.specs.List.{list_all, prefix_len, suffix_len};
ghost use Rattle.transform_targets.specs.Words as spec;

use crate::{ESTarget, Engine, TargetFault, Version};
use js_ident::Ident;
use std::alloc::Global;

/// A version of an engine.
#[derive(Debug, Clone, Copy)]
pub(crate) struct Target {
    pub engine: Engine,
    pub version: Version,
}

fn is_blank(byte: u8) -> bool
    ensures { result ≡ spec.is_blank byte }
{
    byte == b' ' || byte == b'\t'
}

fn blanks_before(text: &[u8]) -> usize
    ensures { result ≡ prefix_len spec.is_blank text.now }
{
    text.iter().take_while(|byte| is_blank(**byte)).count()
}

fn blanks_behind(text: &[u8]) -> usize
    ensures { result ≡ suffix_len spec.is_blank text.now }
{
    text.iter()
        .rev()
        .take_while(|byte| is_blank(**byte))
        .count()
}

fn trim_front(text: &str) -> &str
    ensures { result.now ≡ spec.trim_front text.now }
{
    &text[blanks_before(text.as_bytes())..]
}

fn trim_back(text: &str) -> &str
    ensures { result.now ≡ spec.trim_back text.now }
{
    &text[..text.len() - blanks_behind(text.as_bytes())]
}

// The word that stands between blanks.
pub(crate) fn trim(text: &str) -> &str
    ensures { result.now ≡ spec.trim text.now }
{
    trim_back(trim_front(text))
}

fn edition_named(word: &str) -> Option<ESTarget>
    ensures { result ≡ spec.edition_of word.now }
{
    match word {
        "es2015" => Some(ESTarget::ES2015),
        "es2016" => Some(ESTarget::ES2016),
        "es2017" => Some(ESTarget::ES2017),
        "es2018" => Some(ESTarget::ES2018),
        "es2019" => Some(ESTarget::ES2019),
        "es2020" => Some(ESTarget::ES2020),
        "es2021" => Some(ESTarget::ES2021),
        "es2022" => Some(ESTarget::ES2022),
        "es2023" => Some(ESTarget::ES2023),
        "es2024" => Some(ESTarget::ES2024),
        "es2025" => Some(ESTarget::ES2025),
        "es2026" => Some(ESTarget::ES2026),
        "esnext" => Some(ESTarget::ESNext),
        _ => None,
    }
}

/// The engine of this name.
pub fn engine_named(name: &str) -> Option<Engine>
    ensures { result ≡ spec.engine_of name.now }
{
    match name {
        "chrome" => Some(Engine::Chrome),
        "deno" => Some(Engine::Deno),
        "edge" => Some(Engine::Edge),
        "firefox" => Some(Engine::Firefox),
        "hermes" => Some(Engine::Hermes),
        "ie" => Some(Engine::Ie),
        "ios" => Some(Engine::Ios),
        "node" => Some(Engine::Node),
        "opera" => Some(Engine::Opera),
        "rhino" => Some(Engine::Rhino),
        "safari" => Some(Engine::Safari),
        _ => None,
    }
}

fn is_letter(byte: u8) -> bool
    ensures { result ≡ spec.is_letter byte }
{
    (b'a' <= byte && byte <= b'z') || (b'A' <= byte && byte <= b'Z')
}

fn letters_before(text: &[u8]) -> usize
    ensures { result ≡ prefix_len spec.is_letter text.now }
{
    text.iter().take_while(|byte| is_letter(**byte)).count()
}

fn letters(word: &str) -> &str
    ensures { result.now ≡ spec.letters word.now }
{
    &word[..letters_before(word.as_bytes())]
}

fn behind_letters(word: &str) -> &str
    ensures { result.now ≡ spec.behind_letters word.now }
{
    &word[letters_before(word.as_bytes())..]
}

fn is_digit(byte: u8) -> bool
    ensures { result ≡ spec.is_digit byte }
{
    b'0' <= byte && byte <= b'9'
}

fn are_digits(text: &[u8]) -> bool
    ensures { result ≡ list_all spec.is_digit text.now }
{
    text.iter().all(|byte| is_digit(*byte))
}

fn is_decimal(text: &[u8]) -> bool
    ensures { result ≡ spec.is_decimal text.now }
{
    match text {
        [] => false,
        [byte] => is_digit(*byte),
        [first, rest @ ..] => b'1' <= *first && *first <= b'9' && are_digits(rest),
    }
}

// The number with one digit more, where it has 32 bits.
fn with_digit(value: u32, digit: u8) -> Option<u32>
    ensures { spec.IsValue (value * 10 + (digit - 48)) result }
{
    value
        .checked_mul(10)?
        .checked_add(u32::from(digit.saturating_sub(b'0')))
}

// The value of decimal digits, where it has 32 bits.
#[tactic(auto, using(crate::proofs::Values::value_step, crate::proofs::Values::too_large))]
fn value_of(digits: &[u8]) -> Option<u32>
    ensures { spec.IsValue (spec.value_behind 0 digits.now) result }
{
    let mut value = 0;
    for digit in digits {
        value = with_digit(value, *digit)?;
    }
    Some(value)
}

fn number_of(text: &str) -> Option<u32>
    ensures { result ≡ spec.number_of text.now }
{
    if is_decimal(text.as_bytes()) {
        value_of(text.as_bytes())
    } else {
        None
    }
}

// What stands before the first such character and what stands behind it, where there is one.
pub(crate) fn cut_at(separator: char, text: &str) -> Option<(&str, &str)>
    requires { separator < 128 }
    ensures { spec.IsCut separator text.now result }
{
    text.split_once(separator)
}

/// The version that the text writes, as `A`, `A.B` or `A.B.C`.
pub fn version_in(text: &str) -> Option<Version>
    ensures { result ≡ spec.version_in text.now }
{
    match cut_at('.', text) {
        Some((major, rest)) => version_behind(major, rest),
        None => version_of(number_of(text), Some(0), Some(0)),
    }
}

// The version with this first number, and the others behind it.
#[tactic(auto, using(crate::proofs::Pieces::too_many))]
fn version_behind(major: &str, text: &str) -> Option<Version>
    ensures { result ≡ spec.version_of_pieces (major.now ∷ spec.cut 46 text.now) }
{
    match cut_at('.', text) {
        Some((minor, patch)) => match cut_at('.', patch) {
            Some(_) => None,
            None => version_of(number_of(major), number_of(minor), number_of(patch)),
        },
        None => version_of(number_of(major), number_of(text), Some(0)),
    }
}

fn version_of(major: Option<u32>, minor: Option<u32>, patch: Option<u32>) -> Option<Version>
    ensures { result ≡ spec.with_numbers major minor patch }
{
    Some(Version {
        major: major?,
        minor: minor?,
        patch: patch?,
    })
}

// The target that the word names.
#[tactic(auto, unfolding(crate::specs::Words::target_of))]
pub(crate) fn target_of(alloc: Global, word: &str) -> Result<Target, TargetFault>
    ensures made { IfOk result (λ target. spec.target_of word.now ≡ Ok target) }
    ensures refused { IfErr result (spec.IsFaultOf (spec.target_of word.now)) }
{
    if let Some(edition) = edition_named(word) {
        return Ok(Target {
            engine: Engine::Es,
            version: edition.version(),
        });
    }
    let Some(engine) = engine_named(letters(word)) else {
        let word = Ident::new(alloc, word)?;
        return Err(TargetFault::NoMatch { word });
    };
    let Some(version) = version_in(behind_letters(word)) else {
        let word = Ident::new(alloc, word)?;
        return Err(TargetFault::Version { word });
    };
    Ok(Target { engine, version })
}
