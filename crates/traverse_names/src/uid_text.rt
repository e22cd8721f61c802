ghost use Rattle.std.specs.Prelude.{◌≡◌, ℕ, ◌<◌, ◌≤◌, true, length, slice_index, EachIndex, IfOk};
ghost use Rattle.std.specs.Char.{is_ascii_digit};
ghost use Rattle.std.specs.Int.{IsInRange};
ghost use Rattle.traverse_names.specs.Uid.{underscores, digits_start, base_of, digits_of, postfix_of, name_of};

use itoa::Buffer;
use js_ident::Ident;
use std::alloc::{AllocError, Global};

/// How many underscores a text begins with.
pub(crate) fn count_underscores(name: &str) -> usize
    ensures count { result ≡ underscores name.now }
    ensures within { result ≤ length name.now }
    ensures passed { (k : ℕ) → k < result → slice_index name.now k ≡ 95 }
{
    for (i, byte) in name.as_bytes().iter().enumerate() {
        if *byte != b'_' {
            return i;
        }
    }
    name.len()
}

/// Where the digits at a text's end begin.
pub(crate) fn find_digits(rest: &str) -> usize
    ensures start { result ≡ digits_start rest.now }
    ensures within { result ≤ length rest.now }
    ensures passed { (k : ℕ) → result ≤ k → k < length rest.now → IsInRange 48 57 (slice_index rest.now k) }
{
    let bytes = rest.as_bytes();
    let mut end = bytes.len();
    while end > 0 && bytes[end - 1].is_ascii_digit() {
        end -= 1;
    }
    end
}

/// The base of a name and the digits at its end.
#[tactic(auto, using(crate::proofs::Cut::before_digits))]
pub(crate) fn split_name(name: &str, count: usize) -> (&str, &str)
    requires { count ≡ underscores name.now }
    ensures base { result.0.now ≡ base_of name.now }
    ensures digits { result.1.now ≡ digits_of name.now }
    ensures all_digits { EachIndex result.1.now (λ k. IsInRange 48 57 (slice_index result.1.now k)) }
{
    let rest = &name[count..];
    let start = find_digits(rest);
    (&rest[..start], &rest[start..])
}

/// The postfix that a name with these digits counts with, if it counts.
pub(crate) fn read_postfix(digits: &str) -> Option<u32>
    requires { EachIndex digits.now (λ k. IsInRange 48 57 (slice_index digits.now k)) }
    ensures { result ≡ postfix_of digits.now }
{
    if digits.is_empty() {
        return Some(1);
    }
    if digits.as_bytes()[0] == b'0' {
        return None;
    }
    match digits.parse::<u32>() {
        Ok(postfix) if postfix > 1 => Some(postfix),
        _ => None,
    }
}

/// The name of a base with this many underscores and this postfix.
pub(crate) fn write_name(
    alloc: Global,
    base: &str,
    count: u32,
    postfix: u32,
) -> Result<Ident, AllocError>
    ensures { IfOk result (λ it. it ≡ name_of base.now (count, postfix)) }
{
    let mut text = String::new(alloc);
    for _i in 0..count {
        text.push('_')?;
    }
    text.push_str(base)?;
    if postfix != 1 {
        text.push_str(Buffer::new().format(postfix))?;
    }
    Ident::new(alloc, text.as_str())
}
