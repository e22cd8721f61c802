//! The flags of a regular expression.

ghost use Rattle.std.specs.Prelude.{⊤, [], ◌∷◌, codes};

use bitflags::{Flag, Flags, bitflag_items};

/// A set of flags of a regular expression. Bit by bit from the lowest they are `d`, `g`, `i`, `m`, `s`, `u`, `v`, `y`.
#[derive(Clone, Copy, PartialEq, Eq, Debug)]
pub struct RegExpFlags(u8);

bitflag_items! {
    impl RegExpFlags: u8 {
        const D = 1;
        const G = 2;
        const I = 4;
        const M = 8;
        const S = 16;
        const U = 32;
        const V = 64;
        const Y = 128;
    }
}

impl Flags for RegExpFlags {
    type Bits = u8;

    ghost exact = { ⊤ };

    ghost table = { (codes "D", 1) ∷ (codes "G", 2) ∷ (codes "I", 4) ∷ (codes "M", 8) ∷ (codes "S", 16) ∷ (codes "U", 32) ∷ (codes "V", 64) ∷ (codes "Y", 128) ∷ [] };

    ghost set_of = { λ flags. flags.0 };

    fn flags<'a>() -> &'a [Flag<RegExpFlags>] {
        RegExpFlags::FLAGS
    }

    fn bits(&self) -> u8 {
        self.0
    }

    fn from_bits_retain(bits: u8) -> RegExpFlags {
        RegExpFlags(bits)
    }
}
