//! The flags of scopes, symbols and references.

ghost use Rattle.std.specs.Prelude.{⊤, ◌≡◌, [], ◌∷◌, codes};
ghost use Rattle.std.specs.Int.RustNames.{bit_and, bit_or};

use bitflags::{Flag, Flags, bitflag_items};

/// What opened a scope, and how its code is run.
#[derive(Clone, Copy, PartialEq, Eq, Debug)]
pub struct ScopeFlags(u8);

bitflag_items! {
    impl ScopeFlags: u8 {
        const STRICT_MODE = 1;
        const TOP = 2;
        const FUNCTION = 4;
        const ARROW = 8;
        const CLASS_STATIC_BLOCK = 16;
        const CATCH_CLAUSE = 32;
    }
}

impl Flags for ScopeFlags {
    type Bits = u8;

    ghost exact = { ⊤ };

    ghost table = { (codes "STRICT_MODE", 1) ∷ (codes "TOP", 2) ∷ (codes "FUNCTION", 4) ∷ (codes "ARROW", 8) ∷ (codes "CLASS_STATIC_BLOCK", 16) ∷ (codes "CATCH_CLAUSE", 32) ∷ [] };

    ghost set_of = { λ flags. flags.0 };

    fn flags<'a>() -> &'a [Flag<ScopeFlags>] {
        ScopeFlags::FLAGS
    }

    fn bits(&self) -> u8 {
        self.0
    }

    fn from_bits_retain(bits: u8) -> ScopeFlags {
        ScopeFlags(bits)
    }
}

impl ScopeFlags {
    /// Those of the scope of a module.
    pub const MODULE: ScopeFlags = ScopeFlags(3);

    /// These, in strict mode where the flags round them are.
    pub(crate) fn inside(self, outer: ScopeFlags) -> ScopeFlags
        ensures { result.0 ≡ bit_or self.0 (bit_and outer.0 1) }
    {
        ScopeFlags(self.0 | (outer.0 & 1))
    }
}

/// What declared a symbol.
#[derive(Clone, Copy, PartialEq, Eq, Debug)]
pub struct SymbolFlags(u16);

bitflag_items! {
    impl SymbolFlags: u16 {
        const FUNCTION_SCOPED_VARIABLE = 1;
        const BLOCK_SCOPED_VARIABLE = 2;
        const CONST_VARIABLE = 4;
        const CLASS = 8;
        const CATCH_VARIABLE = 16;
        const FUNCTION = 32;
        const IMPORT = 64;
        const FUNCTION_EXPRESSION = 128;
        const ASYNC_OR_GENERATOR_FUNCTION = 256;
    }
}

impl Flags for SymbolFlags {
    type Bits = u16;

    ghost exact = { ⊤ };

    ghost table = { (codes "FUNCTION_SCOPED_VARIABLE", 1) ∷ (codes "BLOCK_SCOPED_VARIABLE", 2) ∷ (codes "CONST_VARIABLE", 4) ∷ (codes "CLASS", 8) ∷ (codes "CATCH_VARIABLE", 16) ∷ (codes "FUNCTION", 32) ∷ (codes "IMPORT", 64) ∷ (codes "FUNCTION_EXPRESSION", 128) ∷ (codes "ASYNC_OR_GENERATOR_FUNCTION", 256) ∷ [] };

    ghost set_of = { λ flags. flags.0 };

    fn flags<'a>() -> &'a [Flag<SymbolFlags>] {
        SymbolFlags::FLAGS
    }

    fn bits(&self) -> u16 {
        self.0
    }

    fn from_bits_retain(bits: u16) -> SymbolFlags {
        SymbolFlags(bits)
    }
}

/// How a reference is used.
#[derive(Clone, Copy, PartialEq, Eq, Debug)]
pub struct ReferenceFlags(u8);

bitflag_items! {
    impl ReferenceFlags: u8 {
        const READ = 1;
        const WRITE = 2;
    }
}

impl Flags for ReferenceFlags {
    type Bits = u8;

    ghost exact = { ⊤ };

    ghost table = { (codes "READ", 1) ∷ (codes "WRITE", 2) ∷ [] };

    ghost set_of = { λ flags. flags.0 };

    fn flags<'a>() -> &'a [Flag<ReferenceFlags>] {
        ReferenceFlags::FLAGS
    }

    fn bits(&self) -> u8 {
        self.0
    }

    fn from_bits_retain(bits: u8) -> ReferenceFlags {
        ReferenceFlags(bits)
    }
}
