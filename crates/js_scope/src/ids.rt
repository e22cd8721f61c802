//! The numbers by which a table names its scopes, symbols and references. Contracts see each as a number.

use std::marker::Model;

#[derive(Clone, Copy, Debug, PartialEq, Eq)]
pub struct ScopeId(usize);

impl Model for ScopeId {
    ghost use Rattle.std.specs.Prelude.{ℕ};

    ghost Value = { ℕ };

    ghost view = { λ id. id.0 };

    ghost inverse = { λ n. record { 0 = n } };
}

#[derive(Clone, Copy, Debug, PartialEq, Eq)]
pub struct SymbolId(usize);

impl Model for SymbolId {
    ghost use Rattle.std.specs.Prelude.{ℕ};

    ghost Value = { ℕ };

    ghost view = { λ id. id.0 };

    ghost inverse = { λ n. record { 0 = n } };
}

#[derive(Clone, Copy, Debug, PartialEq, Eq)]
pub struct ReferenceId(usize);

impl Model for ReferenceId {
    ghost use Rattle.std.specs.Prelude.{ℕ};

    ghost Value = { ℕ };

    ghost view = { λ id. id.0 };

    ghost inverse = { λ n. record { 0 = n } };
}

ghost use Rattle.std.specs.Prelude.{◌≡◌};

impl ScopeId {
    pub fn new(number: usize) -> ScopeId
        ensures { result ≡ number }
    {
        ScopeId(number)
    }

    pub fn number(self) -> usize
        ensures { result ≡ self }
    {
        self.0
    }
}

impl SymbolId {
    pub fn new(number: usize) -> SymbolId
        ensures { result ≡ number }
    {
        SymbolId(number)
    }

    pub fn number(self) -> usize
        ensures { result ≡ self }
    {
        self.0
    }
}

impl ReferenceId {
    pub fn new(number: usize) -> ReferenceId
        ensures { result ≡ number }
    {
        ReferenceId(number)
    }

    pub fn number(self) -> usize
        ensures { result ≡ self }
    {
        self.0
    }
}
