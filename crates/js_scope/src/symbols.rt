//! The symbols of a table.

ghost use Rattle.std.specs.Prelude.{map, ◌≡◌, ◌<◌, ◌++◌, ◌∷◌, [], length, slice_get, slice_index_or, Some, IfOk, IsTrue, ◌↔◌, OnErr, OnOk, option_map};
ghost use Rattle.std.specs.Iterator.{YieldsFirstRef, item_count};
ghost use Rattle.js_scope.specs.Table.{with_symbol};
ghost use Rattle.js_scope.specs.Unresolved.{without};

use crate::flags::SymbolFlags;
use crate::ids::{ReferenceId, ScopeId, SymbolId};
use crate::rows::Symbol;
use crate::scoping::Scoping;
use crate::unresolved::remove_reference;
use js_ident::Ident;
use js_items::Items;
use std::alloc::AllocError;

impl Scoping {
    pub fn symbol_name(&self, symbol: SymbolId) -> &Ident
        requires { symbol < length self.now.symbols }
        ensures { option_map (λ row. row.name) (slice_get self.now.symbols symbol) ≡ Some result.now }
    {
        &self.symbols[symbol.number()].name
    }

    pub fn symbol_flags(&self, symbol: SymbolId) -> SymbolFlags
        requires { symbol < length self.now.symbols }
        ensures { option_map (λ row. row.flags) (slice_get self.now.symbols symbol) ≡ Some result }
    {
        self.symbols[symbol.number()].flags
    }

    /// The scope that declares the symbol.
    pub fn symbol_scope_id(&self, symbol: SymbolId) -> ScopeId
        requires { symbol < length self.now.symbols }
        ensures { option_map (λ row. row.scope) (slice_get self.now.symbols symbol) ≡ Some result }
    {
        self.symbols[symbol.number()].scope
    }

    pub fn symbol_references(&self, symbol: SymbolId) -> &[ReferenceId]
        requires { symbol < length self.now.symbols }
        ensures { option_map (λ row. row.references) (slice_get self.now.symbols symbol) ≡ Some result.now }
    {
        self.symbols[symbol.number()].references.as_slice()
    }

    pub fn symbol_is_unused(&self, symbol: SymbolId) -> bool
        requires { symbol < length self.now.symbols }
        ensures { IsTrue result ↔ (option_map (λ row. row.references) (slice_get self.now.symbols symbol) ≡ Some []) }
    {
        self.symbol_references(symbol).is_empty()
    }

    /// Adds a last symbol. No map names it.
    pub fn create_symbol(
        &mut self,
        name: Ident,
        flags: SymbolFlags,
        scope: ScopeId,
    ) -> Result<SymbolId, AllocError>
        ensures added { IfOk result (λ id. (id ≡ length self.old.symbols) × (self.new ≡ record self.old { symbols = self.old.symbols ++ record { name = name; flags = flags; scope = scope; references = [] } ∷ [] })) }
        ensures unchanged { OnErr result (self.new ≡ self.old) }
    {
        let id = SymbolId::new(self.symbols.len());
        let references = Items::new(*self.symbols.allocator());
        self.symbols.push(Symbol {
            name,
            flags,
            scope,
            references,
        })?;
        Ok(id)
    }

    /// Renames a symbol. Maps stay as they are.
    pub fn set_symbol_name(&mut self, symbol: SymbolId, name: Ident)
        ensures { self.new ≡ with_symbol (λ row. record row { name = name }) self.old symbol }
    {
        let Some(row) = self.symbols.get_mut(symbol.number()) else {
            return;
        };
        row.name = name;
    }

    pub fn set_symbol_flags(&mut self, symbol: SymbolId, flags: SymbolFlags)
        ensures { self.new ≡ with_symbol (λ row. record row { flags = flags }) self.old symbol }
    {
        let Some(row) = self.symbols.get_mut(symbol.number()) else {
            return;
        };
        row.flags = flags;
    }

    /// Puts a symbol into another scope. Maps stay as they are.
    pub(crate) fn set_symbol_scope_id(&mut self, symbol: SymbolId, scope: ScopeId)
        ensures { self.new ≡ with_symbol (λ row. record row { scope = scope }) self.old symbol }
    {
        let Some(row) = self.symbols.get_mut(symbol.number()) else {
            return;
        };
        row.scope = scope;
    }

    /// Puts a reference last in the list of a symbol.
    pub fn add_resolved_reference(
        &mut self,
        symbol: SymbolId,
        reference: ReferenceId,
    ) -> Result<(), AllocError>
        ensures listed { OnOk result (self.new ≡ with_symbol (λ row. record row { references = row.references ++ reference ∷ [] }) self.old symbol) }
        ensures unchanged { OnErr result (self.new ≡ self.old) }
    {
        let Some(row) = self.symbols.get_mut(symbol.number()) else {
            return Ok(());
        };
        row.references.push(reference)
    }

    /// Takes a reference out of the list of a symbol.
    pub fn delete_resolved_reference(&mut self, symbol: SymbolId, reference: ReferenceId)
        ensures { self.new ≡ with_symbol (λ row. record row { references = without reference row.references }) self.old symbol }
    {
        let Some(row) = self.symbols.get_mut(symbol.number()) else {
            return;
        };
        remove_reference(&mut row.references, reference);
    }

    /// The names of all symbols, in the order of their ids.
    pub fn symbol_names(&self) -> SymbolNames<'_>
        ensures { map (λ row. row.name) result.symbols.now ≡ map (λ row. row.name) self.now.symbols }
    {
        SymbolNames {
            symbols: self.symbols.as_slice(),
        }
    }
}

/// The names of symbols.
#[derive(Drop)]
pub struct SymbolNames<'a> {
    symbols: &'a [Symbol],
}

impl<'a> Iterator for SymbolNames<'a> {
    type Item = &'a Ident;

    ghost next_gives = { YieldsFirstRef (λ names. map (λ row. row.name) names.symbols.now) };

    ghost remaining = { item_count (λ names. map (λ row. row.name) names.symbols.now) };

    fn next(&mut self) -> Option<&'a Ident> {
        let (first, others) = self.symbols.split_first()?;
        self.symbols = others;
        Some(&first.name)
    }
}
