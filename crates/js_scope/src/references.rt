//! The references of a table.

ghost use Rattle.std.specs.Prelude.{◌≡◌, ◌<◌, ◌++◌, ◌∷◌, [], length, slice_get, Some, IfOk, OnErr, OnOk};
ghost use Rattle.js_scope.specs.Table.{with_reference};
ghost use Rattle.js_scope.specs.Unresolved.{listed, unlisted};

use crate::ids::{ReferenceId, SymbolId};
use crate::rows::Reference;
use crate::scoping::Scoping;
use crate::unresolved::Unresolved;
use js_ident::Ident;
use std::alloc::AllocError;

impl Scoping {
    pub fn get_reference(&self, reference: ReferenceId) -> &Reference
        requires { reference < length self.now.references }
        ensures { slice_get self.now.references reference ≡ Some result.now }
    {
        &self.references[reference.number()]
    }

    /// Adds a last reference. No list has it.
    pub fn create_reference(&mut self, reference: Reference) -> Result<ReferenceId, AllocError>
        ensures added { IfOk result (λ id. (id ≡ length self.old.references) × (self.new ≡ record self.old { references = self.old.references ++ reference ∷ [] })) }
        ensures unchanged { OnErr result (self.new ≡ self.old) }
    {
        let id = ReferenceId::new(self.references.len());
        let Reference {
            scope_id,
            flags,
            symbol_id,
        } = reference;
        self.references.push(Reference {
            scope_id,
            flags,
            symbol_id,
        })?;
        Ok(id)
    }

    /// Gives a reference another symbol, or none. Lists stay as they are.
    pub fn set_reference_symbol_id(&mut self, reference: ReferenceId, symbol: Option<SymbolId>)
        ensures { self.new ≡ with_reference (λ row. record row { symbol_id = symbol }) self.old reference }
    {
        let Some(row) = self.references.get_mut(reference.number()) else {
            return;
        };
        row.symbol_id = symbol;
    }

    /// The references without a symbol, by their names.
    pub fn root_unresolved_references(&self) -> &Unresolved
        ensures { result.now ≡ self.now.unresolved }
    {
        &self.unresolved
    }

    /// Puts a reference last in the list of a name that has no symbol.
    pub fn add_root_unresolved_reference(
        &mut self,
        name: Ident,
        reference: ReferenceId,
    ) -> Result<(), AllocError>
        ensures listed { OnOk result (self.new ≡ record self.old { unresolved = listed self.old.unresolved name reference }) }
        ensures unchanged { OnErr result (self.new ≡ self.old) }
    {
        self.unresolved.add(name, reference)
    }

    /// Takes a reference out of the list of a name that has no symbol.
    pub fn delete_root_unresolved_reference(&mut self, name: &str, reference: ReferenceId)
        ensures { self.new ≡ record self.old { unresolved = unlisted self.old.unresolved name.now reference } }
    {
        self.unresolved.delete(name, reference);
    }
}
