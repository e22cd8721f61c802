//! The scopes of a table.

ghost use Rattle.std.specs.Prelude.{◌≡◌, ◌<◌, length, slice_get, ◌++◌, ◌∷◌, [], Some, IfOk, OnErr, OnOk, is_some, cond, option_map};
ghost use Rattle.std.specs.Option.{option_and_then};
ghost use Rattle.std.specs.Int.RustNames.{bit_and, bit_or};
ghost use Rattle.std.specs.Map.{remove_entry};
ghost use Rattle.indexmap.specs.IndexMap.{insert_entry};
ghost use Rattle.js_term.specs.Term.{is_text};
ghost use Rattle.js_scope.specs.Table.{with_scope, binding, moved, leaves};

use crate::flags::ScopeFlags;
use crate::ids::{ScopeId, SymbolId};
use crate::names::Names;
use crate::rows::Scope;
use crate::scoping::Scoping;
use js_ident::Ident;
use std::alloc::AllocError;

impl Scoping {
    pub fn scope_flags(&self, scope: ScopeId) -> ScopeFlags
        requires { scope < length self.now.scopes }
        ensures { option_map (λ row. row.flags) (slice_get self.now.scopes scope) ≡ Some result }
    {
        self.scopes[scope.number()].flags
    }

    pub fn set_scope_flags(&mut self, scope: ScopeId, flags: ScopeFlags)
        ensures { self.new ≡ with_scope (λ row. record row { flags = flags }) self.old scope }
    {
        let Some(row) = self.scopes.get_mut(scope.number()) else {
            return;
        };
        row.flags = flags;
    }

    pub fn scope_parent_id(&self, scope: ScopeId) -> Option<ScopeId>
        ensures { result ≡ option_and_then (λ row. row.parent) (slice_get self.now.scopes scope) }
    {
        self.scopes.get(scope.number())?.parent
    }

    /// The flags of a scope that is opened inside another: in strict mode where that is.
    pub fn get_new_scope_flags(&self, flags: ScopeFlags, parent: ScopeId) -> ScopeFlags
        requires { parent < length self.now.scopes }
        ensures { option_map (λ row. bit_or flags.0 (bit_and row.flags.0 1)) (slice_get self.now.scopes parent) ≡ Some result.0 }
    {
        flags.inside(self.scopes[parent.number()].flags)
    }

    /// The symbol that the map of this scope has for a name. It takes no memory.
    pub fn get_binding(&self, scope: ScopeId, name: &str) -> Option<SymbolId>
        ensures { result ≡ binding self.now.scopes scope name.now }
    {
        self.scopes.get(scope.number())?.names.get(name)
    }

    pub fn scope_has_binding(&self, scope: ScopeId, name: &str) -> bool
        ensures { result ≡ is_some (binding self.now.scopes scope name.now) }
    {
        self.get_binding(scope, name).is_some()
    }

    /// Adds a last scope.
    pub fn add_scope(
        &mut self,
        parent: Option<ScopeId>,
        flags: ScopeFlags,
    ) -> Result<ScopeId, AllocError>
        ensures added { IfOk result (λ id. (id ≡ length self.old.scopes) × (self.new ≡ record self.old { scopes = self.old.scopes ++ record { parent = parent; flags = flags; names = [] } ∷ [] })) }
        ensures unchanged { OnErr result (self.new ≡ self.old) }
    {
        let id = ScopeId::new(self.scopes.len());
        let names = Names::new(*self.scopes.allocator());
        self.scopes.push(Scope {
            parent,
            flags,
            names,
        })?;
        Ok(id)
    }

    /// Sets what a name is bound to in a scope.
    pub fn add_binding(
        &mut self,
        scope: ScopeId,
        name: Ident,
        symbol: SymbolId,
    ) -> Result<(), AllocError>
        ensures set { OnOk result (self.new ≡ with_scope (λ row. record row { names = insert_entry is_text row.names name symbol }) self.old scope) }
        ensures unchanged { OnErr result (self.new ≡ self.old) }
    {
        let Some(row) = self.scopes.get_mut(scope.number()) else {
            return Ok(());
        };
        row.names.insert(name, symbol)
    }

    /// Takes a name out of the map of a scope.
    pub fn remove_binding(&mut self, scope: ScopeId, name: &str)
        ensures { self.new ≡ with_scope (λ row. record row { names = remove_entry (is_text name.now) row.names }) self.old scope }
    {
        let Some(row) = self.scopes.get_mut(scope.number()) else {
            return;
        };
        row.names.remove(name);
    }

    /// Moves a symbol into another scope: its name leaves the map of `from` where it names this symbol there, and is set in
    /// that of `to`.
    pub fn move_binding_by_symbol_id(
        &mut self,
        from: ScopeId,
        to: ScopeId,
        symbol: SymbolId,
    ) -> Result<(), AllocError>
        requires { symbol < length self.old.symbols }
        ensures moved { OnOk result (Some self.new ≡ option_map (λ row. moved self.old from to symbol row.name) (slice_get self.old.symbols symbol)) }
        ensures unchanged { OnErr result (self.new ≡ self.old) }
    {
        let name = self.symbol_name(symbol).clone()?;
        let leaves = self.leaves(from, to, &name, symbol);
        self.add_binding(to, name.clone()?, symbol)?;
        self.remove_binding_if(leaves, from, name.as_str());
        self.set_symbol_scope_id(symbol, to);
        Ok(())
    }

    /// Whether a name leaves the map of `from` where its symbol moves to `to`.
    fn leaves(&self, from: ScopeId, to: ScopeId, name: &Ident, symbol: SymbolId) -> bool
        ensures { result ≡ leaves self.now from to symbol name.now }
    {
        if from == to {
            return false;
        }
        match self.get_binding(from, name.as_str()) {
            Some(bound) => bound == symbol,
            None => false,
        }
    }

    fn remove_binding_if(&mut self, leaves: bool, scope: ScopeId, name: &str)
        ensures { self.new ≡ cond leaves (with_scope (λ row. record row { names = remove_entry (is_text name.now) row.names }) self.old scope) self.old }
    {
        if leaves {
            self.remove_binding(scope, name);
        }
    }

    /// Puts a scope under another parent. The scopes stay a tree where the scope is neither the root nor round `parent`.
    pub fn set_scope_parent_id(&mut self, scope: ScopeId, parent: Option<ScopeId>)
        ensures { self.new ≡ with_scope (λ row. record row { parent = parent }) self.old scope }
    {
        let Some(row) = self.scopes.get_mut(scope.number()) else {
            return;
        };
        row.parent = parent;
    }

    /// The same.
    pub fn change_scope_parent_id(&mut self, scope: ScopeId, parent: Option<ScopeId>)
        ensures { self.new ≡ with_scope (λ row. record row { parent = parent }) self.old scope }
    {
        self.set_scope_parent_id(scope, parent);
    }
}
