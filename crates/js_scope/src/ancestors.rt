//! The scopes from one outwards.

ghost use Rattle.std.specs.Prelude.{◌≡◌, ◌<◌, length, Some};
ghost use Rattle.std.specs.Iterator.{YieldsFirst, item_count};
ghost use Rattle.js_scope.specs.Table.{ancestors, first_binding, outward};

use crate::ids::{ScopeId, SymbolId};
use crate::rows::Scope;
use crate::scoping::Scoping;

/// A scope, its parent and so on to the root.
#[derive(Drop)]
pub struct ScopeAncestors<'a> {
    scopes: &'a [Scope],
    next: Option<ScopeId>,
    left: usize,
}

impl<'a> Iterator for ScopeAncestors<'a> {
    type Item = ScopeId;

    ghost next_gives = { YieldsFirst (λ it. outward it.left it.scopes.now it.next) };

    ghost remaining = { item_count (λ it. outward it.left it.scopes.now it.next) };

    fn next(&mut self) -> Option<ScopeId> {
        if self.left == 0 {
            return None;
        }
        let scope = self.next?;
        self.left -= 1;
        self.next = match self.scopes.get(scope.number()) {
            Some(row) => row.parent,
            None => None,
        };
        Some(scope)
    }
}

impl Scoping {
    /// The scope, its parent and so on to the root.
    pub fn scope_ancestors(&self, scope: ScopeId) -> ScopeAncestors<'_>
        ensures { outward result.left result.scopes.now result.next ≡ ancestors self.now scope }
    {
        ScopeAncestors {
            scopes: self.scopes.as_slice(),
            next: Some(scope),
            left: self.scopes.len(),
        }
    }

    /// The first symbol that the scope and those round it have for a name. It takes no memory.
    pub fn find_binding(&self, scope: ScopeId, name: &str) -> Option<SymbolId>
        ensures { result ≡ first_binding self.now.scopes (ancestors self.now scope) name.now }
    {
        for scope in self.scope_ancestors(scope) {
            if let Some(symbol) = self.get_binding(scope, name) {
                return Some(symbol);
            }
        }
        None
    }
}
