ghost use Rattle.std.specs.Prelude.{◌≡◌, [], ◌∷◌, None, IfOk};

use crate::flags::ScopeFlags;
use crate::ids::ScopeId;
use crate::names::Names;
use crate::rows::{Reference, Scope, Symbol};
use crate::unresolved::Unresolved;
use std::alloc::{AllocError, Global};
use std::marker::Model;

/// The scopes, symbols and references of a module, each named by its number, and the references that have no symbol
/// by their names.
#[derive(Drop)]
pub struct Scoping {
    pub(crate) scopes: Vec<Scope>,
    pub(crate) symbols: Vec<Symbol>,
    pub(crate) references: Vec<Reference>,
    pub(crate) unresolved: Unresolved,
}

impl Model for Scoping {
    ghost use Rattle.js_scope.specs.Table.{Table};

    ghost Value = { Table };

    ghost view = { λ t. record { scopes = t.scopes.items; symbols = t.symbols.items; references = t.references.items; unresolved = t.unresolved } };
}

impl Scoping {
    /// A table of one root scope.
    pub fn new(alloc: Global) -> Result<Scoping, AllocError>
        ensures { IfOk result (λ t. t ≡ record { scopes = record { parent = None; flags = record { 0 = 3 }; names = [] } ∷ []; symbols = []; references = []; unresolved = [] }) }
    {
        let mut scopes = Vec::new(alloc);
        scopes.push(Scope {
            parent: None,
            flags: ScopeFlags::MODULE,
            names: Names::new(alloc),
        })?;
        Ok(Scoping {
            scopes,
            symbols: Vec::new(alloc),
            references: Vec::new(alloc),
            unresolved: Unresolved::new(alloc),
        })
    }

    pub fn root_scope_id(&self) -> ScopeId
        ensures { result ≡ 0 }
    {
        ScopeId::new(0)
    }
}
