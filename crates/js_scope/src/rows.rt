use crate::flags::{ReferenceFlags, ScopeFlags, SymbolFlags};
use crate::ids::{ReferenceId, ScopeId, SymbolId};
use crate::names::Names;
use js_ident::Ident;
use js_items::Items;

/// A scope. The root has no parent.
#[derive(Drop)]
pub struct Scope {
    pub(crate) parent: Option<ScopeId>,
    pub(crate) flags: ScopeFlags,
    pub(crate) names: Names,
}

/// What a name stands for: a declaration in a scope, and the references that are resolved to it.
#[derive(Drop)]
pub struct Symbol {
    pub(crate) name: Ident,
    pub(crate) flags: SymbolFlags,
    pub(crate) scope: ScopeId,
    pub(crate) references: Items<ReferenceId>,
}

/// A use of a name, in a scope. It has no symbol where the name is a global or the arguments object.
#[derive(Debug, Drop)]
pub struct Reference {
    pub scope_id: ScopeId,
    pub flags: ReferenceFlags,
    pub symbol_id: Option<SymbolId>,
}
