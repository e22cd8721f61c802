//! The table of scopes, symbols and references of a module.
#![tactic(auto)]

mod ancestors;
mod flags;
mod ids;
mod names;
mod references;
mod rows;
mod scopes;
mod scoping;
mod symbols;
#[cfg(test)]
mod tests;
mod unresolved;

pub use ancestors::ScopeAncestors;
pub use flags::{ReferenceFlags, ScopeFlags, SymbolFlags};
pub use ids::{ReferenceId, ScopeId, SymbolId};
pub use js_ident::Ident;
pub use js_items::Items;
pub use names::Names;
pub use rows::{Reference, Scope, Symbol};
pub use scoping::Scoping;
pub use symbols::SymbolNames;
pub use unresolved::Unresolved;
