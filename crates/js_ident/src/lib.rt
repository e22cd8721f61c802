//! `Ident`, the text of a name or a literal in a syntax tree.
#![tactic(auto)]

mod ident;

pub use ident::Ident;
