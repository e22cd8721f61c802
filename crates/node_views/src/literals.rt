//! Views of names and literals.

ghost use Rattle.std.specs.Prelude.{◌≡◌, MatchOption};
ghost use Rattle.js_term.specs.declared.kind.Kind.TheVariants as Kind;
ghost use Rattle.node_views.specs.Views.{IsOf, text_of};

use crate::parts::one_text;
use js_tree::{Kind, Node};

/// A name that is read, or called, or assigned to.
#[derive(Clone, Copy)]
pub struct Identifier<'a> {
    pub name: &'a str,
}

impl<'a> Identifier<'a> {
    /// The node as an `Identifier`, if it is one.
    pub fn of(node: &'a Node) -> Option<Identifier<'a>>
        ensures { MatchOption result (IsOf Kind.Identifier 0 node.now → ⊥) (λ v. IsOf Kind.Identifier 0 node.now × (v.name.now ≡ text_of node.now)) }
    {
        let name = one_text(node, Kind::Identifier)?;
        Some(Identifier { name })
    }
}

/// A string.
#[derive(Clone, Copy)]
pub struct StringLiteral<'a> {
    pub value: &'a str,
}

impl<'a> StringLiteral<'a> {
    /// The node as a `StringLiteral`, if it is one.
    pub fn of(node: &'a Node) -> Option<StringLiteral<'a>>
        ensures { MatchOption result (IsOf Kind.StringLiteral 0 node.now → ⊥) (λ v. IsOf Kind.StringLiteral 0 node.now × (v.value.now ≡ text_of node.now)) }
    {
        let value = one_text(node, Kind::StringLiteral)?;
        Some(StringLiteral { value })
    }
}
