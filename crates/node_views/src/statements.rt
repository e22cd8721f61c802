//! Views of programs and statements.

ghost use Rattle.std.specs.Prelude.{◌≡◌, MatchOption};
ghost use Rattle.js_term.specs.declared.kind.Kind.TheVariants as Kind;
ghost use Rattle.node_views.specs.Views.{IsOf, items_at, part_at, text_of, word_at};

use crate::parts::{one_part, two_parts};
use js_tree::{Kind, Node, Word};

/// A whole program.
#[derive(Clone, Copy)]
pub struct Program<'a> {
    /// Empty where there is none.
    pub hashbang: &'a str,
    pub directives: &'a [Node],
    pub body: &'a [Node],
}

impl<'a> Program<'a> {
    /// The node as a `Program`, if it is one.
    pub fn of(node: &'a Node) -> Option<Program<'a>>
        ensures { MatchOption result (IsOf Kind.Program 2 node.now → ⊥) (λ v. IsOf Kind.Program 2 node.now × ((v.hashbang.now ≡ text_of node.now) × ((v.directives.now ≡ items_at 0 node.now) × (v.body.now ≡ items_at 1 node.now)))) }
    {
        let (directives, body) = two_parts(node, Kind::Program)?;
        Some(Program {
            hashbang: node.text(),
            directives: directives.kids(),
            body: body.kids(),
        })
    }
}

/// `expression;`
#[derive(Clone, Copy)]
pub struct ExpressionStatement<'a> {
    pub expression: &'a Node,
}

impl<'a> ExpressionStatement<'a> {
    /// The node as an `ExpressionStatement`, if it is one.
    pub fn of(node: &'a Node) -> Option<ExpressionStatement<'a>>
        ensures { MatchOption result (IsOf Kind.ExpressionStatement 1 node.now → ⊥) (λ v. IsOf Kind.ExpressionStatement 1 node.now × (v.expression.now ≡ part_at 0 node.now)) }
    {
        let expression = one_part(node, Kind::ExpressionStatement)?;
        Some(ExpressionStatement { expression })
    }
}

/// `const declarations;` and the like.
#[derive(Clone, Copy)]
pub struct VariableDeclaration<'a> {
    /// `Var`, `Let` or `Const`.
    pub kind: Word,
    pub declarations: &'a [Node],
}

impl<'a> VariableDeclaration<'a> {
    /// The node as a `VariableDeclaration`, if it is one.
    pub fn of(node: &'a Node) -> Option<VariableDeclaration<'a>>
        ensures { MatchOption result (IsOf Kind.VariableDeclaration 1 node.now → ⊥) (λ v. IsOf Kind.VariableDeclaration 1 node.now × ((v.kind ≡ word_at 0 node.now) × (v.declarations.now ≡ items_at 0 node.now))) }
    {
        let declarations = one_part(node, Kind::VariableDeclaration)?;
        let words = node.texts().words();
        Some(VariableDeclaration {
            kind: words[0],
            declarations: declarations.kids(),
        })
    }
}

/// `id = init` in a declaration.
#[derive(Clone, Copy)]
pub struct VariableDeclarator<'a> {
    pub id: &'a Node,
    /// Absent where there is none.
    pub init: &'a Node,
}

impl<'a> VariableDeclarator<'a> {
    /// The node as a `VariableDeclarator`, if it is one.
    pub fn of(node: &'a Node) -> Option<VariableDeclarator<'a>>
        ensures { MatchOption result (IsOf Kind.VariableDeclarator 2 node.now → ⊥) (λ v. IsOf Kind.VariableDeclarator 2 node.now × ((v.id.now ≡ part_at 0 node.now) × (v.init.now ≡ part_at 1 node.now))) }
    {
        let (id, init) = two_parts(node, Kind::VariableDeclarator)?;
        Some(VariableDeclarator { id, init })
    }
}
