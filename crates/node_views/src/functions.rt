//! Views of functions and classes.

ghost use Rattle.std.specs.Prelude.{◌≡◌, MatchOption};
ghost use Rattle.js_term.specs.declared.kind.Kind.TheVariants as Kind;
ghost use Rattle.node_views.specs.Views.{IsOf, flag_at, part_at};

use crate::parts::three_parts;
use js_tree::{Kind, Node};

/// A function with a name, parameters and a body.
#[derive(Clone, Copy)]
pub struct Function<'a> {
    pub is_async: bool,
    pub is_generator: bool,
    /// Absent where there is none.
    pub id: &'a Node,
    pub params: &'a Node,
    pub body: &'a Node,
}

impl<'a> Function<'a> {
    /// The node as a `FunctionDeclaration`, if it is one.
    pub fn of_declaration(node: &'a Node) -> Option<Function<'a>>
        ensures { MatchOption result (IsOf Kind.FunctionDeclaration 3 node.now → ⊥) (λ v. IsOf Kind.FunctionDeclaration 3 node.now × ((v.is_async ≡ flag_at 0 node.now) × ((v.is_generator ≡ flag_at 1 node.now) × ((v.id.now ≡ part_at 0 node.now) × ((v.params.now ≡ part_at 1 node.now) × (v.body.now ≡ part_at 2 node.now)))))) }
    {
        Function::of_kind(node, Kind::FunctionDeclaration)
    }

    /// The node as a `FunctionExpression`, if it is one.
    pub fn of_expression(node: &'a Node) -> Option<Function<'a>>
        ensures { MatchOption result (IsOf Kind.FunctionExpression 3 node.now → ⊥) (λ v. IsOf Kind.FunctionExpression 3 node.now × ((v.is_async ≡ flag_at 0 node.now) × ((v.is_generator ≡ flag_at 1 node.now) × ((v.id.now ≡ part_at 0 node.now) × ((v.params.now ≡ part_at 1 node.now) × (v.body.now ≡ part_at 2 node.now)))))) }
    {
        Function::of_kind(node, Kind::FunctionExpression)
    }

    fn of_kind(node: &'a Node, kind: Kind) -> Option<Function<'a>>
        ensures { MatchOption result (IsOf kind 3 node.now → ⊥) (λ v. IsOf kind 3 node.now × ((v.is_async ≡ flag_at 0 node.now) × ((v.is_generator ≡ flag_at 1 node.now) × ((v.id.now ≡ part_at 0 node.now) × ((v.params.now ≡ part_at 1 node.now) × (v.body.now ≡ part_at 2 node.now)))))) }
    {
        let (id, params, body) = three_parts(node, kind)?;
        let words = node.texts().words();
        Some(Function {
            is_async: words[0].is_set(),
            is_generator: words[1].is_set(),
            id,
            params,
            body,
        })
    }
}

/// A class with a name, heritage and a body.
#[derive(Clone, Copy)]
pub struct Class<'a> {
    /// Absent where there is none.
    pub id: &'a Node,
    /// Absent where there is none.
    pub super_class: &'a Node,
    pub body: &'a Node,
}

impl<'a> Class<'a> {
    /// The node as a `ClassDeclaration`, if it is one.
    pub fn of_declaration(node: &'a Node) -> Option<Class<'a>>
        ensures { MatchOption result (IsOf Kind.ClassDeclaration 3 node.now → ⊥) (λ v. IsOf Kind.ClassDeclaration 3 node.now × ((v.id.now ≡ part_at 0 node.now) × ((v.super_class.now ≡ part_at 1 node.now) × (v.body.now ≡ part_at 2 node.now)))) }
    {
        Class::of_kind(node, Kind::ClassDeclaration)
    }

    /// The node as a `ClassExpression`, if it is one.
    pub fn of_expression(node: &'a Node) -> Option<Class<'a>>
        ensures { MatchOption result (IsOf Kind.ClassExpression 3 node.now → ⊥) (λ v. IsOf Kind.ClassExpression 3 node.now × ((v.id.now ≡ part_at 0 node.now) × ((v.super_class.now ≡ part_at 1 node.now) × (v.body.now ≡ part_at 2 node.now)))) }
    {
        Class::of_kind(node, Kind::ClassExpression)
    }

    fn of_kind(node: &'a Node, kind: Kind) -> Option<Class<'a>>
        ensures { MatchOption result (IsOf kind 3 node.now → ⊥) (λ v. IsOf kind 3 node.now × ((v.id.now ≡ part_at 0 node.now) × ((v.super_class.now ≡ part_at 1 node.now) × (v.body.now ≡ part_at 2 node.now)))) }
    {
        let (id, super_class, body) = three_parts(node, kind)?;
        Some(Class {
            id,
            super_class,
            body,
        })
    }
}
