//! Views of expressions.

ghost use Rattle.std.specs.Prelude.{◌≡◌, MatchOption};
ghost use Rattle.js_term.specs.declared.kind.Kind.TheVariants as Kind;
ghost use Rattle.node_views.specs.Views.{IsOf, flag_at, items_at, part_at, word_at};

use crate::parts::two_parts;
use js_tree::{Kind, Node, Word};

/// `callee(arguments)` or `callee?.(arguments)`.
#[derive(Clone, Copy)]
pub struct CallExpression<'a> {
    pub callee: &'a Node,
    pub arguments: &'a [Node],
    pub is_optional: bool,
}

impl<'a> CallExpression<'a> {
    /// The node as a `CallExpression`, if it is one.
    pub fn of(node: &'a Node) -> Option<CallExpression<'a>>
        ensures { MatchOption result (IsOf Kind.CallExpression 2 node.now → ⊥) (λ v. IsOf Kind.CallExpression 2 node.now × ((v.callee.now ≡ part_at 0 node.now) × ((v.arguments.now ≡ items_at 1 node.now) × (v.is_optional ≡ flag_at 0 node.now)))) }
    {
        let (callee, arguments) = two_parts(node, Kind::CallExpression)?;
        let words = node.texts().words();
        Some(CallExpression {
            callee,
            arguments: arguments.kids(),
            is_optional: words[0].is_set(),
        })
    }
}

/// `object.property` or `object?.property`.
#[derive(Clone, Copy)]
pub struct StaticMemberExpression<'a> {
    pub object: &'a Node,
    pub property: &'a Node,
    pub is_optional: bool,
}

impl<'a> StaticMemberExpression<'a> {
    /// The node as a `StaticMemberExpression`, if it is one.
    pub fn of(node: &'a Node) -> Option<StaticMemberExpression<'a>>
        ensures { MatchOption result (IsOf Kind.StaticMemberExpression 2 node.now → ⊥) (λ v. IsOf Kind.StaticMemberExpression 2 node.now × ((v.object.now ≡ part_at 0 node.now) × ((v.property.now ≡ part_at 1 node.now) × (v.is_optional ≡ flag_at 0 node.now)))) }
    {
        let (object, property) = two_parts(node, Kind::StaticMemberExpression)?;
        let words = node.texts().words();
        Some(StaticMemberExpression {
            object,
            property,
            is_optional: words[0].is_set(),
        })
    }
}

/// `object[property]` or `object?.[property]`.
#[derive(Clone, Copy)]
pub struct ComputedMemberExpression<'a> {
    pub object: &'a Node,
    pub property: &'a Node,
    pub is_optional: bool,
}

impl<'a> ComputedMemberExpression<'a> {
    /// The node as a `ComputedMemberExpression`, if it is one.
    pub fn of(node: &'a Node) -> Option<ComputedMemberExpression<'a>>
        ensures { MatchOption result (IsOf Kind.ComputedMemberExpression 2 node.now → ⊥) (λ v. IsOf Kind.ComputedMemberExpression 2 node.now × ((v.object.now ≡ part_at 0 node.now) × ((v.property.now ≡ part_at 1 node.now) × (v.is_optional ≡ flag_at 0 node.now)))) }
    {
        let (object, property) = two_parts(node, Kind::ComputedMemberExpression)?;
        let words = node.texts().words();
        Some(ComputedMemberExpression {
            object,
            property,
            is_optional: words[0].is_set(),
        })
    }
}

/// `import(source, options)`.
#[derive(Clone, Copy)]
pub struct ImportExpression<'a> {
    pub source: &'a Node,
    /// Absent where there is none.
    pub options: &'a Node,
}

impl<'a> ImportExpression<'a> {
    /// The node as an `ImportExpression`, if it is one.
    pub fn of(node: &'a Node) -> Option<ImportExpression<'a>>
        ensures { MatchOption result (IsOf Kind.ImportExpression 2 node.now → ⊥) (λ v. IsOf Kind.ImportExpression 2 node.now × ((v.source.now ≡ part_at 0 node.now) × (v.options.now ≡ part_at 1 node.now))) }
    {
        let (source, options) = two_parts(node, Kind::ImportExpression)?;
        Some(ImportExpression { source, options })
    }
}

/// `key: value`, a method, a getter or a setter in an object.
#[derive(Clone, Copy)]
pub struct ObjectProperty<'a> {
    /// `Init`, `Get` or `Set`.
    pub kind: Word,
    pub is_method: bool,
    pub is_shorthand: bool,
    pub is_computed: bool,
    pub key: &'a Node,
    pub value: &'a Node,
}

impl<'a> ObjectProperty<'a> {
    /// The node as an `ObjectProperty`, if it is one.
    pub fn of(node: &'a Node) -> Option<ObjectProperty<'a>>
        ensures { MatchOption result (IsOf Kind.ObjectProperty 2 node.now → ⊥) (λ v. IsOf Kind.ObjectProperty 2 node.now × ((v.kind ≡ word_at 0 node.now) × ((v.is_method ≡ flag_at 1 node.now) × ((v.is_shorthand ≡ flag_at 2 node.now) × ((v.is_computed ≡ flag_at 3 node.now) × ((v.key.now ≡ part_at 0 node.now) × (v.value.now ≡ part_at 1 node.now))))))) }
    {
        let (key, value) = two_parts(node, Kind::ObjectProperty)?;
        let words = node.texts().words();
        Some(ObjectProperty {
            kind: words[0],
            is_method: words[1].is_set(),
            is_shorthand: words[2].is_set(),
            is_computed: words[3].is_set(),
            key,
            value,
        })
    }
}
