//! Expressions by their parts.

ghost use Rattle.std.specs.Prelude.{◌≡◌, ◌∷◌, [], IfOk, codes, map};
ghost use Rattle.js_term.specs.Node.{array_of, await_of, call_of, member_of, object_of, parenthesized_of, property_of, sequence_of};
ghost use Rattle.js_term.specs.Term.{absent, all, list, node, two};
ghost use Rattle.js_term.specs.declared.kind.Kind.TheVariants as Kind;
ghost use Rattle.js_tree.specs.Parts.{hole};
ghost use Rattle.js_tree.specs.TermOf.{term};
ghost use Rattle.js_tree.specs.Tree.{listed, made, tree_of};

use crate::node::Node;
use crate::texts::Texts;
use crate::word::Word;
use js_ident::Ident;
use js_items::Items;
use js_term::Kind;
use std::alloc::{AllocError, Global};

impl Node {
    /// `object.name`
    pub fn static_member(alloc: Global, object: Node, name: Ident) -> Result<Node, AllocError>
        ensures seen { IfOk result (λ it. term it ≡ member_of (term object) name) }
        ensures tree { IfOk result (λ it. tree_of it ≡ made Kind.StaticMemberExpression ([] ∷ []) (tree_of object ∷ made Kind.IdentifierName (name ∷ []) [] ∷ [])) }
    {
        Node::of_two(
            alloc,
            Kind::StaticMemberExpression,
            Texts::One(Word::Unset),
            object,
            Node::identifier_name(alloc, name),
        )
    }

    /// `object[property]`
    pub fn computed_member(alloc: Global, object: Node, property: Node) -> Result<Node, AllocError>
        ensures seen { IfOk result (λ it. term it ≡ node Kind.ComputedMemberExpression ([] ∷ []) (two (term object) (term property))) }
        ensures tree { IfOk result (λ it. tree_of it ≡ made Kind.ComputedMemberExpression ([] ∷ []) (tree_of object ∷ tree_of property ∷ [])) }
    {
        Node::of_two(
            alloc,
            Kind::ComputedMemberExpression,
            Texts::One(Word::Unset),
            object,
            property,
        )
    }

    /// `callee(arguments)`
    pub fn call(alloc: Global, callee: Node, arguments: Items<Node>) -> Result<Node, AllocError>
        ensures seen { IfOk result (λ it. term it ≡ call_of (term callee) (all (map term arguments))) }
        ensures tree { IfOk result (λ it. tree_of it ≡ made Kind.CallExpression ([] ∷ []) (tree_of callee ∷ listed (map tree_of arguments) ∷ [])) }
    {
        Node::of_two(
            alloc,
            Kind::CallExpression,
            Texts::One(Word::Unset),
            callee,
            Node::list(arguments),
        )
    }

    /// `new callee(arguments)`
    pub fn new_expression(
        alloc: Global,
        callee: Node,
        arguments: Items<Node>,
    ) -> Result<Node, AllocError>
        ensures seen { IfOk result (λ it. term it ≡ node Kind.NewExpression [] (two (term callee) (list (all (map term arguments))))) }
        ensures tree { IfOk result (λ it. tree_of it ≡ made Kind.NewExpression [] (tree_of callee ∷ listed (map tree_of arguments) ∷ [])) }
    {
        Node::of_two(
            alloc,
            Kind::NewExpression,
            Texts::None,
            callee,
            Node::list(arguments),
        )
    }

    /// `import(source)`
    #[tactic(auto, using(crate::proofs::TermOf::term_hole))]
    pub fn import_expression(alloc: Global, source: Node) -> Result<Node, AllocError>
        ensures seen { IfOk result (λ it. term it ≡ node Kind.ImportExpression [] (two (term source) absent)) }
        ensures tree { IfOk result (λ it. tree_of it ≡ made Kind.ImportExpression [] (tree_of source ∷ tree_of hole ∷ [])) }
    {
        Node::of_two(
            alloc,
            Kind::ImportExpression,
            Texts::None,
            source,
            Node::absent(alloc),
        )
    }

    /// `target = value`
    pub fn assignment(alloc: Global, target: Node, value: Node) -> Result<Node, AllocError>
        ensures seen { IfOk result (λ it. term it ≡ node Kind.AssignmentExpression (codes "=" ∷ []) (two (term target) (term value))) }
        ensures tree { IfOk result (λ it. tree_of it ≡ made Kind.AssignmentExpression (codes "=" ∷ []) (tree_of target ∷ tree_of value ∷ [])) }
    {
        Node::of_two(
            alloc,
            Kind::AssignmentExpression,
            Texts::One(Word::Assign),
            target,
            value,
        )
    }

    /// `first, second, ..`
    pub fn sequence(alloc: Global, expressions: Items<Node>) -> Result<Node, AllocError>
        ensures seen { IfOk result (λ it. term it ≡ sequence_of (all (map term expressions))) }
        ensures tree { IfOk result (λ it. tree_of it ≡ made Kind.SequenceExpression [] (listed (map tree_of expressions) ∷ [])) }
    {
        Node::of_list(alloc, Kind::SequenceExpression, Texts::None, expressions)
    }

    /// `(expression)`
    pub fn parenthesized(alloc: Global, expression: Node) -> Result<Node, AllocError>
        ensures seen { IfOk result (λ it. term it ≡ parenthesized_of (term expression)) }
        ensures tree { IfOk result (λ it. tree_of it ≡ made Kind.ParenthesizedExpression [] (tree_of expression ∷ [])) }
    {
        Node::of_one(
            alloc,
            Kind::ParenthesizedExpression,
            Texts::None,
            expression,
        )
    }

    /// `await argument`
    pub fn await_expression(alloc: Global, argument: Node) -> Result<Node, AllocError>
        ensures seen { IfOk result (λ it. term it ≡ await_of (term argument)) }
        ensures tree { IfOk result (λ it. tree_of it ≡ made Kind.AwaitExpression [] (tree_of argument ∷ [])) }
    {
        Node::of_one(alloc, Kind::AwaitExpression, Texts::None, argument)
    }

    /// `[elements]`
    pub fn array(alloc: Global, elements: Items<Node>) -> Result<Node, AllocError>
        ensures seen { IfOk result (λ it. term it ≡ array_of (all (map term elements))) }
        ensures tree { IfOk result (λ it. tree_of it ≡ made Kind.ArrayExpression [] (listed (map tree_of elements) ∷ [])) }
    {
        Node::of_list(alloc, Kind::ArrayExpression, Texts::None, elements)
    }

    /// `{ properties }`
    pub fn object(alloc: Global, properties: Items<Node>) -> Result<Node, AllocError>
        ensures seen { IfOk result (λ it. term it ≡ object_of (all (map term properties))) }
        ensures tree { IfOk result (λ it. tree_of it ≡ made Kind.ObjectExpression [] (listed (map tree_of properties) ∷ [])) }
    {
        Node::of_list(alloc, Kind::ObjectExpression, Texts::None, properties)
    }

    /// `name: value`, in an object.
    pub fn property(alloc: Global, name: Ident, value: Node) -> Result<Node, AllocError>
        ensures seen { IfOk result (λ it. term it ≡ property_of name (term value)) }
        ensures tree { IfOk result (λ it. tree_of it ≡ made Kind.ObjectProperty (codes "init" ∷ [] ∷ [] ∷ [] ∷ []) (made Kind.IdentifierName (name ∷ []) [] ∷ tree_of value ∷ [])) }
    {
        let texts = Texts::Four(Word::Init, Word::Unset, Word::Unset, Word::Unset);
        Node::of_two(
            alloc,
            Kind::ObjectProperty,
            texts,
            Node::identifier_name(alloc, name),
            value,
        )
    }
}
