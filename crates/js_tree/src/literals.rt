//! Names and literals, by their texts. None of them takes memory.

ghost use Rattle.std.specs.Prelude.{◌≡◌, ◌∷◌, []};
ghost use Rattle.js_term.specs.Node.{binding_of, boolean_of, identifier_of, name_of, number_of, string_of, truth};
ghost use Rattle.js_term.specs.Term.{node, none};
ghost use Rattle.js_term.specs.declared.kind.Kind.TheVariants as Kind;
ghost use Rattle.js_tree.specs.TermOf.{term};
ghost use Rattle.js_tree.specs.Tree.{made, tree_of};

use crate::node::Node;
use crate::texts::Texts;
use crate::word::Word;
use js_ident::Ident;
use js_term::Kind;
use std::alloc::Global;

impl Node {
    /// A name that is read, or called, or assigned to.
    pub fn identifier(alloc: Global, name: Ident) -> Node
        ensures seen { term result ≡ identifier_of name }
        ensures tree { tree_of result ≡ made Kind.Identifier (name ∷ []) [] }
    {
        Node::leaf(alloc, Kind::Identifier, Texts::Text(name))
    }

    /// The name of a property, or one that a module gives out.
    pub fn identifier_name(alloc: Global, name: Ident) -> Node
        ensures seen { term result ≡ name_of name }
        ensures tree { tree_of result ≡ made Kind.IdentifierName (name ∷ []) [] }
    {
        Node::leaf(alloc, Kind::IdentifierName, Texts::Text(name))
    }

    /// A name that is bound.
    pub fn binding_identifier(alloc: Global, name: Ident) -> Node
        ensures seen { term result ≡ binding_of name }
        ensures tree { tree_of result ≡ made Kind.BindingIdentifier (name ∷ []) [] }
    {
        Node::leaf(alloc, Kind::BindingIdentifier, Texts::Text(name))
    }

    /// A string, by its value.
    pub fn string_literal(alloc: Global, value: Ident) -> Node
        ensures seen { term result ≡ string_of value }
        ensures tree { tree_of result ≡ made Kind.StringLiteral (value ∷ []) [] }
    {
        Node::leaf(alloc, Kind::StringLiteral, Texts::Text(value))
    }

    /// A number, as it is written.
    pub fn numeric_literal(alloc: Global, raw: Ident) -> Node
        ensures seen { term result ≡ number_of raw }
        ensures tree { tree_of result ≡ made Kind.NumericLiteral (raw ∷ []) [] }
    {
        Node::leaf(alloc, Kind::NumericLiteral, Texts::Text(raw))
    }

    #[tactic(auto, using(crate::proofs::WordLaws::truth_word))]
    pub fn boolean_literal(alloc: Global, value: bool) -> Node
        ensures seen { term result ≡ boolean_of value }
        ensures tree { tree_of result ≡ made Kind.BooleanLiteral (truth value ∷ []) [] }
    {
        let word = if value { Word::True } else { Word::False };
        Node::leaf(alloc, Kind::BooleanLiteral, Texts::One(word))
    }

    pub fn null_literal(alloc: Global) -> Node
        ensures seen { term result ≡ node Kind.NullLiteral [] none }
        ensures tree { tree_of result ≡ made Kind.NullLiteral [] [] }
    {
        Node::leaf(alloc, Kind::NullLiteral, Texts::None)
    }

    pub fn this_expression(alloc: Global) -> Node
        ensures seen { term result ≡ node Kind.ThisExpression [] none }
        ensures tree { tree_of result ≡ made Kind.ThisExpression [] [] }
    {
        Node::leaf(alloc, Kind::ThisExpression, Texts::None)
    }
}
