//! Functions by their parts.

ghost use Rattle.std.specs.Prelude.{◌≡◌, ◌∷◌, [], IfOk, codes, map};
ghost use Rattle.js_term.specs.Term.{all, flag, list, more, node, two};
ghost use Rattle.js_term.specs.declared.kind.Kind.TheVariants as Kind;
ghost use Rattle.js_tree.specs.TermOf.{term};
ghost use Rattle.js_tree.specs.Tree.{listed, made, tree_of};

use crate::node::Node;
use crate::texts::Texts;
use crate::word::Word;
use js_items::Items;
use js_term::Kind;
use std::alloc::{AllocError, Global};

/// What stands before a function: `async`, `*`, both or neither.
#[derive(Clone, Copy, Debug, PartialEq, Eq)]
pub struct FunctionFlags {
    pub is_async: bool,
    pub is_generator: bool,
}

impl Node {
    /// A function that is declared. Behind `export default` its name may be absent.
    #[tactic(auto, using(crate::proofs::WordLaws::flag_word))]
    pub fn function_declaration(
        alloc: Global,
        flags: FunctionFlags,
        id: Node,
        params: Node,
        body: Node,
    ) -> Result<Node, AllocError>
        ensures seen { IfOk result (λ it. term it ≡ node Kind.FunctionDeclaration (flag flags.is_async (codes "async") ∷ flag flags.is_generator (codes "*") ∷ []) (more (term id) (two (term params) (term body)))) }
        ensures tree { IfOk result (λ it. tree_of it ≡ made Kind.FunctionDeclaration (flag flags.is_async (codes "async") ∷ flag flags.is_generator (codes "*") ∷ []) (tree_of id ∷ tree_of params ∷ tree_of body ∷ [])) }
    {
        let texts = Texts::Two(
            Word::Async.when(flags.is_async),
            Word::Star.when(flags.is_generator),
        );
        Node::of_three(alloc, Kind::FunctionDeclaration, texts, id, params, body)
    }

    /// A function as an expression, whose name may be absent.
    #[tactic(auto, using(crate::proofs::WordLaws::flag_word))]
    pub fn function_expression(
        alloc: Global,
        flags: FunctionFlags,
        id: Node,
        params: Node,
        body: Node,
    ) -> Result<Node, AllocError>
        ensures seen { IfOk result (λ it. term it ≡ node Kind.FunctionExpression (flag flags.is_async (codes "async") ∷ flag flags.is_generator (codes "*") ∷ []) (more (term id) (two (term params) (term body)))) }
        ensures tree { IfOk result (λ it. tree_of it ≡ made Kind.FunctionExpression (flag flags.is_async (codes "async") ∷ flag flags.is_generator (codes "*") ∷ []) (tree_of id ∷ tree_of params ∷ tree_of body ∷ [])) }
    {
        let texts = Texts::Two(
            Word::Async.when(flags.is_async),
            Word::Star.when(flags.is_generator),
        );
        Node::of_three(alloc, Kind::FunctionExpression, texts, id, params, body)
    }

    /// `params => body`, where the body is an expression or a function body.
    #[tactic(auto, using(crate::proofs::WordLaws::flag_word))]
    pub fn arrow_function(
        alloc: Global,
        is_async: bool,
        params: Node,
        body: Node,
    ) -> Result<Node, AllocError>
        ensures seen { IfOk result (λ it. term it ≡ node Kind.ArrowFunctionExpression (flag is_async (codes "async") ∷ []) (two (term params) (term body))) }
        ensures tree { IfOk result (λ it. tree_of it ≡ made Kind.ArrowFunctionExpression (flag is_async (codes "async") ∷ []) (tree_of params ∷ tree_of body ∷ [])) }
    {
        Node::of_two(
            alloc,
            Kind::ArrowFunctionExpression,
            Texts::One(Word::Async.when(is_async)),
            params,
            body,
        )
    }

    /// `(items, rest)`, where the rest may be absent.
    pub fn formal_parameters(
        alloc: Global,
        items: Items<Node>,
        rest: Node,
    ) -> Result<Node, AllocError>
        ensures seen { IfOk result (λ it. term it ≡ node Kind.FormalParameters [] (two (list (all (map term items))) (term rest))) }
        ensures tree { IfOk result (λ it. tree_of it ≡ made Kind.FormalParameters [] (listed (map tree_of items) ∷ tree_of rest ∷ [])) }
    {
        Node::of_two(
            alloc,
            Kind::FormalParameters,
            Texts::None,
            Node::list(items),
            rest,
        )
    }

    /// `pattern = initializer`, where the initializer may be absent.
    pub fn formal_parameter(
        alloc: Global,
        pattern: Node,
        initializer: Node,
    ) -> Result<Node, AllocError>
        ensures seen { IfOk result (λ it. term it ≡ node Kind.FormalParameter [] (two (term pattern) (term initializer))) }
        ensures tree { IfOk result (λ it. tree_of it ≡ made Kind.FormalParameter [] (tree_of pattern ∷ tree_of initializer ∷ [])) }
    {
        Node::of_two(
            alloc,
            Kind::FormalParameter,
            Texts::None,
            pattern,
            initializer,
        )
    }

    /// The body of a function, in braces.
    pub fn function_body(
        alloc: Global,
        directives: Items<Node>,
        statements: Items<Node>,
    ) -> Result<Node, AllocError>
        ensures seen { IfOk result (λ it. term it ≡ node Kind.FunctionBody [] (two (list (all (map term directives))) (list (all (map term statements))))) }
        ensures tree { IfOk result (λ it. tree_of it ≡ made Kind.FunctionBody [] (listed (map tree_of directives) ∷ listed (map tree_of statements) ∷ [])) }
    {
        Node::of_two(
            alloc,
            Kind::FunctionBody,
            Texts::None,
            Node::list(directives),
            Node::list(statements),
        )
    }
}
