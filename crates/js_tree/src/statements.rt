//! Statements and programs by their parts.

ghost use Rattle.std.specs.Prelude.{◌≡◌, ◌∷◌, [], IfOk, map};
ghost use Rattle.js_term.specs.Node.{return_of, statement_of};
ghost use Rattle.js_term.specs.Term.{all, list, node, one, two};
ghost use Rattle.js_term.specs.declared.kind.Kind.TheVariants as Kind;
ghost use Rattle.js_tree.specs.TermOf.{term};
ghost use Rattle.js_tree.specs.Tree.{listed, made, tree_of};
ghost use Rattle.js_tree.specs.Words.{variable_word, word_text};

use crate::node::Node;
use crate::texts::Texts;
use crate::word::Word;
use js_items::Items;
use js_term::Kind;
use std::alloc::{AllocError, Global};

/// How a declaration declares its variables.
#[derive(Clone, Copy, Debug, PartialEq, Eq)]
pub enum VariableDeclarationKind {
    Var,
    Let,
    Const,
}

impl VariableDeclarationKind {
    pub fn word(self) -> Word
        ensures { result ≡ variable_word self }
    {
        match self {
            VariableDeclarationKind::Var => Word::Var,
            VariableDeclarationKind::Let => Word::Let,
            VariableDeclarationKind::Const => Word::Const,
        }
    }
}

impl Node {
    /// `expression;`
    pub fn expression_statement(alloc: Global, expression: Node) -> Result<Node, AllocError>
        ensures seen { IfOk result (λ it. term it ≡ statement_of (term expression)) }
        ensures tree { IfOk result (λ it. tree_of it ≡ made Kind.ExpressionStatement [] (tree_of expression ∷ [])) }
    {
        Node::of_one(alloc, Kind::ExpressionStatement, Texts::None, expression)
    }

    /// `return argument;`, where the argument may be absent.
    pub fn return_statement(alloc: Global, argument: Node) -> Result<Node, AllocError>
        ensures seen { IfOk result (λ it. term it ≡ return_of (term argument)) }
        ensures tree { IfOk result (λ it. tree_of it ≡ made Kind.ReturnStatement [] (tree_of argument ∷ [])) }
    {
        Node::of_one(alloc, Kind::ReturnStatement, Texts::None, argument)
    }

    /// `{ statements }`
    pub fn block_statement(alloc: Global, statements: Items<Node>) -> Result<Node, AllocError>
        ensures seen { IfOk result (λ it. term it ≡ node Kind.BlockStatement [] (one (list (all (map term statements))))) }
        ensures tree { IfOk result (λ it. tree_of it ≡ made Kind.BlockStatement [] (listed (map tree_of statements) ∷ [])) }
    {
        Node::of_list(alloc, Kind::BlockStatement, Texts::None, statements)
    }

    /// `const declarations;` and the like.
    pub fn variable_declaration(
        alloc: Global,
        kind: VariableDeclarationKind,
        declarations: Items<Node>,
    ) -> Result<Node, AllocError>
        ensures seen { IfOk result (λ it. term it ≡ node Kind.VariableDeclaration (word_text (variable_word kind) ∷ []) (one (list (all (map term declarations))))) }
        ensures tree { IfOk result (λ it. tree_of it ≡ made Kind.VariableDeclaration (word_text (variable_word kind) ∷ []) (listed (map tree_of declarations) ∷ [])) }
    {
        Node::of_list(
            alloc,
            Kind::VariableDeclaration,
            Texts::One(kind.word()),
            declarations,
        )
    }

    /// `id = init` in a declaration, where the value may be absent.
    pub fn variable_declarator(alloc: Global, id: Node, init: Node) -> Result<Node, AllocError>
        ensures seen { IfOk result (λ it. term it ≡ node Kind.VariableDeclarator [] (two (term id) (term init))) }
        ensures tree { IfOk result (λ it. tree_of it ≡ made Kind.VariableDeclarator [] (tree_of id ∷ tree_of init ∷ [])) }
    {
        Node::of_two(alloc, Kind::VariableDeclarator, Texts::None, id, init)
    }

    /// A program without a hashbang.
    pub fn program(
        alloc: Global,
        directives: Items<Node>,
        body: Items<Node>,
    ) -> Result<Node, AllocError>
        ensures seen { IfOk result (λ it. term it ≡ node Kind.Program [] (two (list (all (map term directives))) (list (all (map term body))))) }
        ensures tree { IfOk result (λ it. tree_of it ≡ made Kind.Program [] (listed (map tree_of directives) ∷ listed (map tree_of body) ∷ [])) }
    {
        Node::of_two(
            alloc,
            Kind::Program,
            Texts::None,
            Node::list(directives),
            Node::list(body),
        )
    }
}
