//! What is asked of a node.

ghost use Rattle.std.specs.Prelude.{◌≡◌, ◌<◌, codes, map};
ghost use Rattle.js_term.specs.Kinds.{is_among};
ghost use Rattle.js_term.specs.Scope.{kid};
ghost use Rattle.js_term.specs.Term.{absent, all, flag, list, two};
ghost use Rattle.js_syntax.specs.Edges as edges;
ghost use Rattle.js_syntax.specs.Nodes.{three};
ghost use Rattle.js_syntax.specs.Parts as parts;
ghost use Rattle.js_syntax.specs.Printable as printable;
ghost use Rattle.js_syntax.specs.Sorts as sorts;
ghost use Rattle.js_syntax.specs.Sorts.Sort.{body};
ghost use Rattle.js_reading.specs.Expressions as expressions;
ghost use Rattle.js_tree.specs.TermOf.{term};
ghost use Rattle.js_tree.specs.Words.{texts_seen};
ghost use Rattle.js_tree.specs.declared.node.Node.{size-Node};
ghost use Rattle.js_reader.specs.NodeParts.{term_in, size_in};

use js_term::{Kind, is_kind};
use js_tree::{Form, Node, Texts};

/// Whether it is a node of this kind.
#[tactic(auto, using(js_tree::proofs::TermOf::term_is))]
pub fn is_node(node: &Node, kind: Kind) -> bool
    ensures { result ≡ parts.is_node kind (term node.now) }
{
    match node.form() {
        Form::Node(own) => is_kind(own, kind),
        Form::Absent => false,
        Form::List => false,
    }
}

/// The first text of a node; an empty one where there is none.
#[tactic(auto, using(js_tree::proofs::TermOf::term_is))]
pub fn text(node: &Node) -> &str
    ensures { result.now ≡ parts.text_of (term node.now) }
{
    match node.form() {
        Form::Node(_) => node.text(),
        Form::Absent => "",
        Form::List => "",
    }
}

/// The part numbered `n`.
#[tactic(auto, using(js_tree::proofs::TermOf::term_is, crate::proofs::NodeParts::kid_all_map, crate::proofs::NodeParts::has_size, js_tree::proofs::PartLaws::kid_is_smaller))]
fn part(node: &Node, n: usize) -> Option<&Node>
    ensures seen { term_in result ≡ kid n (parts.parts_of (term node.now)) }
    ensures smaller { size_in result < size-Node node.now }
{
    match node.form() {
        Form::Absent => None,
        _ => node.kid(n),
    }
}

#[tactic(auto, using(js_tree::proofs::TermOf::term_is))]
fn is_present(part: Option<&Node>) -> bool
    ensures { result ≡ parts.is_present (term_in part.entry) }
{
    match part {
        Some(node) => !node.is_absent(),
        None => false,
    }
}

/// Whether it is a key of this name, without brackets.
pub fn is_called(key: &Node, name: &str) -> bool
    ensures { result ≡ edges.is_name_key name.now (term key.now) }
{
    is_node(key, Kind::IdentifierName) && text(key) == name
}

/// Whether it is an expression of this name.
pub fn is_named(expression: &Node, name: &str) -> bool
    ensures { result ≡ printable.is_named name.now (term expression.now) }
{
    is_node(expression, Kind::Identifier) && text(expression) == name
}

fn is_simple_kind(kind: Kind) -> bool
    ensures { result ≡ sorts.is_simple_target kind }
{
    matches!(
        kind,
        Kind::Identifier
            | Kind::StaticMemberExpression
            | Kind::ComputedMemberExpression
            | Kind::PrivateFieldExpression
    )
}

/// Whether it is an identifier or a member, to which a value may be assigned.
#[tactic(auto, using(js_tree::proofs::TermOf::term_is))]
pub fn is_simple_target(expression: &Node) -> bool
    ensures { result ≡ edges.is_simple_target (term expression.now) }
{
    match expression.form() {
        Form::Node(kind) => is_simple_kind(kind),
        Form::Absent => false,
        Form::List => false,
    }
}

fn is_private_kind(kind: Kind) -> bool
    ensures { result ≡ edges.is_private_kind kind }
{
    matches!(kind, Kind::PrivateFieldExpression)
}

/// Whether it is a member with a private name.
#[tactic(auto, using(js_tree::proofs::TermOf::term_is))]
pub fn is_private_member(expression: &Node) -> bool
    ensures { result ≡ edges.is_private_member (term expression.now) }
{
    match expression.form() {
        Form::Node(kind) => is_private_kind(kind),
        Form::Absent => false,
        Form::List => false,
    }
}

/// Whether a function or a class has no name.
#[tactic(auto, using(js_tree::proofs::TermOf::term_is, crate::proofs::NodeParts::head_is_kid))]
pub fn is_unnamed(definition: &Node) -> bool
    ensures { result ≡ edges.is_unnamed (term definition.now) }
{
    match definition.form() {
        Form::Node(_) => !is_present(part(definition, 0)),
        Form::Absent => true,
        Form::List => true,
    }
}

fn is_plain_statement(kind: Kind) -> bool
    ensures { result ≡ is_among kind sorts.plain_statements }
{
    matches!(
        kind,
        Kind::BlockStatement
            | Kind::BreakStatement
            | Kind::ContinueStatement
            | Kind::DebuggerStatement
            | Kind::DoWhileStatement
            | Kind::EmptyStatement
            | Kind::ExpressionStatement
            | Kind::ForInStatement
            | Kind::ForOfStatement
            | Kind::ForStatement
            | Kind::IfStatement
            | Kind::LabeledStatement
            | Kind::ReturnStatement
            | Kind::SwitchStatement
            | Kind::ThrowStatement
            | Kind::TryStatement
            | Kind::WhileStatement
            | Kind::VariableDeclaration
    )
}

/// Whether the texts of a statement are no `let` and no `const`.
fn suits_body(kind: Kind, texts: &Texts) -> bool
    ensures { result ≡ sorts.suits body kind (texts_seen texts.now) }
{
    match kind {
        Kind::VariableDeclaration => texts.first() == "var",
        _ => true,
    }
}

/// Whether it may be the body of another statement: no declaration but with `var` (14.6, 14.7, 14.13).
#[tactic(auto, using(js_tree::proofs::TermOf::term_is))]
pub fn is_body(statement: &Node) -> bool
    ensures { result ≡ edges.is_body (term statement.now) }
{
    match statement.form() {
        Form::Node(kind) => is_plain_statement(kind) && suits_body(kind, statement.texts()),
        Form::Absent => false,
        Form::List => false,
    }
}

fn is_constructor_key(key: &Node) -> bool
    ensures { result ≡ printable.is_constructor_key (term key.now) }
{
    (is_node(key, Kind::IdentifierName) || is_node(key, Kind::StringLiteral))
        && text(key) == "constructor"
}

/// Whether a method with this key is the constructor of its class (15.7.1).
pub fn is_constructor(is_static: bool, computed: bool, key: &Node) -> bool
    ensures { result ≡ edges.is_constructor (flag is_static (codes "static")) computed (term key.now) }
{
    !is_static && !computed && is_constructor_key(key)
}

/// Whether it is a `new`, which has no arguments where its level is below that of a member.
pub fn is_bare_new(expression: &Node) -> bool
    ensures { result ≡ expressions.is_bare_new (term expression.now) }
{
    is_node(expression, Kind::NewExpression)
}

/// Whether a `try` has a handler or a finalizer (14.15).
#[tactic(auto, using(js_tree::proofs::TermOf::term_is))]
pub fn is_try(handler: &Node, finalizer: &Node) -> bool
    ensures { result ≡ printable.is_try (three absent (term handler.now) (term finalizer.now)) }
{
    !handler.is_absent() || !finalizer.is_absent()
}

/// Whether a statement, which may be missing, ends in an `if` without `else`.
#[tactic(auto, using(js_tree::proofs::TermOf::term_is, crate::proofs::NodeParts::kid_open))]
fn part_ends_open(statement: Option<&Node>) -> bool
    ensures { result ≡ printable.ends_open (term_in statement.entry) }
{
    let Some(node) = statement else {
        return false;
    };
    let Form::Node(kind) = node.form() else {
        return false;
    };
    match kind {
        Kind::IfStatement => !is_present(part(node, 2)) || part_ends_open(part(node, 2)),
        Kind::LabeledStatement | Kind::WhileStatement => part_ends_open(part(node, 1)),
        Kind::ForStatement => part_ends_open(part(node, 3)),
        Kind::ForInStatement | Kind::ForOfStatement => part_ends_open(part(node, 2)),
        _ => false,
    }
}

/// Whether a statement ends in an `if` that would take an `else` behind it (14.6).
pub fn ends_open(statement: &Node) -> bool
    ensures { result ≡ printable.ends_open (term statement.now) }
{
    part_ends_open(Some(statement))
}

fn is_default(case: &Node) -> bool
    ensures { result ≡ printable.is_default (term case.now) }
{
    !is_present(part(case, 0))
}

/// Whether at most one of the cases of a `switch` is a default (14.12).
pub fn is_switch(cases: &[Node]) -> bool
    ensures { result ≡ printable.is_switch (two absent (list (all (map term cases.now)))) }
{
    let mut found = false;
    for case in cases {
        let more = is_default(case);
        if more && found {
            return false;
        }
        found = found || more;
    }
    true
}
