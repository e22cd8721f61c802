//! The least level of an expression in each place (ECMAScript 13.2 to 13.16).

ghost use Rattle.std.specs.Prelude.{◌≡◌, ℕ, suc};
ghost use Rattle.js_syntax.specs.Edges.{binary_level};
ghost use Rattle.js_tree.specs.Words.{texts_seen};
ghost use Rattle.print_layout.specs.Needs.{least, operand_level};

use crate::levels::{binary_level, logical_level};
use js_tree::{Kind, Texts};

/// The least level of the left operand of a binary operator.
fn left_level(operator: &str) -> u8
    ensures { result ≡ operand_level (binary_level operator.now) 0 }
{
    binary_level(operator).unwrap_or(17)
}

/// That of the right one: operators of one level go from left to right, but for `**`.
fn right_level(operator: &str) -> u8
    ensures { (n : ℕ) → result ≡ operand_level (binary_level operator.now) (suc n) }
{
    match binary_level(operator) {
        Some(level) => level + 1,
        None => 15,
    }
}

/// The least level of the first part; 0 where each may stand.
pub fn first_least(kind: Kind, texts: &Texts) -> u8
    ensures { result ≡ least kind (texts_seen texts.now) 0 }
{
    match kind {
        Kind::ExportDefaultDeclaration
        | Kind::MethodDefinition
        | Kind::PropertyDefinition
        | Kind::BindingProperty
        | Kind::AssignmentTargetProperty
        | Kind::ArrayExpression
        | Kind::SpreadElement
        | Kind::ObjectProperty
        | Kind::SequenceExpression
        | Kind::YieldExpression
        | Kind::ImportExpression => 2,
        Kind::ConditionalExpression => 4,
        Kind::LogicalExpression => logical_level(texts.first()),
        Kind::BinaryExpression => left_level(texts.first()),
        Kind::UnaryExpression | Kind::AwaitExpression => 16,
        Kind::CallExpression
        | Kind::StaticMemberExpression
        | Kind::ComputedMemberExpression
        | Kind::PrivateFieldExpression
        | Kind::TaggedTemplateExpression => 19,
        Kind::NewExpression => 20,
        _ => 0,
    }
}

/// The least level of a part behind the first, with so many between.
fn later_least(kind: Kind, texts: &Texts, between: usize) -> u8
    ensures { result ≡ least kind (texts_seen texts.now) (suc between) }
{
    match kind {
        Kind::ForOfStatement => if between == 0 { 2 } else { 0 },
        Kind::ClassDeclaration | Kind::ClassExpression => if between == 0 { 18 } else { 0 },
        Kind::VariableDeclarator
        | Kind::ExportDefaultDeclaration
        | Kind::FormalParameter
        | Kind::PropertyDefinition
        | Kind::AssignmentPattern
        | Kind::AssignmentTargetWithDefault
        | Kind::ArrayExpression
        | Kind::SpreadElement
        | Kind::ObjectProperty
        | Kind::SequenceExpression
        | Kind::AssignmentExpression
        | Kind::ArrowFunctionExpression
        | Kind::YieldExpression
        | Kind::ConditionalExpression
        | Kind::CallExpression
        | Kind::ImportExpression
        | Kind::NewExpression => 2,
        Kind::LogicalExpression => if texts.first() == "||" { 6 } else { 7 },
        Kind::BinaryExpression => right_level(texts.first()),
        Kind::PrivateInExpression => 12,
        Kind::UnaryExpression | Kind::AwaitExpression => 16,
        _ => 0,
    }
}

/// The least level of the part numbered so; 0 where each may stand.
#[tactic(auto, using(crate::proofs::Places::later))]
pub fn least(kind: Kind, texts: &Texts, k: usize) -> u8
    ensures { result ≡ least kind (texts_seen texts.now) k }
{
    if k == 0 {
        first_least(kind, texts)
    } else {
        later_least(kind, texts, k - 1)
    }
}
