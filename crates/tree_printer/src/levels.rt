//! How tightly an expression binds (ECMAScript 13.2 to 13.16).

ghost use Rattle.std.specs.Prelude.{◌≡◌, ◌≤◌, IfSome, map};
ghost use Rattle.js_term.specs.Term.{all};
ghost use Rattle.js_tree.specs.TermOf.{term};
ghost use Rattle.js_tree.specs.Words.{texts_seen};
ghost use Rattle.js_syntax.specs.Edges.{binary_level, is_coalesce_left};
ghost use Rattle.js_syntax.specs.Levels.{level, level_by, level_first, level_or, logical_level};
ghost use Rattle.print_layout.specs.Needs.{is_looser};
ghost use Rattle.tree_printer.specs.Links.{is_link};

use js_tree::{Form, Kind, Node, Texts};

/// The level of a binary operator but `**`.
pub fn binary_level(operator: &str) -> Option<u8>
    ensures level { result ≡ binary_level operator.now }
    ensures low { IfSome result (λ n. n ≤ 14) }
{
    match operator {
        "|" => Some(7),
        "^" => Some(8),
        "&" => Some(9),
        "==" | "!=" | "===" | "!==" => Some(10),
        "<" | ">" | "<=" | ">=" | "instanceof" | "in" => Some(11),
        "<<" | ">>" | ">>>" => Some(12),
        "+" | "-" => Some(13),
        "*" | "/" | "%" => Some(14),
        _ => None,
    }
}

pub fn logical_level(operator: &str) -> u8
    ensures { result ≡ logical_level operator.now }
{
    match operator {
        "??" => 4,
        "||" => 5,
        _ => 6,
    }
}

/// Whether the level is that of the first part: a member, or a template with a tag.
pub fn is_link(kind: Kind) -> bool
    ensures { result ≡ is_link kind }
{
    matches!(
        kind,
        Kind::StaticMemberExpression
            | Kind::ComputedMemberExpression
            | Kind::PrivateFieldExpression
            | Kind::TaggedTemplateExpression
    )
}

/// The level of a node whose first part is no call.
fn own_level(kind: Kind, texts: &Texts) -> u8
    ensures { result ≡ level_by kind (texts_seen texts.now) 0 }
{
    match kind {
        Kind::SequenceExpression => 1,
        Kind::AssignmentExpression | Kind::ArrowFunctionExpression | Kind::YieldExpression => 2,
        Kind::ConditionalExpression => 3,
        Kind::LogicalExpression => logical_level(texts.first()),
        Kind::BinaryExpression => binary_level(texts.first()).unwrap_or(15),
        Kind::PrivateInExpression => 11,
        Kind::UnaryExpression | Kind::AwaitExpression => 16,
        Kind::UpdateExpression => 17,
        Kind::ChainExpression => 18,
        Kind::CallExpression | Kind::ImportExpression => 19,
        Kind::StaticMemberExpression
        | Kind::ComputedMemberExpression
        | Kind::PrivateFieldExpression
        | Kind::TaggedTemplateExpression
        | Kind::NewExpression => 20,
        _ => 21,
    }
}

/// The level of an expression. It walks down members, as far as they go.
#[cycle(level)]
#[tactic(auto, using(js_tree::proofs::TermOf::term_is, crate::proofs::Smaller::parts_fall, crate::proofs::LevelLaws::link_level, crate::proofs::LevelLaws::own_level))]
pub fn level(node: &Node) -> u8
    ensures { result ≡ level (term node.now) }
{
    match node.form() {
        Form::Absent | Form::List => 0,
        Form::Node(kind) => {
            if is_link(kind) {
                if first_level(node.kids()) == 19 {
                    19
                } else {
                    20
                }
            } else {
                own_level(kind, node.texts())
            }
        }
    }
}

#[cycle(level)]
fn first_level(parts: &[Node]) -> u8
    ensures { result ≡ level_first (all (map term parts.now)) }
{
    match parts {
        [] => 0,
        [first, ..] => level(first),
    }
}

/// Whether the level is one that may stand before `??` (ECMAScript 13.13).
#[tactic(auto, using(js_tree::proofs::TermOf::term_is, crate::proofs::LevelLaws::link_level, crate::proofs::LevelLaws::own_level))]
pub fn is_coalesce_left(node: &Node) -> bool
    ensures { result ≡ is_coalesce_left (level (term node.now)) }
{
    match node.form() {
        Form::Absent | Form::List => false,
        Form::Node(kind) => {
            if is_link(kind) {
                true
            } else {
                let level = own_level(kind, node.texts());
                level == 4 || 7 <= level
            }
        }
    }
}

/// Whether the level of an expression is below this one. Only where that is 20, the place of what `new` calls, are
/// members walked down.
#[tactic(auto, using(js_tree::proofs::TermOf::term_is, crate::proofs::LevelLaws::link_level, crate::proofs::LevelLaws::own_level))]
pub fn is_looser(least: u8, node: &Node) -> bool
    ensures { result ≡ is_looser least (term node.now) }
{
    match node.form() {
        Form::Absent | Form::List => 0 < least,
        Form::Node(kind) => {
            if is_link(kind) && least != 20 {
                20 < least
            } else {
                level(node) < least
            }
        }
    }
}
