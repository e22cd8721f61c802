//! Whether a node of a kind has such texts, by one test for each.

ghost use Rattle.std.specs.Prelude.{◌≡◌, ◌∷◌, [], ◌&&◌, true, map, nat_eq, length};
ghost use Rattle.js_syntax.specs.Texts.{flag, literal_tests, operator_tests, tests, pass, is_head, has_texts};
ghost use Rattle.js_syntax.specs.Parts.{text_at};
ghost use Rattle.js_term.specs.declared.kind.Kind.TheVariants.{ObjectProperty, MethodDefinition};

use crate::letters::is_regexp_flags;
use crate::texts::text_at;
use crate::words::{
    is_assignment_operator, is_binary_operator, is_boolean, is_declaration_word, is_flag,
    is_logical_operator, is_method_word, is_property_word, is_unary_operator, is_update_operator,
};
use js_rules::{Kind, Lexicon, is_free_name};

fn are_none(texts: &[&str]) -> bool
    ensures { result ≡ pass [] (map (λ x. x.now) texts.now) }
{
    texts.is_empty()
}

/// Whether they are one that passes its test.
fn are_one(texts: &[&str], first: bool) -> bool
    ensures { result ≡ (nat_eq (length (map (λ x. x.now) texts.now)) 1 && (first && true)) }
{
    texts.len() == 1 && first
}

fn are_two(texts: &[&str], first: bool, second: bool) -> bool
    ensures { result ≡ (nat_eq (length (map (λ x. x.now) texts.now)) 2 && (first && (second && true))) }
{
    texts.len() == 2 && first && second
}

fn are_three(texts: &[&str], first: bool, second: bool, third: bool) -> bool
    ensures { result ≡ (nat_eq (length (map (λ x. x.now) texts.now)) 3 && (first && (second && (third && true)))) }
{
    texts.len() == 3 && first && second && third
}

fn are_four(texts: &[&str], first: bool, second: bool, third: bool, fourth: bool) -> bool
    ensures { result ≡ (nat_eq (length (map (λ x. x.now) texts.now)) 4 && (first && (second && (third && (fourth && true))))) }
{
    texts.len() == 4 && first && second && third && fourth
}

/// Whether the text numbered `n` is a flag of this word.
fn flag_at(texts: &[&str], n: usize, set: &str) -> bool
    ensures { result ≡ flag set.now (text_at n (map (λ x. x.now) texts.now)) }
{
    is_flag(text_at(texts, n), set)
}

fn has_literal<L: Lexicon>(kind: Kind, texts: &[&str]) -> bool
    ensures { result ≡ pass (literal_tests kind) (map (λ x. x.now) texts.now) }
{
    let first = text_at(texts, 0);
    match kind {
        Kind::Directive => are_one(texts, L::is_raw_string(first)),
        Kind::BindingIdentifier | Kind::LabelIdentifier | Kind::Identifier => {
            are_one(texts, is_free_name::<L>(first))
        }
        Kind::IdentifierName | Kind::PrivateIdentifier => are_one(texts, L::is_name(first)),
        Kind::StringLiteral => are_one(texts, true),
        Kind::NumericLiteral => are_one(texts, L::is_numeral(first)),
        Kind::BigIntLiteral => are_one(texts, L::is_big_integer(first)),
        Kind::BooleanLiteral => are_one(texts, is_boolean(first)),
        Kind::RegExpLiteral => are_two(
            texts,
            L::is_regexp_body(first),
            is_regexp_flags(text_at(texts, 1)),
        ),
        Kind::TemplateElement => are_one(texts, L::is_template_text(first)),
        _ => are_none(texts),
    }
}

fn has_operator<L: Lexicon>(kind: Kind, texts: &[&str]) -> bool
    ensures { result ≡ pass (operator_tests kind) (map (λ x. x.now) texts.now) }
{
    let first = text_at(texts, 0);
    match kind {
        Kind::AssignmentExpression => are_one(texts, is_assignment_operator(first)),
        Kind::LogicalExpression => are_one(texts, is_logical_operator(first)),
        Kind::BinaryExpression => are_one(texts, is_binary_operator(first)),
        Kind::UnaryExpression => are_one(texts, is_unary_operator(first)),
        Kind::UpdateExpression => are_two(
            texts,
            is_update_operator(first),
            flag_at(texts, 1, "prefix"),
        ),
        _ => has_literal::<L>(kind, texts),
    }
}

fn has_property_texts(texts: &[&str]) -> bool
    ensures { result ≡ pass (tests ObjectProperty) (map (λ x. x.now) texts.now) }
{
    are_four(
        texts,
        is_property_word(text_at(texts, 0)),
        flag_at(texts, 1, "method"),
        flag_at(texts, 2, "shorthand"),
        flag_at(texts, 3, "computed"),
    )
}

fn has_method_texts(texts: &[&str]) -> bool
    ensures { result ≡ pass (tests MethodDefinition) (map (λ x. x.now) texts.now) }
{
    are_three(
        texts,
        is_method_word(text_at(texts, 0)),
        flag_at(texts, 1, "computed"),
        flag_at(texts, 2, "static"),
    )
}

fn are_two_flags(texts: &[&str], first: &str, second: &str) -> bool
    ensures { result ≡ pass (flag first.now ∷ flag second.now ∷ []) (map (λ x. x.now) texts.now) }
{
    are_two(texts, flag_at(texts, 0, first), flag_at(texts, 1, second))
}

fn is_one_flag(texts: &[&str], set: &str) -> bool
    ensures { result ≡ pass (flag set.now ∷ []) (map (λ x. x.now) texts.now) }
{
    are_one(texts, flag_at(texts, 0, set))
}

fn passes_tests<L: Lexicon>(kind: Kind, texts: &[&str]) -> bool
    ensures { result ≡ pass (tests kind) (map (λ x. x.now) texts.now) }
{
    match kind {
        Kind::ForOfStatement => is_one_flag(texts, "await"),
        Kind::VariableDeclaration => are_one(texts, is_declaration_word(text_at(texts, 0))),
        Kind::FunctionDeclaration | Kind::FunctionExpression => are_two_flags(texts, "async", "*"),
        Kind::MethodDefinition => has_method_texts(texts),
        Kind::PropertyDefinition => are_two_flags(texts, "computed", "static"),
        Kind::BindingProperty | Kind::AssignmentTargetProperty => {
            are_two_flags(texts, "computed", "shorthand")
        }
        Kind::ObjectProperty => has_property_texts(texts),
        Kind::ArrowFunctionExpression => is_one_flag(texts, "async"),
        Kind::YieldExpression => is_one_flag(texts, "*"),
        Kind::CallExpression
        | Kind::StaticMemberExpression
        | Kind::ComputedMemberExpression
        | Kind::PrivateFieldExpression => is_one_flag(texts, "?."),
        _ => has_operator::<L>(kind, texts),
    }
}

/// Whether a program has no text or its hashbang.
fn is_head<L: Lexicon>(texts: &[&str]) -> bool
    ensures { result ≡ is_head (map (λ x. x.now) texts.now) }
{
    are_none(texts) || are_one(texts, L::is_hashbang(text_at(texts, 0)))
}

/// Whether a node of this kind has such texts.
pub fn has_texts<L: Lexicon>(kind: Kind, texts: &[&str]) -> bool
    ensures { result ≡ has_texts kind (map (λ x. x.now) texts.now) }
{
    match kind {
        Kind::Program => is_head::<L>(texts),
        _ => passes_tests::<L>(kind, texts),
    }
}
