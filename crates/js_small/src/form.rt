//! The form of small modules, one function for each sort of node.

ghost use Rattle.std.specs.Prelude.{◌≡◌, [], ◌∷◌, ◌&&◌, map, option_map, codes};
ghost use Rattle.js_term.specs.Form.{one, single, some, empty, no_texts, takes_list, Sort, stands_small};
ghost use Rattle.js_term.specs.Term.{list, all, maybe, flag};
ghost use Rattle.small_tree.specs.TermOf as tree;
ghost use Rattle.js_small.specs.Small.{small_at, small_each, small_head, small_front, allowed};

use crate::words::{is_decimal, is_small_binding, is_small_name, is_word};
use small_tree::{
    BindingIdentifier, BindingPattern, Boxed, Directive, Expression, FormalParameter, Function,
    FunctionKind, Ident, ImportDeclaration, ImportSpecifier, Items, ModuleExportName, Program,
    ReturnStatement, VariableDeclaration, VariableDeclarationKind, VariableDeclarator,
};

fn is_binding(n: &BindingIdentifier) -> bool
    ensures { result ≡ small_at (one Sort.binding) (tree.binding_term n.now) }
{
    is_small_binding(n.name.as_str())
}

fn is_bound(pattern: &BindingPattern) -> bool
    ensures { result ≡ small_at (one Sort.binding) (tree.pattern_term pattern.now) }
{
    match pattern {
        BindingPattern::BindingIdentifier(n) => is_binding(n),
    }
}

#[cycle(expression)]
#[tactic(auto, using(crate::proofs::Forms::expressions))]
pub(crate) fn is_expression(e: &Expression) -> bool
    ensures { result ≡ small_at (one Sort.expression) (tree.expression_term e.now) }
{
    match e {
        Expression::Identifier(n) => is_small_name(n.name.as_str()),
        Expression::StringLiteral(_) => true,
        Expression::NumericLiteral(n) => is_decimal(n.raw.as_str()),
        Expression::CallExpression(n) => {
            !n.optional && is_expression(n.callee.get()) && are_expressions(n.arguments.as_slice())
        }
        Expression::StaticMemberExpression(n) => {
            !n.optional && is_expression(n.object.get()) && is_word(n.property.name.as_str())
        }
        Expression::BooleanLiteral(_)
        | Expression::ArrayExpression(_)
        | Expression::AwaitExpression(_)
        | Expression::FunctionExpression(_)
        | Expression::ObjectExpression(_)
        | Expression::ParenthesizedExpression(_)
        | Expression::SequenceExpression(_) => false,
    }
}

#[cycle(expression)]
fn are_expressions(items: &[Expression]) -> bool
    ensures { result ≡ small_each (one Sort.expression) (all (map tree.expression_term items.now)) }
{
    for item in items {
        if !is_expression(item) {
            return false;
        }
    }
    true
}

/// Whether the expression stands as a statement: a string alone would be a directive.
#[tactic(auto, using(crate::proofs::Forms::expressions))]
pub(crate) fn is_effect(e: &Expression) -> bool
    ensures { result ≡ small_at (one Sort.effect) (tree.expression_term e.now) }
{
    match e {
        Expression::StringLiteral(_) => false,
        Expression::Identifier(_)
        | Expression::NumericLiteral(_)
        | Expression::CallExpression(_)
        | Expression::StaticMemberExpression(_)
        | Expression::BooleanLiteral(_)
        | Expression::ArrayExpression(_)
        | Expression::AwaitExpression(_)
        | Expression::FunctionExpression(_)
        | Expression::ObjectExpression(_)
        | Expression::ParenthesizedExpression(_)
        | Expression::SequenceExpression(_) => is_expression(e),
    }
}

fn is_value(value: &Option<Boxed<Expression>>) -> bool
    ensures { result ≡ small_at (one Sort.expression) (maybe (option_map tree.expression_term value.now)) }
{
    match value {
        None => false,
        Some(e) => is_expression(e.get()),
    }
}

pub(crate) fn is_return(n: &ReturnStatement) -> bool
    ensures { result ≡ small_at (one Sort.statement) (tree.return_term tree.expression_term n.now) }
{
    is_value(&n.argument)
}

#[tactic(auto, using(small_tree::proofs::Levels::declarator_parts))]
fn is_declarator(n: &VariableDeclarator) -> bool
    ensures { result ≡ small_at (one Sort.declarator) (tree.declarator_term n.now) }
{
    is_bound(&n.id) && is_value(&n.init)
}

#[tactic(auto, using(crate::proofs::Forms::takes_one))]
fn is_one_declarator(items: &[VariableDeclarator]) -> bool
    ensures { result ≡ small_at (single Sort.declarator) (list (all (map tree.declarator_term items.now))) }
{
    match items {
        [] => false,
        [item] => is_declarator(item),
        [_, _, ..] => false,
    }
}

/// Whether it declares one constant.
pub(crate) fn is_constant(n: &VariableDeclaration) -> bool
    ensures { result ≡ small_at (one Sort.declaration) (tree.variables_term tree.declarator_term n.now) }
{
    match n.kind {
        VariableDeclarationKind::Const => is_one_declarator(n.declarations.as_slice()),
        VariableDeclarationKind::Let | VariableDeclarationKind::Var => false,
    }
}

fn are_parameters(items: &[FormalParameter]) -> bool
    ensures { result ≡ small_each (one Sort.parameter) (all (map tree.parameter_term items.now)) }
{
    for item in items {
        if !is_bound(&item.pattern) {
            return false;
        }
    }
    true
}

fn is_name_of_function(id: &Option<BindingIdentifier>) -> bool
    ensures { result ≡ small_at (one Sort.binding) (maybe (option_map tree.binding_term id.now)) }
{
    match id {
        None => false,
        Some(id) => is_binding(id),
    }
}

fn is_plain_declaration(n: &Function) -> bool
    ensures { result ≡ (stands_small Sort.declaration (tree.function_word n.now.kind) && allowed (tree.function_word n.now.kind) (flag n.now.is_async (codes "async") ∷ flag n.now.is_generator (codes "*") ∷ [])) }
{
    match n.kind {
        FunctionKind::FunctionDeclaration => !n.is_async && !n.is_generator,
        FunctionKind::FunctionExpression => false,
    }
}

#[tactic(auto, using(crate::proofs::Forms::takes_none))]
fn are_none(items: &[Directive]) -> bool
    ensures { result ≡ takes_list empty (all (map tree.directive_term items.now)) }
{
    match items {
        [] => true,
        [_, ..] => false,
    }
}

/// Whether the function is a declaration that is small but for its statements and its names.
pub(crate) fn has_small_head(n: &Function) -> bool
    ensures { result ≡ small_head n.now }
{
    is_plain_declaration(n)
        && is_name_of_function(&n.id)
        && are_parameters(n.params.items.as_slice())
        && are_none(n.body.directives.as_slice())
}

fn is_export_name(n: &ModuleExportName) -> bool
    ensures { result ≡ small_at (one Sort.name) (tree.export_name_term n.now) }
{
    match n {
        ModuleExportName::IdentifierName(n) => is_word(n.name.as_str()),
        ModuleExportName::IdentifierReference(_) | ModuleExportName::StringLiteral(_) => false,
    }
}

fn are_specifiers(items: &[ImportSpecifier]) -> bool
    ensures { result ≡ small_each (one Sort.specifier) (all (map tree.specifier_term items.now)) }
{
    for item in items {
        if !is_export_name(&item.imported) || !is_binding(&item.local) {
            return false;
        }
    }
    true
}

#[tactic(auto, using(crate::proofs::Forms::takes_some))]
fn are_some_specifiers(items: &[ImportSpecifier]) -> bool
    ensures { result ≡ small_at (some Sort.specifier) (tree.specifiers_term items.now) }
{
    match items {
        [] => false,
        [_, ..] => are_specifiers(items),
    }
}

fn imports_names(specifiers: &Option<Items<ImportSpecifier>>) -> bool
    ensures { result ≡ small_at (some Sort.specifier) (maybe (option_map tree.specifiers_term specifiers.now)) }
{
    match specifiers {
        None => false,
        Some(items) => are_some_specifiers(items.as_slice()),
    }
}

pub(crate) fn is_import(n: &ImportDeclaration) -> bool
    ensures { result ≡ small_at (one Sort.item) (tree.import_term n.now) }
{
    imports_names(&n.specifiers)
}

fn is_without(hashbang: &Option<Ident>) -> bool
    ensures { result ≡ no_texts (tree.hashbang_texts hashbang.now) }
{
    match hashbang {
        None => true,
        Some(_) => false,
    }
}

/// Whether the module has no hashbang line and no directives.
pub(crate) fn has_small_front(n: &Program) -> bool
    ensures { result ≡ small_front n.now }
{
    is_without(&n.hashbang) && are_none(n.directives.as_slice())
}
