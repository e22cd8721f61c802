//! The nodes of a JavaScript module, under their names in oxc, as far as small modules and the module runner's
//! forms need them.
//!
//! `Expression`, `Statement`, `Declaration`, `Function` and `VariableDeclarator` hold each other; every other
//! struct is generic over the one sort of node that it holds, and its plain name means the concrete type.
//! A dropped tree gives its memory back by a list of what remains, whatever its depth.
#![tactic(auto)]

mod bag;
mod dismantle;
mod expression;
mod function;
mod id;
mod module;
mod statement;

pub use expression::{
    ArrayExpression, AwaitExpression, BooleanLiteral, CallExpression, Expression, NumericLiteral,
    ObjectExpression, ObjectProperty, ParenthesizedExpression, PropertyKind, SequenceExpression,
    StaticMemberExpression, StringLiteral,
};
pub use function::{
    BindingPattern, Directive, FormalParameter, FormalParameters, Function, FunctionBody,
    FunctionKind,
};
pub use id::{
    BindingIdentifier, IdentifierName, IdentifierReference, ReferenceId, ScopeId, Span, SymbolId,
};
pub use js_chars::{
    RegExpFlags, is_identifier_name, is_identifier_part, is_identifier_start, is_reserved,
};
pub use js_ident::Ident;
pub use js_items::{Boxed, Items};
pub use module::{
    Declaration, ExportDeclaration, ImportDeclaration, ImportSpecifier, ModuleExportName, Program,
};
pub use statement::{
    ExpressionStatement, ReturnStatement, Statement, VariableDeclaration, VariableDeclarationKind,
    VariableDeclarator,
};
