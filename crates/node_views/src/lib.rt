//! Nodes by the names of their parts.
#![tactic(auto)]

mod expressions;
mod functions;
mod literals;
mod modules;
mod parts;
mod regexp;
mod statements;

pub use expressions::{
    CallExpression, ComputedMemberExpression, ImportExpression, ObjectProperty,
    StaticMemberExpression,
};
pub use functions::{Class, Function};
pub use literals::{Identifier, StringLiteral};
pub use modules::{
    ExportAllDeclaration, ExportDeclaration, ExportDefaultDeclaration, ExportFromDeclaration,
    ExportNamedDeclaration, ExportSpecifier, ImportDeclaration, ImportSpecifier,
};
pub use regexp::RegExpLiteral;
pub use statements::{ExpressionStatement, Program, VariableDeclaration, VariableDeclarator};
