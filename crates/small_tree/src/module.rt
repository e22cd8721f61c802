use crate::expression::StringLiteral;
use crate::function::{Directive, Function};
use crate::id::{BindingIdentifier, IdentifierName, IdentifierReference, ScopeId, Span};
use crate::statement::{Statement, VariableDeclaration};
use js_ident::Ident;
use js_items::{Boxed, Items};

/// A name by which modules import and export.
#[derive(Clone, Debug, Drop)]
pub enum ModuleExportName {
    IdentifierName(IdentifierName),
    IdentifierReference(IdentifierReference),
    StringLiteral(StringLiteral),
}

/// `imported as local`, also where one name stands for both.
#[derive(Clone, Debug, Drop)]
pub struct ImportSpecifier {
    pub span: Span,
    pub imported: ModuleExportName,
    pub local: BindingIdentifier,
}

/// An import; `import 's'` has no specifiers, `import {} from 's'` an empty list of them.
#[derive(Debug, Drop)]
pub struct ImportDeclaration {
    pub span: Span,
    pub specifiers: Option<Items<ImportSpecifier>>,
    pub source: StringLiteral,
}

#[cycle(tree)]
#[derive(Drop)]
pub enum Declaration {
    VariableDeclaration(VariableDeclaration),
    FunctionDeclaration(Boxed<Function>),
}

#[derive(Drop)]
pub struct ExportDeclaration<D = Declaration> {
    pub span: Span,
    pub declaration: D,
}

/// A module.
#[derive(Drop)]
pub struct Program {
    pub span: Span,
    pub hashbang: Option<Ident>,
    pub directives: Items<Directive>,
    pub body: Items<Statement>,
    pub scope_id: Option<ScopeId>,
}
