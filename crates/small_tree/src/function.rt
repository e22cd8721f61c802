use crate::id::{BindingIdentifier, ScopeId, Span};
use crate::statement::Statement;
use js_ident::Ident;
use js_items::Items;

/// A directive, as it is written, with its quotes.
#[derive(Clone, Debug, Drop)]
pub struct Directive {
    pub span: Span,
    pub raw: Ident,
}

#[derive(Drop)]
pub struct FunctionBody<S = Statement> {
    pub span: Span,
    pub directives: Items<Directive>,
    pub statements: Items<S>,
}

/// What a declaration binds.
#[derive(Clone, Debug, Drop)]
pub enum BindingPattern {
    BindingIdentifier(BindingIdentifier),
}

#[derive(Clone, Debug, Drop)]
pub struct FormalParameter<P = BindingPattern> {
    pub span: Span,
    pub pattern: P,
}

/// The parameters of a function, with the parentheses round them.
#[derive(Debug, Drop)]
pub struct FormalParameters<P = BindingPattern> {
    pub span: Span,
    pub items: Items<FormalParameter<P>>,
}

#[derive(Clone, Copy, Debug, PartialEq, Eq)]
pub enum FunctionKind {
    FunctionDeclaration,
    FunctionExpression,
}

#[cycle(tree)]
#[derive(Drop)]
pub struct Function {
    pub span: Span,
    pub kind: FunctionKind,
    pub id: Option<BindingIdentifier>,
    pub is_async: bool,
    pub is_generator: bool,
    pub params: FormalParameters,
    pub body: FunctionBody,
    pub scope_id: Option<ScopeId>,
}
