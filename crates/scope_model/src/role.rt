ghost use Rattle.std.specs.Prelude.{◌≡◌};
ghost use Rattle.scope_model.specs.Roles.{role};

use js_term::Kind;

/// The part that a kind of node plays in scoping.
#[derive(Clone, Copy, Debug, PartialEq, Eq)]
pub enum Role {
    /// A name that is looked up.
    Reference,
    /// A name that is bound.
    Binding,
    /// What holds bound names: patterns, declarators, parameters.
    Pattern,
    Parameters,
    VariableDeclaration,
    FunctionDeclaration,
    ClassDeclaration,
    FunctionExpression,
    Arrow,
    ClassExpression,
    Field,
    StaticBlock,
    /// A statement that holds others and opens no scope.
    Statement,
    Block,
    Loop,
    Switch,
    Case,
    CatchClause,
    /// The statements of a function.
    Body,
    Program,
    /// An export of a declaration.
    Export,
    Import,
    /// A request that binds nothing here: an export with a source.
    ExportFrom,
    ImportSpecifier,
    DefaultSpecifier,
    NamespaceSpecifier,
    Other,
}

/// The part that a node of this kind plays in scoping.
pub fn role_of(kind: Kind) -> Role
    ensures { result ≡ role kind }
{
    match kind {
        Kind::Identifier => Role::Reference,
        Kind::BindingIdentifier => Role::Binding,
        Kind::ObjectPattern
        | Kind::BindingProperty
        | Kind::ArrayPattern
        | Kind::AssignmentPattern
        | Kind::BindingRestElement
        | Kind::VariableDeclarator
        | Kind::FormalParameter
        | Kind::FormalParameterRest
        | Kind::CatchParameter => Role::Pattern,
        Kind::FormalParameters => Role::Parameters,
        Kind::VariableDeclaration => Role::VariableDeclaration,
        Kind::FunctionDeclaration => Role::FunctionDeclaration,
        Kind::ClassDeclaration => Role::ClassDeclaration,
        Kind::FunctionExpression => Role::FunctionExpression,
        Kind::ArrowFunctionExpression => Role::Arrow,
        Kind::ClassExpression => Role::ClassExpression,
        Kind::PropertyDefinition => Role::Field,
        Kind::StaticBlock => Role::StaticBlock,
        Kind::DoWhileStatement
        | Kind::IfStatement
        | Kind::LabeledStatement
        | Kind::TryStatement
        | Kind::WhileStatement => Role::Statement,
        Kind::BlockStatement => Role::Block,
        Kind::ForInStatement | Kind::ForOfStatement | Kind::ForStatement => Role::Loop,
        Kind::SwitchStatement => Role::Switch,
        Kind::SwitchCase => Role::Case,
        Kind::CatchClause => Role::CatchClause,
        Kind::FunctionBody => Role::Body,
        Kind::Program => Role::Program,
        Kind::ExportDeclaration | Kind::ExportDefaultDeclaration => Role::Export,
        Kind::ImportDeclaration => Role::Import,
        Kind::ExportAllDeclaration | Kind::ExportFromDeclaration => Role::ExportFrom,
        Kind::ImportSpecifier => Role::ImportSpecifier,
        Kind::ImportDefaultSpecifier => Role::DefaultSpecifier,
        Kind::ImportNamespaceSpecifier => Role::NamespaceSpecifier,
        _ => Role::Other,
    }
}
