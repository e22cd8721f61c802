ghost use Rattle.std.specs.Prelude.{◌≡◌};
ghost use Rattle.js_term.specs.Kinds.{is_among};
ghost use Rattle.js_syntax.specs.Sorts.{plain_statements, named_declarations, is_statement, module_declarations, import_specifiers, class_elements, members, calls, literals, primaries, operations, is_expression, patterns, is_simple_target, target_patterns, is_target, plain_keys};

use js_term::{Kind, is_kind};

pub fn is_plain_statement(kind: Kind) -> bool
    ensures { result ≡ is_among kind plain_statements }
{
    matches!(
        kind,
        Kind::BlockStatement
            | Kind::BreakStatement
            | Kind::ContinueStatement
            | Kind::DebuggerStatement
            | Kind::DoWhileStatement
            | Kind::EmptyStatement
            | Kind::ExpressionStatement
            | Kind::ForInStatement
            | Kind::ForOfStatement
            | Kind::ForStatement
            | Kind::IfStatement
            | Kind::LabeledStatement
            | Kind::ReturnStatement
            | Kind::SwitchStatement
            | Kind::ThrowStatement
            | Kind::TryStatement
            | Kind::WhileStatement
            | Kind::VariableDeclaration
    )
}

pub fn is_named_declaration(kind: Kind) -> bool
    ensures { result ≡ is_among kind named_declarations }
{
    matches!(kind, Kind::FunctionDeclaration | Kind::ClassDeclaration)
}

pub fn is_statement(kind: Kind) -> bool
    ensures { result ≡ is_statement kind }
{
    is_named_declaration(kind) || is_plain_statement(kind)
}

pub fn is_module_declaration(kind: Kind) -> bool
    ensures { result ≡ is_among kind module_declarations }
{
    matches!(
        kind,
        Kind::ImportDeclaration
            | Kind::ExportAllDeclaration
            | Kind::ExportNamedDeclaration
            | Kind::ExportFromDeclaration
            | Kind::ExportDeclaration
            | Kind::ExportDefaultDeclaration
    )
}

pub fn is_import_specifier(kind: Kind) -> bool
    ensures { result ≡ is_among kind import_specifiers }
{
    matches!(
        kind,
        Kind::ImportSpecifier | Kind::ImportDefaultSpecifier | Kind::ImportNamespaceSpecifier
    )
}

pub fn is_class_element(kind: Kind) -> bool
    ensures { result ≡ is_among kind class_elements }
{
    matches!(
        kind,
        Kind::StaticBlock | Kind::MethodDefinition | Kind::PropertyDefinition
    )
}

pub fn is_member(kind: Kind) -> bool
    ensures { result ≡ is_among kind members }
{
    matches!(
        kind,
        Kind::StaticMemberExpression | Kind::ComputedMemberExpression | Kind::PrivateFieldExpression
    )
}

pub fn is_call(kind: Kind) -> bool
    ensures { result ≡ is_among kind calls }
{
    matches!(
        kind,
        Kind::CallExpression
            | Kind::NewExpression
            | Kind::ImportExpression
            | Kind::TaggedTemplateExpression
            | Kind::ChainExpression
    )
}

pub fn is_literal(kind: Kind) -> bool
    ensures { result ≡ is_among kind literals }
{
    matches!(
        kind,
        Kind::StringLiteral
            | Kind::NumericLiteral
            | Kind::BigIntLiteral
            | Kind::BooleanLiteral
            | Kind::NullLiteral
            | Kind::RegExpLiteral
            | Kind::TemplateLiteral
    )
}

pub fn is_primary(kind: Kind) -> bool
    ensures { result ≡ is_among kind primaries }
{
    matches!(
        kind,
        Kind::Identifier
            | Kind::ThisExpression
            | Kind::FunctionExpression
            | Kind::ClassExpression
            | Kind::ArrayExpression
            | Kind::ObjectExpression
            | Kind::ParenthesizedExpression
            | Kind::ImportMeta
            | Kind::NewTarget
    )
}

pub fn is_operation(kind: Kind) -> bool
    ensures { result ≡ is_among kind operations }
{
    matches!(
        kind,
        Kind::UpdateExpression
            | Kind::UnaryExpression
            | Kind::AwaitExpression
            | Kind::BinaryExpression
            | Kind::PrivateInExpression
            | Kind::LogicalExpression
            | Kind::ConditionalExpression
            | Kind::AssignmentExpression
            | Kind::ArrowFunctionExpression
            | Kind::YieldExpression
            | Kind::SequenceExpression
    )
}

pub fn is_expression(kind: Kind) -> bool
    ensures { result ≡ is_expression kind }
{
    is_member(kind) || is_call(kind) || is_literal(kind) || is_primary(kind) || is_operation(kind)
}

pub fn is_pattern(kind: Kind) -> bool
    ensures { result ≡ is_among kind patterns }
{
    matches!(
        kind,
        Kind::BindingIdentifier | Kind::ObjectPattern | Kind::ArrayPattern
    )
}

pub fn is_simple_target(kind: Kind) -> bool
    ensures { result ≡ is_simple_target kind }
{
    is_kind(kind, Kind::Identifier) || is_member(kind)
}

pub fn is_target_pattern(kind: Kind) -> bool
    ensures { result ≡ is_among kind target_patterns }
{
    matches!(
        kind,
        Kind::ArrayAssignmentTarget | Kind::ObjectAssignmentTarget
    )
}

pub fn is_target(kind: Kind) -> bool
    ensures { result ≡ is_target kind }
{
    is_target_pattern(kind) || is_simple_target(kind)
}

pub fn is_plain_key(kind: Kind) -> bool
    ensures { result ≡ is_among kind plain_keys }
{
    matches!(
        kind,
        Kind::IdentifierName | Kind::StringLiteral | Kind::NumericLiteral | Kind::BigIntLiteral
    )
}
