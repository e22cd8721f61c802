ghost use Rattle.std.specs.Prelude.{◌≡◌};
ghost use Rattle.js_term.specs.Kinds.{is_kind};
ghost use Rattle.js_syntax.specs.Sorts.{takes};
ghost use Rattle.js_rules.specs.SortsSeen.{sort_seen};

use crate::groups::{
    is_class_element, is_expression, is_import_specifier, is_member, is_module_declaration,
    is_named_declaration, is_pattern, is_plain_key, is_plain_statement, is_simple_target,
    is_statement, is_target,
};
use js_term::{Kind, is_kind};

/// What a place asks for.
#[derive(Clone, Copy)]
pub enum Sort {
    /// A node of this kind.
    Only(Kind),
    /// An item of a module's own list: an import, an export or a statement.
    ModuleItem,
    /// An item of any other list of statements.
    Statement,
    /// The statement of an `if`, a loop or a label.
    Body,
    /// The first part of a plain `for`.
    ForInit,
    /// What stands before `in` and `of`.
    ForLeft,
    /// The declarator that stands there.
    ForDeclarator,
    ImportSpecifier,
    ExportFromSpecifier,
    ModuleExportName,
    LocalExportName,
    Exported,
    ExportedDefault,
    ArrowBody,
    /// The function of a method.
    Method,
    /// The function of a constructor, a getter or a setter.
    PlainMethod,
    ClassElement,
    ClassKey,
    Pattern,
    PatternElement,
    /// The rest of an object's pattern, which is a plain name.
    ObjectRest,
    SimpleTarget,
    Target,
    TargetElement,
    ObjectTargetRest,
    Expression,
    /// An expression or `super`.
    Object,
    /// An argument or an element.
    Argument,
    Property,
    Key,
    ChainElement,
    /// A text of a template without a tag.
    TemplateText,
    TaggedTemplate,
}

/// A place for one part, for one or none, for none; for a list, for a list of one or more, of just one, of two or more,
/// of some with gaps between them, for a list or none. Nothing stands nowhere.
#[derive(Clone, Copy)]
pub enum Place {
    One(Sort),
    Optional(Sort),
    Nothing,
    Many(Sort),
    Some(Sort),
    Single(Sort),
    Several(Sort),
    Spaced(Sort),
    OptionalList(Sort),
    Nowhere,
}

/// Whether nodes of the kind stand at the sort.
pub fn takes(sort: Sort, kind: Kind) -> bool
    ensures { result ≡ takes (sort_seen sort) kind }
{
    let is = |other: Kind| -> bool
        ensures { result ≡ is_kind kind other }
    { is_kind(kind, other) };
    match sort {
        Sort::Only(only) => is(only),
        Sort::ModuleItem => is_module_declaration(kind) || is_statement(kind),
        Sort::Statement => is_statement(kind),
        Sort::Body => is_plain_statement(kind),
        Sort::ForInit => is(Kind::VariableDeclaration) || is_expression(kind),
        Sort::ForLeft => is(Kind::VariableDeclaration) || is_target(kind),
        Sort::ForDeclarator => is(Kind::VariableDeclarator),
        Sort::ImportSpecifier => is_import_specifier(kind),
        Sort::ExportFromSpecifier => is(Kind::ExportSpecifier),
        Sort::ModuleExportName => is(Kind::IdentifierName) || is(Kind::StringLiteral),
        Sort::LocalExportName => is(Kind::Identifier) || is(Kind::StringLiteral),
        Sort::Exported => is(Kind::VariableDeclaration) || is_named_declaration(kind),
        Sort::ExportedDefault => is_named_declaration(kind) || is_expression(kind),
        Sort::ArrowBody => is(Kind::FunctionBody) || is_expression(kind),
        Sort::Method | Sort::PlainMethod => is(Kind::FunctionExpression),
        Sort::ClassElement => is_class_element(kind),
        Sort::ClassKey => is(Kind::PrivateIdentifier) || is_plain_key(kind),
        Sort::Pattern => is_pattern(kind),
        Sort::PatternElement => is(Kind::AssignmentPattern) || is_pattern(kind),
        Sort::ObjectRest => is(Kind::BindingRestElement),
        Sort::SimpleTarget => is_simple_target(kind),
        Sort::Target => is_target(kind),
        Sort::TargetElement => is(Kind::AssignmentTargetWithDefault) || is_target(kind),
        Sort::ObjectTargetRest => is(Kind::AssignmentTargetRest),
        Sort::Expression => is_expression(kind),
        Sort::Object => is(Kind::Super) || is_expression(kind),
        Sort::Argument => is(Kind::SpreadElement) || is_expression(kind),
        Sort::Property => is(Kind::ObjectProperty) || is(Kind::SpreadElement),
        Sort::Key => is_plain_key(kind),
        Sort::ChainElement => is(Kind::CallExpression) || is_member(kind),
        Sort::TemplateText => is(Kind::TemplateElement),
        Sort::TaggedTemplate => is(Kind::TemplateLiteral),
    }
}
