use crate::bound_text::joined_names;
use js_tree::{FunctionFlags, Ident, Items, Kind, Node, Texts, VariableDeclarationKind, Word};
use std::alloc::{AllocError, Global};
use std::process::Abort;
use std::test::Fail;

fn bound(alloc: Global, name: &str) -> Result<Node, AllocError> {
    Ok(Node::binding_identifier(alloc, Ident::new(alloc, name)?))
}

fn key(alloc: Global, name: &str) -> Result<Node, AllocError> {
    Ok(Node::identifier_name(alloc, Ident::new(alloc, name)?))
}

fn rest(alloc: Global, name: &str) -> Result<Node, AllocError> {
    let name = bound(alloc, name)?;
    Node::of_one(alloc, Kind::BindingRestElement, Texts::None, name)
}

/// `[a = x, , ...b]`
fn array_pattern(alloc: Global) -> Result<Node, AllocError> {
    let value = Node::identifier(alloc, Ident::new(alloc, "x")?);
    let name = bound(alloc, "a")?;
    let first = Node::of_two(alloc, Kind::AssignmentPattern, Texts::None, name, value)?;
    let mut elements = Items::new(alloc);
    elements.push(first)?;
    elements.push(Node::absent(alloc))?;
    let rest = rest(alloc, "b")?;
    Node::of_two(
        alloc,
        Kind::ArrayPattern,
        Texts::None,
        Node::list(elements),
        rest,
    )
}

/// `{ key: [a = x, , ...b], ...c }`
fn object_pattern(alloc: Global) -> Result<Node, AllocError> {
    let value = array_pattern(alloc)?;
    let key = key(alloc, "key")?;
    let texts = Texts::Two(Word::Unset, Word::Unset);
    let property = Node::of_two(alloc, Kind::BindingProperty, texts, key, value)?;
    let mut properties = Items::new(alloc);
    properties.push(property)?;
    let rest = rest(alloc, "c")?;
    Node::of_two(
        alloc,
        Kind::ObjectPattern,
        Texts::None,
        Node::list(properties),
        rest,
    )
}

fn expect_names(
    rt: &impl Abort,
    alloc: Global,
    node: &Node,
    wanted: &str,
) -> Result<(), AllocError> {
    let names = joined_names(alloc, node)?;
    assert_eq!(rt; names.as_str(), wanted);
    Ok(())
}

#[test]
fn names_of_variables_come_in_text_order(rt: HostRuntime) -> Result<(), Fail> {
    let alloc = rt.alloc();
    let mut declarations = Items::new(alloc);
    let init = Node::identifier(alloc, Ident::new(alloc, "value")?);
    declarations.push(Node::variable_declarator(alloc, object_pattern(alloc)?, init)?)?;
    declarations.push(Node::variable_declarator(alloc, bound(alloc, "d")?, Node::absent(alloc))?)?;
    let declaration = Node::variable_declaration(
        alloc,
        VariableDeclarationKind::Let,
        declarations,
    )?;
    expect_names(&rt, alloc, &declaration, " a b c d")?;
    Ok(())
}

/// `({ key: [a = x, , ...b], ...c }, ...d)`
fn parameters(alloc: Global) -> Result<Node, AllocError> {
    let first = Node::formal_parameter(alloc, object_pattern(alloc)?, Node::absent(alloc))?;
    let mut items = Items::new(alloc);
    items.push(first)?;
    let last = rest(alloc, "d")?;
    let last = Node::of_one(alloc, Kind::FormalParameterRest, Texts::None, last)?;
    Node::formal_parameters(alloc, items, last)
}

#[test]
fn names_of_functions_are_their_own(rt: HostRuntime) -> Result<(), Fail> {
    let alloc = rt.alloc();
    let params = parameters(alloc)?;
    expect_names(&rt, alloc, &params, " a b c d")?;
    let body = Node::function_body(alloc, Items::new(alloc), Items::new(alloc))?;
    let flags = FunctionFlags {
        is_async: false,
        is_generator: true,
    };
    let function = Node::function_declaration(alloc, flags, bound(alloc, "f")?, params, body)?;
    expect_names(&rt, alloc, &function, " f")?;
    Ok(())
}

#[test]
fn names_of_imports_are_the_local_ones(rt: HostRuntime) -> Result<(), Fail> {
    let alloc = rt.alloc();
    let whole = Node::of_one(
        alloc,
        Kind::ImportDefaultSpecifier,
        Texts::None,
        bound(alloc, "whole")?,
    )?;
    let one = Node::of_two(
        alloc,
        Kind::ImportSpecifier,
        Texts::None,
        key(alloc, "ref")?,
        bound(alloc, "local")?,
    )?;
    let mut specifiers = Items::new(alloc);
    specifiers.push(whole)?;
    specifiers.push(one)?;
    let source = Node::string_literal(alloc, Ident::new(alloc, "vue")?);
    let import = Node::of_two(
        alloc,
        Kind::ImportDeclaration,
        Texts::None,
        Node::list(specifiers),
        source,
    )?;
    expect_names(&rt, alloc, &import, " whole local")?;
    Ok(())
}
