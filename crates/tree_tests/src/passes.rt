//! `x(x, y)` and `(function x() { x(x, y) })(x)`, read with `x` imported from `m`.

use crate::build::leaf;
use crate::hiding::read_visible;
use crate::identifiers::{Identifiers, collect_identifiers};
use crate::nesting::{TooDeep, measure_nesting};
use crate::reading::{Import, read_all};
use js_ident::Ident;
use js_items::Items;
use js_term::Kind;
use js_tree::{Form, Node, Texts, Word};
use std::alloc::{AllocError, Global};

fn import(alloc: Global) -> Result<Import, AllocError> {
    let mut names = Items::new(alloc);
    names.push(Ident::new(alloc, "x")?)?;
    let source = Ident::new(alloc, "m")?;
    Ok(Import { names, source })
}

/// A call of the one with the other as its argument.
fn call(alloc: Global, callee: Node, argument: Node) -> Result<Node, AllocError> {
    let mut arguments = Items::with_capacity(alloc, 1)?;
    arguments.push(argument)?;
    Node::call(alloc, callee, arguments)
}

/// `x(y)`
fn call_of_x(alloc: Global) -> Result<Node, AllocError> {
    let callee = leaf(alloc, Kind::Identifier, "x")?;
    let argument = leaf(alloc, Kind::Identifier, "y")?;
    call(alloc, callee, argument)
}

/// A function expression of this name, with one part behind it.
fn function(alloc: Global, name: &str, part: Node) -> Result<Node, AllocError> {
    let name = leaf(alloc, Kind::BindingIdentifier, name)?;
    Node::of_two(
        alloc,
        Kind::FunctionExpression,
        Texts::Two(Word::Unset, Word::Unset),
        name,
        part,
    )
}

/// The names of the identifiers, one behind the other.
fn identifiers(alloc: Global, node: &Node) -> Result<String, AllocError> {
    let mut found = Identifiers {
        names: Items::new(alloc),
    };
    collect_identifiers(&mut found, node)?;
    let mut text = String::new(alloc);
    for name in found.names.as_slice() {
        text.push_str(name.as_str())?;
    }
    Ok(text)
}

fn callee_form(node: &Node) -> Form {
    match node.kid(0) {
        Some(callee) => callee.form(),
        None => Form::Absent,
    }
}

#[test]
fn reads_a_name_by_its_place(rt: HostRuntime) -> Result<(), AllocError> {
    let alloc = rt.alloc();
    let argument = call_of_x(alloc)?;
    let callee = leaf(alloc, Kind::Identifier, "x")?;
    let mut node = call(alloc, callee, argument)?;
    assert_eq!(rt; identifiers(alloc, &node)?.as_str(), "xxy");
    let mut import = import(alloc)?;
    read_all(alloc, &mut import, &mut node)?;
    assert_eq!(rt; identifiers(alloc, &node)?.as_str(), "mmy");
    assert!(rt; callee_form(&node) == Form::Node(Kind::SequenceExpression));
    Ok(())
}

#[test]
fn leaves_a_name_that_a_function_hides(rt: HostRuntime) -> Result<(), AllocError> {
    let alloc = rt.alloc();
    for (name, want) in [("x", "xym"), ("f", "mym")] {
        let body = call_of_x(alloc)?;
        let callee = function(alloc, name, body)?;
        let argument = leaf(alloc, Kind::Identifier, "x")?;
        let mut node = call(alloc, callee, argument)?;
        read_visible(alloc, import(alloc)?, &mut node)?;
        assert_eq!(rt; identifiers(alloc, &node)?.as_str(), want, "inside {name}");
    }
    Ok(())
}

fn nest(alloc: Global, levels: u32) -> Result<Node, AllocError> {
    let mut node = leaf(alloc, Kind::Identifier, "x")?;
    for _ in 0..levels {
        node = Node::await_expression(alloc, node)?;
    }
    Ok(node)
}

#[test]
fn goes_down_four_thousand_levels(rt: HostRuntime) -> Result<(), AllocError> {
    let alloc = rt.alloc();
    let mut node = nest(alloc, 4095)?;
    let mut import = import(alloc)?;
    read_all(alloc, &mut import, &mut node)?;
    match measure_nesting(&node) {
        Ok(levels) => assert_eq!(rt; levels, 4097),
        Err(TooDeep) => panic!(rt; "too deep"),
    }
    Ok(())
}
