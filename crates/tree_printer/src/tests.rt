use crate::print_module;
use js_tree::{Ident, Items, Kind, Node, Texts, Word};
use std::alloc::{AllocError, Global};
use std::process::Abort;

/// A module with one statement, an expression.
fn module_of(alloc: Global, expression: Node) -> Result<Node, AllocError> {
    let statement = Node::of_one(alloc, Kind::ExpressionStatement, Texts::None, expression)?;
    let mut statements = Items::new(alloc);
    statements.push(statement)?;
    let directives = Node::empty_list(alloc);
    Node::of_two(
        alloc,
        Kind::Program,
        Texts::None,
        directives,
        Node::list(statements),
    )
}

/// A string with two signs before it.
fn negated(alloc: Global, value: &str) -> Result<Node, AllocError> {
    let value = Ident::new(alloc, value)?;
    let mut node = Node::leaf(alloc, Kind::StringLiteral, Texts::Text(value));
    for _ in 0..2 {
        node = Node::of_one(alloc, Kind::UnaryExpression, Texts::One(Word::Minus), node)?;
    }
    Ok(node)
}

/// A name in so many arrays.
fn nested(alloc: Global, depth: usize) -> Result<Node, AllocError> {
    let mut node = Node::identifier(alloc, Ident::new(alloc, "a")?);
    for _ in 0..depth {
        let mut items = Items::new(alloc);
        items.push(node)?;
        node = Node::of_list(alloc, Kind::ArrayExpression, Texts::None, items)?;
    }
    Ok(node)
}

fn print_negated(alloc: Global, value: &str) -> Result<String, AllocError> {
    let tree = module_of(alloc, negated(alloc, value)?)?;
    print_module(alloc, &tree)
}

fn print_nested(alloc: Global, depth: usize) -> Result<String, AllocError> {
    let tree = module_of(alloc, nested(alloc, depth)?)?;
    print_module(alloc, &tree)
}

#[test]
fn modules(rt: HostRuntime) {
    match print_negated(rt.alloc(), "it's") {
        Ok(text) => assert!(rt; text.as_str() == "- -'it\\'s';\n"),
        Err(_) => panic!(rt; "no memory"),
    }
}

/// Trees of the greatest depth that is read fit the stack.
#[test]
fn deep_modules(rt: HostRuntime) {
    match print_nested(rt.alloc(), 512) {
        Ok(text) => assert!(rt; text.len() == 1027),
        Err(_) => panic!(rt; "no memory"),
    }
}
