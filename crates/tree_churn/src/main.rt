//! Makes and drops trees: by the words behind the program's name, so many rounds of a tree of so many statements.
#![tactic(auto)]

use js_tree::{Ident, Items, Kind, Node, Texts, Word};
use std::alloc::{AllocError, Global};
use std::{env, io};

/// `name(+name);`, a statement of six nodes and lists.
fn statement(alloc: Global, name: &Ident) -> Result<Node, AllocError> {
    let operand = Node::identifier(alloc, name.clone()?);
    let argument = Node::of_one(
        alloc,
        Kind::UnaryExpression,
        Texts::One(Word::Plus),
        operand,
    )?;
    let mut arguments = Items::with_capacity(alloc, 1)?;
    arguments.push(argument)?;
    let callee = Node::identifier(alloc, name.clone()?);
    Node::expression_statement(alloc, Node::call(alloc, callee, arguments)?)
}

fn program(alloc: Global, statements: usize) -> Result<Node, AllocError> {
    let name = Ident::new(alloc, "name")?;
    let mut body = Items::with_capacity(alloc, statements)?;
    for _ in 0..statements {
        body.push(statement(alloc, &name)?)?;
    }
    Node::program(alloc, Items::new(alloc), body)
}

/// The number that the word numbered `n` behind the program's name says, or 1.
fn number(rt: &HostRuntime, n: usize) -> io::Result<u32> {
    match env::args(rt)?.nth(n) {
        Some(word) => Ok(word.parse::<u32>().unwrap_or(1)),
        None => Ok(1),
    }
}

fn main(rt: HostRuntime) -> io::Result<()> {
    let rounds = number(&rt, 1)?;
    let statements = number(&rt, 2)?;
    for _ in 0..rounds {
        drop(program(rt.alloc(), statements as usize)?);
    }
    println!(rt; "{rounds} rounds of {statements} statements")?;
    Ok(())
}
