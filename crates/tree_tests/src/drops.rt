use js_tree::{Items, Node};
use std::alloc::{AllocError, Global};
use std::mem::size_of;
use std::test::Fail;

/// `null` in as many parentheses.
fn nested(alloc: Global, depth: usize) -> Result<Node, AllocError> {
    let mut tree = Node::null_literal(alloc);
    for _ in 0..depth {
        tree = Node::parenthesized(alloc, tree)?;
    }
    Ok(tree)
}

/// As deep, with a name on one side of each level, by turns on the left and on the right.
fn comb(alloc: Global, depth: usize) -> Result<Node, AllocError> {
    let mut tree = Node::null_literal(alloc);
    for i in 0..depth {
        let leaf = Node::this_expression(alloc);
        tree = if i % 2 == 0 {
            Node::computed_member(alloc, leaf, tree)?
        } else {
            Node::computed_member(alloc, tree, leaf)?
        };
    }
    Ok(tree)
}

#[test]
fn a_deep_tree_is_dropped(rt: HostRuntime) -> Result<(), Fail> {
    let alloc = rt.alloc();
    drop(nested(alloc, 100000)?);
    drop(nested(alloc, 1000000)?);
    Ok(())
}

#[test]
fn a_comb_is_dropped(rt: HostRuntime) -> Result<(), Fail> {
    drop(comb(rt.alloc(), 500000)?);
    Ok(())
}

#[test]
fn a_long_list_is_dropped(rt: HostRuntime) -> Result<(), Fail> {
    let alloc = rt.alloc();
    let mut items = Items::with_capacity(alloc, 1000000)?;
    for _ in 0..1000000 {
        items.push(Node::this_expression(alloc))?;
    }
    let list = Node::list(items);
    assert_eq!(rt; list.kid_count(), 1000000);
    drop(list);
    Ok(())
}

#[test]
fn a_node_is_small(rt: HostRuntime) -> Result<(), Fail> {
    let size = size_of::<Node>();
    assert!(rt; size <= 64, "a node of {size} bytes");
    Ok(())
}
