use crate::kinds::KINDS;
use js_tree::{Ident, Items, Kind, Node, RegExpFlags, Span, Texts, Word};
use std::alloc::{AllocError, Global};
use std::process::Abort;
use std::test::Fail;

/// Texts of each form, by turns.
fn texts(alloc: Global, turn: usize) -> Result<Texts, AllocError> {
    Ok(match turn % 7 {
        0 => Texts::None,
        1 => Texts::Text(Ident::new(alloc, "name")?),
        2 => Texts::RegExp(RegExpFlags::G, Ident::new(alloc, "a+")?),
        3 => Texts::One(Word::Const),
        4 => Texts::Two(Word::Async, Word::Star),
        5 => Texts::Three(Word::Get, Word::Unset, Word::Static),
        _ => Texts::Four(Word::Init, Word::Method, Word::Unset, Word::Computed),
    })
}

/// A node of the kind, over a node, a list of one and a part that is absent.
fn tree(alloc: Global, kind: Kind, turn: usize) -> Result<Node, AllocError> {
    let mut items = Items::new(alloc);
    items.push(Node::leaf(alloc, kind, texts(alloc, turn)?))?;
    let name = Node::identifier(alloc, Ident::new(alloc, "callee")?);
    let texts = texts(alloc, turn)?;
    let mut node = Node::of_three(
        alloc,
        kind,
        texts,
        name,
        Node::list(items),
        Node::absent(alloc),
    )?;
    node.set_span(Span { start: 3, end: 14 });
    node.set_id(7);
    Ok(node)
}

/// Two nodes agree in all but their parts, and have as many of these.
fn expect_alike(rt: &impl Abort, one: &Node, other: &Node) {
    assert_eq!(rt; one.form(), other.form());
    assert_eq!(rt; one.span(), other.span());
    assert_eq!(rt; one.id(), other.id());
    assert_eq!(rt; one.text(), other.text());
    assert_eq!(rt; one.texts().words(), other.texts().words());
    assert_eq!(rt; one.kid_count(), other.kid_count());
}

/// Puts the parts of two nodes with those that are still to be compared.
fn add_parts<'a>(
    pairs: &mut Vec<(&'a Node, &'a Node)>,
    one: &'a Node,
    other: &'a Node,
) -> Result<(), AllocError> {
    for (left, right) in one.kids().iter().zip(other.kids()) {
        pairs.push((left, right))?;
    }
    Ok(())
}

/// Two trees of at most so many nodes agree.
fn expect_equal(
    rt: &impl Abort,
    alloc: Global,
    one: &Node,
    other: &Node,
    most: usize,
) -> Result<(), AllocError> {
    let mut pairs = Vec::new(alloc);
    pairs.push((one, other))?;
    for _ in 0..most {
        if let Some((left, right)) = pairs.pop() {
            expect_alike(rt, left, right);
            add_parts(&mut pairs, left, right)?;
        }
    }
    assert!(rt; pairs.is_empty(), "more nodes than that");
    Ok(())
}

#[test]
fn a_tree_of_each_kind_is_copied(rt: HostRuntime) -> Result<(), Fail> {
    let alloc = rt.alloc();
    for (turn, (_, kind)) in KINDS.iter().enumerate() {
        let tree = tree(alloc, *kind, turn)?;
        let copy = tree.try_clone(alloc)?;
        assert!(rt; copy.is(*kind), "another kind");
        assert_eq!(rt; copy.id(), Some(7));
        expect_equal(&rt, alloc, &tree, &copy, 5)?;
        drop(tree);
        assert_eq!(rt; copy.kid_count(), 3);
    }
    Ok(())
}
