use crate::{JoinedParts, UidFault, UidGenerator, get_var_name_from_node, to_identifier};
use js_ident::Ident;
use small_tree::{IdentifierName, Span};
use std::alloc::Global;
use std::process::Abort;
use std::test::Fail;

/// Catalogues the names, and draws a name for each base.
#[tactic(auto, using(crate::proofs::Cut::few_underscores))]
fn expect_drawn(
    rt: &impl Abort,
    alloc: Global,
    names: &[&str],
    bases: &[(&str, &str)],
) -> Result<(), Fail> {
    let mut generator = UidGenerator::empty(alloc);
    for name in names {
        if name.len() < 100 {
            generator.add(*name)?;
        }
    }
    for (base, wanted) in bases {
        match generator.create(*base) {
            Ok(name) => assert_eq!(rt; name.as_str(), *wanted),
            Err(_) => panic!(rt; "no name"),
        }
    }
    Ok(())
}

#[test]
fn names_are_drawn_in_turn(rt: HostRuntime) -> Result<(), Fail> {
    let alloc = rt.alloc();
    let foo = [("foo", "_foo"), ("foo", "_foo2"), ("foo", "_foo3")];
    expect_drawn(&rt, alloc, &[], &foo)?;
    let without = ["foo", "foo0", "foo1", "foo2", "foo10", "_bar"];
    expect_drawn(&rt, alloc, &without, &foo)?;
    let zeros = [
        "_foo0",
        "_foo1",
        "__foo0",
        "____foo1",
        "_foo01",
        "_foo012345",
        "_foo000000",
    ];
    expect_drawn(&rt, alloc, &zeros, &foo)?;
    let same = [
        ("_foo123", "_foo"),
        ("__foo456", "_foo2"),
        ("_____foo789", "_foo3"),
    ];
    expect_drawn(&rt, alloc, &[], &same)?;
    expect_drawn(&rt, alloc, &["_foo3"], &[("foo", "_foo4")])?;
    expect_drawn(&rt, alloc, &["__foo8"], &[("foo", "__foo9")])?;
    expect_drawn(&rt, alloc, &[], &[("_", "_"), ("_", "_2"), ("_", "_3")])?;
    expect_drawn(&rt, alloc, &["___99"], &[("_", "___100")])?;
    let greatest = [
        ("foo", "____foo2"),
        ("foo", "____foo3"),
        ("foo", "____foo4"),
    ];
    expect_drawn(&rt, alloc, &["_foo999", "____foo"], &greatest)?;
    expect_drawn(&rt, alloc, &["_"], &[("_123", "_2"), ("__456", "_3")])
}

#[test]
fn underscores_follow_the_last_postfix(rt: HostRuntime) -> Result<(), Fail> {
    let late = [
        ("foo", "_foo4294967294"),
        ("foo", "_foo4294967295"),
        ("foo", "__foo2"),
        ("foo", "__foo3"),
    ];
    expect_drawn(&rt, rt.alloc(), &["_foo4294967293"], &late)
}

#[test]
fn no_name_follows_the_last(rt: HostRuntime) -> Result<(), Fail> {
    let mut generator = UidGenerator::empty(rt.alloc());
    generator.add_pair("foo", u32::MAX, u32::MAX)?;
    match generator.create("foo") {
        Err(UidFault::TooMany) => {}
        _ => panic!(rt; "a name was drawn"),
    }
    Ok(())
}

fn expect_identifier(rt: &impl Abort, alloc: Global, table: &[(&str, &str)]) -> Result<(), Fail> {
    for (text, wanted) in table {
        let name = to_identifier(alloc, String::from_str(alloc, *text)?)?;
        assert_eq!(rt; name.as_str(), *wanted);
    }
    Ok(())
}

#[test]
fn texts_become_identifiers(rt: HostRuntime) -> Result<(), Fail> {
    let table = [
        ("foo", "foo"),
        ("fooBar", "fooBar"),
        ("fooBar1", "fooBar1"),
        ("foo-bar", "fooBar"),
        ("foo bar", "fooBar"),
        ("foo-bar-1", "fooBar1"),
        ("1foo-bar", "FooBar"),
        ("1-foo-bar", "FooBar"),
        (
            "_output$headers$x-amzn-requestid",
            "_output$headers$xAmznRequestid",
        ),
        ("-- --", "_"),
        ("12", "2"),
    ];
    expect_identifier(&rt, rt.alloc(), &table)
}

fn expect_name(rt: &impl Abort, alloc: Global, parts: &[&str], wanted: &str) -> Result<(), Fail> {
    let mut joined = JoinedParts::new(alloc);
    for part in parts {
        joined.push(*part)?;
    }
    let name = joined.finish(alloc)?;
    assert_eq!(rt; name.as_str(), wanted);
    Ok(())
}

#[test]
fn parts_are_joined(rt: HostRuntime) -> Result<(), Fail> {
    let table: [(&[&str], &str); 10] = [
        (&["___abcdefghijklmnopqrstu"], "abcdefghijklmnopqrst"),
        (&["xαβγδεζηθικ"], "xαβγδεζηθι"),
        (&["xx가나다라마바사"], "xx가나다라마바"),
        (&["foo", ""], "foo$"),
        (&["___", "___"], "ref"),
        (&["1foo", "bar"], "Foo$bar"),
        (&["foo", "bar qux grep"], "foo$barQuxGrep"),
        (&["ab", "αβγδεζηθικ"], "ab$αβγδεζηθ"),
        (&["abcdefghijklmnopqrs", "x"], "abcdefghijklmnopqrs$"),
        (&["_foo", "_bar"], "foo$_bar"),
    ];
    for (parts, wanted) in table {
        expect_name(&rt, rt.alloc(), parts, wanted)?;
    }
    Ok(())
}

#[test]
fn a_node_is_named_by_its_parts(rt: HostRuntime) -> Result<(), Fail> {
    let table = [
        ("___abcdefghijklmnopqrstu", "abcdefghijklmnopqrst"),
        ("xαβγδεζηθικ", "xαβγδεζηθι"),
        ("xx가나다라마바사", "xx가나다라마바"),
        ("___", "ref"),
    ];
    for (text, wanted) in table {
        let node = IdentifierName {
            span: Span { start: 0, end: 0 },
            name: Ident::new(rt.alloc(), text)?,
        };
        let name = get_var_name_from_node(rt.alloc(), &node)?;
        assert_eq!(rt; name.as_str(), wanted);
    }
    Ok(())
}
