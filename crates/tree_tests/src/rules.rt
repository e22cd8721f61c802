use crate::notation::{NotationError, read};
use crate::rows::{
    ACCESSOR_ROWS, ARGUMENTS_ROWS, AWAIT_ROWS, BINDING_ROWS, CLAUSE_ROWS, EXPORT_ROWS,
    FUNCTION_JUMP_ROWS, HERITAGE_ROWS, INITIALIZER_ROWS, ITEM_ROWS, JUMP_ROWS, LABEL_ROWS,
    PLACE_ROWS, PRIVATE_ROWS, RETURN_ROWS, Row, STATEMENT_ROWS, SUPER_CALL_ROWS, SUPER_ROWS,
    TARGET_ROWS, TEXT_ROWS, YIELD_ROWS,
};
use module_tree::ModuleTree;
use std::alloc::Global;
use std::process::Abort;
use std::test::Fail;

#[derive(Clone, Copy, PartialEq, Debug)]
enum Verdict {
    ModuleTree,
    Printable,
    Unprintable,
}

/// What the module of these statements is.
fn judged(alloc: Global, statements: &str) -> Result<Verdict, NotationError> {
    let program = format!(in alloc; "(Program [] [{statements}])")?;
    let tree = read(alloc, program.as_str())?;
    Ok(if tree.is_module_tree() {
        Verdict::ModuleTree
    } else if tree.is_printable() {
        Verdict::Printable
    } else {
        Verdict::Unprintable
    })
}

/// What a row's frame is with this in its gap.
fn judged_with(alloc: Global, row: &Row, part: &str) -> Result<Verdict, NotationError> {
    let (before, behind) = row.frame.split_once('@').unwrap_or((row.frame, ""));
    let statements = format!(in alloc; "{before}{part}{behind}")?;
    judged(alloc, statements.as_str())
}

fn assert_rows(
    rt: &impl Abort,
    alloc: Global,
    rows: &[Row],
    broken: Verdict,
) -> Result<(), NotationError> {
    for row in rows {
        assert_eq!(rt;
            judged_with(alloc, row, row.sound)?,
            Verdict::ModuleTree,
            "sound, {}",
            row.clause
        );
        assert_eq!(rt;
            judged_with(alloc, row, row.broken)?,
            broken,
            "broken, {}",
            row.clause
        );
    }
    Ok(())
}

#[test]
fn imports_and_exports(rt: HostRuntime) -> Result<(), Fail> {
    assert_rows(&rt, rt.alloc(), &ITEM_ROWS, Verdict::Unprintable)?;
    Ok(())
}

#[test]
fn exported_names(rt: HostRuntime) -> Result<(), Fail> {
    assert_rows(&rt, rt.alloc(), &EXPORT_ROWS, Verdict::Printable)?;
    Ok(())
}

#[test]
fn await_expressions(rt: HostRuntime) -> Result<(), Fail> {
    assert_rows(&rt, rt.alloc(), &AWAIT_ROWS, Verdict::Printable)?;
    Ok(())
}

#[test]
fn yield_expressions(rt: HostRuntime) -> Result<(), Fail> {
    assert_rows(&rt, rt.alloc(), &YIELD_ROWS, Verdict::Printable)?;
    Ok(())
}

#[test]
fn return_and_new_target(rt: HostRuntime) -> Result<(), Fail> {
    assert_rows(&rt, rt.alloc(), &RETURN_ROWS, Verdict::Printable)?;
    Ok(())
}

#[test]
fn super_members(rt: HostRuntime) -> Result<(), Fail> {
    assert_rows(&rt, rt.alloc(), &SUPER_ROWS, Verdict::Unprintable)?;
    Ok(())
}

#[test]
fn super_calls(rt: HostRuntime) -> Result<(), Fail> {
    assert_rows(&rt, rt.alloc(), &SUPER_CALL_ROWS, Verdict::Unprintable)?;
    Ok(())
}

#[test]
fn jumps(rt: HostRuntime) -> Result<(), Fail> {
    assert_rows(&rt, rt.alloc(), &JUMP_ROWS, Verdict::Printable)?;
    Ok(())
}

#[test]
fn labels(rt: HostRuntime) -> Result<(), Fail> {
    assert_rows(&rt, rt.alloc(), &LABEL_ROWS, Verdict::Printable)?;
    Ok(())
}

#[test]
fn jumps_in_functions(rt: HostRuntime) -> Result<(), Fail> {
    assert_rows(&rt, rt.alloc(), &FUNCTION_JUMP_ROWS, Verdict::Printable)?;
    Ok(())
}

#[test]
fn bindings(rt: HostRuntime) -> Result<(), Fail> {
    assert_rows(&rt, rt.alloc(), &BINDING_ROWS, Verdict::Printable)?;
    Ok(())
}

#[test]
fn targets(rt: HostRuntime) -> Result<(), Fail> {
    assert_rows(&rt, rt.alloc(), &TARGET_ROWS, Verdict::Printable)?;
    Ok(())
}

#[test]
fn arguments_in_classes(rt: HostRuntime) -> Result<(), Fail> {
    assert_rows(&rt, rt.alloc(), &ARGUMENTS_ROWS, Verdict::Printable)?;
    Ok(())
}

#[test]
fn private_names(rt: HostRuntime) -> Result<(), Fail> {
    assert_rows(&rt, rt.alloc(), &PRIVATE_ROWS, Verdict::Printable)?;
    Ok(())
}

#[test]
fn private_names_in_a_heritage(rt: HostRuntime) -> Result<(), Fail> {
    assert_rows(&rt, rt.alloc(), &HERITAGE_ROWS, Verdict::Printable)?;
    Ok(())
}

#[test]
fn accessors_and_constructors(rt: HostRuntime) -> Result<(), Fail> {
    assert_rows(&rt, rt.alloc(), &ACCESSOR_ROWS, Verdict::Printable)?;
    Ok(())
}

#[test]
fn initializers(rt: HostRuntime) -> Result<(), Fail> {
    assert_rows(&rt, rt.alloc(), &INITIALIZER_ROWS, Verdict::Printable)?;
    Ok(())
}

#[test]
fn sentences_on_statements(rt: HostRuntime) -> Result<(), Fail> {
    assert_rows(&rt, rt.alloc(), &STATEMENT_ROWS, Verdict::Unprintable)?;
    Ok(())
}

#[test]
fn sentences_on_clauses(rt: HostRuntime) -> Result<(), Fail> {
    assert_rows(&rt, rt.alloc(), &CLAUSE_ROWS, Verdict::Unprintable)?;
    Ok(())
}

#[test]
fn parts_at_their_places(rt: HostRuntime) -> Result<(), Fail> {
    assert_rows(&rt, rt.alloc(), &PLACE_ROWS, Verdict::Unprintable)?;
    Ok(())
}

#[test]
fn texts_of_kinds(rt: HostRuntime) -> Result<(), Fail> {
    assert_rows(&rt, rt.alloc(), &TEXT_ROWS, Verdict::Unprintable)?;
    Ok(())
}

#[test]
fn names_of_65535_bytes(rt: HostRuntime) -> Result<(), Fail> {
    for (bytes, expected) in [(65535, Verdict::ModuleTree), (65536, Verdict::Printable)] {
        let name = "a".repeat(rt.alloc(), bytes)?;
        let statement = format!(in rt.alloc(); "(ExpressionStatement (Identifier '{name}'))")?;
        assert_eq!(rt;
            judged(rt.alloc(), statement.as_str())?,
            expected,
            "{bytes}"
        );
    }
    Ok(())
}

#[test]
fn texts_that_are_no_tree(rt: HostRuntime) {
    for text in [
        "",
        "_ _",
        ")",
        "[_)",
        "(Super]",
        "(Super",
        "(Identifier 'a)",
        "(Identifier a)",
        "(IfStatement (Super) 'a')",
        "['a']",
        "(Name 'a')",
    ] {
        assert!(rt; read(rt.alloc(), text).is_err(), "{text}");
    }
}
