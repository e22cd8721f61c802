use js_print::print_program;
use js_read::read_module;
use prepare_core::prepare_module;
use std::alloc::Global;
use std::process::Abort;
use std::test::Fail;

fn check(rt: &impl Abort, alloc: Global, module: &str, wanted: &str) -> Result<(), Fail> {
    assert!(rt; module.len() < 10000);
    let prepared = prepare_module(alloc, read_module(alloc, module)?)?;
    let text = print_program(alloc, prepared.program)?;
    assert_eq!(rt; text.as_str(), wanted);
    Ok(())
}

const REQUEST: &str =
    "const __vite_ssr_import_0__ = await __vite_ssr_import__('m', { importedNames: ['a'] });\n";

/// A module that imports `a` from `m` first.
fn check_importing(rt: &impl Abort, alloc: Global, rest: &str, wanted: &str) -> Result<(), Fail> {
    let module = format!(in alloc; "import {{ a }} from 'm'; {rest}")?;
    let wanted = format!(in alloc; "{REQUEST}{wanted}")?;
    check(rt, alloc, module.as_str(), wanted.as_str())
}

#[test]
fn names_of_a_function_hide_imports(rt: HostRuntime) -> Result<(), Fail> {
    let functions = [
        "function f(a) { return a; }\n",
        "function f() { const a = 1; return a; }\n",
        "function f() { function a() { return 1; } return a(); }\n",
        "function f(a) { function g() { return a; } return g; }\n",
    ];
    for function in functions {
        check_importing(&rt, rt.alloc(), function, function)?;
    }
    Ok(())
}

#[test]
fn an_import_is_a_member_of_its_request(rt: HostRuntime) -> Result<(), Fail> {
    check_importing(
        &rt,
        rt.alloc(),
        "a(a.b); function f() { return a; }",
        "(0, __vite_ssr_import_0__.a)(__vite_ssr_import_0__.a.b);\nfunction f() { return __vite_ssr_import_0__.a; }\n",
    )
}

#[test]
fn each_import_is_a_request(rt: HostRuntime) -> Result<(), Fail> {
    check_importing(
        &rt,
        rt.alloc(),
        "import { b as c } from 'm'; c();",
        "const __vite_ssr_import_1__ = await __vite_ssr_import__('m', { importedNames: ['b'] });\n(0, __vite_ssr_import_1__.b)();\n",
    )
}

#[test]
fn getters_come_first(rt: HostRuntime) -> Result<(), Fail> {
    check(
        &rt,
        rt.alloc(),
        "import { a } from 'm'; export const x = a; export function f() { return x; }",
        "Object.defineProperty(__vite_ssr_exports__, 'x', { enumerable: true, configurable: true, get() { return x; } });\nObject.defineProperty(__vite_ssr_exports__, 'f', { enumerable: true, configurable: true, get() { return f; } });\nconst __vite_ssr_import_0__ = await __vite_ssr_import__('m', { importedNames: ['a'] });\nconst x = __vite_ssr_import_0__.a;\nfunction f() { return x; }\n",
    )
}

fn calls(alloc: Global, count: usize) -> Result<String, Fail> {
    let mut text = String::new(alloc);
    text.push_str("import { f } from 'm';")?;
    for _ in 0..count {
        text.push_str("f(")?;
    }
    for _ in 0..count {
        text.push_str(")")?;
    }
    text.push_str(";")?;
    Ok(text)
}

// The deepest calls that are read.
#[test]
fn deep_calls_are_prepared(rt: HostRuntime) -> Result<(), Fail> {
    let alloc = rt.alloc();
    let text = calls(alloc, 509)?;
    assert!(rt; text.len() < 10000);
    let prepared = prepare_module(alloc, read_module(alloc, text.as_str())?)?;
    assert_eq!(rt; prepared.deps.len(), 1);
    Ok(())
}
