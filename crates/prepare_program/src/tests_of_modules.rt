use crate::tests::ran;
use std::alloc::Global;
use std::test::Fail;

// Whether the request is answered by this line, with status 0.
fn prepares(alloc: Global, request: &str, line: &str) -> Result<bool, Fail> {
    let (status, sink) = ran(alloc, request.as_bytes(), Vec::new(alloc), Vec::new(alloc))?;
    Ok(status == 0 && sink.written() == line.as_bytes())
}

#[test]
fn an_empty_module_is_empty(rt: HostRuntime) -> Result<(), Fail> {
    let made = prepares(
        rt.alloc(),
        "{\"module\": \"\"}",
        "{\"deps\":[],\"dynamicDeps\":[],\"module\":\"\"}\n",
    )?;
    assert!(rt; made);
    Ok(())
}

#[test]
fn a_called_import_is_a_member_without_this(rt: HostRuntime) -> Result<(), Fail> {
    let made = prepares(
        rt.alloc(),
        "{\"module\": \"import { ref } from 'vue'; function foo() { return ref(0); }\"}",
        "{\"deps\":[\"vue\"],\"dynamicDeps\":[],\"module\":\"const __vite_ssr_import_0__ = await __vite_ssr_import__('vue', { importedNames: ['ref'] });\\nfunction foo() { return (0, __vite_ssr_import_0__.ref)(0); }\\n\"}\n",
    )?;
    assert!(rt; made);
    Ok(())
}

#[test]
fn names_that_a_local_shadows_stay(rt: HostRuntime) -> Result<(), Fail> {
    let made = prepares(
        rt.alloc(),
        "{\"module\": \"import { a } from 'm'; function f(a) { return a(1); } function g() { const a = f; return a(a); } function h() { function a(b) { return b; } return a(a); } a(a);\"}",
        "{\"deps\":[\"m\"],\"dynamicDeps\":[],\"module\":\"const __vite_ssr_import_0__ = await __vite_ssr_import__('m', { importedNames: ['a'] });\\nfunction f(a) { return a(1); }\\nfunction g() { const a = f; return a(a); }\\nfunction h() { function a(b) { return b; } return a(a); }\\n(0, __vite_ssr_import_0__.a)(__vite_ssr_import_0__.a);\\n\"}\n",
    )?;
    assert!(rt; made);
    Ok(())
}

#[test]
fn requests_of_one_source_are_not_merged(rt: HostRuntime) -> Result<(), Fail> {
    let made = prepares(
        rt.alloc(),
        "{\"module\": \"import { a } from 'm'; import { b } from 'm'; a(b, b.c);\"}",
        "{\"deps\":[\"m\"],\"dynamicDeps\":[],\"module\":\"const __vite_ssr_import_0__ = await __vite_ssr_import__('m', { importedNames: ['a'] });\\nconst __vite_ssr_import_1__ = await __vite_ssr_import__('m', { importedNames: ['b'] });\\n(0, __vite_ssr_import_0__.a)(__vite_ssr_import_1__.b, __vite_ssr_import_1__.b.c);\\n\"}\n",
    )?;
    assert!(rt; made);
    Ok(())
}

#[test]
fn imports_have_their_names_and_unused_ones_stay(rt: HostRuntime) -> Result<(), Fail> {
    let made = prepares(
        rt.alloc(),
        "{\"module\": \"import {a as b, c} from 'z'; import { d } from 'y'; b.default.new(1);\"}",
        "{\"deps\":[\"y\",\"z\"],\"dynamicDeps\":[],\"module\":\"const __vite_ssr_import_0__ = await __vite_ssr_import__('z', { importedNames: ['a', 'c'] });\\nconst __vite_ssr_import_1__ = await __vite_ssr_import__('y', { importedNames: ['d'] });\\n__vite_ssr_import_0__.a.default.new(1);\\n\"}\n",
    )?;
    assert!(rt; made);
    Ok(())
}

#[test]
fn an_exported_function_is_a_getter(rt: HostRuntime) -> Result<(), Fail> {
    let made = prepares(
        rt.alloc(),
        "{\"module\": \"export function f() {}\"}",
        "{\"deps\":[],\"dynamicDeps\":[],\"module\":\"Object.defineProperty(__vite_ssr_exports__, 'f', { enumerable: true, configurable: true, get() { return f; } });\\nfunction f() {}\\n\"}\n",
    )?;
    assert!(rt; made);
    Ok(())
}

#[test]
fn exports_are_getters(rt: HostRuntime) -> Result<(), Fail> {
    let made = prepares(
        rt.alloc(),
        "{\"module\": \"import { a } from 'm'; export const b = a(1); export function f() { return b; } f(b);\"}",
        "{\"deps\":[\"m\"],\"dynamicDeps\":[],\"module\":\"Object.defineProperty(__vite_ssr_exports__, 'b', { enumerable: true, configurable: true, get() { return b; } });\\nObject.defineProperty(__vite_ssr_exports__, 'f', { enumerable: true, configurable: true, get() { return f; } });\\nconst __vite_ssr_import_0__ = await __vite_ssr_import__('m', { importedNames: ['a'] });\\nconst b = (0, __vite_ssr_import_0__.a)(1);\\nfunction f() { return b; }\\nf(b);\\n\"}\n",
    )?;
    assert!(rt; made);
    Ok(())
}

#[test]
fn strings_and_numbers_are_spelled(rt: HostRuntime) -> Result<(), Fail> {
    let made = prepares(
        rt.alloc(),
        "{\"module\": \"import { a } from \\\"it's\\\"; 1 .b; a('é\\\"');\"}",
        "{\"deps\":[\"it's\"],\"dynamicDeps\":[],\"module\":\"const __vite_ssr_import_0__ = await __vite_ssr_import__('it\\\\'s', { importedNames: ['a'] });\\n(1).b;\\n(0, __vite_ssr_import_0__.a)('é\\\"');\\n\"}\n",
    )?;
    assert!(rt; made);
    Ok(())
}

#[test]
fn what_is_not_small_is_unread(rt: HostRuntime) -> Result<(), Fail> {
    let alloc = rt.alloc();
    let requests = [
        "{\"module\": \"const s = 'a\"}",
        "{\"module\": \"let x = 1;\"}",
        "{\"module\": \"export default f;\"}",
        "{\"module\": \"const a = 1; const a = 2;\"}",
    ];
    for request in requests {
        let (status, sink) = ran(alloc, request.as_bytes(), Vec::new(alloc), Vec::new(alloc))?;
        assert_eq!(rt; status, 1);
        assert_eq!(rt; sink.written(), b"{\"fault\":\"Unread\"}\n".as_slice());
    }
    Ok(())
}
