use js_print::print_program;
use small_tree::{Items, Program, Span};
use std::test::Fail;

#[test]
fn an_empty_module_is_an_empty_text(rt: HostRuntime) -> Result<(), Fail> {
    let alloc = rt.alloc();
    let program = Program {
        span: Span { start: 0, end: 0 },
        hashbang: None,
        directives: Items::new(alloc),
        body: Items::new(alloc),
        scope_id: None,
    };
    let text = print_program(alloc, program)?;
    assert_eq!(rt; text.as_str(), "");
    Ok(())
}
