use crate::{Ident, Reference, ReferenceFlags, ScopeFlags, Scoping, SymbolFlags};
use std::process::Abort;
use std::test::Fail;

#[test]
fn scopes_and_bindings(rt: HostRuntime) -> Result<(), Fail> {
    let alloc = rt.alloc();
    let mut table = Scoping::new(alloc)?;
    let root = table.root_scope_id();
    let inner = table.add_scope(Some(root), ScopeFlags::FUNCTION)?;
    assert_eq!(rt; inner.number(), 1);
    assert!(rt; table.scope_parent_id(inner) == Some(root));
    let symbol = table.create_symbol(Ident::new(alloc, "a")?, SymbolFlags::IMPORT, root)?;
    table.add_binding(root, Ident::new(alloc, "a")?, symbol)?;
    assert!(rt; table.find_binding(inner, "a") == Some(symbol));
    assert!(rt; !table.scope_has_binding(inner, "a"));
    assert_eq!(rt; table.scope_ancestors(inner).count(), 2);
    table.remove_binding(root, "a");
    assert!(rt; table.find_binding(inner, "a").is_none());
    table.set_scope_parent_id(inner, None);
    assert_eq!(rt; table.scope_ancestors(inner).count(), 1);
    Ok(())
}

#[test]
fn a_binding_moves(rt: HostRuntime) -> Result<(), Fail> {
    let alloc = rt.alloc();
    let mut table = Scoping::new(alloc)?;
    let root = table.root_scope_id();
    let inner = table.add_scope(Some(root), ScopeFlags::ARROW)?;
    let symbol = table.create_symbol(Ident::new(alloc, "b")?, SymbolFlags::CLASS, root)?;
    table.add_binding(root, Ident::new(alloc, "b")?, symbol)?;
    table.move_binding_by_symbol_id(root, inner, symbol)?;
    assert!(rt; !table.scope_has_binding(root, "b"));
    assert!(rt; table.get_binding(inner, "b") == Some(symbol));
    Ok(())
}

#[test]
fn references_are_listed(rt: HostRuntime) -> Result<(), Fail> {
    let alloc = rt.alloc();
    let mut table = Scoping::new(alloc)?;
    let root = table.root_scope_id();
    let reference = table.create_reference(Reference {
        scope_id: root,
        flags: ReferenceFlags::READ,
        symbol_id: None,
    })?;
    table.add_root_unresolved_reference(Ident::new(alloc, "g")?, reference)?;
    assert_eq!(rt; table.root_unresolved_references().len(), 1);
    let symbol = table.create_symbol(Ident::new(alloc, "c")?, SymbolFlags::CLASS, root)?;
    table.add_resolved_reference(symbol, reference)?;
    table.set_reference_symbol_id(reference, Some(symbol));
    table.delete_root_unresolved_reference("g", reference);
    assert_eq!(rt; table.root_unresolved_references().len(), 0);
    assert_eq!(rt; table.symbol_names().count(), 1);
    Ok(())
}
