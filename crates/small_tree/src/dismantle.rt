use crate::bag::Bag;
use crate::expression::ObjectProperty;
use crate::function::{Function, FunctionBody};
use crate::module::Declaration;
use crate::statement::{VariableDeclaration, VariableDeclarator};
use js_items::Items;

pub(crate) fn dismantle_function(n: Function, bag: &mut Bag) {
    let Function {
        span: _,
        kind: _,
        id,
        is_async: _,
        is_generator: _,
        params,
        body,
        scope_id: _,
    } = n;
    drop(id);
    drop(params);
    let FunctionBody {
        span: _,
        directives,
        statements,
    } = body;
    drop(directives);
    bag.statements(statements);
}

pub(crate) fn dismantle_declarators(parts: Items<VariableDeclarator>, bag: &mut Bag) {
    let mut parts = parts;
    while let Some(part) = parts.pop() {
        let VariableDeclarator { span: _, id, init } = part;
        drop(id);
        if let Some(init) = init {
            bag.boxed_expression(init);
        }
    }
    parts.destroy_empty();
}

pub(crate) fn dismantle_properties(parts: Items<ObjectProperty>, bag: &mut Bag) {
    let mut parts = parts;
    while let Some(part) = parts.pop() {
        let ObjectProperty {
            span: _,
            kind: _,
            key,
            value,
            method: _,
            shorthand: _,
            computed: _,
        } = part;
        drop(key);
        bag.boxed_expression(value);
    }
    parts.destroy_empty();
}

pub(crate) fn dismantle_declaration(n: Declaration, bag: &mut Bag) {
    match n {
        Declaration::VariableDeclaration(n) => {
            let VariableDeclaration {
                span: _,
                kind: _,
                declarations,
            } = n;
            dismantle_declarators(declarations, bag);
        }
        Declaration::FunctionDeclaration(n) => dismantle_function(n.into_inner(), bag),
    }
}
