use crate::expression::Expression;
use crate::statement::Statement;
use js_items::{Boxed, Items, discard, replace};
use std::alloc::Global;

/// The parts of a tree that are still to be freed. No function here calls itself, so a deep tree takes no stack.
pub(crate) struct Bag<E = Expression, S = Statement> {
    expressions: Option<Items<E>>,
    statements: Option<Items<S>>,
}

/// Adds a part. Where there is no memory for it, the part is never freed.
fn add<X>(waiting: &mut Option<Items<X>>, alloc: Global, part: X) {
    match waiting {
        Some(waiting) => {
            let _ = waiting.push(part);
        }
        None => {
            let mut list = Items::new(alloc);
            let _ = list.push(part);
            replace(waiting, Some(list));
        }
    }
}

fn add_all<X>(waiting: &mut Option<Items<X>>, parts: Items<X>) {
    let alloc = parts.allocator();
    let mut parts = parts;
    while let Some(part) = parts.pop() {
        add(waiting, alloc, part);
    }
    parts.destroy_empty();
}

fn take<X>(waiting: &mut Option<Items<X>>) -> Option<X> {
    match waiting {
        Some(waiting) => waiting.pop(),
        None => None,
    }
}

fn end<X>(waiting: Option<Items<X>>) {
    if let Some(waiting) = waiting {
        if waiting.is_empty() {
            waiting.destroy_empty();
        } else {
            discard(waiting);
        }
    }
}

impl Bag {
    pub(crate) fn new() -> Bag {
        Bag {
            expressions: None,
            statements: None,
        }
    }

    /// Frees one node, and says whether there was one.
    fn step(&mut self) -> bool {
        if let Some(part) = take(&mut self.expressions) {
            part.dismantle(self);
            return true;
        }
        if let Some(part) = take(&mut self.statements) {
            part.dismantle(self);
            return true;
        }
        false
    }

    /// Frees all parts.
    pub(crate) fn release(self) {
        let mut bag = self;
        for _ in 0..u64::MAX {
            if !bag.step() {
                break;
            }
        }
        let Bag {
            expressions,
            statements,
        } = bag;
        end(expressions);
        end(statements);
    }

    pub(crate) fn boxed_expression(&mut self, part: Boxed<Expression>) {
        let alloc = part.allocator();
        add(&mut self.expressions, alloc, part.into_inner());
    }

    pub(crate) fn expressions(&mut self, parts: Items<Expression>) {
        add_all(&mut self.expressions, parts);
    }

    pub(crate) fn statements(&mut self, parts: Items<Statement>) {
        add_all(&mut self.statements, parts);
    }
}
