//! A table of trees for the rules on module trees, one row or more for each clause, both ways.

mod jumps;
mod naming;
mod parts;
mod placement;
mod printable;
mod supers;

pub use jumps::{FUNCTION_JUMP_ROWS, JUMP_ROWS, LABEL_ROWS};
pub use naming::{ARGUMENTS_ROWS, BINDING_ROWS, HERITAGE_ROWS, PRIVATE_ROWS, TARGET_ROWS};
pub use parts::{ACCESSOR_ROWS, INITIALIZER_ROWS};
pub use placement::{AWAIT_ROWS, EXPORT_ROWS, ITEM_ROWS, RETURN_ROWS, YIELD_ROWS};
pub use printable::{CLAUSE_ROWS, PLACE_ROWS, STATEMENT_ROWS, TEXT_ROWS};
pub use supers::{SUPER_CALL_ROWS, SUPER_ROWS};

/// Statements of a module in the notation, with a gap that is written `@`.
pub struct Row {
    /// What ECMAScript asks, by its section.
    pub clause: &'static str,
    pub frame: &'static str,
    /// What makes a module of the frame.
    pub sound: &'static str,
    /// What makes an early error of it, or no tree of the grammar.
    pub broken: &'static str,
}
