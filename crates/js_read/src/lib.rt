//! Reads a small module: from its text to its tree.
//!
//! The text must be UTF-8 of at most 4294967295 bytes, and a tree has a depth of at most 512, a list of parts being
//! no level of its own.
#![tactic(auto)]

mod expression;
mod fault;
mod found;
mod module;
mod names;
mod nodes;
mod statement;

pub use fault::ReadFault;
pub use module::read_module;

#[cfg(test)]
mod tests;
