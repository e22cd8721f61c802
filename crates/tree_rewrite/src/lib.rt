//! A tree rewritten from the root down, each node at its place, and a tree visited in the same order.
#![tactic(auto)]

mod rewrite;
mod scoped;
mod visit;

pub use rewrite::{Rewrite, rewrite_tree};
pub use scoped::{ScopedRewrite, rewrite_scoped};
pub use visit::{Visit, visit_tree};
