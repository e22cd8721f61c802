//! Bound names as one text.

use js_tree::Node;
use std::alloc::{AllocError, Global};

/// The names that the node binds, each behind a space.
pub fn joined_names(alloc: Global, node: &Node) -> Result<String, AllocError> {
    let mut names = String::new(alloc);
    let mut pushed: Result<(), AllocError> = Ok(());
    node.bound_names(&mut |name: &Node| {
        if pushed.is_ok() {
            pushed = names.push(' ');
        }
        if pushed.is_ok() {
            pushed = names.push_str(name.text());
        }
    });
    pushed?;
    Ok(names)
}
