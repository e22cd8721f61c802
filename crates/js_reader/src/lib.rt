//! The reader of modules. What reads the parts of a part is handed down, so that no production calls itself.
#![tactic(auto)]

mod ahead;
mod continuations;
mod edge;
mod fault;
mod found;
mod levels;
mod nodes;
mod operations;
mod operators;
mod semicolons;
mod tokens;

pub use ahead::{
    arrow_here, begins_async_function, begins_key_at, ends_here, ends_operand, modifies_element,
    modifies_method, sees_each,
};
pub use continuations::goes_on_with;
pub use edge::{Edge, declared_edge, field_edge, right_edge};
pub use fault::Halt;
pub use found::{Found, Listed, Listing};
pub use levels::{binary_level, goes_on, member_level};
pub use nodes::{
    ends_open, is_bare_new, is_body, is_constructor, is_named, is_node, is_private_member,
    is_simple_target, is_switch, is_try, is_unnamed,
};
pub use operations::{Operation, sign_operation, word_operation};
pub use operators::{
    assignment_operator, binary_operator, binary_word, logical_level, logical_operator,
    logical_right, unary_operator, unary_word, update_operator,
};
pub use semicolons::{at_end, do_end, left_out, same_line, semicolon};
pub use tokens::{binding, expect, expect_word, name, sees, sees_word};
