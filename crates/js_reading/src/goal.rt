//! What a part of a module is read as.

/// What is asked for at the front of a text.
#[derive(Clone, Copy)]
pub enum Goal {
    /// An expression of this level at least (ECMAScript 13); the flag says whether a bare `in` may stand in it.
    Expression(u8, bool),
    /// What stands behind `new`: a member expression, or a `new` without arguments (13.3).
    Callee(bool),
    /// A pattern that binds names (14.3.3).
    Pattern,
    /// A statement or a declaration (14).
    Statement,
}
