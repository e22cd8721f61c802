/// What a declaration in a scope makes of its name.
#[derive(Clone, Copy, Debug, PartialEq, Eq)]
pub enum Sort {
    /// `let`, `const`, a class, the parameter of a catch clause; a function of a module or of a block.
    Lexical,
    /// `var`; a function directly in the body of a function or in a static block.
    Variable,
    Parameter,
    /// The name of a function expression or of a class expression, inside it.
    OwnName,
}

/// The names that are looked for at a place.
#[derive(Clone, Copy, Debug, PartialEq, Eq)]
pub enum Sought {
    Nothing,
    /// Each bound name, as a name of this sort.
    Bound(Sort),
    Parameters,
    /// What statements declare in the scope whose body they are, their functions as names of this sort.
    Body(Sort),
    /// What statements inside the statements of a body declare in that scope: `var` names.
    Hoisted,
    /// What the statements of a block declare in the block.
    Block,
}

/// The sorts of scopes.
#[derive(Clone, Copy, Debug, PartialEq, Eq)]
pub enum ScopeSort {
    Module,
    Function,
    Arrow,
    Class,
    Field,
    StaticBlock,
    /// Blocks, the cases of a switch, and loop heads with their bodies.
    Block,
    CatchClause,
}
