ghost use Rattle.std.specs.Prelude.{◌≡◌};
ghost use Rattle.scope_model.specs.Scopes.{scope_sort, is_outside, sees_body, is_hoist_scope, has_arguments};
ghost use Rattle.scope_model.specs.Conflicts.{conflicts};

use crate::role::Role;
use crate::sort::{ScopeSort, Sort};

/// The sort of the scope that a node opens. A field opens its scope only where it has an initializer.
pub fn scope_sort(role: Role) -> Option<ScopeSort>
    ensures { result ≡ scope_sort role }
{
    match role {
        Role::Program => Some(ScopeSort::Module),
        Role::FunctionDeclaration | Role::FunctionExpression => Some(ScopeSort::Function),
        Role::Arrow => Some(ScopeSort::Arrow),
        Role::ClassDeclaration | Role::ClassExpression => Some(ScopeSort::Class),
        Role::Field => Some(ScopeSort::Field),
        Role::StaticBlock => Some(ScopeSort::StaticBlock),
        Role::Block | Role::Switch | Role::Loop => Some(ScopeSort::Block),
        Role::CatchClause => Some(ScopeSort::CatchClause),
        _ => None,
    }
}

/// Whether the kid numbered `n` stands outside of the scope that its node opens.
pub fn is_outside(role: Role, n: usize) -> bool
    ensures { result ≡ is_outside role n }
{
    match role {
        Role::FunctionDeclaration | Role::ClassDeclaration | Role::Field | Role::Switch => n == 0,
        _ => false,
    }
}

/// Whether the kid numbered `n` is a function's body, which sees the names that the body declares.
pub fn sees_body(role: Role, n: usize) -> bool
    ensures { result ≡ sees_body role n }
{
    match role {
        Role::FunctionDeclaration | Role::FunctionExpression => n >= 2,
        Role::Arrow => n >= 1,
        _ => false,
    }
}

/// Whether `var` names that are put in below belong to a scope of this sort.
pub fn is_hoist_scope(sort: ScopeSort) -> bool
    ensures { result ≡ is_hoist_scope sort }
{
    matches!(
        sort,
        ScopeSort::Module | ScopeSort::Function | ScopeSort::Arrow | ScopeSort::StaticBlock
    )
}

/// Whether a scope of this sort has an `arguments` of its own.
pub fn has_arguments(sort: ScopeSort) -> bool
    ensures { result ≡ has_arguments sort }
{
    matches!(
        sort,
        ScopeSort::Function | ScopeSort::Field | ScopeSort::StaticBlock
    )
}

/// Whether a name may not be declared as both in one scope.
pub fn conflicts(one: Sort, other: Sort) -> bool
    ensures { result ≡ conflicts one other }
{
    match (one, other) {
        (Sort::OwnName, _) | (_, Sort::OwnName) => false,
        (Sort::Lexical, _) | (_, Sort::Lexical) => true,
        (Sort::Parameter, Sort::Parameter) => true,
        _ => false,
    }
}
