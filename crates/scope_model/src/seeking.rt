ghost use Rattle.std.specs.Prelude.{◌≡◌};
ghost use Rattle.scope_model.specs.Names.{in_variables, in_function, in_class, in_statement, in_pattern, in_parameters, in_body, seek, is_request};

use crate::role::Role;
use crate::sort::{Sort, Sought};

/// What is looked for in the kids of a node, by what is looked for at the node.
pub fn seek(role: Role, is_var: bool, sought: Sought) -> Sought
    ensures { result ≡ seek role is_var sought }
{
    match role {
        Role::Pattern => in_pattern(sought),
        Role::Parameters => in_parameters(sought),
        Role::VariableDeclaration => in_variables(is_var, sought),
        Role::FunctionDeclaration => in_function(sought),
        Role::ClassDeclaration => in_class(sought),
        Role::Statement | Role::Block | Role::Loop | Role::Switch | Role::CatchClause =>
            in_statement(sought),
        Role::Case => sought,
        Role::Body | Role::Export => in_body(sought),
        _ => Sought::Nothing,
    }
}

fn in_variables(is_var: bool, sought: Sought) -> Sought
    ensures { result ≡ in_variables is_var sought }
{
    match (sought, is_var) {
        (Sought::Body(_) | Sought::Hoisted, true) => Sought::Bound(Sort::Variable),
        (Sought::Body(_) | Sought::Block, false) => Sought::Bound(Sort::Lexical),
        _ => Sought::Nothing,
    }
}

fn in_function(sought: Sought) -> Sought
    ensures { result ≡ in_function sought }
{
    match sought {
        Sought::Body(functions) => Sought::Bound(functions),
        Sought::Block => Sought::Bound(Sort::Lexical),
        _ => Sought::Nothing,
    }
}

fn in_class(sought: Sought) -> Sought
    ensures { result ≡ in_class sought }
{
    match sought {
        Sought::Body(_) | Sought::Block => Sought::Bound(Sort::Lexical),
        _ => Sought::Nothing,
    }
}

fn in_statement(sought: Sought) -> Sought
    ensures { result ≡ in_statement sought }
{
    match sought {
        Sought::Body(_) | Sought::Hoisted => Sought::Hoisted,
        _ => Sought::Nothing,
    }
}

fn in_pattern(sought: Sought) -> Sought
    ensures { result ≡ in_pattern sought }
{
    match sought {
        Sought::Bound(sort) => Sought::Bound(sort),
        _ => Sought::Nothing,
    }
}

fn in_parameters(sought: Sought) -> Sought
    ensures { result ≡ in_parameters sought }
{
    match sought {
        Sought::Parameters => Sought::Bound(Sort::Parameter),
        _ => Sought::Nothing,
    }
}

fn in_body(sought: Sought) -> Sought
    ensures { result ≡ in_body sought }
{
    match sought {
        Sought::Body(functions) => Sought::Body(functions),
        _ => Sought::Nothing,
    }
}

/// Whether the node is a request: an import, or an export with a source.
pub fn is_request(role: Role) -> bool
    ensures { result ≡ is_request role }
{
    matches!(role, Role::Import | Role::ExportFrom)
}
