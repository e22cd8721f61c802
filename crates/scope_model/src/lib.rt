//! Scopes of the whole language, over terms: which names each scope declares, what a name stands for, and which
//! names are declared twice.
//!
//! The definitions stand in `specs/`. The enums that they are made of are declared here, with the tables as code.
#![tactic(auto)]

ghost use Rattle.scope_model.specs.Examples.{Examples};
ghost use Rattle.scope_model.specs.ConflictExamples.{ConflictExamples};

mod role;
mod seeking;
mod sort;
mod tables;

pub use role::{Role, role_of};
pub use seeking::{is_request, seek};
pub use sort::{ScopeSort, Sort, Sought};
pub use tables::{conflicts, has_arguments, is_hoist_scope, is_outside, scope_sort, sees_body};

/// At small programs the definitions of scopes say what their pages say.
#[tactic(auto, using(crate::proofs::Derived::examples))]
pub fn worked_examples()
    ensures { Examples }
{}

/// At small programs the definition of conflicts says what its page says.
#[tactic(auto, using(crate::proofs::Derived::conflict_examples))]
pub fn conflict_examples()
    ensures { ConflictExamples }
{}
