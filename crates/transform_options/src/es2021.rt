ghost use Rattle.std.specs.Prelude.{◌≡◌};
ghost use Rattle.transform_options.specs.Parts as spec;

use crate::choice::Choice;
use transform_targets::ESFeature;

/// What of ECMAScript 2021 is lowered.
#[derive(Debug, Default, Clone, Copy)]
pub struct ES2021Options {
    pub logical_assignment_operators: bool,
}

impl ES2021Options {
    pub(crate) fn by<C: Choice>(choice: &C) -> ES2021Options
        ensures { result ≡ spec.es2021 (C.chosen choice.now) }
    {
        ES2021Options {
            logical_assignment_operators: choice.is_on(ESFeature::ES2021LogicalAssignmentOperators),
        }
    }
}
