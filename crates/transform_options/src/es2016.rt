ghost use Rattle.std.specs.Prelude.{◌≡◌};
ghost use Rattle.transform_options.specs.Parts as spec;

use crate::choice::Choice;
use transform_targets::ESFeature;

/// What of ECMAScript 2016 is lowered.
#[derive(Debug, Default, Clone, Copy)]
pub struct ES2016Options {
    pub exponentiation_operator: bool,
}

impl ES2016Options {
    pub(crate) fn by<C: Choice>(choice: &C) -> ES2016Options
        ensures { result ≡ spec.es2016 (C.chosen choice.now) }
    {
        ES2016Options {
            exponentiation_operator: choice.is_on(ESFeature::ES2016ExponentiationOperator),
        }
    }
}
