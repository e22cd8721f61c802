ghost use Rattle.std.specs.Prelude.{◌≡◌};
ghost use Rattle.transform_options.specs.Parts as spec;

use crate::choice::Choice;
use transform_targets::ESFeature;

/// What of ECMAScript 2018 is lowered.
#[derive(Debug, Default, Clone, Copy)]
pub struct ES2018Options {
    pub object_rest_spread: bool,
    pub async_generator_functions: bool,
}

impl ES2018Options {
    pub(crate) fn by<C: Choice>(choice: &C) -> ES2018Options
        ensures { result ≡ spec.es2018 (C.chosen choice.now) }
    {
        ES2018Options {
            object_rest_spread: choice.is_on(ESFeature::ES2018ObjectRestSpread),
            async_generator_functions: choice.is_on(ESFeature::ES2018AsyncGeneratorFunctions),
        }
    }
}
