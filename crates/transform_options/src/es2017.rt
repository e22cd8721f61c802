ghost use Rattle.std.specs.Prelude.{◌≡◌};
ghost use Rattle.transform_options.specs.Parts as spec;

use crate::choice::Choice;
use transform_targets::ESFeature;

/// What of ECMAScript 2017 is lowered.
#[derive(Debug, Default, Clone, Copy)]
pub struct ES2017Options {
    pub async_to_generator: bool,
}

impl ES2017Options {
    pub(crate) fn by<C: Choice>(choice: &C) -> ES2017Options
        ensures { result ≡ spec.es2017 (C.chosen choice.now) }
    {
        ES2017Options {
            async_to_generator: choice.is_on(ESFeature::ES2017AsyncToGenerator),
        }
    }
}
