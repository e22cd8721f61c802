ghost use Rattle.std.specs.Prelude.{◌≡◌};
ghost use Rattle.transform_options.specs.Parts as spec;

use crate::choice::Choice;
use transform_targets::ESFeature;

/// What of ECMAScript 2015 is lowered.
#[derive(Debug, Default, Clone, Copy)]
pub struct ES2015Options {
    pub arrow_function: bool,
}

impl ES2015Options {
    pub(crate) fn by<C: Choice>(choice: &C) -> ES2015Options
        ensures { result ≡ spec.es2015 (C.chosen choice.now) }
    {
        ES2015Options {
            arrow_function: choice.is_on(ESFeature::ES2015ArrowFunctions),
        }
    }
}
