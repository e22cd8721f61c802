ghost use Rattle.std.specs.Prelude.{◌≡◌};
ghost use Rattle.transform_options.specs.Parts as spec;

use crate::choice::Choice;
use transform_targets::ESFeature;

/// What of ECMAScript 2019 is lowered.
#[derive(Debug, Default, Clone, Copy)]
pub struct ES2019Options {
    pub optional_catch_binding: bool,
}

impl ES2019Options {
    pub(crate) fn by<C: Choice>(choice: &C) -> ES2019Options
        ensures { result ≡ spec.es2019 (C.chosen choice.now) }
    {
        ES2019Options {
            optional_catch_binding: choice.is_on(ESFeature::ES2019OptionalCatchBinding),
        }
    }
}
