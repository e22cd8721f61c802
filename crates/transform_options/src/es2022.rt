ghost use Rattle.std.specs.Prelude.{◌≡◌};
ghost use Rattle.transform_options.specs.Parts as spec;

use crate::choice::Choice;
use transform_targets::ESFeature;

/// What of ECMAScript 2022 is lowered.
#[derive(Debug, Default, Clone, Copy)]
pub struct ES2022Options {
    pub class_static_block: bool,
    pub class_properties: bool,
    pub top_level_await: bool,
}

impl ES2022Options {
    pub(crate) fn by<C: Choice>(choice: &C) -> ES2022Options
        ensures { result ≡ spec.es2022 (C.chosen choice.now) }
    {
        ES2022Options {
            class_static_block: choice.is_on(ESFeature::ES2022ClassStaticBlock),
            class_properties: choice.is_on(ESFeature::ES2022ClassProperties),
            top_level_await: choice.is_on(ESFeature::ES2022TopLevelAwait),
        }
    }
}
