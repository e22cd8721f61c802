ghost use Rattle.std.specs.Prelude.{◌≡◌};
ghost use Rattle.transform_options.specs.Parts as spec;

use crate::choice::Choice;
use transform_targets::ESFeature;

/// What of ECMAScript 2026 is lowered.
#[derive(Debug, Default, Clone, Copy)]
pub struct ES2026Options {
    pub explicit_resource_management: bool,
}

impl ES2026Options {
    pub(crate) fn by<C: Choice>(choice: &C) -> ES2026Options
        ensures { result ≡ spec.es2026 (C.chosen choice.now) }
    {
        ES2026Options {
            explicit_resource_management: choice.is_on(ESFeature::ES2026ExplicitResourceManagement),
        }
    }
}
