ghost use Rattle.std.specs.Prelude.{◌≡◌};
ghost use Rattle.transform_options.specs.Parts as spec;

use crate::choice::Choice;
use transform_targets::ESFeature;

/// What of regular expression literals is lowered.
#[derive(Debug, Default, Clone, Copy)]
pub struct RegExpOptions {
    pub sticky_flag: bool,
    pub unicode_flag: bool,
    pub dot_all_flag: bool,
    pub look_behind_assertions: bool,
    pub named_capture_groups: bool,
    pub unicode_property_escapes: bool,
    pub match_indices: bool,
    pub set_notation: bool,
}

impl RegExpOptions {
    pub(crate) fn by<C: Choice>(choice: &C) -> RegExpOptions
        ensures { result ≡ spec.regexp (C.chosen choice.now) }
    {
        RegExpOptions {
            sticky_flag: choice.is_on(ESFeature::ES2015StickyRegex),
            unicode_flag: choice.is_on(ESFeature::ES2015UnicodeRegex),
            dot_all_flag: choice.is_on(ESFeature::ES2018DotallRegex),
            look_behind_assertions: choice.is_on(ESFeature::ES2018LookbehindRegex),
            named_capture_groups: choice.is_on(ESFeature::ES2018NamedCapturingGroupsRegex),
            unicode_property_escapes: choice.is_on(ESFeature::ES2018UnicodePropertyRegex),
            match_indices: choice.is_on(ESFeature::ES2022MatchIndicesRegex),
            set_notation: choice.is_on(ESFeature::ES2024UnicodeSetsRegex),
        }
    }
}
