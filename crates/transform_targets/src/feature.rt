ghost use Rattle.std.specs.Prelude.{◌≡◌};
ghost use Rattle.transform_targets.specs.Features as spec;

/// A feature of ECMAScript that may be lowered. Its name begins with the edition that brought it.
#[derive(Debug, Clone, Copy)]
pub enum ESFeature {
    ES2026ExplicitResourceManagement,
    ES2022ClassStaticBlock,
    ES2022ClassProperties,
    ES2022TopLevelAwait,
    ES2021LogicalAssignmentOperators,
    ES2020ExportNamespaceFrom,
    ES2020NullishCoalescingOperator,
    ES2020OptionalChaining,
    ES2020BigInt,
    ES2020ArbitraryModuleNamespaceNames,
    ES2019OptionalCatchBinding,
    ES2018ObjectRestSpread,
    ES2018AsyncGeneratorFunctions,
    ES2017AsyncToGenerator,
    ES2016ExponentiationOperator,
    ES2015ArrowFunctions,
    ES2015StickyRegex,
    ES2015UnicodeRegex,
    ES2018DotallRegex,
    ES2018LookbehindRegex,
    ES2018NamedCapturingGroupsRegex,
    ES2018UnicodePropertyRegex,
    ES2022MatchIndicesRegex,
    ES2024UnicodeSetsRegex,
}

impl ESFeature {
    pub(crate) fn place(self) -> usize
        ensures { result ≡ spec.feature_place self }
    {
        self as usize
    }

    /// The edition that brought the feature, as in its name.
    pub fn year(self) -> u32
        ensures { result ≡ spec.year self }
    {
        match self {
            ESFeature::ES2026ExplicitResourceManagement => 2026,
            ESFeature::ES2024UnicodeSetsRegex => 2024,
            ESFeature::ES2022ClassStaticBlock
            | ESFeature::ES2022ClassProperties
            | ESFeature::ES2022TopLevelAwait
            | ESFeature::ES2022MatchIndicesRegex => 2022,
            ESFeature::ES2021LogicalAssignmentOperators => 2021,
            ESFeature::ES2020ExportNamespaceFrom
            | ESFeature::ES2020NullishCoalescingOperator
            | ESFeature::ES2020OptionalChaining
            | ESFeature::ES2020BigInt
            | ESFeature::ES2020ArbitraryModuleNamespaceNames => 2020,
            ESFeature::ES2019OptionalCatchBinding => 2019,
            ESFeature::ES2018ObjectRestSpread
            | ESFeature::ES2018AsyncGeneratorFunctions
            | ESFeature::ES2018DotallRegex
            | ESFeature::ES2018LookbehindRegex
            | ESFeature::ES2018NamedCapturingGroupsRegex
            | ESFeature::ES2018UnicodePropertyRegex => 2018,
            ESFeature::ES2017AsyncToGenerator => 2017,
            ESFeature::ES2016ExponentiationOperator => 2016,
            ESFeature::ES2015ArrowFunctions
            | ESFeature::ES2015StickyRegex
            | ESFeature::ES2015UnicodeRegex => 2015,
        }
    }
}
