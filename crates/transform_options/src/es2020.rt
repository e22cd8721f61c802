ghost use Rattle.std.specs.Prelude.{◌≡◌};
ghost use Rattle.transform_options.specs.Parts as spec;

use crate::choice::Choice;
use transform_targets::ESFeature;

/// What of ECMAScript 2020 is lowered.
#[derive(Debug, Default, Clone, Copy)]
pub struct ES2020Options {
    pub export_namespace_from: bool,
    pub nullish_coalescing_operator: bool,
    pub optional_chaining: bool,
    pub big_int: bool,
    pub arbitrary_module_namespace_names: bool,
}

impl ES2020Options {
    pub(crate) fn by<C: Choice>(choice: &C) -> ES2020Options
        ensures { result ≡ spec.es2020 (C.chosen choice.now) }
    {
        ES2020Options {
            export_namespace_from: choice.is_on(ESFeature::ES2020ExportNamespaceFrom),
            nullish_coalescing_operator: choice.is_on(ESFeature::ES2020NullishCoalescingOperator),
            optional_chaining: choice.is_on(ESFeature::ES2020OptionalChaining),
            big_int: choice.is_on(ESFeature::ES2020BigInt),
            arbitrary_module_namespace_names: choice.is_on(
                ESFeature::ES2020ArbitraryModuleNamespaceNames,
            ),
        }
    }
}
