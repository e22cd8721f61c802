ghost use Rattle.std.specs.Prelude.{◌≡◌};
ghost use Rattle.babel_options.specs.Sources.{source_of, is_set};

use js_ident::Ident;
use transform_targets::ESFeature;

/// How Babel reads TypeScript.
#[derive(Debug, Default, Clone, Copy)]
pub struct SyntaxTypeScriptOptions {
    pub dts: bool,
    pub disallow_ambiguous_jsx_like: bool,
}

/// How Babel reads decorators.
#[derive(Debug, Clone, Drop)]
pub struct SyntaxDecoratorOptions {
    pub version: Ident,
}

/// What Babel's option `plugins` has.
#[derive(Debug, Clone, Drop)]
pub struct BabelPlugins {
    pub errors: Vec<Ident>,
    pub unsupported: Vec<Ident>,
    pub syntax_typescript: Option<SyntaxTypeScriptOptions>,
    pub syntax_jsx: bool,
    pub syntax_decorators: Option<SyntaxDecoratorOptions>,
    pub proposal_decorators: Option<SyntaxDecoratorOptions>,
    pub react_jsx: bool,
    pub react_jsx_dev: bool,
    pub modules_commonjs: bool,
    pub sticky_flag: bool,
    pub unicode_flag: bool,
    pub dot_all_flag: bool,
    pub look_behind_assertions: bool,
    pub named_capture_groups: bool,
    pub unicode_property_escapes: bool,
    pub match_indices: bool,
    pub set_notation: bool,
    pub arrow_function: bool,
    pub exponentiation_operator: bool,
    pub async_to_generator: bool,
    pub object_rest_spread: bool,
    pub async_generator_functions: bool,
    pub optional_catch_binding: bool,
    pub export_namespace_from: bool,
    pub optional_chaining: bool,
    pub nullish_coalescing_operator: bool,
    pub logical_assignment_operators: bool,
    pub class_static_block: bool,
    pub class_properties: bool,
    pub explicit_resource_management: bool,
}

impl BabelPlugins {
    /// Whether the plugin that has the feature lowered is there.
    pub fn has(&self, feature: ESFeature) -> bool
        ensures { result ≡ is_set (source_of feature) self.now }
    {
        match feature {
            ESFeature::ES2026ExplicitResourceManagement => self.explicit_resource_management,
            ESFeature::ES2022ClassStaticBlock => self.class_static_block,
            ESFeature::ES2022ClassProperties => self.class_properties,
            ESFeature::ES2021LogicalAssignmentOperators => self.logical_assignment_operators,
            ESFeature::ES2020ExportNamespaceFrom => self.export_namespace_from,
            ESFeature::ES2020NullishCoalescingOperator => self.nullish_coalescing_operator,
            ESFeature::ES2020OptionalChaining => self.optional_chaining,
            ESFeature::ES2019OptionalCatchBinding => self.optional_catch_binding,
            ESFeature::ES2018ObjectRestSpread => self.object_rest_spread,
            ESFeature::ES2018AsyncGeneratorFunctions => self.async_generator_functions,
            ESFeature::ES2017AsyncToGenerator => self.async_to_generator,
            ESFeature::ES2016ExponentiationOperator => self.exponentiation_operator,
            ESFeature::ES2015ArrowFunctions => self.arrow_function,
            ESFeature::ES2015StickyRegex => self.sticky_flag,
            ESFeature::ES2015UnicodeRegex => self.unicode_flag,
            ESFeature::ES2018DotallRegex => self.dot_all_flag,
            ESFeature::ES2018LookbehindRegex => self.look_behind_assertions,
            ESFeature::ES2018NamedCapturingGroupsRegex => self.named_capture_groups,
            ESFeature::ES2018UnicodePropertyRegex => self.unicode_property_escapes,
            ESFeature::ES2022MatchIndicesRegex => self.match_indices,
            ESFeature::ES2024UnicodeSetsRegex => self.set_notation,
            ESFeature::ES2022TopLevelAwait
            | ESFeature::ES2020BigInt
            | ESFeature::ES2020ArbitraryModuleNamespaceNames => false,
        }
    }
}
