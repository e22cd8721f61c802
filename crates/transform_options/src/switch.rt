ghost use Rattle.std.specs.Prelude.{◌≡◌, Some};
ghost use Rattle.transform_options.specs.Switches as spec;

use crate::options::env::EnvOptions;
use std::fmt::{self, Display, Formatter, Write};
use transform_targets::ESFeature;

/// The switches for features that show in a tree, the newest first.
#[derive(Debug, Clone, Copy)]
pub enum Switch {
    /// `static {}` in a class.
    ClassStaticBlock,
    /// Fields and private names of classes.
    ClassProperties,
    /// `&&=`, `||=` and `??=`.
    LogicalAssignmentOperators,
    /// `export * as`.
    ExportNamespaceFrom,
    /// `??`.
    NullishCoalescingOperator,
    /// `?.`.
    OptionalChaining,
    /// `catch` without a parameter.
    OptionalCatchBinding,
    /// `...` in objects and in their patterns.
    ObjectRestSpread,
    /// Async generators and `for await`.
    AsyncGeneratorFunctions,
    /// Async functions that are no generators.
    AsyncToGenerator,
    /// `**` and `**=`.
    ExponentiationOperator,
    /// Arrow functions.
    ArrowFunction,
}

impl Switch {
    /// The feature that the switch has lowered.
    pub fn feature(self) -> ESFeature
        ensures value { result ≡ spec.feature_of self }
        ensures form { (spec.row result).form ≡ Some self }
    {
        match self {
            Switch::ClassStaticBlock => ESFeature::ES2022ClassStaticBlock,
            Switch::ClassProperties => ESFeature::ES2022ClassProperties,
            Switch::LogicalAssignmentOperators => ESFeature::ES2021LogicalAssignmentOperators,
            Switch::ExportNamespaceFrom => ESFeature::ES2020ExportNamespaceFrom,
            Switch::NullishCoalescingOperator => ESFeature::ES2020NullishCoalescingOperator,
            Switch::OptionalChaining => ESFeature::ES2020OptionalChaining,
            Switch::OptionalCatchBinding => ESFeature::ES2019OptionalCatchBinding,
            Switch::ObjectRestSpread => ESFeature::ES2018ObjectRestSpread,
            Switch::AsyncGeneratorFunctions => ESFeature::ES2018AsyncGeneratorFunctions,
            Switch::AsyncToGenerator => ESFeature::ES2017AsyncToGenerator,
            Switch::ExponentiationOperator => ESFeature::ES2016ExponentiationOperator,
            Switch::ArrowFunction => ESFeature::ES2015ArrowFunctions,
        }
    }

    /// The field of `EnvOptions` that the switch is.
    pub fn as_str(self) -> &'static str
        ensures { result.now ≡ (spec.row_of self).name }
    {
        match self {
            Switch::ClassStaticBlock => "es2022.class_static_block",
            Switch::ClassProperties => "es2022.class_properties",
            Switch::LogicalAssignmentOperators => "es2021.logical_assignment_operators",
            Switch::ExportNamespaceFrom => "es2020.export_namespace_from",
            Switch::NullishCoalescingOperator => "es2020.nullish_coalescing_operator",
            Switch::OptionalChaining => "es2020.optional_chaining",
            Switch::OptionalCatchBinding => "es2019.optional_catch_binding",
            Switch::ObjectRestSpread => "es2018.object_rest_spread",
            Switch::AsyncGeneratorFunctions => "es2018.async_generator_functions",
            Switch::AsyncToGenerator => "es2017.async_to_generator",
            Switch::ExponentiationOperator => "es2016.exponentiation_operator",
            Switch::ArrowFunction => "es2015.arrow_function",
        }
    }

    /// Whether these options have the switch on.
    pub fn is_on(self, env: &EnvOptions) -> bool
        ensures { result ≡ (spec.row_of self).switch env.now }
    {
        match self {
            Switch::ClassStaticBlock => env.es2022.class_static_block,
            Switch::ClassProperties => env.es2022.class_properties,
            Switch::LogicalAssignmentOperators => env.es2021.logical_assignment_operators,
            Switch::ExportNamespaceFrom => env.es2020.export_namespace_from,
            Switch::NullishCoalescingOperator => env.es2020.nullish_coalescing_operator,
            Switch::OptionalChaining => env.es2020.optional_chaining,
            Switch::OptionalCatchBinding => env.es2019.optional_catch_binding,
            Switch::ObjectRestSpread => env.es2018.object_rest_spread,
            Switch::AsyncGeneratorFunctions => env.es2018.async_generator_functions,
            Switch::AsyncToGenerator => env.es2017.async_to_generator,
            Switch::ExponentiationOperator => env.es2016.exponentiation_operator,
            Switch::ArrowFunction => env.es2015.arrow_function,
        }
    }
}

impl Display for Switch {
    ghost output = { λ switch. Some (spec.row_of switch).name };

    fn fmt<W: Write>(&self, f: &mut Formatter<W>) -> fmt::Result {
        f.write_str(self.as_str())
    }
}
