use crate::{BabelOptions, EnvOptions, HelperLoaderMode, OptionsFault, Switch, TransformOptions};
use js_ident::Ident;
use serde_json::Value;
use std::alloc::{AllocError, Global};
use std::process::Abort;
use std::test::Fail;
use transform_targets::{ESFeature, ESTarget, Engine, FeatureTable, Version};

// Each switch with its feature and the entry of its plugin.
const ROWS: [(&str, ESFeature, &str); 24] = [
    (
        "es2026.explicit_resource_management ",
        ESFeature::ES2026ExplicitResourceManagement,
        "transform-explicit-resource-management",
    ),
    (
        "es2022.class_static_block ",
        ESFeature::ES2022ClassStaticBlock,
        "transform-class-static-block",
    ),
    (
        "es2022.class_properties ",
        ESFeature::ES2022ClassProperties,
        "transform-class-properties",
    ),
    (
        "es2022.top_level_await ",
        ESFeature::ES2022TopLevelAwait,
        "",
    ),
    (
        "es2021.logical_assignment_operators ",
        ESFeature::ES2021LogicalAssignmentOperators,
        "transform-logical-assignment-operators",
    ),
    (
        "es2020.export_namespace_from ",
        ESFeature::ES2020ExportNamespaceFrom,
        "transform-export-namespace-from",
    ),
    (
        "es2020.nullish_coalescing_operator ",
        ESFeature::ES2020NullishCoalescingOperator,
        "transform-nullish-coalescing-operator",
    ),
    (
        "es2020.optional_chaining ",
        ESFeature::ES2020OptionalChaining,
        "transform-optional-chaining",
    ),
    ("es2020.big_int ", ESFeature::ES2020BigInt, ""),
    (
        "es2020.arbitrary_module_namespace_names ",
        ESFeature::ES2020ArbitraryModuleNamespaceNames,
        "",
    ),
    (
        "es2019.optional_catch_binding ",
        ESFeature::ES2019OptionalCatchBinding,
        "transform-optional-catch-binding",
    ),
    (
        "es2018.object_rest_spread ",
        ESFeature::ES2018ObjectRestSpread,
        "transform-object-rest-spread",
    ),
    (
        "es2018.async_generator_functions ",
        ESFeature::ES2018AsyncGeneratorFunctions,
        "transform-async-generator-functions",
    ),
    (
        "es2017.async_to_generator ",
        ESFeature::ES2017AsyncToGenerator,
        "transform-async-to-generator",
    ),
    (
        "es2016.exponentiation_operator ",
        ESFeature::ES2016ExponentiationOperator,
        "transform-exponentiation-operator",
    ),
    (
        "es2015.arrow_function ",
        ESFeature::ES2015ArrowFunctions,
        "transform-arrow-functions",
    ),
    (
        "regexp.sticky_flag ",
        ESFeature::ES2015StickyRegex,
        "transform-sticky-regex",
    ),
    (
        "regexp.unicode_flag ",
        ESFeature::ES2015UnicodeRegex,
        "transform-unicode-regex",
    ),
    (
        "regexp.dot_all_flag ",
        ESFeature::ES2018DotallRegex,
        "transform-dotall-regex",
    ),
    (
        "regexp.look_behind_assertions ",
        ESFeature::ES2018LookbehindRegex,
        "esbuild-regexp-lookbehind-assertions",
    ),
    (
        "regexp.named_capture_groups ",
        ESFeature::ES2018NamedCapturingGroupsRegex,
        "transform-named-capturing-groups-regex",
    ),
    (
        "regexp.unicode_property_escapes ",
        ESFeature::ES2018UnicodePropertyRegex,
        "transform-unicode-property-regex",
    ),
    (
        "regexp.match_indices ",
        ESFeature::ES2022MatchIndicesRegex,
        "esbuild-regexp-match-indices",
    ),
    (
        "regexp.set_notation ",
        ESFeature::ES2024UnicodeSetsRegex,
        "transform-unicode-sets-regex",
    ),
];

// The switches that are on.
fn shown(alloc: Global, env: &EnvOptions) -> Result<String, AllocError> {
    let mut shown = String::new(alloc);
    for (name, is_on) in [
        (
            "es2026.explicit_resource_management ",
            env.es2026.explicit_resource_management,
        ),
        ("es2022.class_static_block ", env.es2022.class_static_block),
        ("es2022.class_properties ", env.es2022.class_properties),
        ("es2022.top_level_await ", env.es2022.top_level_await),
        (
            "es2021.logical_assignment_operators ",
            env.es2021.logical_assignment_operators,
        ),
        (
            "es2020.export_namespace_from ",
            env.es2020.export_namespace_from,
        ),
        (
            "es2020.nullish_coalescing_operator ",
            env.es2020.nullish_coalescing_operator,
        ),
        ("es2020.optional_chaining ", env.es2020.optional_chaining),
        ("es2020.big_int ", env.es2020.big_int),
        (
            "es2020.arbitrary_module_namespace_names ",
            env.es2020.arbitrary_module_namespace_names,
        ),
        (
            "es2019.optional_catch_binding ",
            env.es2019.optional_catch_binding,
        ),
        ("es2018.object_rest_spread ", env.es2018.object_rest_spread),
        (
            "es2018.async_generator_functions ",
            env.es2018.async_generator_functions,
        ),
        ("es2017.async_to_generator ", env.es2017.async_to_generator),
        (
            "es2016.exponentiation_operator ",
            env.es2016.exponentiation_operator,
        ),
        ("es2015.arrow_function ", env.es2015.arrow_function),
        ("regexp.sticky_flag ", env.regexp.sticky_flag),
        ("regexp.unicode_flag ", env.regexp.unicode_flag),
        ("regexp.dot_all_flag ", env.regexp.dot_all_flag),
        (
            "regexp.look_behind_assertions ",
            env.regexp.look_behind_assertions,
        ),
        (
            "regexp.named_capture_groups ",
            env.regexp.named_capture_groups,
        ),
        (
            "regexp.unicode_property_escapes ",
            env.regexp.unicode_property_escapes,
        ),
        ("regexp.match_indices ", env.regexp.match_indices),
        ("regexp.set_notation ", env.regexp.set_notation),
    ] {
        if is_on {
            shown.push_str(name)?;
        }
    }
    Ok(shown)
}

const fn chrome(major: u32) -> Version {
    Version {
        major,
        minor: 0,
        patch: 0,
    }
}

// A table in which chrome 80 lacks one feature alone.
fn table_without(alloc: Global, lacking: ESFeature) -> Result<FeatureTable, AllocError> {
    let mut table = FeatureTable::new(alloc);
    for (_, feature, _) in ROWS {
        table.set(feature, Engine::Chrome, chrome(80))?;
    }
    table.set(lacking, Engine::Chrome, chrome(81))?;
    Ok(table)
}

fn unless(is_off: bool, name: &str) -> &str {
    if is_off { "" } else { name }
}

fn babel(alloc: Global, text: &str, table: &FeatureTable) -> Result<TransformOptions, Fail> {
    let value = Value::from_slice(alloc, text.as_bytes())?;
    let options = BabelOptions::from_value(alloc, &value)?;
    let made = TransformOptions::from_babel(alloc, &options, table)?;
    Ok(made)
}

#[test]
fn each_switch_from_targets(rt: HostRuntime) -> Result<(), Fail> {
    let alloc = rt.alloc();
    for (name, feature, _) in ROWS {
        let table = table_without(alloc, feature)?;
        let env = EnvOptions::from_target(alloc, " chrome80 ", &table)?;
        let on = shown(alloc, &env)?;
        assert_eq!(rt; on.as_str(), name);
        let env = EnvOptions::from_target(alloc, "chrome81", &table)?;
        let on = shown(alloc, &env)?;
        assert_eq!(rt; on.as_str(), "");
    }
    Ok(())
}

#[test]
fn each_switch_from_its_plugin(rt: HostRuntime) -> Result<(), Fail> {
    let alloc = rt.alloc();
    let table = FeatureTable::new(alloc);
    for (name, _, entry) in ROWS {
        let text = format!(in alloc; r#"{{"plugins":["{entry}"]}}"#)?;
        let made = babel(alloc, text.as_str(), &table)?;
        let on = shown(alloc, &made.env)?;
        // the preset alone decides this one
        let is_beside = name == "regexp.match_indices ";
        assert_eq!(rt; on.as_str(), unless(is_beside || entry.is_empty(), name));
    }
    Ok(())
}

#[test]
fn each_switch_from_the_preset(rt: HostRuntime) -> Result<(), Fail> {
    let alloc = rt.alloc();
    for (name, feature, _) in ROWS {
        let table = table_without(alloc, feature)?;
        let made = babel(
            alloc,
            r#"{"presets":[["env",{"targets":{"chrome":80}}]]}"#,
            &table,
        )?;
        let on = shown(alloc, &made.env)?;
        // its plugin alone decides this one
        let is_plugin_alone = name == "es2026.explicit_resource_management ";
        assert_eq!(rt; on.as_str(), unless(is_plugin_alone, name));
    }
    Ok(())
}

const LATER: [(&str, &str); 7] = [
    ("esnext", ""),
    ("es2026", ""),
    ("es2025", "es2026.explicit_resource_management "),
    (
        "es2023",
        "es2026.explicit_resource_management regexp.set_notation ",
    ),
    (
        "es2021",
        "es2026.explicit_resource_management es2022.class_static_block es2022.class_properties \
         es2022.top_level_await regexp.match_indices regexp.set_notation ",
    ),
    (
        "es2020",
        "es2026.explicit_resource_management es2022.class_static_block es2022.class_properties \
         es2022.top_level_await es2021.logical_assignment_operators regexp.match_indices \
         regexp.set_notation ",
    ),
    (
        "es2021,chrome80",
        "es2026.explicit_resource_management es2022.class_static_block es2022.class_properties \
         es2022.top_level_await es2016.exponentiation_operator regexp.match_indices \
         regexp.set_notation ",
    ),
];

#[test]
fn editions_lack_what_came_later(rt: HostRuntime) -> Result<(), Fail> {
    let alloc = rt.alloc();
    let table = table_without(alloc, ESFeature::ES2016ExponentiationOperator)?;
    for (target, expected) in LATER {
        let made = TransformOptions::from_target(alloc, target, &table)?;
        let on = shown(alloc, &made.env)?;
        assert_eq!(rt; on.as_str(), expected, "{target}");
    }
    let made = TransformOptions::from_es_target(ESTarget::ES2025);
    let on = shown(alloc, &made.env)?;
    assert_eq!(rt; on.as_str(), "es2026.explicit_resource_management ");
    Ok(())
}

#[test]
fn switches_that_are_ready(rt: HostRuntime) {
    assert!(rt; !EnvOptions::default().es2020.optional_chaining);
    assert!(rt; !EnvOptions::enable_all(false).es2015.arrow_function);
    assert!(rt; EnvOptions::enable_all(true).es2015.arrow_function);
    assert!(rt; !EnvOptions::enable_all(true).es2020.big_int);
    assert!(rt; TransformOptions::enable_all().env.regexp.set_notation);
}

#[test]
fn options_beside_the_switches(rt: HostRuntime) -> Result<(), Fail> {
    let alloc = rt.alloc();
    let table = FeatureTable::new(alloc);
    let made = babel(alloc, r#"{"cwd":"/a"}"#, &table)?;
    assert!(rt; matches!(made.helper_mode, HelperLoaderMode::External));
    assert!(rt; made.cwd.is_some_and(|cwd| cwd.as_str() == "/a"));
    let text = r#"{"externalHelpers":false,"plugins":["transform-modules-commonjs"],
        "presets":[["env",{"modules":false}]]}"#;
    let made = babel(alloc, text, &table)?;
    assert!(rt; matches!(made.helper_mode, HelperLoaderMode::Runtime));
    assert!(rt; made.env.module.is_commonjs() && made.cwd.is_none());
    let made = babel(alloc, r#"{"presets":[["env",{"modules":"cjs"}]]}"#, &table)?;
    assert!(rt; !made.env.module.is_commonjs() && !made.env.module.is_esm());
    Ok(())
}

#[test]
fn errors_of_babel(rt: HostRuntime) -> Result<(), Fail> {
    let alloc = rt.alloc();
    let value = Value::from_slice(alloc, br#"{"presets":[["env",1]]}"#)?;
    let mut options = BabelOptions::from_value(alloc, &value)?;
    options.plugins.errors.push(Ident::new(alloc, "first")?)?;
    let made = TransformOptions::from_babel(alloc, &options, &FeatureTable::new(alloc));
    let Err(OptionsFault::Refused { errors }) = made else {
        return Err(Fail::new("not refused"));
    };
    let [first, second] = errors.as_slice() else {
        return Err(Fail::new("not two errors"));
    };
    assert_eq!(rt; first.as_str(), "first");
    assert_eq!(rt; second.as_str(), "env: wrong value");
    Ok(())
}

#[test]
fn a_switch_shows_its_field(rt: HostRuntime) -> Result<(), Fail> {
    let text = format!(in rt.alloc(); "{}", Switch::ClassStaticBlock)?;
    assert_eq!(rt; text.as_str(), "es2022.class_static_block");
    let env = EnvOptions::enable_all(false);
    assert!(rt; Switch::ClassStaticBlock.is_on(&env) && !Switch::ArrowFunction.is_on(&env));
    Ok(())
}
