use crate::{BabelModule, BabelOptions, BabelPlugins, BabelPresets, OptionsFault, merge_levels};
use js_ident::Ident;
use serde_json::Value;
use std::alloc::{AllocError, Global};
use std::process::Abort;
use std::test::Fail;
use transform_targets::{EngineTargets, TargetFault};

fn value(alloc: Global, text: &str) -> Result<Value, Fail> {
    let value = Value::from_slice(alloc, text.as_bytes())?;
    Ok(value)
}

const WRONG_OPTIONS: [(&str, &str); 33] = [
    ("null", "options: wrong shape"),
    ("[]", "options: wrong shape"),
    (r#""cwd""#, "options: wrong shape"),
    (r#"{"cwd":1}"#, "cwd: wrong shape"),
    (r#"{"sourceType":true}"#, "sourceType: wrong shape"),
    (r#"{"throws":["text"]}"#, "throws: wrong shape"),
    (
        r#"{"BABEL_8_BREAKING":"true"}"#,
        "BABEL_8_BREAKING: wrong shape",
    ),
    (r#"{"os":"linux"}"#, "os: wrong shape"),
    (r#"{"os":["linux","Windows"]}"#, "os: wrong shape"),
    (r#"{"os":[null]}"#, "os: wrong shape"),
    (
        r#"{"allowReturnOutsideFunction":null}"#,
        "allowReturnOutsideFunction: wrong shape",
    ),
    (
        r#"{"allowAwaitOutsideFunction":0}"#,
        "allowAwaitOutsideFunction: wrong shape",
    ),
    (
        r#"{"allowUndeclaredExports":"true"}"#,
        "allowUndeclaredExports: wrong shape",
    ),
    (
        r#"{"allowNewTargetOutsideFunction":{}}"#,
        "allowNewTargetOutsideFunction: wrong shape",
    ),
    (
        r#"{"allowSuperOutsideMethod":[]}"#,
        "allowSuperOutsideMethod: wrong shape",
    ),
    (
        r#"{"externalHelpers":null}"#,
        "externalHelpers: wrong shape",
    ),
    (r#"{"plugins":null}"#, "plugins: wrong shape"),
    (r#"{"plugins":{}}"#, "plugins: wrong shape"),
    (r#"{"plugins":[[]]}"#, "plugins: wrong shape"),
    (r#"{"plugins":["jsx",1]}"#, "plugins: wrong shape"),
    (r#"{"plugins":[["jsx",{},1]]}"#, "plugins: wrong shape"),
    (
        r#"{"plugins":[["jsx",{},"a","b"]]}"#,
        "plugins: wrong shape",
    ),
    (
        r#"{"plugins":[["typescript",1],1]}"#,
        "plugins: wrong shape",
    ),
    (
        r#"{"plugins":[["typescript",{"dts":1}]]}"#,
        "typescript: wrong value",
    ),
    (
        r#"{"plugins":[["syntax-typescript",{"disallowAmbiguousJSXLike":null}]]}"#,
        "syntax-typescript: wrong value",
    ),
    (
        r#"{"plugins":[["syntax-decorators",[]]]}"#,
        "syntax-decorators: wrong value",
    ),
    (
        r#"{"plugins":[["proposal-decorators",{"version":2023}]]}"#,
        "proposal-decorators: wrong value",
    ),
    (
        r#"{"plugins":[["jsx",1],["proposal-decorators",1],["typescript",1]]}"#,
        "proposal-decorators: wrong value",
    ),
    (r#"{"presets":"env"}"#, "presets: wrong shape"),
    (r#"{"presets":[["env",{},{}]]}"#, "presets: wrong shape"),
    (r#"{"cwd":1,"throws":1,"sourceType":1}"#, "cwd: wrong shape"),
    (
        r#"{"presets":1,"plugins":1,"externalHelpers":1}"#,
        "externalHelpers: wrong shape",
    ),
    (
        r#"{"presets":1,"plugins":[["typescript",null]]}"#,
        "typescript: wrong value",
    ),
];

fn only_error(alloc: Global, fault: OptionsFault) -> Result<Ident, Fail> {
    let OptionsFault::Refused { errors } = fault else {
        return Err(Fail::new("no memory"));
    };
    let Some(first) = errors.first() else {
        return Err(Fail::new("no error"));
    };
    if errors.len() > 1 {
        return Err(Fail::new("several errors"));
    }
    let copy = first.clone()?;
    Ok(copy)
}

#[test]
fn the_first_wrong_member_refuses(rt: HostRuntime) -> Result<(), Fail> {
    let alloc = rt.alloc();
    for (text, error) in WRONG_OPTIONS {
        match BabelOptions::from_value(alloc, &value(alloc, text)?) {
            Ok(_) => panic!(&rt; "{text} gives options"),
            Err(fault) => {
                let told = only_error(alloc, fault)?;
                assert_eq!(rt; told.as_str(), error, "{text}");
            }
        }
    }
    Ok(())
}

#[test]
fn members_and_defaults(rt: HostRuntime) -> Result<(), Fail> {
    let alloc = rt.alloc();
    let options = BabelOptions::from_value(alloc, &value(alloc, "{}")?)?;
    assert!(rt; options.cwd.is_none() && options.source_type.is_none() && options.os.is_none());
    assert!(rt; options.babel_8_breaking.is_none() && options.external_helpers);
    assert!(rt; !options.allow_super_outside_method && options.presets.env.is_none());
    let text = r#"{"cwd":"/a","sourceType":"module","throws":null,"BABEL_8_BREAKING":false,
        "os":["win32","darwin"],"externalHelpers":false,"allowUndeclaredExports":true,"x":[]}"#;
    let options = BabelOptions::from_value(alloc, &value(alloc, text)?)?;
    assert!(rt; options.is_module() && options.throws.is_none() && !options.external_helpers);
    assert!(rt; options.allow_undeclared_exports && !options.allow_await_outside_function);
    assert_eq!(rt; options.babel_8_breaking, Some(false));
    let os = options.os.ok_or("no systems")?;
    assert_eq!(rt; os.len(), 2);
    assert!(rt; os.first().is_some_and(|os| os.is_windows()));
    assert!(rt; os.last().is_some_and(|os| !os.is_windows()));
    Ok(())
}

#[test]
fn entries_of_each_form(rt: HostRuntime) -> Result<(), Fail> {
    let alloc = rt.alloc();
    for entry in [
        r#""jsx""#,
        r#"["jsx"]"#,
        r#"["jsx",1]"#,
        r#"["syntax-jsx",{},"name"]"#,
    ] {
        let text = format!(in alloc; r#"["other",{entry},["proposal-x",{{}}]]"#)?;
        let plugins = BabelPlugins::from_entries(alloc, &value(alloc, text.as_str())?)?;
        assert!(rt; plugins.syntax_jsx && !plugins.react_jsx, "{entry}");
        let [other, x] = plugins.unsupported.as_slice() else {
            return Err(Fail::new(entry));
        };
        assert_eq!(rt; other.as_str(), "other");
        assert_eq!(rt; x.as_str(), "proposal-x");
    }
    Ok(())
}

#[test]
fn plugins_that_are_read(rt: HostRuntime) -> Result<(), Fail> {
    let alloc = rt.alloc();
    let text =
        r#"[["typescript",{"dts":true}],["syntax-typescript",{"disallowAmbiguousJSXLike":true}],
        ["syntax-decorators",{"version":"2023-05","x":1}],"proposal-decorators","transform-react-jsx",
        "transform-modules-commonjs"]"#;
    let plugins = BabelPlugins::from_entries(alloc, &value(alloc, text)?)?;
    let types = plugins.syntax_typescript.ok_or("no types")?;
    assert!(rt; !types.dts && types.disallow_ambiguous_jsx_like);
    let syntax = plugins.syntax_decorators.ok_or("no decorators")?;
    assert_eq!(rt; syntax.version.as_str(), "2023-05");
    let proposal = plugins.proposal_decorators.ok_or("no decorators")?;
    assert_eq!(rt; proposal.version.as_str(), "");
    assert!(rt; plugins.react_jsx && !plugins.react_jsx_dev && plugins.modules_commonjs);
    assert!(rt; plugins.unsupported.is_empty() && plugins.errors.is_empty());
    Ok(())
}

const ENV_VALUES: [(&str, bool); 38] = [
    (r#"["env"]"#, true),
    (r#"["env",{}]"#, true),
    (r#"["env",null]"#, false),
    (r#"["env",[]]"#, false),
    (r#"["env",{"other":1}]"#, false),
    (r#"["env",{"Spec":true}]"#, false),
    (r#"["env",{"bugfixes":1}]"#, false),
    (r#"["env",{"spec":null}]"#, false),
    (r#"["env",{"loose":"true"}]"#, false),
    (r#"["env",{"debug":0}]"#, false),
    (r#"["env",{"forceAllTransforms":[]}]"#, false),
    (r#"["env",{"ignoreBrowserslistConfig":null}]"#, false),
    (r#"["env",{"shippedProposals":{}}]"#, false),
    (r#"["env",{"configPath":1}]"#, false),
    (r#"["env",{"configPath":null}]"#, true),
    (
        r#"["env",{"include":1,"exclude":null,"useBuiltIns":"usage","corejs":3.1}]"#,
        true,
    ),
    (r#"["env",{"modules":"auto"}]"#, true),
    (r#"["env",{"modules":"commonjs"}]"#, true),
    (r#"["env",{"modules":"amd"}]"#, false),
    (r#"["env",{"modules":"umd"}]"#, false),
    (r#"["env",{"modules":"systemjs"}]"#, false),
    (r#"["env",{"modules":true}]"#, false),
    (r#"["env",{"modules":null}]"#, false),
    (r#"["env",{"targets":null}]"#, false),
    (r#"["env",{"targets":"foo1"}]"#, false),
    (r#"["env",{"targets":"chrome80,chrome81"}]"#, false),
    (r#"["env",{"targets":[]}]"#, true),
    (r#"["env",{"targets":["chrome80",1]}]"#, false),
    (r#"["env",{"targets":["es2015","es2016"]}]"#, false),
    (r#"["env",{"targets":{}}]"#, true),
    (r#"["env",{"targets":{"es":2017}}]"#, false),
    (r#"["env",{"targets":{"Chrome":80}}]"#, false),
    (r#"["env",{"targets":{"chrome":80.5}}]"#, false),
    (r#"["env",{"targets":{"chrome":-80}}]"#, false),
    (r#"["env",{"targets":{"chrome":4294967296}}]"#, false),
    (r#"["env",{"targets":{"chrome":"80 "}}]"#, false),
    (r#"["env",{"targets":{"chrome":true}}]"#, false),
    (
        r#"["env",{"targets":{"chrome":4294967295,"ie":"9.0"}}]"#,
        true,
    ),
];

#[test]
fn a_wrong_value_of_env_is_an_error(rt: HostRuntime) -> Result<(), Fail> {
    let alloc = rt.alloc();
    for (entry, is_right) in ENV_VALUES {
        let text = format!(in alloc; r#"["other",{entry},"react"]"#)?;
        let presets = BabelPresets::from_entries(alloc, &value(alloc, text.as_str())?)?;
        assert_eq!(rt; presets.env.is_some(), is_right, "{entry}");
        assert!(rt; presets.jsx && !presets.typescript);
        assert_eq!(rt; presets.unsupported.len(), 1);
        let errors = presets.errors.as_slice();
        match errors {
            [] => assert!(rt; is_right, "{entry}"),
            [error] => assert_eq!(rt; error.as_str(), "env: wrong value"),
            _ => panic!(&rt; "{entry} has several errors"),
        }
    }
    Ok(())
}

fn major(targets: &EngineTargets, is_chrome: bool) -> Option<u32> {
    let version = if is_chrome {
        targets.chrome
    } else {
        targets.safari
    };
    Some(version?.major)
}

#[test]
fn values_of_env(rt: HostRuntime) -> Result<(), Fail> {
    let alloc = rt.alloc();
    for targets in [
        r#""\tsafari10.1 , chrome80""#,
        r#"["chrome80"," safari10"]"#,
        r#"{"chrome":80,"safari":"10.1.2"}"#,
    ] {
        let text = format!(in alloc;
            r#"[["env",{{"targets":{targets},"bugfixes":false,"loose":true,
            "modules":"cjs","configPath":"/a"}}]]"#
        )?;
        let presets = BabelPresets::from_entries(alloc, &value(alloc, text.as_str())?)?;
        let env = presets.env.ok_or(targets)?;
        assert_eq!(rt; major(&env.targets, true), Some(80));
        assert_eq!(rt; major(&env.targets, false), Some(10));
        assert!(rt; env.targets.ie.is_none() && !env.bugfixes && env.loose && !env.spec);
        assert!(rt; matches!(env.modules, BabelModule::Commonjs));
        assert!(rt; env.config_path.is_some_and(|path| path.as_str() == "/a"));
    }
    let presets = BabelPresets::from_entries(
        alloc,
        &value(alloc, r#"["env",["env",{"modules":false}],"typescript"]"#)?,
    )?;
    let env = presets.env.ok_or("no env")?;
    assert!(rt; env.bugfixes && !env.debug && env.config_path.is_none() && presets.typescript);
    assert!(rt; matches!(env.modules, BabelModule::Boolean(false)));
    Ok(())
}

const TASK: &str = r#"{"cwd":"t","sourceType":"module","externalHelpers":false}"#;

const SUITE: &str = r#"{"cwd":"s","throws":"S","presets":["react"],"os":[]}"#;

const CATEGORY: &str = r#"{"cwd":"c","sourceType":"script","throws":"C",
    "plugins":["transform-sticky-regex"],"presets":["typescript"]}"#;

const LEVELS: [(&str, &str, &str, &str); 13] = [
    ("", "", "", "- - - "),
    (TASK, "", "", "t module - "),
    ("", SUITE, "", "s - S react external "),
    ("", "", CATEGORY, "c script C sticky typescript external "),
    (TASK, SUITE, "", "t module S react "),
    (TASK, "", CATEGORY, "t module C sticky typescript "),
    ("", SUITE, CATEGORY, "s script S react external "),
    (TASK, SUITE, CATEGORY, "t module S react "),
    ("{}", "{}", CATEGORY, "- script C external "),
    (
        r#"{"plugins":[]}"#,
        "",
        CATEGORY,
        "- script C typescript external ",
    ),
    (
        CATEGORY,
        SUITE,
        "",
        "c script C sticky typescript external ",
    ),
    (SUITE, CATEGORY, "", "s script S sticky react external "),
    (
        r#"{"sourceType":null,"throws":""}"#,
        SUITE,
        "",
        "- -  react external ",
    ),
];

fn given(alloc: Global, text: &str) -> Result<Option<Value>, Fail> {
    if text.is_empty() {
        return Ok(None);
    }
    let value = value(alloc, text)?;
    Ok(Some(value))
}

fn push_text(shown: &mut String, text: &Option<Ident>) -> Result<(), AllocError> {
    match text {
        Some(text) => shown.push_str(text.as_str())?,
        None => shown.push_str("-")?,
    }
    shown.push_str(" ")
}

fn push_if(shown: &mut String, is_set: bool, text: &str) -> Result<(), AllocError> {
    if is_set {
        shown.push_str(text)?;
    }
    Ok(())
}

fn shown(alloc: Global, options: &BabelOptions) -> Result<String, AllocError> {
    let mut shown = String::new(alloc);
    push_text(&mut shown, &options.cwd)?;
    push_text(&mut shown, &options.source_type)?;
    push_text(&mut shown, &options.throws)?;
    push_if(&mut shown, options.plugins.sticky_flag, "sticky ")?;
    push_if(&mut shown, options.presets.jsx, "react ")?;
    push_if(&mut shown, options.presets.typescript, "typescript ")?;
    push_if(&mut shown, options.external_helpers, "external ")?;
    Ok(shown)
}

#[test]
fn levels_fill_each_other_up(rt: HostRuntime) -> Result<(), Fail> {
    let alloc = rt.alloc();
    for (task, suite, category, expected) in LEVELS {
        let task = given(alloc, task)?;
        let suite = given(alloc, suite)?;
        let category = given(alloc, category)?;
        let options = merge_levels(alloc, task.as_ref(), suite.as_ref(), category.as_ref())?;
        let text = shown(alloc, &options)?;
        assert_eq!(rt; text.as_str(), expected);
    }
    Ok(())
}

#[test]
fn the_first_refused_level_refuses(rt: HostRuntime) -> Result<(), Fail> {
    let alloc = rt.alloc();
    let wrong_cwd = value(alloc, r#"{"cwd":1}"#)?;
    let wrong_os = value(alloc, r#"{"os":1,"plugins":1}"#)?;
    let right = value(alloc, SUITE)?;
    for (task, suite, category, error) in [
        (&wrong_cwd, &wrong_os, &right, "cwd: wrong shape"),
        (&right, &wrong_os, &wrong_cwd, "os: wrong shape"),
        (&right, &right, &wrong_cwd, "cwd: wrong shape"),
    ] {
        let Err(fault) = merge_levels(alloc, Some(task), Some(suite), Some(category)) else {
            return Err(Fail::new(error));
        };
        let text = only_error(alloc, fault)?;
        assert_eq!(rt; text.as_str(), error);
    }
    Ok(())
}

#[test]
fn a_refusal_shows_its_errors(rt: HostRuntime) -> Result<(), Fail> {
    let alloc = rt.alloc();
    let word = Ident::new(alloc, "foo1")?;
    let fault = OptionsFault::of_targets(alloc, &TargetFault::NoMatch { word })?;
    let text = format!(in alloc; "{fault}")?;
    assert_eq!(rt;
        text.as_str(),
        "the options are refused; no matching target: foo1"
    );
    let error = only_error(alloc, fault)?;
    assert_eq!(rt; error.as_str(), "no matching target: foo1");
    Ok(())
}
