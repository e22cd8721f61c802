// The value of Babel's option `plugins`.
ghost use Rattle.std.specs.Prelude.{◌≡◌, ◌++◌, ◌||◌, map, option_map, IfOk, IfErr, None, codes};
ghost use Rattle.serde_json.specs.View.{view};
ghost use Rattle.serde_json.specs.Find.{at};
ghost use Rattle.babel_values.specs.Entries.{last_among, last_entry};
ghost use Rattle.babel_options.specs.PluginParts as parts;
ghost use Rattle.babel_options.specs.Plugins as spec;

use crate::fault::OptionsFault;
use crate::plugins::{BabelPlugins, SyntaxDecoratorOptions, SyntaxTypeScriptOptions};
use crate::refusal::refusal;
use babel_values::{
    entries_in, flag, has_entry, is_flag, is_named, is_text, last_entry, name_of, option_of, text,
};
use js_ident::Ident;
use serde_json::Value;
use std::alloc::{AllocError, Global};

impl BabelPlugins {
    /// What the entries of `plugins` set. A value that is read has to have the shape that is read.
    pub fn from_entries(alloc: Global, value: &Value) -> Result<BabelPlugins, OptionsFault>
        ensures made { IfOk result (spec.ReadsPlugins (view value.now)) }
        ensures refused { IfErr result (spec.RefusesOnce (spec.plugins_error (view value.now))) }
    {
        let Some(items) = entries_in(value) else {
            let refused = refusal(alloc, "plugins", ": wrong shape")?;
            return Err(refused);
        };
        if let Some(name) = first_wrong(items) {
            let refused = refusal(alloc, name, ": wrong value")?;
            return Err(refused);
        }
        let plugins = BabelPlugins::read(alloc, items)?;
        Ok(plugins)
    }

    // No plugins.
    fn empty(alloc: Global) -> BabelPlugins
        ensures { spec.IsEmpty result }
    {
        BabelPlugins {
            errors: Vec::new(alloc),
            unsupported: Vec::new(alloc),
            syntax_typescript: None,
            syntax_jsx: false,
            syntax_decorators: None,
            proposal_decorators: None,
            react_jsx: false,
            react_jsx_dev: false,
            modules_commonjs: false,
            sticky_flag: false,
            unicode_flag: false,
            dot_all_flag: false,
            look_behind_assertions: false,
            named_capture_groups: false,
            unicode_property_escapes: false,
            match_indices: false,
            set_notation: false,
            arrow_function: false,
            exponentiation_operator: false,
            async_to_generator: false,
            async_generator_functions: false,
            object_rest_spread: false,
            optional_catch_binding: false,
            optional_chaining: false,
            nullish_coalescing_operator: false,
            export_namespace_from: false,
            logical_assignment_operators: false,
            class_properties: false,
            class_static_block: false,
            explicit_resource_management: false,
        }
    }

    #[tactic(auto, using(crate::proofs::Entered::each_set))]
    pub(crate) fn read(alloc: Global, items: &[Value]) -> Result<BabelPlugins, AllocError>
        ensures { IfOk result (spec.IsPluginsOf (map view items.now)) }
    {
        let mut plugins = BabelPlugins::empty(alloc);
        plugins.set_regexps(items);
        plugins.set_newer(items);
        plugins.set_older(items);
        plugins.set_others(items);
        plugins.syntax_typescript = last_type_script(items);
        plugins.syntax_decorators = last_decorators(alloc, items, "syntax-decorators")?;
        plugins.proposal_decorators = last_decorators(alloc, items, "proposal-decorators")?;
        plugins.unsupported = unsupported(alloc, items)?;
        Ok(plugins)
    }

    // The plugins of regular expressions.
    fn set_regexps(&mut self, items: &[Value])
        ensures { self.new ≡ parts.with_regexps (spec.is_entered (map view items.now)) self.old }
    {
        self.sticky_flag = has_entry(items, "transform-sticky-regex");
        self.unicode_flag = has_entry(items, "transform-unicode-regex");
        self.dot_all_flag = has_entry(items, "transform-dotall-regex");
        self.look_behind_assertions = has_entry(items, "esbuild-regexp-lookbehind-assertions");
        self.named_capture_groups = has_entry(items, "transform-named-capturing-groups-regex");
        self.unicode_property_escapes = has_entry(items, "transform-unicode-property-regex");
        self.match_indices = has_entry(items, "esbuild-regexp-match-indices");
        self.set_notation = has_entry(items, "transform-unicode-sets-regex");
    }

    // The plugins of the editions from 2020 on.
    fn set_newer(&mut self, items: &[Value])
        ensures { self.new ≡ parts.with_newer (spec.is_entered (map view items.now)) self.old }
    {
        self.explicit_resource_management = has_entry(
            items,
            "transform-explicit-resource-management",
        );
        self.class_static_block = has_entry(items, "transform-class-static-block");
        self.class_properties = has_entry(items, "transform-class-properties");
        self.logical_assignment_operators = has_entry(
            items,
            "transform-logical-assignment-operators",
        );
        self.export_namespace_from = has_entry(items, "transform-export-namespace-from");
        self.nullish_coalescing_operator = has_entry(
            items,
            "transform-nullish-coalescing-operator",
        );
        self.optional_chaining = has_entry(items, "transform-optional-chaining");
    }

    // The plugins of the editions up to 2019.
    fn set_older(&mut self, items: &[Value])
        ensures { self.new ≡ parts.with_older (spec.is_entered (map view items.now)) self.old }
    {
        self.optional_catch_binding = has_entry(items, "transform-optional-catch-binding");
        self.object_rest_spread = has_entry(items, "transform-object-rest-spread");
        self.async_generator_functions = has_entry(items, "transform-async-generator-functions");
        self.async_to_generator = has_entry(items, "transform-async-to-generator");
        self.exponentiation_operator = has_entry(items, "transform-exponentiation-operator");
        self.arrow_function = has_entry(items, "transform-arrow-functions");
    }

    // The plugins that lower nothing that has a switch.
    fn set_others(&mut self, items: &[Value])
        ensures { self.new ≡ parts.with_others (map view items.now) self.old }
    {
        self.syntax_jsx = has_entry(items, "jsx") || has_entry(items, "syntax-jsx");
        self.react_jsx = has_entry(items, "transform-react-jsx");
        self.react_jsx_dev = has_entry(items, "transform-react-jsx-development");
        self.modules_commonjs = has_entry(items, "transform-modules-commonjs");
    }
}

fn is_type_script(item: &Value) -> bool
    ensures { result ≡ spec.is_type_script (view item.now) }
{
    is_named(item, "typescript") || is_named(item, "syntax-typescript")
}

fn is_decorators(item: &Value) -> bool
    ensures { result ≡ spec.is_decorators (view item.now) }
{
    is_named(item, "syntax-decorators") || is_named(item, "proposal-decorators")
}

fn has_object(item: &Value) -> bool
    ensures { result ≡ spec.is_object (at 1 (view item.now)) }
{
    match item.get(1) {
        Some(value) => value.is_object(),
        None => true,
    }
}

// Whether the entry's value has the shape that is read of it.
fn is_right(item: &Value) -> bool
    ensures { result ≡ spec.is_right (view item.now) }
{
    if is_type_script(item) {
        has_object(item)
            && is_flag(option_of(item, "dts"))
            && is_flag(option_of(item, "disallowAmbiguousJSXLike"))
    } else if is_decorators(item) {
        has_object(item) && is_text(option_of(item, "version"))
    } else {
        true
    }
}

// The name of the first entry whose value is wrong.
#[tactic(auto, using(crate::proofs::Items::dropped))]
fn first_wrong(items: &[Value]) -> Option<&str>
    ensures { option_map (λ name. name.now) result ≡ spec.first_wrong (map view items.now) }
{
    for item in items {
        if !is_right(item) {
            return name_of(item);
        }
    }
    None
}

fn type_script(item: &Value) -> SyntaxTypeScriptOptions
    ensures { result ≡ spec.type_script (view item.now) }
{
    SyntaxTypeScriptOptions {
        dts: flag(option_of(item, "dts"), false),
        disallow_ambiguous_jsx_like: flag(option_of(item, "disallowAmbiguousJSXLike"), false),
    }
}

#[tactic(auto, using(crate::proofs::Items::dropped))]
fn last_type_script(items: &[Value]) -> Option<SyntaxTypeScriptOptions>
    ensures { result ≡ option_map spec.type_script (last_among spec.is_type_script None (map view items.now)) }
{
    let mut last = None;
    for item in items {
        if is_type_script(item) {
            last = Some(type_script(item));
        }
    }
    last
}

fn last_decorators(
    alloc: Global,
    items: &[Value],
    name: &str,
) -> Result<Option<SyntaxDecoratorOptions>, AllocError>
    ensures { IfOk result (λ found. found ≡ option_map spec.decorators (last_entry name.now (map view items.now))) }
{
    match last_entry(items, name) {
        Some(item) => {
            let found = decorators(alloc, item)?;
            Ok(Some(found))
        }
        None => Ok(None),
    }
}

fn decorators(alloc: Global, item: &Value) -> Result<SyntaxDecoratorOptions, AllocError>
    ensures { IfOk result (λ found. found ≡ spec.decorators (view item.now)) }
{
    match text(alloc, option_of(item, "version"))? {
        Some(version) => Ok(SyntaxDecoratorOptions { version }),
        None => {
            let version = Ident::new(alloc, "")?;
            Ok(SyntaxDecoratorOptions { version })
        }
    }
}

fn is_known(name: &str) -> bool
    ensures { result ≡ spec.is_known name.now }
{
    is_other(name) || is_of_syntax(name) || is_of_regexps(name)
}

fn is_other(name: &str) -> bool
    ensures { result ≡ spec.is_one_of name.now spec.other_names }
{
    match name {
        "typescript" | "syntax-typescript" | "syntax-decorators" | "proposal-decorators" => true,
        "jsx" | "syntax-jsx" | "transform-react-jsx" | "transform-react-jsx-development" => true,
        "transform-modules-commonjs" => true,
        _ => false,
    }
}

fn is_of_syntax(name: &str) -> bool
    ensures { result ≡ spec.is_one_of name.now (spec.entries_of spec.syntax_features) }
{
    match name {
        "transform-explicit-resource-management" | "transform-class-static-block" => true,
        "transform-class-properties" | "transform-logical-assignment-operators" => true,
        "transform-export-namespace-from" | "transform-nullish-coalescing-operator" => true,
        "transform-optional-chaining" | "transform-optional-catch-binding" => true,
        "transform-object-rest-spread" | "transform-async-generator-functions" => true,
        "transform-async-to-generator" | "transform-exponentiation-operator" => true,
        "transform-arrow-functions" => true,
        _ => false,
    }
}

fn is_of_regexps(name: &str) -> bool
    ensures { result ≡ spec.is_one_of name.now (spec.entries_of spec.regexp_features) }
{
    match name {
        "transform-sticky-regex" | "transform-unicode-regex" => true,
        "transform-dotall-regex" | "esbuild-regexp-lookbehind-assertions" => true,
        "transform-named-capturing-groups-regex" | "transform-unicode-property-regex" => true,
        "esbuild-regexp-match-indices" | "transform-unicode-sets-regex" => true,
        _ => false,
    }
}

#[tactic(auto, using(crate::proofs::Items::dropped))]
fn unsupported(alloc: Global, items: &[Value]) -> Result<Vec<Ident>, AllocError>
    ensures { IfOk result (λ names. names.items ≡ spec.unsupported (map view items.now)) }
{
    let mut names = Vec::new(alloc);
    for item in items {
        if let Some(name) = name_of(item)
            && !is_known(name)
        {
            let name = Ident::new(alloc, name)?;
            names.push(name)?;
        }
    }
    Ok(names)
}
