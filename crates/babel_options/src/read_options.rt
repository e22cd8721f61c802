// Babel's options, from one value or from those of several levels.
ghost use Rattle.std.specs.Prelude.{◌≡◌, option_map, option_and_then, is_some, IfOk, IfErr, None};
ghost use Rattle.serde_json.specs.View.{view};
ghost use Rattle.babel_options.specs.Levels as levels;
ghost use Rattle.babel_options.specs.Options as spec;
ghost use Rattle.babel_options.specs.Plugins.{RefusesOnce};

use crate::babel::BabelOptions;
use crate::fault::OptionsFault;
use crate::level::Level;
use serde_json::Value;
use std::alloc::Global;

impl BabelOptions {
    /// The options that an object gives.
    #[tactic(auto, using(crate::proofs::Levels::finished))]
    pub fn from_value(alloc: Global, value: &Value) -> Result<BabelOptions, OptionsFault>
        ensures made { IfOk result (spec.ReadsOptions (view value.now)) }
        ensures refused { IfErr result (RefusesOnce (spec.options_error (view value.now))) }
    {
        let level = Level::read(alloc, value)?;
        let options = level.finish(alloc)?;
        Ok(options)
    }
}

/// The options of a test that stands in a suite, which stands in a category. The first of these that gives options is
/// filled up from the others; the category's plugins and presets are not used where a suite is given.
#[tactic(auto, using(crate::proofs::Refusals::refuses_first, crate::proofs::Refusals::refuses_later))]
pub fn merge_levels(
    alloc: Global,
    task: Option<&Value>,
    suite: Option<&Value>,
    category: Option<&Value>,
) -> Result<BabelOptions, OptionsFault>
    ensures made { IfOk result (spec.MergesOptions (option_map (λ v. view v.now) task.entry)
        (option_map (λ v. view v.now) suite.entry) (option_map (λ v. view v.now) category.entry)) }
    ensures refused { IfErr result (RefusesOnce (spec.levels_error (option_map (λ v. view v.now) task.entry)
        (option_map (λ v. view v.now) suite.entry) (option_map (λ v. view v.now) category.entry))) }
{
    let task = level_in(alloc, task)?;
    let suite = suite_level(alloc, suite, category)?;
    let level = both(task, suite).unwrap_or(Level::none());
    let options = level.finish(alloc)?;
    Ok(options)
}

// The suite's level, filled up from the category's.
#[tactic(auto, using(crate::proofs::Refusals::refuses_first, crate::proofs::Refusals::refuses_later))]
fn suite_level(
    alloc: Global,
    suite: Option<&Value>,
    category: Option<&Value>,
) -> Result<Option<Level>, OptionsFault>
    ensures sound { IfOk result (λ _. spec.suite_error (option_map (λ v. view v.now) suite.entry) (option_map (λ v. view v.now) category.entry) ≡ None) }
    ensures made { IfOk result (levels.AreLevels (spec.suite_level (option_map (λ v. view v.now) suite.entry) (option_map (λ v. view v.now) category.entry))) }
    ensures refused { IfErr result (RefusesOnce (spec.suite_error (option_map (λ v. view v.now) suite.entry) (option_map (λ v. view v.now) category.entry))) }
{
    let has_suite = suite.is_some();
    let suite = level_in(alloc, suite)?;
    let category = level_in(alloc, category)?;
    Ok(both(suite, beside_suite(has_suite, category)))
}

fn level_in(alloc: Global, value: Option<&Value>) -> Result<Option<Level>, OptionsFault>
    ensures sound { IfOk result (λ _. option_and_then spec.options_error (option_map (λ v. view v.now) value.entry) ≡ None) }
    ensures made { IfOk result (levels.AreLevels (option_map spec.level_of (option_map (λ v. view v.now) value.entry))) }
    ensures refused { IfErr result (RefusesOnce (option_and_then spec.options_error (option_map (λ v. view v.now) value.entry))) }
{
    match value {
        Some(value) => {
            let level = Level::read(alloc, value)?;
            Ok(Some(level))
        }
        None => Ok(None),
    }
}

// The first level, filled up from the later one.
fn both(first: Option<Level>, later: Option<Level>) -> Option<Level>
    ensures { result ≡ levels.both first later }
{
    match (first, later) {
        (Some(first), Some(later)) => Some(first.over(later)),
        (Some(first), None) => Some(first),
        (None, later) => later,
    }
}

// What is used of the category.
fn beside_suite(has_suite: bool, category: Option<Level>) -> Option<Level>
    ensures { result ≡ levels.beside_suite has_suite category }
{
    match category {
        Some(category) if has_suite => Some(category.without_lists()),
        _ => category,
    }
}
