//! The syntax of JavaScript modules, over texts and terms: which text spells which module, and which trees are
//! printable and module trees.
//!
//! The definitions stand in `specs/`; the functions here are laws over them and do nothing.
#![tactic(auto)]

ghost use Rattle.js_syntax.specs.Examples.{LineExamples, ExpressionExamples, FunctionExamples, ModuleExamples};
ghost use Rattle.js_syntax.specs.Levels.{Levels};
ghost use Rattle.js_syntax.specs.ModuleTreeExamples.{ModuleTreeExamples};
ghost use Rattle.js_syntax.specs.Names.{NamesAgree};
ghost use Rattle.js_syntax.specs.Narrow.{NarrowIsSpelled};
ghost use Rattle.js_syntax.specs.PrintableExamples.{PrintableExamples};
ghost use Rattle.js_syntax.specs.Refuted.{Refuted};

/// Texts that are written out spell what their pages say.
#[tactic(auto, using(crate::proofs::DerivedLines::line_examples, crate::proofs::DerivedExpressions::expression_examples, crate::proofs::DerivedFunctions::function_examples, crate::proofs::DerivedModules::module_examples))]
pub fn worked_examples()
    ensures lines { LineExamples }
    ensures expressions { ExpressionExamples }
    ensures functions { FunctionExamples }
    ensures modules { ModuleExamples }
{}

/// What is spelled as a small module is spelled so in the whole language too, as the same tree.
#[tactic(auto, using(crate::proofs::NarrowModules::narrow_is_spelled))]
pub fn narrow_is_spelled()
    ensures { NarrowIsSpelled }
{}

/// Printable trees are told from others as the page of examples says.
#[tactic(auto, using(crate::proofs::DerivedTrees::printable_examples))]
pub fn printable_examples()
    ensures { PrintableExamples }
{}

/// Module trees are told from others as the page of examples says.
#[tactic(auto, using(crate::proofs::DerivedTrees::module_tree_examples))]
pub fn module_tree_examples()
    ensures { ModuleTreeExamples }
{}

/// Texts that spell no module, and rules where the tables say no.
#[tactic(auto, using(crate::proofs::Refutations::refuted))]
pub fn refuted_texts()
    ensures { Refuted }
{}

/// The tests of names say what Unicode's sets say, at ASCII texts too.
#[tactic(auto, using(crate::proofs::Unicode::names_agree))]
pub fn names_agree()
    ensures { NamesAgree }
{}

/// What stands with a level has it by its tree, and its operands stand at their places.
#[tactic(auto, using(crate::proofs::Placed::levels))]
pub fn levels()
    ensures { Levels }
{}
