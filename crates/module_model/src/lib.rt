//! What a module means, and how that is read back from what the module runner writes.
//!
//! The definitions stand in `specs/`; the functions here are laws over them, and do nothing.
#![tactic(auto)]

ghost use Rattle.std.specs.Prelude.{◌≡◌, ◌<◌, ◌^◌, true, Some, length};
ghost use Rattle.js_term.specs.Term.{Term};
ghost use Rattle.js_term.specs.Form.{is_small, is_printable, items_of};
ghost use Rattle.module_model.specs.Meaning.{meaning, requests};
ghost use Rattle.module_model.specs.Run.{run};
ghost use Rattle.module_model.specs.ReadBack.{read_back};
ghost use Rattle.module_model.specs.Examples.{Examples};

/// The tree that is written for a small module is read back as what the module means. The number of its requests
/// is bounded since names of requests have their number in decimal.
#[tactic(auto, using(crate::proofs::Output::run_means))]
pub fn run_means()
    ensures { (t : Term) → is_small t ≡ true → length (requests (items_of t)) < 2 ^ 64 → read_back (run t) ≡ Some (meaning t) }
{}

/// That tree is one that the printer writes.
#[tactic(auto, using(crate::proofs::Printable::run_printable))]
pub fn run_printable()
    ensures { (t : Term) → is_small t ≡ true → is_printable (run t) ≡ true }
{}

/// The definitions at four modules.
#[tactic(auto, using(crate::proofs::Examples::examples))]
pub fn worked_examples()
    ensures { Examples }
{}
