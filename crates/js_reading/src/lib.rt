//! Reading a module as a function over texts, between the grammar of `js_syntax` and the code of the reader.
#![tactic(auto)]

ghost use Rattle.js_reading.specs.Examples.{Examples};
ghost use Rattle.js_reading.specs.Laws.{Complete, Sound, Unique};

mod goal;

pub use goal::Goal;

/// What is read of the text of a module is spelled by it.
#[tactic(auto, using(crate::proofs::Sound::sound))]
pub fn what_is_read_is_spelled()
    ensures { Sound }
{}

/// What a text spells as a module, of a depth of at most 512, is read of it.
#[tactic(auto, using(crate::proofs::Complete::complete))]
pub fn what_is_spelled_is_read()
    ensures { Complete }
{}

/// A text spells at most one such module.
#[tactic(auto, using(crate::proofs::Complete::unique))]
pub fn one_module_is_spelled()
    ensures { Unique }
{}

/// The worked texts are read, and small texts that spell no module are not.
#[tactic(auto, using(crate::proofs::Derived::examples))]
pub fn worked_texts()
    ensures { Examples }
{}
