//! Whether a tree is that of a module: the rule on labels, what the texts of each kind have to be, and all rules of
//! module trees joined over nodes.
#![tactic(auto)]

mod by_kind;
mod enclosing;
mod jumps;
mod jumps_walk;
mod letters;
mod lexicon;
mod module_tree;
mod node_texts;
mod regexp;
mod rules;
mod texts;
mod view;
mod words;

pub use lexicon::LexicalGrammar;
pub use module_tree::ModuleTree;
pub use view::TreePart;
