//! Whether a tree is a module.
#![tactic(auto)]

mod exports;
mod groups;
mod home;
mod initializers;
mod leave;
mod lexicon;
mod links;
mod node_rule;
mod outer;
mod places;
mod private;
mod private_walk;
mod sentences;
mod shape;
mod sort;
mod strict;
mod view;
mod walk;

pub use exports::ExportsRule;
pub use home::{Home, Super, SuperRule};
pub use initializers::{Initializers, PartsRule};
pub use js_term::Kind;
pub use leave::{Leave, LeaveRule};
pub use lexicon::{Lexicon, is_free_name};
pub use links::LinksRule;
pub use node_rule::{NodeRule, at_each_node};
pub use outer::Outer;
pub use private_walk::has_private_names;
pub use shape::ShapeRule;
pub use sort::{Place, Sort};
pub use strict::{ArgumentsRule, LengthRule, TargetRule};
pub use view::{Form, View};
pub use walk::{Rule, everywhere};
