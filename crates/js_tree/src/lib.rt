//! The syntax tree of a module: one type of node for the whole language.
#![tactic(auto)]

mod binding;
mod build;
mod copy;
mod expressions;
mod fields;
mod free;
mod functions;
mod literals;
mod node;
mod parts;
mod span;
mod statements;
mod texts;
mod word;

pub use functions::FunctionFlags;
pub use js_chars::RegExpFlags;
pub use js_ident::Ident;
pub use js_items::Items;
pub use js_term::Kind;
pub use node::{Form, Node};
pub use span::Span;
pub use statements::VariableDeclarationKind;
pub use texts::Texts;
pub use word::Word;
