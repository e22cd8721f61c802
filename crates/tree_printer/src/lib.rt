//! The printer of ECMAScript modules.
#![tactic(auto)]

mod asks;
mod functions;
mod imports;
mod leads;
mod least;
mod levels;
mod modules;
mod needs;
mod piece;
mod prefix;
mod primaries;
mod printer;
mod rows;
mod signs;
mod statements;
mod strings;
#[cfg(test)]
mod tests;
mod texts;

pub use printer::print_module;
