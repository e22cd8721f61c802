//! Tests of small modules, apart from the crates that they call, so that those are proved once: whether a module is
//! small, what is printed, and what the runner makes of it.
#![tactic(auto)]

#[cfg(test)]
mod preparing;
#[cfg(test)]
mod printing;
#[cfg(test)]
mod small;
