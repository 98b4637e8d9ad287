//! The rules of journals: what each kind of entry must keep, in the order in which the rules are
//! tried.
#![tactic(auto)]

mod laws;
mod rule;

pub use rule::Rule;
