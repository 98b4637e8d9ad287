//! What journals of a domain have exercised: states that were entered, actions that were started, both sides of each
//! `if`, and what became of sends. Nothing here decides whether a journal is legal: the judge does.
#![tactic(auto)]

mod counting;
mod coverage;
mod lines;
mod report;
mod spots;
mod walk;

pub use coverage::Coverage;
pub use report::{CoverText, cover_text};
