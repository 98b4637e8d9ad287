//! The canonical text of a domain with the comments and the blank lines of its text. Nothing here decides anything.
#![tactic(auto)]

mod kept;
mod lines;
mod pieces;

pub use kept::kept_text;
