//! How all stands behind a schedule, and how all stood behind a line of a journal: the states of objects, their
//! parameters, and what is open and waits.
#![tactic(auto)]

mod lines;
mod opens;
mod others;
mod pieces;
mod standing;
mod stands;

pub use pieces::change_text;
pub use standing::{past_text, rest_text, tell_standing};
