//! What a domain declares, one thing a line, for people who search and for editors. Nothing here decides anything.
#![tactic(auto)]

mod listing;

pub use listing::{tell_begun_list, tell_list};
