//! The canonical text of a domain.
#![tactic(auto)]

mod block;
mod canonical;
mod condition;
mod item;
mod word;

pub use canonical::{PrintFault, print, write_to};
