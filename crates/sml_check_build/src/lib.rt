//! The domain of a file that is well-formed: its names are numbered, and its blocks are laid out.
#![tactic(auto)]

mod blocks;
mod building;
mod classes;
mod condition;
mod items;
mod laws;
mod layout;
mod marks;
mod names;
mod params;
mod signatures;
mod values;
mod waits;

pub use building::build;
pub use laws::{laws_of_conditions, laws_of_numbers, one_domain};
