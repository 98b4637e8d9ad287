//! The words of a command line: what they ask for, help, and what is said about wrong ones.
#![tactic(auto)]

mod asked;
mod coloured;
mod command_line;
mod completing;
mod driving;
mod grammar;
mod help;
mod maker;
mod shown;
mod terminals;
mod traced;

pub use asked::refuse_words;
pub use driving::{drive, drive_from};
pub use terminals::Terminals;
