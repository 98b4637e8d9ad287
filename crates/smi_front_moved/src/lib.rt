//! The front of a log that goes on in another domain: what that has of the old one goes on by its name, what is new
//! begins as declared, and what is otherwise is told.
#![tactic(auto)]

mod asked;
mod counts;
mod lines;
mod members;
mod moved;
mod moving;
mod names;
mod others;
mod params;
mod stands;
mod tables;
mod told;
mod told_members;
mod told_stands;
mod writing;

pub use asked::{dead_called, place_of_name};
pub use lines::{MovedLine, has_gone_line, is_gone_line};
pub use moved::front_moved;
pub use moving::Moving;
pub use told::moved_lines;
pub use writing::add_lines;
