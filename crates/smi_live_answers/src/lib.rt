//! Answers and faults from outside that name the start which they are of, and whether that one is open.
//! (docs/FORMATS.md, "A live manager".)
#![tactic(auto)]

mod named;
mod opened;
mod parts;
mod words;

pub use named::{NamedStart, read_named};
pub use opened::is_open_start;
pub use parts::SenderName;
