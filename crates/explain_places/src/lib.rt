//! Where something is in a text, as people count it, how it is shown to them, and which name they may have meant.
#![tactic(auto)]

mod characters;
mod nearest;
mod place;
mod quoting;

pub use characters::{is_utf16, tell_not_ascii};
pub use nearest::Nearest;
pub use place::{Position, place_of, tell_place, tell_spot};
pub use quoting::tell_quoted;
