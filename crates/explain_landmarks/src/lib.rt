//! Where the declarations of a domain and the instructions of its actions stand in its text. Nothing is decided here:
//! it is read from the tokens alone, of a text that was read and checked.
#![tactic(auto)]

mod marks;
mod tokens;
mod walk;

pub use marks::{ActionMarks, ClassMarks, Landmarks, StateMarks};
pub use tokens::{Piece, Tokens};
pub use walk::landmarks_of;
