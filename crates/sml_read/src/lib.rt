//! Reads the text of a domain into a tree.
#![tactic(auto)]

mod arms;
mod block;
mod condition;
mod error;
mod item;
mod laws;
mod reading;
mod state;

pub use error::{ReadError, ReadErrorKind};
pub use laws::laws_of_files;
pub use reading::{MAX_TEXT, read};
pub use sml_read_parts::{Held, Reader};
