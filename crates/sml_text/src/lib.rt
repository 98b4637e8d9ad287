//! The lexical rules of domain texts, schedules and scripts, and the writing of bytes.
#![tactic(auto)]

mod decimal;
mod front;
mod laws;
mod limits;
mod source;
mod tokens;
mod writing;

pub use decimal::{tell_i64, tell_u64};
pub use front::{Front, front_at};
pub use laws::laws_of_tokens;
pub use limits::{LONGEST_NAME, LONGEST_STRING};
pub use source::{Sign, Source};
pub use tokens::{Lexeme, Token, first_bad, is_end, next_token};
pub use writing::{Sink, WriteFault, put, tell};
