//! The lines of schedules: the steps that they ask.
#![tactic(auto)]

mod answer;
mod arguments;
mod line;

pub use answer::{tell_answer, tell_refused};
pub use arguments::name_in;
pub use line::{LONGEST_LINE, LineError, is_line, read_step};
