//! Lines of text as lines of JSON, one object a line, for programs that read what a command writes. Nothing here
//! decides anything: an object has the words of its line.
#![tactic(auto)]

mod forms;
mod line;
mod lists;
mod parts;
mod words;
mod writer;

pub use forms::JsonKind;
pub use line::json_line;
pub use writer::JsonWriter;
