//! Explains why a line was refused: a line of a schedule, a script or a journal. Nothing here decides anything: what a
//! line is, and whether a step is made, is known before. No function here takes memory except
//! [`history::History::new`].
#![tactic(auto)]

mod arguments;
mod bad_entry;
mod bad_header;
mod bad_line;
mod declared;
mod entry_fault;
mod entry_lines;
mod entry_reader;
mod entry_sentence;
mod fault;
mod foreign;
mod form;
mod history;
mod line_fault;
mod line_reader;
mod line_sentence;
mod no_token;
mod open;
mod pieces;
mod refused;
mod source_line;
mod verb;
mod words;

pub use bad_entry::explain_bad_entry;
pub use bad_header::explain_bad_header;
pub use bad_line::{LineKind, explain_bad_line};
pub use history::History;
pub use refused::explain_refused;
pub use source_line::SourceLine;
