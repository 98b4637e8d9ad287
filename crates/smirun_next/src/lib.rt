//! The command `next`: a log that no manager has gets a successor, which begins where it has led.
//! (docs/FORMATS.md, "A log that follows another".)
#![tactic(auto)]

mod command;
mod counts_before;
mod handing;
mod kills;
mod next_front;
mod next_text;
mod options;
mod restless;

pub use command::run_next;
pub use next_front::{NextNames, front_after};
pub use next_text::{NextLog, next_of_texts, text_after};
pub use options::NextOptions;
