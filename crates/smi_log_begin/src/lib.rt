//! With what a manager of a log begins: as the text of its domain declares it, or, where the log follows another, as its
//! front says, with what goes along from the logs before.
#![tactic(auto)]

mod begin;
mod recalling;
mod version;

pub use begin::{LogBegin, begin_of_log};
pub use recalling::recall_all;
pub use version::log_version;
