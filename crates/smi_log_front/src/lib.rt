//! The front of a log of version 2: of which domain the log is, how all stood where the log before it ended, what goes
//! along from the logs before, which objects are dead, and which log it follows.
#![tactic(auto)]

mod counting;
mod ending;
mod fault;
mod first_line;
mod front;
mod head;
mod kills;
mod laws;
mod past;
mod reading;
mod suiting;
mod sums;
mod writing;

pub use fault::FrontFault;
pub use first_line::{LogVersion, first_line_of_log};
pub use front::{Front, FrontKill};
pub use laws::laws_of_fronts;
pub use reading::read_front;
pub use suiting::front_suits;
pub use sums::{is_log_sum, sum_of};
pub use writing::add_front;
