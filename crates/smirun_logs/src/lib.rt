//! The commands `states`, `audit`, `cover`, `page` and `graph` over the logs of live managers: a log is performed, and
//! what these commands tell of a journal, they tell of what was done. (docs/FORMATS.md, "What is told of a log".)
#![tactic(auto)]

mod command;
mod covering;
mod drawing;
mod judging;
mod loading;
mod paging;
mod replaying;
mod telling;

pub use command::{LogCommand, run_over_log};
pub use judging::judge_entries;
pub use replaying::{Looker, Unlooked, past_of_entries};
pub use telling::states_of_entries;
