//! The text of an outset: how all objects and sets stand where a log begins, as lines of that log.
//! (docs/PROMISES.md, "Logs that follow one another".)
#![tactic(auto)]

mod fault;
mod laws;
mod members;
mod params;
mod part;
mod pieces;
mod reading;
mod states;
mod values;
mod writing;

pub use fault::OutsetFault;
pub use laws::laws_of_outset_texts;
pub use reading::read_outset;
pub use writing::add_outset;
