//! What became of the requests of a journal, and how often its objects started and ended.
#![tactic(auto)]

mod counts;
mod fate;
mod kept;
mod laws;
mod watched;

pub use counts::Counts;
pub use fate::{Came, Fate, Stands};
pub use kept::Fates;
pub use laws::{laws_of_fates, laws_of_keeping};
pub use watched::Watched;
