//! Where an action never comes, and in which states an object never is, whatever is asked of it: by the domain alone.
#![tactic(auto)]

mod laws;
mod places;
mod states;
mod unreached;
mod ways;

pub use laws::{laws_of_places, laws_of_states};
pub use places::{Reach, reach_of};
pub use states::states_of;
pub use unreached::{Unreached, unentered_of, unreached_of};
pub use ways::{Way, ways_of};
