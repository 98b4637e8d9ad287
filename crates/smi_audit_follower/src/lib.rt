//! Followers: what an open action has shown, and what it may show next.
#![tactic(auto)]

mod follower;
mod laws;
mod matching;
mod passing;

pub use follower::{Ended, Expected, Follower};
pub use laws::laws_of_following;
