//! Domains that begin otherwise than their classes declare.
#![tactic(auto)]

mod begun;
mod copying;
mod laws;
mod outset;
mod suiting;

pub use begun::{Rows, standing, standing_rows};
pub use laws::laws_of_standing;
pub use outset::{Outset, SetMembers, Stand};
pub use suiting::{members_suit, suits};
