//! Letters: requests under the numbers of their acceptance.

use crate::args::Args;
use crate::entry::Sender;
use sml_domain::ActionId;

/// A request under its number: how many requests of this sender its object had accepted before it.
#[derive(Drop)]
pub struct Letter {
    pub sender: Sender,
    pub number: u64,
    pub action: ActionId,
    pub args: Args,
}
