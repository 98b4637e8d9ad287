//! Whether an action leads from one state to another.

use smi_reach::Way;
use sml_domain::{Action, StateId};

/// Whether an action that a state declares may leave its object in another, or in the same one, by the ways of all
/// blocks: for any states that its conditions read.
pub(crate) fn leads(ways: &[Way], action: &Action, from: StateId, to: StateId) -> bool {
    match ways.get(action.block.get()) {
        Some(way) => {
            way.ends.iter().any(|end| end.get() == to.get())
                || (way.falls_through && from.get() == to.get())
        }
        None => false,
    }
}
