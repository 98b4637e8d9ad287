//! Whether what a journal shows is what is asked for.
ghost use Rattle.std.specs.Prelude.{◌≡◌, ◌↔◌, IfOk, IsTrue, map};
ghost use Rattle.smi_meaning.specs.Conditions.{object_read};
ghost use Rattle.smi_meaning.specs.Items as items;
ghost use Rattle.smi_audit_follower.specs.Matching.{reading_state};

use smi_interp::Post;
use smi_journal_entries::Reading;
use sml_domain::{ActionId, ObjId, StateId, Value, same_values};
use std::alloc::{AllocError, Global};

/// Whether a post is this request. The cost is at most the count of its arguments and of their bytes.
pub fn is_post(post: &Post, target: ObjId, action: ActionId, args: &[Value]) -> bool
    ensures { IsTrue result ↔ (post.now ≡ record { target = target; action = action; args = args.now }) }
{
    post.target.get() == target.get()
        && post.action.get() == action.get()
        && same_values(post.args.values(), args)
}

/// Whether readings are of these objects, in this order. The cost is their count.
pub fn are_of(readings: &[Reading], objects: &[ObjId]) -> bool
    ensures { IsTrue result ↔ (map object_read readings.now ≡ objects.now) }
{
    if readings.len() != objects.len() {
        return false;
    }
    for (i, object) in objects.iter().enumerate() {
        let reading = readings[i];
        if reading.object.get() != object.get() {
            return false;
        }
    }
    true
}

/// The states of readings, in order. The cost is their count.
pub fn states_of(alloc: Global, readings: &[Reading]) -> Result<Vec<StateId>, AllocError>
    ensures { IfOk result (λ states. states.items ≡ map reading_state readings.now) }
{
    let mut states = Vec::new(alloc);
    for reading in readings {
        states.push(reading.state)?;
    }
    Ok(states)
}
