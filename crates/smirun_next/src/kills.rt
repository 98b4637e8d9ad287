//! What was killed in a core, and by whom.
ghost use Rattle.std.specs.Prelude.{◌≡◌, ◌<◌, ◌++◌, IfOk, OnOk, length, slice_get};
ghost use Rattle.smirun_next.specs.Kills as says;

use smi_core::Core;
use smi_journal::{Cause, Entry, SessionId};
use smi_log_front::FrontKill;
use sml_domain::ObjId;
use std::alloc::{AllocError, Global};

// The first session.
fn first_session() -> SessionId
    ensures { result ≡ 1 }
{
    match SessionId::new(1) {
        Some(session) => session,
        None => unreachable!(),
    }
}

// The session that kills again what was killed for a cause.
fn killer_for(cause: Cause) -> SessionId
    ensures { result ≡ says.killer_for cause }
{
    match cause {
        Cause::By(session) => session,
        Cause::Fault => first_session(),
    }
}

// The session that kills again what the entry at a place killed.
fn killer_at(journal: &[Entry], place: u64) -> SessionId
    ensures { result ≡ says.killer_in (slice_get journal.now place) }
{
    match journal.get(place as usize) {
        Some(Entry::Kill { cause, .. }) => killer_for(*cause),
        _ => first_session(),
    }
}

// Adds the kill of an object to others, if it was killed.
fn add_kill(kills: &mut Vec<FrontKill>, core: &Core, o: ObjId) -> Result<(), AllocError>
    requires { o < length core.now.setup.domain.objects }
    ensures { OnOk result (kills.new.items ≡ kills.old.items ++ says.front_kills_of core.now.world.journal o) }
{
    let Some(place) = core.killed_at(o) else {
        return Ok(());
    };
    let session = killer_at(core.journal(), place);
    kills.push(FrontKill { object: o, session })?;
    Ok(())
}

/// The kills of all objects that were killed, in the order of their numbers. The cost is the count of objects. The error
/// is out of memory.
#[tactic(auto, using(crate::proofs::Ranges::lists_of_one_more))]
pub(crate) fn kills_now(alloc: Global, core: &Core) -> Result<Vec<FrontKill>, AllocError>
    ensures { IfOk result (λ kills. kills.items
        ≡ says.all_front_kills core.now.world.journal (length core.now.setup.domain.objects)) }
{
    let mut kills = Vec::new(alloc);
    for o in 0..core.domain().objects() {
        add_kill(&mut kills, core, ObjId::new(o))?;
    }
    Ok(kills)
}

/// Which objects were killed, by their numbers. The cost is the count of objects. The error is out of memory.
#[tactic(auto, using(crate::proofs::Ranges::mapped_one_more))]
pub(crate) fn killed_now(alloc: Global, core: &Core) -> Result<Vec<bool>, AllocError>
    ensures { IfOk result (λ killed. killed.items
        ≡ says.all_killed core.now.world.journal (length core.now.setup.domain.objects)) }
{
    let mut killed = Vec::new(alloc);
    for o in 0..core.domain().objects() {
        killed.push(core.killed_at(ObjId::new(o)).is_some())?;
    }
    Ok(killed)
}
