//! Tables by the numbers of objects, in which each look-up costs the same.
ghost use Rattle.std.specs.Prelude.{◌≡◌, ◌<◌, ◌||◌, ℕ, IfOk, None, false, get_or, length, nat_eq};
ghost use Rattle.std.specs.Option.{option_or};
ghost use Rattle.smi_front_moved.specs.Moving.{killer_by, front_killer};
ghost use Rattle.smi_front_moved.specs.Tables.{AreKillers, AreKillersOf, AreMarkedOf};

use crate::moving::Moving;
use smi_journal::SessionId;
use smi_log_front::FrontKill;
use sml_domain::ObjId;
use std::alloc::{AllocError, Global};

// Marks a place, if there is one of this number.
fn mark(marks: &mut Vec<bool>, place: usize)
    ensures count { length marks.new.items ≡ length marks.old.items }
    ensures each { (k : ℕ) → k < length marks.old.items
        → get_or marks.new.items k false ≡ (get_or marks.old.items k false || nat_eq k place) }
{
    if place < marks.len() {
        marks[place] = true;
    }
}

/// Which objects, up to this count, are among these. The cost is both counts. The error is out of memory.
pub(crate) fn marks_of(
    alloc: Global,
    count: usize,
    objects: &[ObjId],
) -> Result<Vec<bool>, AllocError>
    ensures { IfOk result (λ marks. AreMarkedOf count objects.now marks.items) }
{
    let mut marks = vec![in alloc; false; count]?;
    for o in objects {
        mark(&mut marks, o.get());
    }
    Ok(marks)
}

// Puts who kills an object at its place, unless somebody stands there.
fn put_killer(killers: &mut Vec<Option<SessionId>>, kill: &FrontKill)
    ensures count { length killers.new.items ≡ length killers.old.items }
    ensures each { (k : ℕ) → k < length killers.old.items
        → get_or killers.new.items k None ≡ option_or (get_or killers.old.items k None) (killer_by kill.now k) }
{
    let place = kill.object.get();
    if place < killers.len() && killers[place].is_none() {
        killers[place] = Some(kill.session);
    }
}

/// Who kills each object, up to this count, again by these kills. The cost is both counts. The error is out of memory.
pub(crate) fn killers_of(
    alloc: Global,
    count: usize,
    kills: &[FrontKill],
) -> Result<Vec<Option<SessionId>>, AllocError>
    ensures { IfOk result (λ killers. AreKillers count kills.now killers.items) }
{
    let mut killers = vec![in alloc; None; count]?;
    for kill in kills {
        put_killer(&mut killers, kill);
    }
    Ok(killers)
}

/// Who kills an object of the old domain again.
pub(crate) fn killer_at(
    moving: &Moving<'_>,
    killers: &[Option<SessionId>],
    p: ObjId,
) -> Option<SessionId>
    requires within { p < length moving.now.old.objects }
    requires killers { AreKillersOf moving.now killers.now }
    ensures { result ≡ front_killer moving.now.front.kills p }
{
    killers[p.get()]
}
