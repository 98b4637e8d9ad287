//! What is told where a log goes on in another domain.
ghost use Rattle.std.specs.Prelude.{◌≡◌, ◌++◌, IfOk, OnOk};
ghost use Rattle.std.specs.Option.{option_to_list};
ghost use Rattle.smi_front_moved.specs.MovedLines as spec;
ghost use Rattle.smi_front_moved.specs.Tables.{AreKillersOf};

use crate::lines::{MovedLine, add_unless};
use crate::moving::{
    Moving, is_marked, is_object_now, kills_before, names_before, was_object, was_set,
};
use crate::tables::killers_of;
use crate::told_members::{add_gone_members, add_not_members};
use crate::told_stands::{add_gone_params, add_gone_states};
use smi_journal::SessionId;
use smi_log_front::FrontKill;
use sml_domain::{ObjId, SetId};
use std::alloc::{AllocError, Global};

// Adds the line of a kill, if the new domain does not have the object.
fn add_gone_kill(
    lines: &mut Vec<MovedLine>,
    moving: &Moving<'_>,
    kill: &FrontKill,
) -> Result<(), AllocError>
    ensures { OnOk result (lines.new.items ≡ lines.old.items ++ option_to_list (spec.gone_kill moving.now kill.now)) }
{
    let stays = is_object_now(moving, kill.object).is_some();
    add_unless(lines, stays, MovedLine::GoneKill(kill.object))
}

// Adds the lines of the kills of objects that the new domain does not have.
fn add_gone_kills(lines: &mut Vec<MovedLine>, moving: &Moving<'_>) -> Result<(), AllocError>
    ensures { OnOk result (lines.new.items ≡ lines.old.items ++ spec.gone_kills moving.now) }
{
    for kill in kills_before(moving) {
        add_gone_kill(lines, moving, kill)?;
    }
    Ok(())
}

// Adds the line of an object, if it is new.
fn add_new_object(
    lines: &mut Vec<MovedLine>,
    moving: &Moving<'_>,
    o: ObjId,
) -> Result<(), AllocError>
    ensures { OnOk result (lines.new.items ≡ lines.old.items ++ option_to_list (spec.new_object moving.now o)) }
{
    add_unless(
        lines,
        was_object(moving, o).is_some(),
        MovedLine::NewObject(o),
    )
}

// Adds the lines of new objects.
fn add_new_objects(lines: &mut Vec<MovedLine>, moving: &Moving<'_>) -> Result<(), AllocError>
    ensures { OnOk result (lines.new.items ≡ lines.old.items ++ spec.new_objects moving.now) }
{
    for o in 0..moving.new.objects() {
        add_new_object(lines, moving, ObjId::new(o))?;
    }
    Ok(())
}

// Adds the line of a set, if it is new.
fn add_new_set(
    lines: &mut Vec<MovedLine>,
    moving: &Moving<'_>,
    set: SetId,
) -> Result<(), AllocError>
    ensures { OnOk result (lines.new.items ≡ lines.old.items ++ option_to_list (spec.new_set moving.now set)) }
{
    add_unless(
        lines,
        was_set(moving, set).is_some(),
        MovedLine::NewSet(set),
    )
}

// Adds the lines of new sets.
fn add_new_sets(lines: &mut Vec<MovedLine>, moving: &Moving<'_>) -> Result<(), AllocError>
    ensures { OnOk result (lines.new.items ≡ lines.old.items ++ spec.new_sets moving.now) }
{
    for set in 0..moving.new.groups().len() {
        add_new_set(lines, moving, SetId::new(set))?;
    }
    Ok(())
}

// Adds the line of the name at a place, if it is forgotten.
fn add_forgot_name(
    lines: &mut Vec<MovedLine>,
    moving: &Moving<'_>,
    place: usize,
) -> Result<(), AllocError>
    ensures { OnOk result (lines.new.items ≡ lines.old.items ++ option_to_list (spec.forgot_name moving.now place)) }
{
    add_unless(
        lines,
        !is_marked(moving.forgotten, place),
        MovedLine::Forgot(place),
    )
}

// Adds the lines of names that are forgotten.
fn add_forgot_names(lines: &mut Vec<MovedLine>, moving: &Moving<'_>) -> Result<(), AllocError>
    ensures { OnOk result (lines.new.items ≡ lines.old.items ++ spec.forgot_names moving.now) }
{
    for place in 0..names_before(moving).len() {
        add_forgot_name(lines, moving, place)?;
    }
    Ok(())
}

// Adds the lines of what the new domain does not have.
#[tactic(auto, using(crate::proofs::Telling::gone_added))]
fn add_gone(
    lines: &mut Vec<MovedLine>,
    alloc: Global,
    moving: &Moving<'_>,
    killers: &[Option<SessionId>],
) -> Result<(), AllocError>
    requires { AreKillersOf moving.now killers.now }
    ensures { OnOk result (lines.new.items ≡ lines.old.items ++ spec.gone_lines moving.now) }
{
    add_gone_states(lines, moving, killers)?;
    add_gone_params(lines, moving)?;
    add_gone_members(lines, alloc, moving)?;
    add_gone_kills(lines, moving)
}

// Adds the lines of what else is otherwise.
#[tactic(auto, using(crate::proofs::Telling::other_added))]
fn add_other(
    lines: &mut Vec<MovedLine>,
    alloc: Global,
    moving: &Moving<'_>,
) -> Result<(), AllocError>
    ensures { OnOk result (lines.new.items ≡ lines.old.items ++ spec.other_lines moving.now) }
{
    add_new_objects(lines, moving)?;
    add_new_sets(lines, moving)?;
    add_not_members(lines, alloc, moving)?;
    add_forgot_names(lines, moving)
}

/// What is told where a log goes on in another domain: what that does not have, in the order of the outset, then
/// which of its objects and sets are new, then the members that it declares for old objects in old sets and that
/// these do not have, and the names that are forgotten.
///
/// The cost is some look-ups by hash for each object, its parameters times their count, and for each set the count of
/// sets and of objects. The error is out of memory.
pub fn moved_lines(alloc: Global, moving: &Moving<'_>) -> Result<Vec<MovedLine>, AllocError>
    ensures { IfOk result (λ v. v.items ≡ spec.moved_lines moving.now) }
{
    let killers = killers_of(alloc, moving.old.objects(), kills_before(moving))?;
    let mut lines = Vec::new(alloc);
    add_gone(&mut lines, alloc, moving, &killers)?;
    add_other(&mut lines, alloc, moving)?;
    Ok(lines)
}
