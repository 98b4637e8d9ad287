//! What is told of members of sets.
ghost use Rattle.std.specs.Prelude.{◌≡◌, ◌<◌, ◌||◌, ◌++◌, OnOk, false, get_or, is_some, length, not};
ghost use Rattle.std.specs.List.{filter_map};
ghost use Rattle.std.specs.Option.{option_to_list};
ghost use Rattle.sml_domain.specs.Lookups.{may_at};
ghost use Rattle.smi_front_moved.specs.MembersMoved as sets;
ghost use Rattle.smi_front_moved.specs.Moving as moves;
ghost use Rattle.smi_front_moved.specs.MovedLines as spec;
ghost use Rattle.smi_front_moved.specs.Tables.{AreMarkedOf};

use crate::lines::{MovedLine, add_unless};
use crate::members::{declared_members, may_marks, member_as, members_before, members_moved};
use crate::moving::{Moving, is_marked, sets_before, was_object};
use crate::others::set_as;
use crate::tables::marks_of;
use sml_domain::{ObjId, SetId};
use std::alloc::{AllocError, Global};

// Adds the line of a member of a set, if the set of the new domain may not have it.
fn add_gone_member(
    lines: &mut Vec<MovedLine>,
    moving: &Moving<'_>,
    q: SetId,
    set: SetId,
    may: &[bool],
    p: ObjId,
) -> Result<(), AllocError>
    requires { AreMarkedOf (length moving.now.new.objects) (may_at moving.now.new set) may.now }
    ensures { OnOk result (lines.new.items
        ≡ lines.old.items ++ option_to_list (spec.gone_member_from moving.now q set p)) }
{
    let stays = member_as(moving, set, may, p).is_some();
    add_unless(lines, stays, MovedLine::GoneMember(q, p))
}

// Adds the lines of the members of a set that the set of the new domain may not have.
fn add_gone_from(
    lines: &mut Vec<MovedLine>,
    moving: &Moving<'_>,
    q: SetId,
    set: SetId,
    may: &[bool],
) -> Result<(), AllocError>
    requires { AreMarkedOf (length moving.now.new.objects) (may_at moving.now.new set) may.now }
    ensures { OnOk result (lines.new.items
        ≡ lines.old.items ++ filter_map (spec.gone_member_from moving.now q set) (sets.members_before moving.now q)) }
{
    for p in members_before(moving, q) {
        add_gone_member(lines, moving, q, set, may, *p)?;
    }
    Ok(())
}

// Adds the lines of all members of a set.
fn add_all_gone(lines: &mut Vec<MovedLine>, moving: &Moving<'_>, q: SetId) -> Result<(), AllocError>
    ensures { OnOk result (lines.new.items
        ≡ lines.old.items ++ filter_map (spec.gone_with_set q) (sets.members_before moving.now q)) }
{
    for p in members_before(moving, q) {
        lines.push(MovedLine::GoneMember(q, *p))?;
    }
    Ok(())
}

// Adds the lines of the members of a set of the old domain that are gone.
fn add_gone_members_of(
    lines: &mut Vec<MovedLine>,
    alloc: Global,
    moving: &Moving<'_>,
    q: SetId,
) -> Result<(), AllocError>
    ensures { OnOk result (lines.new.items ≡ lines.old.items ++ spec.gone_members_of moving.now q) }
{
    match set_as(moving.old, moving.new, q) {
        Some(set) => {
            let may = may_marks(alloc, moving, set)?;
            add_gone_from(lines, moving, q, set, &may)
        }
        None => add_all_gone(lines, moving, q),
    }
}

/// Adds the lines of all members that are gone. The cost is for each set the count of sets, of objects and of its
/// members. The error is out of memory.
pub(crate) fn add_gone_members(
    lines: &mut Vec<MovedLine>,
    alloc: Global,
    moving: &Moving<'_>,
) -> Result<(), AllocError>
    ensures { OnOk result (lines.new.items ≡ lines.old.items ++ spec.gone_members moving.now) }
{
    for q in 0..sets_before(moving).len() {
        add_gone_members_of(lines, alloc, moving, SetId::new(q))?;
    }
    Ok(())
}

// Whether an object is new, or one of those that are marked.
fn is_new_or_marked(moving: &Moving<'_>, now: &[bool], o: ObjId) -> bool
    ensures { result ≡ (not (is_some (moves.was_object moving.now o)) || get_or now.now o false) }
{
    was_object(moving, o).is_none() || is_marked(now, o.get())
}

// Adds the line of a declared member of a set, if the set, which has those that are marked, does not get it.
fn add_not_member(
    lines: &mut Vec<MovedLine>,
    moving: &Moving<'_>,
    set: SetId,
    now: &[bool],
    o: ObjId,
) -> Result<(), AllocError>
    requires within { o < length moving.now.new.objects }
    requires marks { AreMarkedOf (length moving.now.new.objects) (sets.members_moved moving.now set) now.now }
    ensures { OnOk result (lines.new.items ≡ lines.old.items ++ option_to_list
        (spec.not_member moving.now set (sets.members_moved moving.now set) o)) }
{
    let comes = is_new_or_marked(moving, now, o);
    add_unless(lines, comes, MovedLine::NotMember(set, o))
}

// Adds the lines of the declared members that a set of the new domain does not get, which has those that are marked.
fn add_not_from(
    lines: &mut Vec<MovedLine>,
    moving: &Moving<'_>,
    set: SetId,
    now: &[bool],
) -> Result<(), AllocError>
    requires { AreMarkedOf (length moving.now.new.objects) (sets.members_moved moving.now set) now.now }
    ensures { OnOk result (lines.new.items ≡ lines.old.items ++ spec.not_members_of moving.now set) }
{
    for o in declared_members(moving, set) {
        add_not_member(lines, moving, set, now, *o)?;
    }
    Ok(())
}

// The same.
fn add_not_members_of(
    lines: &mut Vec<MovedLine>,
    alloc: Global,
    moving: &Moving<'_>,
    set: SetId,
) -> Result<(), AllocError>
    ensures { OnOk result (lines.new.items ≡ lines.old.items ++ spec.not_members_of moving.now set) }
{
    let members = members_moved(alloc, moving, set)?;
    let now = marks_of(alloc, moving.new.objects(), &members)?;
    add_not_from(lines, moving, set, &now)
}

/// Adds the lines of the declared members that the sets of the new domain do not get. The cost is that of
/// `members_moved` for each. The error is out of memory.
pub(crate) fn add_not_members(
    lines: &mut Vec<MovedLine>,
    alloc: Global,
    moving: &Moving<'_>,
) -> Result<(), AllocError>
    ensures { OnOk result (lines.new.items ≡ lines.old.items ++ spec.not_members moving.now) }
{
    for set in 0..moving.new.groups().len() {
        add_not_members_of(lines, alloc, moving, SetId::new(set))?;
    }
    Ok(())
}
