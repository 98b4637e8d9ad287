//! Which members the sets of the new domain have.
ghost use Rattle.std.specs.Prelude.{◌≡◌, ◌<◌, ◌++◌, All, IfOk, OnOk, length};
ghost use Rattle.std.specs.List.{filter_map};
ghost use Rattle.std.specs.Option.{option_to_list};
ghost use Rattle.sml_domain.specs.Lookups.{may_at, members_at};
ghost use Rattle.sml_domain.specs.Sound.{IsObject};
ghost use Rattle.smi_front_moved.specs.MembersMoved as spec;
ghost use Rattle.smi_front_moved.specs.Tables.{AreMarkedOf};

use crate::moving::{Moving, is_marked, is_object_now, sets_before, was_object, was_set};
use crate::tables::marks_of;
use sml_domain::{ObjId, SetId};
use sml_outset::SetMembers;
use std::alloc::{AllocError, Global};

/// Which objects of the new domain a set may come to have. The cost is the count of objects. The error is out of
/// memory.
pub(crate) fn may_marks(
    alloc: Global,
    moving: &Moving<'_>,
    set: SetId,
) -> Result<Vec<bool>, AllocError>
    ensures { IfOk result (λ v. AreMarkedOf (length moving.now.new.objects) (may_at moving.now.new set) v.items) }
{
    marks_of(alloc, moving.new.objects(), moving.new.may_have(set))
}

/// A member of the old domain as one of a set of the new domain, which may have the objects that are marked.
pub(crate) fn member_as(moving: &Moving<'_>, set: SetId, may: &[bool], p: ObjId) -> Option<ObjId>
    requires { AreMarkedOf (length moving.now.new.objects) (may_at moving.now.new set) may.now }
    ensures { result ≡ spec.member_as moving.now set p }
{
    let Some(o) = is_object_now(moving, p) else {
        return None;
    };
    if is_marked(may, o.get()) {
        Some(o)
    } else {
        None
    }
}

// Adds an object to others, if there is one.
fn add_if(objects: &mut Vec<ObjId>, one: Option<ObjId>) -> Result<(), AllocError>
    ensures { OnOk result (objects.new.items ≡ objects.old.items ++ option_to_list one) }
{
    match one {
        Some(o) => objects.push(o)?,
        None => {}
    }
    Ok(())
}

// Adds those of the members of the old domain that a set of the new one may have.
fn add_old(
    objects: &mut Vec<ObjId>,
    moving: &Moving<'_>,
    set: SetId,
    may: &[bool],
    before: &[ObjId],
) -> Result<(), AllocError>
    requires { AreMarkedOf (length moving.now.new.objects) (may_at moving.now.new set) may.now }
    ensures { OnOk result (objects.new.items
        ≡ objects.old.items ++ filter_map (spec.member_as moving.now set) before.now) }
{
    for p in before {
        add_if(objects, member_as(moving, set, may, *p))?;
    }
    Ok(())
}

// An object of the new domain that the old one does not have.
fn if_new_object(moving: &Moving<'_>, o: ObjId) -> Option<ObjId>
    ensures { result ≡ spec.if_new_object moving.now o }
{
    match was_object(moving, o) {
        Some(_) => None,
        None => Some(o),
    }
}

// Adds those of these objects that are new.
fn add_new(
    objects: &mut Vec<ObjId>,
    moving: &Moving<'_>,
    declared: &[ObjId],
) -> Result<(), AllocError>
    ensures { OnOk result (objects.new.items
        ≡ objects.old.items ++ filter_map (spec.if_new_object moving.now) declared.now) }
{
    for o in declared {
        add_if(objects, if_new_object(moving, *o))?;
    }
    Ok(())
}

/// The declared members of a set of the new domain.
pub(crate) fn declared_members<'a>(moving: &Moving<'a>, set: SetId) -> &'a [ObjId]
    ensures is { result.now ≡ members_at moving.now.new set }
    ensures within { All (IsObject moving.now.new) result.now }
{
    moving.new.members(set)
}

/// The members that a set of the old domain has.
pub(crate) fn members_before<'a>(moving: &Moving<'a>, q: SetId) -> &'a [ObjId]
    ensures { result.now ≡ spec.members_before moving.now q }
{
    match sets_before(moving).get(q.get()) {
        Some(members) => &members.objects,
        None => &[],
    }
}

// The members of a set that had these.
fn members_going_on(
    alloc: Global,
    moving: &Moving<'_>,
    set: SetId,
    before: &[ObjId],
) -> Result<Vec<ObjId>, AllocError>
    ensures { IfOk result (λ v. v.items ≡ spec.members_going_on moving.now set before.now) }
{
    let may = may_marks(alloc, moving, set)?;
    let mut objects = Vec::new(alloc);
    add_old(&mut objects, moving, set, &may, before)?;
    add_new(&mut objects, moving, moving.new.members(set))?;
    Ok(objects)
}

/// The members of a set of the new domain. The cost is the count of sets, of objects, and of the members of both. The
/// error is out of memory.
pub(crate) fn members_moved(
    alloc: Global,
    moving: &Moving<'_>,
    set: SetId,
) -> Result<Vec<ObjId>, AllocError>
    ensures { IfOk result (λ v. v.items ≡ spec.members_moved moving.now set) }
{
    match was_set(moving, set) {
        Some(q) => members_going_on(alloc, moving, set, members_before(moving, q)),
        None => Vec::from_slice(alloc, moving.new.members(set)),
    }
}

// The same, as those of an outset.
fn set_members(alloc: Global, moving: &Moving<'_>, set: SetId) -> Result<SetMembers, AllocError>
    ensures { IfOk result (λ x. x ≡ spec.members_moved moving.now set) }
{
    let objects = members_moved(alloc, moving, set)?;
    Ok(SetMembers { objects })
}

/// The members of all sets of the new domain. The cost is that of `members_moved` for each. The error is out of memory.
pub(crate) fn all_members_moved(
    alloc: Global,
    moving: &Moving<'_>,
) -> Result<Vec<SetMembers>, AllocError>
    ensures { IfOk result (λ v. v.items ≡ spec.all_members_moved moving.now) }
{
    let mut made = Vec::new(alloc);
    for set in 0..moving.new.groups().len() {
        made.push(set_members(alloc, moving, SetId::new(set))?)?;
    }
    Ok(made)
}
