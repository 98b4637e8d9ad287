//! The rows of a domain that begins as an outset says.
ghost use Rattle.std.specs.Prelude.{◌≡◌, ◌<◌, ℕ, IfOk, length};
ghost use Rattle.sml_domain.specs.Domain.{Group as Row};
ghost use Rattle.sml_outset.specs.Suits.{Suits};
ghost use Rattle.sml_outset.specs.Standing.{StandsAs};
ghost use Rattle.sml_outset.specs.Rows.{RowsAre, IsOwnClass, IsOwnObject, IsPutGroup, RowsStand, object_name_at};

use crate::copying::own_class;
use crate::laws::laws_of_standing;
use crate::outset::Outset;
use sml_domain::{Class, ClassId, Domain, Group, ObjId, Object};
use sml_tree::Name;
use std::alloc::{AllocError, Global};

/// The objects, classes and sets of a domain that begins otherwise.
#[derive(Drop)]
pub struct Rows {
    pub objects: Vec<Object>,
    pub classes: Vec<Class>,
    pub groups: Vec<Group>,
}

// Returns the name of an object.
fn name_of(domain: &Domain, o: usize) -> Name
    requires { o < length domain.now.objects }
    ensures { result ≡ object_name_at domain.now o }
{
    match domain.object_name(ObjId::new(o)) {
        Some(name) => name,
        None => unreachable!(),
    }
}

// Returns the objects, each in the class of its number.
fn object_rows(alloc: Global, domain: &Domain) -> Result<Vec<Object>, AllocError>
    ensures { IfOk result (λ v. RowsAre (IsOwnObject domain.now) (length domain.now.objects) v.items) }
{
    let mut made = Vec::new(alloc);
    for o in 0..domain.objects() {
        made.push(Object {
            name: name_of(domain, o),
            class: ClassId::new(o),
        })?;
    }
    Ok(made)
}

// Returns the class of an object, which begins as the outset says.
fn class_row(alloc: Global, domain: &Domain, outset: &Outset, o: usize) -> Result<Class, AllocError>
    requires within { o < length domain.now.objects }
    requires stands { length outset.now.stands ≡ length domain.now.objects }
    ensures { IfOk result (IsOwnClass domain.now outset.now o) }
{
    let class = &domain.classes()[domain.class_of(ObjId::new(o)).get()];
    own_class(alloc, name_of(domain, o), class, &outset.stands[o])
}

// Returns a class for each object, which begins as the outset says.
fn class_rows(alloc: Global, domain: &Domain, outset: &Outset) -> Result<Vec<Class>, AllocError>
    requires { length outset.now.stands ≡ length domain.now.objects }
    ensures { IfOk result (λ v. RowsAre (IsOwnClass domain.now outset.now) (length domain.now.objects) v.items) }
{
    let mut made = Vec::new(alloc);
    for o in 0..domain.objects() {
        made.push(class_row(alloc, domain, outset, o)?)?;
    }
    Ok(made)
}

// Returns a set, which has the members of the outset.
fn group_row(
    alloc: Global,
    domain: &Domain,
    outset: &Outset,
    set: usize,
) -> Result<Group, AllocError>
    requires within { set < length domain.now.groups }
    requires members { length outset.now.members ≡ length domain.now.groups }
    ensures { IfOk result (IsPutGroup domain.now outset.now set) }
{
    let group = &domain.groups()[set];
    let members = Vec::from_slice(alloc, &outset.members[set].objects)?;
    let may = Vec::from_slice(alloc, &group.may)?;
    Ok(Group {
        name: group.name,
        members,
        may,
    })
}

// Returns the sets, which have the members of the outset.
fn group_rows(alloc: Global, domain: &Domain, outset: &Outset) -> Result<Vec<Group>, AllocError>
    requires { length outset.now.members ≡ length domain.now.groups }
    ensures { IfOk result (λ v. RowsAre (IsPutGroup domain.now outset.now) (length domain.now.groups) v.items) }
{
    let mut made = Vec::new(alloc);
    for set in 0..domain.groups().len() {
        made.push(group_row(alloc, domain, outset, set)?)?;
    }
    Ok(made)
}

/// Returns the rows of the domain that begins as the outset says: each object is in a class of its own, which has its
/// name. The cost is the count of objects times that of the rows of a class. The error is out of memory.
pub fn standing_rows(alloc: Global, domain: &Domain, outset: &Outset) -> Result<Rows, AllocError>
    requires { Suits domain.now outset.now }
    ensures { IfOk result (λ r. RowsStand domain.now outset.now r.objects.items r.classes.items r.groups.items) }
{
    let objects = object_rows(alloc, domain)?;
    let classes = class_rows(alloc, domain, outset)?;
    let groups = group_rows(alloc, domain, outset)?;
    Ok(Rows {
        objects,
        classes,
        groups,
    })
}

/// Returns the domain that begins as the outset says, and is otherwise as before: its rows are those of
/// `standing_rows`. Nothing is copied.
pub fn standing(domain: Domain, outset: &Outset, rows: Rows) -> Domain
    requires suits { Suits domain outset.now }
    requires rows { RowsStand domain outset.now rows.objects.items rows.classes.items rows.groups.items }
    ensures { StandsAs domain outset.now result }
{
    laws_of_standing();
    domain.objects();
    let Rows {
        objects,
        classes,
        groups,
    } = rows;
    domain.with_rows(objects, classes, groups)
}
