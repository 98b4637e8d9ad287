//! The members of sets, which instructions change.
ghost use Rattle.std.specs.Prelude.{◌≡◌, ◌↔◌, IfOk, IsTrue, Some, false, nat_eq, slice_set, true};
ghost use Rattle.std.specs.List.{list_any};
ghost use Rattle.smi_journal_entries.specs.Sets as says;

use sml_domain::{Domain, Group, ObjId, SetId};
use std::alloc::{AllocError, Global};
use std::marker::Model;
use std::sync::Arc;

// The members of a set: those that it was changed to, or None if they are the declared ones.
#[derive(Drop)]
struct Kept {
    list: Option<Vec<ObjId>>,
}

impl Model for Kept {
    ghost use Rattle.std.specs.Prelude.{ℕ, List, Option, option_map};

    ghost Value = { Option (List ℕ) };

    ghost view = { λ k. option_map (λ list. list.items) k.list };
}

/// The members of all sets. Their owners share them.
#[derive(Drop)]
pub struct Members {
    sets: Arc<Vec<Kept>, Global>,
    // Whether no set was ever changed.
    is_declared: bool,
}

impl Model for Members {
    ghost use Rattle.std.specs.Arc.{arc_value};
    ghost use Rattle.smi_journal_entries.specs.Sets as says;

    ghost Value = { says.Sets };

    ghost view = { λ m. (arc_value m.sets).items };

    ghost invariant = { λ m. says.MayBeUnchanged m.is_declared (arc_value m.sets).items };
}

// Returns a set whose members are the declared ones.
fn as_declared(group: &Group) -> Kept
    ensures { result ≡ says.as_declared group.now }
{
    let _group = group;
    Kept { list: None }
}

// Returns the members of a set that has these declared ones.
fn or_declared<'a>(kept: &'a Kept, declared: &'a [ObjId]) -> &'a [ObjId]
    ensures { result.now ≡ says.or_declared declared.now kept.now }
{
    match &kept.list {
        Some(list) => list,
        None => declared,
    }
}

// Returns a copy of the members of a set.
fn copy_of(alloc: Global, kept: &Kept) -> Result<Kept, AllocError>
    ensures { IfOk result (λ k. k ≡ kept.now) }
{
    match &kept.list {
        Some(list) => Ok(Kept {
            list: Some(Vec::from_slice(alloc, list)?),
        }),
        None => Ok(Kept { list: None }),
    }
}

// Returns a copy of the members of sets.
fn copies_of(alloc: Global, sets: &[Kept]) -> Result<Vec<Kept>, AllocError>
    ensures { IfOk result (λ copies. copies.items ≡ sets.now) }
{
    let mut copies = Vec::with_capacity(alloc, sets.len())?;
    for kept in sets {
        copies.push(copy_of(alloc, kept)?)?;
    }
    Ok(copies)
}

// Whether an object is one of these.
fn is_one(object: ObjId, members: &[ObjId]) -> bool
    ensures { result ≡ list_any (nat_eq object) members.now }
{
    members.iter().any(|other| object.get() == other.get())
}

// Returns the members, with one more behind them if it is not among them.
fn put_in(alloc: Global, object: ObjId, members: &[ObjId]) -> Result<Vec<ObjId>, AllocError>
    ensures { IfOk result (λ list. list.items ≡ says.changed_to true object members.now) }
{
    let mut list = Vec::from_slice(alloc, members)?;
    if !is_one(object, members) {
        list.push(object)?;
    }
    Ok(list)
}

// Returns the members without one.
fn taken_out(alloc: Global, object: ObjId, members: &[ObjId]) -> Result<Vec<ObjId>, AllocError>
    ensures { IfOk result (λ list. list.items ≡ says.changed_to false object members.now) }
{
    let mut list = Vec::with_capacity(alloc, members.len())?;
    for other in members {
        if object.get() != other.get() {
            list.push(*other)?;
        }
    }
    Ok(list)
}

// Returns the members after an object was put in or taken out.
fn changed_to(
    alloc: Global,
    add: bool,
    object: ObjId,
    members: &[ObjId],
) -> Result<Vec<ObjId>, AllocError>
    ensures { IfOk result (λ list. list.items ≡ says.changed_to add object members.now) }
{
    if add {
        put_in(alloc, object, members)
    } else {
        taken_out(alloc, object, members)
    }
}

// Whether a change leaves members as they are.
fn changes_nothing(add: bool, object: ObjId, members: &[ObjId]) -> bool
    ensures { result ≡ says.changes_nothing add object members.now }
{
    if add {
        is_one(object, members)
    } else {
        !is_one(object, members)
    }
}

// Sets the members of a set. Does nothing if no set has the number.
fn put_members(sets: &mut Vec<Kept>, set: SetId, list: Vec<ObjId>)
    ensures { sets.new.items ≡ slice_set sets.old.items set (Some list.items) }
{
    if set.get() < sets.len() {
        sets[set.get()] = Kept { list: Some(list) };
    }
}

// Whether two lists of objects are the same. Numbers are compared, since `==` of lists takes twice the time.
fn same_objects(list: &[ObjId], others: &[ObjId]) -> bool
    ensures { IsTrue result ↔ (list.now ≡ others.now) }
{
    if list.len() != others.len() {
        return false;
    }
    for (place, object) in list.iter().enumerate() {
        if object.get() != others[place].get() {
            return false;
        }
    }
    true
}

// Whether two sets were changed to the same members, or neither was changed.
fn same_kept(kept: &Kept, other: &Kept) -> bool
    ensures { IsTrue result ↔ (kept.now ≡ other.now) }
{
    match (&kept.list, &other.list) {
        (Some(list), Some(others)) => same_objects(list, others),
        (None, None) => true,
        _ => false,
    }
}

// Whether this is so of all sets.
fn same_sets(sets: &[Kept], others: &[Kept]) -> bool
    ensures { IsTrue result ↔ (sets.now ≡ others.now) }
{
    match sets {
        [] => others.is_empty(),
        [kept, more @ ..] => match others {
            [] => false,
            [other, rest @ ..] => same_kept(kept, other) && same_sets(more, rest),
        },
    }
}

impl Members {
    // Returns the members of a list of sets, which are moved and not copied.
    fn of_list(alloc: Global, sets: Vec<Kept>, is_declared: bool) -> Result<Members, AllocError>
        requires { says.MayBeUnchanged is_declared sets.items }
        ensures { IfOk result (λ m. m ≡ sets.items) }
    {
        match Arc::new(alloc, sets) {
            Ok(sets) => Ok(Members { sets, is_declared }),
            Err(_) => Err(AllocError),
        }
    }

    /// Returns the declared members of a domain's sets. The cost is the count of the sets. An error means out of
    /// memory.
    pub fn declared(alloc: Global, domain: &Domain) -> Result<Members, AllocError>
        ensures { IfOk result (λ m. m ≡ says.unchanged domain.now) }
    {
        let groups = domain.groups();
        let mut sets = Vec::with_capacity(alloc, groups.len())?;
        for group in groups {
            sets.push(as_declared(group))?;
        }
        Members::of_list(alloc, sets, true)
    }

    /// Returns the members of a set in order, each once. The cost is constant.
    pub fn of<'a>(&'a self, domain: &'a Domain, set: SetId) -> &'a [ObjId]
        ensures { result.now ≡ says.members_in domain.now self.now set }
    {
        match self.sets.get(set.get()) {
            Some(kept) => or_declared(kept, domain.members(set)),
            None => domain.members(set),
        }
    }

    /// Returns the members of all sets after an object was put into a set, behind its members if it is not among
    /// them, or was taken out of it. The cost is the count of the members of all sets that were changed. An error
    /// means out of memory.
    pub fn with_change(
        &self,
        alloc: Global,
        domain: &Domain,
        add: bool,
        object: ObjId,
        set: SetId,
    ) -> Result<Members, AllocError>
        ensures { IfOk result (λ m. m ≡ says.with_change domain.now self.now add object set) }
    {
        if changes_nothing(add, object, self.of(domain, set)) {
            return self.share();
        }
        let list = changed_to(alloc, add, object, self.of(domain, set))?;
        let mut sets = copies_of(alloc, &self.sets)?;
        put_members(&mut sets, set, list);
        Members::of_list(alloc, sets, false)
    }

    /// Returns the same members, shared. Only the count of their owners changes.
    pub fn share(&self) -> Result<Members, AllocError>
        ensures { IfOk result (λ m. m ≡ self.now) }
    {
        Ok(Members {
            sets: Arc::try_clone(&self.sets)?,
            is_declared: self.is_declared,
        })
    }

    /// Whether these are the same sets, each changed to the same members or unchanged in both. The cost is constant
    /// if no set was ever changed, and else the count of the sets and of the members of those that were changed.
    pub fn is(&self, other: &Members) -> bool
        ensures { IsTrue result ↔ (self.now ≡ other.now) }
    {
        let sets = self.sets.as_slice();
        let others = other.sets.as_slice();
        if self.is_declared && other.is_declared {
            return sets.len() == others.len();
        }
        same_sets(sets, others)
    }
}
