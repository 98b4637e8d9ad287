//! Which boxes a graph has for objects and sets.

use crate::sends::{Sent, reads_of, sends_of};
use crate::tables::nones;
use sml_domain::{Class, Domain, Group, ObjId};
use std::alloc::{AllocError, Global};

// How many members a set has at most that are drawn for themselves.
const FEW: usize = 8;

/// What the actions of a class send, and whom they read.
#[derive(Drop)]
pub(crate) struct Links {
    pub(crate) sends: Vec<Sent>,
    pub(crate) reads: Vec<usize>,
}

/// The sets in whose boxes objects stand, by the numbers of the objects. None for one with a box of its own.
#[derive(Drop)]
pub(crate) struct Boxes {
    within: Vec<Option<usize>>,
    // Whether the members of large sets are drawn for themselves.
    members: bool,
}

/// What the actions of each class send and read.
pub(crate) fn links_of(alloc: Global, domain: &Domain) -> Result<Vec<Links>, AllocError> {
    let mut all = Vec::new(alloc);
    for class in domain.classes() {
        let links = links_of_class(alloc, domain, class)?;
        all.push(links)?;
    }
    Ok(all)
}

// What the actions of a class send and read.
fn links_of_class(alloc: Global, domain: &Domain, class: &Class) -> Result<Links, AllocError> {
    let sends = sends_of(alloc, domain, class)?;
    let reads = reads_of(alloc, domain, class)?;
    Ok(Links { sends, reads })
}

/// Finds the boxes. A member of a large set stands in the box of the first such set, if no instruction names it and no
/// other set has it that is drawn with its members. With `members` each has its own.
pub(crate) fn boxes_of(
    alloc: Global,
    domain: &Domain,
    links: &[Links],
    members: bool,
) -> Result<Boxes, AllocError> {
    let within = nones(alloc, domain.objects())?;
    let mut boxes = Boxes { within, members };
    put_members(domain, &mut boxes);
    take_members(domain, &mut boxes);
    take_named(links, &mut boxes);
    Ok(boxes)
}

/// Whether a set is one box.
pub(crate) fn is_one_box(boxes: &Boxes, group: &Group) -> bool {
    !boxes.members && group.members.len() > FEW
}

/// The set in whose box an object stands, if it has none of its own.
pub(crate) fn box_of(boxes: &Boxes, o: ObjId) -> Option<usize> {
    match boxes.within.get(o.get()) {
        Some(Some(set)) => Some(*set),
        _ => None,
    }
}

// Puts the members of the sets that are one box into these.
fn put_members(domain: &Domain, boxes: &mut Boxes) {
    for (set, group) in domain.groups().iter().enumerate() {
        if is_one_box(boxes, group) {
            put(boxes, group, set);
        }
    }
}

// Puts those members of a set into its box that stand in no other.
fn put(boxes: &mut Boxes, group: &Group, set: usize) {
    for member in &group.members {
        if let Some(slot) = boxes.within.get_mut(member.get()) {
            if slot.is_none() {
                *slot = Some(set);
            }
        }
    }
}

// Gives the members of the other sets boxes of their own.
fn take_members(domain: &Domain, boxes: &mut Boxes) {
    for group in domain.groups() {
        if !is_one_box(boxes, group) {
            take_all(boxes, group);
        }
    }
}

// Gives the members of a set boxes of their own.
fn take_all(boxes: &mut Boxes, group: &Group) {
    for member in &group.members {
        take(boxes, member.get());
    }
}

// Gives an object its own box. The number may be that of a set.
fn take(boxes: &mut Boxes, number: usize) {
    if let Some(slot) = boxes.within.get_mut(number) {
        *slot = None;
    }
}

// Gives all objects that an instruction names boxes of their own.
fn take_named(links: &[Links], boxes: &mut Boxes) {
    for of_class in links {
        take_targets(of_class, boxes);
        take_reads(of_class, boxes);
    }
}

// Those to which a class sends.
fn take_targets(links: &Links, boxes: &mut Boxes) {
    for sent in &links.sends {
        take(boxes, sent.target);
    }
}

// Those that a class reads.
fn take_reads(links: &Links, boxes: &mut Boxes) {
    for read in &links.reads {
        take(boxes, *read);
    }
}
