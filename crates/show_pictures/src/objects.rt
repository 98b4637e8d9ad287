//! The objects and sets of a graph, who sends what to whom, and who reads whom.

use crate::boxes::{Boxes, Links, box_of, boxes_of, is_one_box, links_of};
use crate::dot::{DEVICE_FILL, end_tip, tell_known, tell_tip};
use crate::sends::Sent;
use crate::tables::{nones, zeros};
use sml_domain::{ActionId, Class, Domain, Group, ObjId};
use sml_text::Sink;
use sml_writer::Out;
use std::alloc::{AllocError, Global};

/// Writes the objects and sets of a domain, with arrows for what is sent, dotted lines for what is read and broken
/// lines for membership. With `members` those of large sets are drawn too.
pub(crate) fn tell_objects<W: Sink>(
    alloc: Global,
    out: &mut Out<'_, W>,
    domain: &Domain,
    members: bool,
) -> Result<(), AllocError> {
    let links = links_of(alloc, domain)?;
    let boxes = boxes_of(alloc, domain, &links, members)?;
    out.say(b"  subgraph \"cluster\" {\n    label=\"objects and sets\";\n");
    tell_object_nodes(out, domain, &boxes);
    tell_sets(alloc, out, domain, &boxes)?;
    tell_all_links(alloc, out, domain, &boxes, &links)?;
    out.say(b"  }\n");
    Ok(())
}

// The boxes of all objects that have one.
fn tell_object_nodes<W: Sink>(out: &mut Out<'_, W>, domain: &Domain, boxes: &Boxes) {
    for number in 0..domain.objects() {
        let o = ObjId::new(number);
        if box_of(boxes, o).is_none() {
            tell_object_node(out, domain, o);
        }
    }
}

// All sets with their members.
fn tell_sets<W: Sink>(
    alloc: Global,
    out: &mut Out<'_, W>,
    domain: &Domain,
    boxes: &Boxes,
) -> Result<(), AllocError> {
    for group in domain.groups() {
        out.say(b"    ");
        tell_set_node(out, group);
        if is_one_box(boxes, group) {
            tell_one_box(alloc, out, domain, group)?;
        } else {
            out.say(b" [shape=ellipse, style=dashed, label=\"");
            out.say(group.name.as_bytes());
        }
        out.say(b"\"];\n");
        tell_members(out, domain, boxes, group);
    }
    Ok(())
}

// The node of an object, in quotes.
fn tell_object<W: Sink>(out: &mut Out<'_, W>, domain: &Domain, o: ObjId) {
    out.say(b"\"object ");
    tell_known(out, domain.object_name(o));
    out.say(b"\"");
}

// The node of a set, in quotes.
fn tell_set_node<W: Sink>(out: &mut Out<'_, W>, group: &Group) {
    out.say(b"\"set ");
    out.say(group.name.as_bytes());
    out.say(b"\"");
}

// The node of an object, or behind the numbers of all objects that of a set.
fn tell_node<W: Sink>(out: &mut Out<'_, W>, domain: &Domain, number: usize) {
    match number.checked_sub(domain.objects()) {
        None => tell_object(out, domain, ObjId::new(number)),
        Some(place) => {
            if let Some(group) = domain.groups().get(place) {
                tell_set_node(out, group);
            }
        }
    }
}

/// The number of an object's class.
pub(crate) fn class_of(domain: &Domain, o: ObjId) -> Option<usize> {
    if domain.has(o) {
        Some(domain.class_of(o).get())
    } else {
        None
    }
}

// The box of an object, with the name of its class.
fn tell_object_node<W: Sink>(out: &mut Out<'_, W>, domain: &Domain, o: ObjId) {
    out.say(b"    ");
    tell_object(out, domain, o);
    out.say(b" [style=filled, ");
    if domain.associated(o) {
        out.say(b"fillcolor=");
        out.say(DEVICE_FILL);
        out.say(b", ");
    }
    out.say(b"label=\"");
    tell_known(out, domain.object_name(o));
    out.say(b"\\n(");
    if let Some(class) = class_at(domain, o.get()) {
        out.say(class.name.as_bytes());
    }
    out.say(b")\"];\n");
}

// The class of an object, or behind the numbers of all objects that of the first member that a set may have.
fn class_at(domain: &Domain, number: usize) -> Option<&Class> {
    let o = match number.checked_sub(domain.objects()) {
        None => ObjId::new(number),
        Some(place) => *domain.groups().get(place)?.may.first()?,
    };
    domain.classes().get(class_of(domain, o)?)
}

// The look of a large set, up to the end of its label: how many members it has, class by class.
fn tell_one_box<W: Sink>(
    alloc: Global,
    out: &mut Out<'_, W>,
    domain: &Domain,
    group: &Group,
) -> Result<(), AllocError> {
    out.say(b" [shape=box, peripheries=2, style=filled, label=\"");
    out.say(group.name.as_bytes());
    let counts = counts_of(alloc, domain, group)?;
    let mut before: &[u8] = b": ";
    for (class, count) in domain.classes().iter().zip(counts.iter()) {
        if *count > 0 {
            out.say(before);
            out.number(*count as u64);
            out.say(b" of ");
            out.say(class.name.as_bytes());
            before = b", ";
        }
    }
    Ok(())
}

// How many members of a set are of each class.
fn counts_of(alloc: Global, domain: &Domain, group: &Group) -> Result<Vec<usize>, AllocError> {
    let mut counts = zeros(alloc, domain.classes().len())?;
    for member in &group.members {
        if let Some(number) = class_of(domain, *member) {
            if let Some(count) = counts.get_mut(number) {
                *count = count.saturating_add(1);
            }
        }
    }
    Ok(counts)
}

// A broken line from a set to each of its members that has a box.
fn tell_members<W: Sink>(out: &mut Out<'_, W>, domain: &Domain, boxes: &Boxes, group: &Group) {
    for member in &group.members {
        if box_of(boxes, *member).is_none() {
            out.say(b"    ");
            tell_set_node(out, group);
            out.say(b" -> ");
            tell_object(out, domain, *member);
            out.say(b" [style=dashed, arrowhead=none];\n");
        }
    }
}

// The arrows of all objects, class by class.
fn tell_all_links<W: Sink>(
    alloc: Global,
    out: &mut Out<'_, W>,
    domain: &Domain,
    boxes: &Boxes,
    links: &[Links],
) -> Result<(), AllocError> {
    let mut told = nones(alloc, domain.groups().len())?;
    for (number, of_class) in links.iter().enumerate() {
        tell_links_of_class(out, domain, boxes, of_class, number, &mut told);
    }
    Ok(())
}

// The arrows of the objects of a class: those of objects in the box of a set once from there.
fn tell_links_of_class<W: Sink>(
    out: &mut Out<'_, W>,
    domain: &Domain,
    boxes: &Boxes,
    links: &Links,
    number: usize,
    told: &mut Vec<Option<usize>>,
) {
    for place in 0..domain.objects() {
        let o = ObjId::new(place);
        if class_of(domain, o) == Some(number) {
            match box_of(boxes, o) {
                None => tell_links(out, domain, place, links),
                Some(set) => {
                    if is_first(told, set, number) {
                        let from = domain.objects().saturating_add(set);
                        tell_links(out, domain, from, links);
                    }
                }
            }
        }
    }
}

// Whether the arrows of a class are the first of that class from the box of a set; they then are told.
fn is_first(told: &mut Vec<Option<usize>>, set: usize, number: usize) -> bool {
    match told.get_mut(set) {
        Some(last) if *last != Some(number) => {
            *last = Some(number);
            true
        }
        _ => false,
    }
}

// The arrows and dotted lines from a node.
fn tell_links<W: Sink>(out: &mut Out<'_, W>, domain: &Domain, from: usize, links: &Links) {
    tell_sends(out, domain, from, &links.sends);
    tell_reads(out, domain, from, &links.reads);
}

// The arrows from a node, one for each target.
fn tell_sends<W: Sink>(out: &mut Out<'_, W>, domain: &Domain, from: usize, sends: &[Sent]) {
    let mut last: Option<usize> = None;
    for (place, sent) in sends.iter().enumerate() {
        if last != Some(sent.target) {
            tell_line(out, domain, from, sent.target);
            tell_actions(out, domain, sent.target, &sends[place..]);
        }
        last = Some(sent.target);
    }
}

// The dotted lines from a node, one for each that is read.
fn tell_reads<W: Sink>(out: &mut Out<'_, W>, domain: &Domain, from: usize, reads: &[usize]) {
    let mut last: Option<usize> = None;
    for read in reads {
        if last != Some(*read) {
            tell_line(out, domain, from, *read);
            out.say(b"style=dotted, arrowhead=odot];\n");
        }
        last = Some(*read);
    }
}

// An arrow from a node to another, up to its look.
fn tell_line<W: Sink>(out: &mut Out<'_, W>, domain: &Domain, from: usize, to: usize) {
    out.say(b"    ");
    tell_node(out, domain, from);
    out.say(b" -> ");
    tell_node(out, domain, to);
    out.say(b" [");
}

// The actions that are sent to a target, which stand first, a line each; and their parameters.
fn tell_actions<W: Sink>(out: &mut Out<'_, W>, domain: &Domain, target: usize, sends: &[Sent]) {
    let mut before: &[u8] = b"label=\"";
    let mut last: Option<usize> = None;
    for sent in sends {
        if sent.target != target {
            break;
        }
        if last != Some(sent.action) {
            out.say(before);
            tell_known(out, domain.action_name(ActionId::new(sent.action)));
        }
        before = b"\\n";
        last = Some(sent.action);
    }
    out.say(b"\"");
    tell_tips(out, domain, target, sends);
    out.say(b"];\n");
}

// The parameters of the actions that are sent to a target, which stand first.
fn tell_tips<W: Sink>(out: &mut Out<'_, W>, domain: &Domain, target: usize, sends: &[Sent]) {
    let Some(class) = class_at(domain, target) else {
        return;
    };
    let mut is_there = false;
    let mut last: Option<usize> = None;
    for sent in sends {
        if sent.target != target {
            break;
        }
        if last != Some(sent.action) {
            let action = ActionId::new(sent.action);
            is_there = tell_tip(out, domain, class, action, is_there);
        }
        last = Some(sent.action);
    }
    end_tip(out, is_there);
}
