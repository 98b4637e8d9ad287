//! The graph of a domain, as a text of Graphviz.

use crate::devices::tell_devices;
use crate::dot::{end_tip, tell_known, tell_quoted, tell_tip};
use crate::ends::leads;
use crate::objects::tell_objects;
use smi_reach::{Way, ways_of};
use sml_domain::{Class, Domain, State, StateId};
use sml_text::Sink;
use sml_writer::Out;
use std::alloc::{AllocError, Global};

/// What a graph shows beside classes and their states.
#[derive(Clone, Copy)]
pub struct GraphParts {
    /// Objects and sets.
    pub objects: bool,
    /// The members of large sets too.
    pub members: bool,
}

// What the text begins with, up to its title.
const HEAD: &[u8] = b"digraph domain {
  rankdir=LR;
  nodesep=0.4;
  ranksep=0.7;
  graph [fontname=\"Helvetica\"];
  node [fontname=\"Helvetica\", fontsize=12, shape=box, style=\"rounded,filled\", fillcolor=white];
  edge [fontname=\"Helvetica\", fontsize=10];
  labelloc=t;
  label=\"";

// What is what among classes, behind the name of the file.
const LEGEND: &[u8] = b": thick = initial, broken = killed";

// What is what among objects.
const LEGEND_OF_OBJECTS: &[u8] = b"\\narrow = sends, dotted = reads, broken line = member";

/// Writes the graph of a domain: a table of each class of devices, and for each other class a cluster, with a box for
/// each state, and an arrow from one state to another with the actions of the first that may end in the second, one a
/// line. Its title has the name of the file, and says what is what. Nothing is written behind a write that failed.
///
/// A state in which objects begin has a thick frame, and the one of killed objects a grey, broken one. An action may
/// end at each `move_to` and `terminate_action` with none before it, and at the end of its block, which leaves
/// the state as it is; that a condition never holds is not seen. Actions of a device, which may end in any state of
/// their class, stand beside the states that declare them. A browser shows the parameters of actions where one points
/// at an arrow or a table.
///
/// If they are asked for, objects and sets are drawn too. From an object an arrow goes to each object and set that an
/// action of its class sends to, with those actions, and a dotted line to each that it reads; from a set a broken line
/// goes to each member. A set with more than eight members is one box, in which those members stand that nothing names,
/// unless members are asked for.
///
/// The text is the same whenever the domain is. The time grows with the length of the domain and of what is written,
/// and with the count of a class's states for each end of an action; the memory with the length of the domain. An
/// error means out of memory.
pub fn tell_graph<W: Sink>(
    alloc: Global,
    out: &mut Out<'_, W>,
    domain: &Domain,
    file: &[u8],
    parts: GraphParts,
) -> Result<(), AllocError> {
    let ways = ways_of(alloc, domain)?;
    out.say(HEAD);
    tell_quoted(out, file);
    out.say(LEGEND);
    if parts.objects {
        out.say(LEGEND_OF_OBJECTS);
    }
    out.say(b"\";\n");
    tell_devices(out, domain);
    tell_classes(out, domain, &ways);
    drop(ways);
    if parts.objects {
        tell_objects(alloc, out, domain, parts.members)?;
    }
    out.say(b"}\n");
    Ok(())
}

// The clusters of all classes but those of devices.
fn tell_classes<W: Sink>(out: &mut Out<'_, W>, domain: &Domain, ways: &[Way]) {
    for class in domain.classes() {
        if !class.associated {
            tell_class(out, domain, ways, class);
        }
    }
}

// The cluster of a class.
fn tell_class<W: Sink>(out: &mut Out<'_, W>, domain: &Domain, ways: &[Way], class: &Class) {
    out.say(b"  subgraph \"cluster ");
    out.say(class.name.as_bytes());
    out.say(b"\" {\n    label=\"");
    out.say(class.name.as_bytes());
    out.say(b"\";\n");
    for state in class.states.rows() {
        tell_state(out, domain, class, state);
    }
    tell_edges(out, domain, ways, class);
    out.say(b"  }\n");
}

// The node of a state, in quotes.
fn tell_node<W: Sink>(out: &mut Out<'_, W>, domain: &Domain, class: &Class, state: StateId) {
    out.say(b"\"");
    out.say(class.name.as_bytes());
    out.say(b".");
    tell_known(out, domain.state_name(state));
    out.say(b"\"");
}

// The box of a state.
fn tell_state<W: Sink>(out: &mut Out<'_, W>, domain: &Domain, class: &Class, state: &State) {
    out.say(b"    ");
    tell_node(out, domain, class, state.number);
    out.say(b" [label=\"");
    tell_known(out, domain.state_name(state.number));
    out.say(b"\"");
    tell_marks(out, class, state);
    out.say(b"];\n");
}

// How the box of a state shows that objects begin in it, or are in it once they are killed.
fn tell_marks<W: Sink>(out: &mut Out<'_, W>, class: &Class, state: &State) {
    if class.initial.get() == state.number.get() {
        out.say(b", penwidth=3");
    }
    if class.dead.get() == state.number.get() {
        out.say(b", style=\"rounded,filled,dashed\", color=gray40, fontcolor=gray40");
    }
}

// The arrows between the states of a class.
fn tell_edges<W: Sink>(out: &mut Out<'_, W>, domain: &Domain, ways: &[Way], class: &Class) {
    for from in class.states.rows() {
        tell_edges_from(out, domain, ways, class, from);
    }
}

// The arrows from a state.
fn tell_edges_from<W: Sink>(
    out: &mut Out<'_, W>,
    domain: &Domain,
    ways: &[Way],
    class: &Class,
    from: &State,
) {
    for to in class.states.rows() {
        tell_edge(out, domain, ways, class, from, to.number);
    }
}

// The arrow from one state to another, where an action leads there.
fn tell_edge<W: Sink>(
    out: &mut Out<'_, W>,
    domain: &Domain,
    ways: &[Way],
    class: &Class,
    from: &State,
    to: StateId,
) {
    let mut is_open = false;
    for action in from.actions.rows() {
        if leads(ways, action, from.number, to) {
            if is_open {
                out.say(b"\\n");
            } else {
                tell_edge_head(out, domain, class, from.number, to);
            }
            is_open = true;
            tell_known(out, domain.action_name(action.number));
        }
    }
    if is_open {
        out.say(b"\"");
        tell_tips(out, domain, ways, class, from, to);
        out.say(b"];\n");
    }
}

// The parameters of the actions of an arrow.
fn tell_tips<W: Sink>(
    out: &mut Out<'_, W>,
    domain: &Domain,
    ways: &[Way],
    class: &Class,
    from: &State,
    to: StateId,
) {
    let mut is_there = false;
    for action in from.actions.rows() {
        if leads(ways, action, from.number, to) {
            is_there = tell_tip(out, domain, class, action.number, is_there);
        }
    }
    end_tip(out, is_there);
}

// An arrow up to its label.
fn tell_edge_head<W: Sink>(
    out: &mut Out<'_, W>,
    domain: &Domain,
    class: &Class,
    from: StateId,
    to: StateId,
) {
    out.say(b"    ");
    tell_node(out, domain, class, from);
    out.say(b" -> ");
    tell_node(out, domain, class, to);
    out.say(b" [label=\"");
}
