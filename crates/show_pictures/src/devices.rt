//! The classes of devices in a graph: a table each, which has the states and their actions.

use crate::dot::{DEVICE_FILL, end_tip, tell_known, tell_tip};
use sml_domain::{Class, Domain, State};
use sml_text::Sink;
use sml_writer::Out;

// How many tables stand beside one another.
const BESIDE: usize = 4;

/// Writes the tables of the classes of devices, if there are such classes. They stand beside one another: an arrow that
/// is not seen leads from each to the next.
pub(crate) fn tell_devices<W: Sink>(out: &mut Out<'_, W>, domain: &Domain) {
    if !domain.classes().iter().any(|class| class.associated) {
        return;
    }
    out.say(
        b"  subgraph \"cluster devices\" {\n    label=\"devices: an action ends in any state\";\n",
    );
    let mut last: Option<&Class> = None;
    let mut count = 0usize;
    for class in domain.classes() {
        if class.associated {
            tell_table(out, domain, class);
            tell_order(out, last, class);
            count = count.saturating_add(1);
            last = if count % BESIDE == 0 {
                None
            } else {
                Some(class)
            };
        }
    }
    out.say(b"  }\n");
}

// The arrow that is not seen.
fn tell_order<W: Sink>(out: &mut Out<'_, W>, last: Option<&Class>, class: &Class) {
    if let Some(last) = last {
        out.say(b"    \"class ");
        out.say(last.name.as_bytes());
        out.say(b"\" -> \"class ");
        out.say(class.name.as_bytes());
        out.say(b"\" [style=invis];\n");
    }
}

// The table of a class.
fn tell_table<W: Sink>(out: &mut Out<'_, W>, domain: &Domain, class: &Class) {
    out.say(b"    \"class ");
    out.say(class.name.as_bytes());
    out.say(
        b"\" [shape=plain, label=<<table border=\"0\" cellborder=\"1\" cellspacing=\"0\" cellpadding=\"4\" bgcolor=",
    );
    out.say(DEVICE_FILL);
    out.say(b">\n      <tr><td colspan=\"2\"><b>");
    out.say(class.name.as_bytes());
    out.say(b"</b></td></tr>\n");
    for state in class.states.rows() {
        tell_state(out, domain, class, state);
    }
    out.say(b"    </table>>");
    tell_tips(out, domain, class);
    out.say(b"];\n");
}

// The row of a state.
fn tell_state<W: Sink>(out: &mut Out<'_, W>, domain: &Domain, class: &Class, state: &State) {
    out.say(b"      <tr><td");
    if class.initial.get() == state.number.get() {
        out.say(b" border=\"3\"");
    }
    if class.dead.get() == state.number.get() {
        out.say(b" style=\"dashed\"");
    }
    out.say(b">");
    tell_known(out, domain.state_name(state.number));
    out.say(b"</td><td>");
    tell_actions(out, domain, state);
    out.say(b"</td></tr>\n");
}

// The actions of a state, a line each.
fn tell_actions<W: Sink>(out: &mut Out<'_, W>, domain: &Domain, state: &State) {
    for action in state.actions.rows() {
        tell_known(out, domain.action_name(action.number));
        out.say(b"<br align=\"left\"/>");
    }
}

// The parameters of the actions of a class.
fn tell_tips<W: Sink>(out: &mut Out<'_, W>, domain: &Domain, class: &Class) {
    let mut is_there = false;
    for signature in class.signatures.rows() {
        is_there = tell_tip(out, domain, class, signature.action, is_there);
    }
    end_tip(out, is_there);
}
