//! The colours of states.

use sml_domain::{Domain, ObjId, StateId};

/// The class of what is in a state: one of eight hues by the number of the state, which are those of the states in the
/// order of the text; or that of what is dead.
pub(crate) fn class_of_state(domain: &Domain, o: ObjId, state: StateId) -> &'static [u8] {
    if is_dead(domain, o, state) {
        return b"gone";
    }
    match state.get() % 8 {
        0 => b"s0",
        1 => b"s1",
        2 => b"s2",
        3 => b"s3",
        4 => b"s4",
        5 => b"s5",
        6 => b"s6",
        _ => b"s7",
    }
}

// Whether a state is that of killed objects.
fn is_dead(domain: &Domain, o: ObjId, state: StateId) -> bool {
    domain.has(o) && domain.dead(o).get() == state.get()
}
