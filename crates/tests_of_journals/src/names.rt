//! Objects, states and actions of a domain, by the names that rows write.

use sml_domain::{ActionId, Domain, ObjId, StateId};
use sml_tree::Name;

// At least as many as any domain here has states or actions.
const MANY: usize = 100;

fn is_named(found: Option<Name>, name: &str) -> bool {
    match found {
        Some(found) => found.as_str() == name,
        None => false,
    }
}

/// Whether a state has a name.
pub fn is_state(domain: &Domain, state: StateId, name: &str) -> bool {
    is_named(domain.state_name(state), name)
}

/// Whether an action has a name.
pub fn is_action(domain: &Domain, action: ActionId, name: &str) -> bool {
    is_named(domain.action_name(action), name)
}

/// The object with a name.
pub fn object_named(domain: &Domain, name: &str) -> Option<ObjId> {
    for number in 0..domain.objects() {
        let o = ObjId::new(number);
        if is_named(domain.object_name(o), name) {
            return Some(o);
        }
    }
    None
}

/// The state with a name. A name that the domain does not have gives a number that it does not have.
pub fn state_named(domain: &Domain, name: &str) -> StateId {
    for number in 0..MANY {
        let state = StateId::new(number);
        if is_state(domain, state, name) {
            return state;
        }
    }
    StateId::new(MANY)
}

/// The action with a name.
pub fn action_named(domain: &Domain, name: &str) -> Option<ActionId> {
    for number in 0..MANY {
        let action = ActionId::new(number);
        if is_action(domain, action, name) {
            return Some(action);
        }
    }
    None
}
