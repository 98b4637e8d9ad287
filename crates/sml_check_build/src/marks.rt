//! The initial and the dead state of a class.
ghost use Rattle.std.specs.Prelude.{◌≡◌, map, find, option_map};
ghost use Rattle.std.specs.List.{list_any};
ghost use Rattle.sml_tree.specs.Content.{state_content, class_content};
ghost use Rattle.sml_check_faults.specs.Lookup as look;
ghost use Rattle.sml_check_faults.specs.Heads.{is_initial, is_marked_dead};
ghost use Rattle.sml_check_build.specs.Numbers.{state_name};
ghost use Rattle.sml_check_build.specs.Rows as rows;

use sml_tree::{Class, Name, State};
use std::alloc::Allocator;

/// Returns the name of the state that is added.
pub fn dead_name() -> Name
    ensures { result ≡ look.dead_name }
{
    Name::from_word(b"DEAD")
}

// Whether some state is marked as the dead one, or has its name.
fn has_dead<A: Allocator + Clone>(states: &Vec<State<A>, A>) -> bool
    ensures { result ≡ list_any look.is_dead (map state_content states.now.items) }
{
    let dead = dead_name();
    for state in states {
        if state.dead || dead == state.name {
            return true;
        }
    }
    false
}

/// Whether the state `DEAD` is added to a class.
pub fn adds_dead<A: Allocator + Clone>(class: &Class<A>) -> bool
    ensures { result ≡ look.adds_dead (class_content class.now) }
{
    !has_dead(&class.states)
}

// Returns the name of the state that is marked as the initial one.
fn marked_initial<A: Allocator + Clone>(states: &Vec<State<A>, A>) -> Option<Name>
    ensures { result ≡ option_map state_name (find is_initial (map state_content states.now.items)) }
{
    for state in states {
        if state.initial {
            return Some(state.name);
        }
    }
    None
}

// Returns the name of the state that is marked as the dead one.
fn marked_dead<A: Allocator + Clone>(states: &Vec<State<A>, A>) -> Option<Name>
    ensures { result ≡ option_map state_name (find is_marked_dead (map state_content states.now.items)) }
{
    for state in states {
        if state.dead {
            return Some(state.name);
        }
    }
    None
}

/// Returns the name of the initial state: that of the marked one, or else of the first.
pub fn initial_name<A: Allocator + Clone>(class: &Class<A>) -> Option<Name>
    ensures { result ≡ rows.initial_name (class_content class.now) }
{
    match marked_initial(&class.states) {
        Some(name) => Some(name),
        None => match class.states.first() {
            Some(state) => Some(state.name),
            None => None,
        },
    }
}

/// Returns the name of the dead state: that of the marked one, or else `DEAD`.
pub fn last_name<A: Allocator + Clone>(class: &Class<A>) -> Name
    ensures { result ≡ rows.last_name (class_content class.now) }
{
    match marked_dead(&class.states) {
        Some(name) => name,
        None => dead_name(),
    }
}
