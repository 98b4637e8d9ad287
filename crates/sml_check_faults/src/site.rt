//! Names in a block that are not declared, and objects that ask for themselves.
ghost use Rattle.std.specs.Prelude.{◌≡◌, map, flat_map};
ghost use Rattle.std.specs.List.{list_any};
ghost use Rattle.sml_tree.specs.Content.{file_content, class_content};
ghost use Rattle.sml_check_faults.specs.Lookup as look;
ghost use Rattle.sml_check_faults.specs.Faults as faults;

use crate::lookup::has_state;
use crate::tables::Tables;
use sml_tree::{Class, Name};
use std::alloc::Allocator;

impl<'a, A: Allocator + Clone> Tables<'a, A> {
    /// Returns a name that should be an object's and is not.
    pub(crate) fn unknown_object(&self, set: bool, name: &Name) -> Option<Name>
        ensures { result ≡ look.first_item (faults.unknown_object (file_content self.now.file.now) set name.now) }
    {
        if set || self.object(name).is_some() {
            None
        } else {
            Some(*name)
        }
    }

    /// Returns a name that should be a set's and is not.
    pub(crate) fn unknown_set(&self, set: bool, name: &Name) -> Option<Name>
        ensures { result ≡ look.first_item (faults.unknown_set (file_content self.now.file.now) set name.now) }
    {
        if set && self.group(name).is_none() {
            Some(*name)
        } else {
            None
        }
    }

    /// Returns the first state of a test that none of its objects has.
    pub(crate) fn unknown_tested(&self, objects: &[Name], states: &[Name]) -> Option<Name>
        ensures { result ≡ look.first_item (faults.states_of_none
            (file_content self.now.file.now) objects.now states.now) }
    {
        if objects.is_empty() {
            None
        } else {
            self.state_of_none(objects, states)
        }
    }

    // Returns the first state that none of some objects has.
    fn state_of_none(&self, objects: &[Name], states: &[Name]) -> Option<Name>
        ensures { result ≡ look.first_item (flat_map (faults.state_of_none
            (file_content self.now.file.now) objects.now) states.now) }
    {
        for state in states {
            if !self.some_has_state(state, objects) {
                return Some(*state);
            }
        }
        None
    }

    /// Returns the action of a request that some target lacks.
    pub(crate) fn unknown_action(&self, action: &Name, objects: &[Name]) -> Option<Name>
        ensures { result ≡ look.first_item (faults.unknown_action
            (file_content self.now.file.now) action.now objects.now) }
    {
        if self.some_lacks_action(action, objects) {
            Some(*action)
        } else {
            None
        }
    }

    // Whether some object's class declares an action in no state.
    fn some_lacks_action(&self, action: &Name, objects: &[Name]) -> bool
        ensures { result ≡ list_any (faults.lacks_action (file_content self.now.file.now) action.now) objects.now }
    {
        for object in objects {
            if self.action_of(action, object).is_none() {
                return true;
            }
        }
        false
    }

    /// Returns the first of some objects that is of this class.
    pub(crate) fn own_object(&self, class: &Class<A>, objects: &[Name]) -> Option<Name>
        ensures { result ≡ look.first_item (flat_map (faults.own_object (file_content self.now.file.now)
            (class_content class.now)) objects.now) }
    {
        for object in objects {
            if self.is_of_class(class, object) {
                return Some(*object);
            }
        }
        None
    }

    // Whether an object is of a class.
    fn is_of_class(&self, class: &Class<A>, object: &Name) -> bool
        ensures { result ≡ faults.is_of_class (class_content class.now)
            (look.file_object_named (file_content self.now.file.now) object.now) }
    {
        match self.object(object) {
            Some(found) => class.name == found.class,
            None => false,
        }
    }
}

/// Returns the state of an end that the class does not have.
pub fn unknown_end<A: Allocator + Clone>(class: &Class<A>, state: &Name) -> Option<Name>
    ensures { result ≡ look.first_item (faults.unknown_end (class_content class.now) state.now) }
{
    if has_state(class, state) {
        None
    } else {
        Some(*state)
    }
}
