//! What has the name of something of its kind before it.
ghost use Rattle.std.specs.Prelude.{◌≡◌, ◌||◌, [], map, take, is_some};
ghost use Rattle.std.specs.List.{list_any};
ghost use Rattle.sml_tree.specs.Content.{file_content, class_content, action_content, state_content, item_content, passed_content, class_param_content, action_param_content};
ghost use Rattle.sml_check_faults.specs.Lookup as look;
ghost use Rattle.sml_check_faults.specs.Repeats as repeats;

use crate::kind::CheckKind;
use crate::lookup::{
    action_param_in, class_param, class_param_in, declares_state, is_among, is_name,
};
use crate::param::passes;
use crate::tables::Tables;
use sml_tree::{Action, ActionParam, Class, ClassParam, Item, Name, Passed, State};
use std::alloc::Allocator;

/// Returns the first name that is among those before it.
pub fn repeated_name(names: &[Name]) -> Option<Name>
    ensures { result ≡ look.first_item (repeats.each_after repeats.repeated_name [] names.now) }
{
    for (i, name) in names.iter().enumerate() {
        if is_among(&names[..i], name) {
            return Some(*name);
        }
    }
    None
}

/// Returns the name of the first argument that has one of its name before it.
pub fn repeated_passed<A: Allocator + Clone>(args: &[Passed<A>]) -> Option<Name>
    ensures { result ≡ look.first_item (repeats.each_after repeats.repeated_passed [] (map passed_content args.now)) }
{
    for (i, passed) in args.iter().enumerate() {
        if passes(&args[..i], &passed.name) {
            return Some(passed.name);
        }
    }
    None
}

// Returns the first parameter of a class that has one of its name before it.
fn repeated_class_param<A: Allocator + Clone>(params: &[ClassParam<A>]) -> Option<Name>
    ensures { result ≡ look.first_item (repeats.each_after repeats.repeated_class_param []
        (map class_param_content params.now)) }
{
    for (i, param) in params.iter().enumerate() {
        if class_param_in(&params[..i], &param.name).is_some() {
            return Some(param.name);
        }
    }
    None
}

// Whether a class, or some parameters of an action, have a parameter of a name.
fn names_param<A: Allocator + Clone>(
    class: &Class<A>,
    params: &[ActionParam<A>],
    name: &Name,
) -> bool
    ensures { result ≡ (is_some (look.class_param_named (class_content class.now) name.now) || list_any
        (look.is_action_param name.now) (map action_param_content params.now)) }
{
    class_param(class, name).is_some() || action_param_in(params, name).is_some()
}

// Returns the first parameter of an action that is named as one of its class, or as one before it.
fn repeated_action_param<A: Allocator + Clone>(
    class: &Class<A>,
    params: &[ActionParam<A>],
) -> Option<Name>
    ensures { result ≡ look.first_item (repeats.each_after (repeats.repeated_action_param (class_content class.now)) []
        (map action_param_content params.now)) }
{
    for (i, param) in params.iter().enumerate() {
        if names_param(class, &params[..i], &param.name) {
            return Some(param.name);
        }
    }
    None
}

// Whether an action of some has this name.
fn names_action<A: Allocator + Clone>(actions: &[Action<A>], name: &Name) -> bool
    ensures { result ≡ list_any (look.is_action_named name.now) (map action_content actions.now) }
{
    for action in actions {
        if is_name(name, &action.name) {
            return true;
        }
    }
    false
}

impl<'a, A: Allocator + Clone> Tables<'a, A> {
    // What is repeated in an action.
    #[tactic(auto, using(crate::proofs::Rests::firsts))]
    fn repeated_in_action(&self, class: &Class<A>, action: &Action<A>) -> Option<Name>
        ensures { result ≡ look.first_item (repeats.repeated_in_action (class_content class.now)
            (action_content action.now)) }
    {
        match repeated_action_param(class, &action.params) {
            Some(name) => Some(name),
            None => self.block_fault(CheckKind::Duplicate, class, action, &action.body),
        }
    }

    // Returns the first action that has one of its name before it in its state, or what is repeated in one.
    fn repeated_action(&self, class: &Class<A>, actions: &[Action<A>]) -> Option<Name>
        ensures { result ≡ look.first_item (repeats.each_after (repeats.repeated_action (class_content class.now)) []
            (map action_content actions.now)) }
    {
        for (i, action) in actions.iter().enumerate() {
            if names_action(&actions[..i], &action.name) {
                return Some(action.name);
            }
            if let Some(name) = self.repeated_in_action(class, action) {
                return Some(name);
            }
        }
        None
    }

    // Returns the first state that has one of its name before it, or what is repeated in one.
    fn repeated_state(&self, class: &Class<A>, states: &[State<A>]) -> Option<Name>
        ensures { result ≡ look.first_item (repeats.each_after (repeats.repeated_state (class_content class.now)) []
            (map state_content states.now)) }
    {
        for (i, state) in states.iter().enumerate() {
            if declares_state(&states[..i], &state.name) {
                return Some(state.name);
            }
            if let Some(name) = self.repeated_action(class, &state.actions) {
                return Some(name);
            }
        }
        None
    }

    // What is repeated in a class.
    #[tactic(auto, using(crate::proofs::Rests::firsts))]
    fn repeated_in_class(&self, class: &Class<A>) -> Option<Name>
        ensures { result ≡ look.first_item (repeats.repeated_in_class (class_content class.now)) }
    {
        match repeated_class_param(&class.params) {
            Some(name) => Some(name),
            None => self.repeated_state(class, &class.states),
        }
    }

    // What the item at a place repeats of those before it, or what is repeated in it.
    fn repeated_item(&self, place: usize, item: &Item<A>) -> Option<Name>
        ensures { result ≡ look.first_item (repeats.repeated_item
            (map item_content (take place self.now.file.now.items.items)) (item_content item.now)) }
    {
        match item {
            Item::Class(class) => {
                if self.names_class(&class.name, place) {
                    Some(class.name)
                } else {
                    self.repeated_in_class(class)
                }
            }
            Item::Object(object) => {
                if self.names_object(&object.name, place) {
                    Some(object.name)
                } else {
                    None
                }
            }
            Item::Group(group) => {
                if self.names_group(&group.name, place) {
                    Some(group.name)
                } else {
                    repeated_name(&group.members)
                }
            }
        }
    }

    /// Returns the first name in the text that something of its kind before it has. The cost is the square of
    /// the counts of the states of a class, of the actions of a state and of the entries of a list, all
    /// of which are limited.
    pub fn repeated(&self) -> Option<Name>
        ensures { result ≡ look.first_item (repeats.each_after repeats.repeated_item []
            (file_content self.now.file.now)) }
    {
        let file = self.file;
        for (i, item) in file.items.iter().enumerate() {
            if let Some(name) = self.repeated_item(i, item) {
                return Some(name);
            }
        }
        None
    }
}
