//! What a name in a block means.
ghost use Rattle.std.specs.Prelude.{◌≡◌, ◌||◌, map, option_map};
ghost use Rattle.std.specs.List.{list_any, find};
ghost use Rattle.sml_tree.specs.Content.{file_content, class_content, action_content, state_content, class_param_content, action_param_content};
ghost use Rattle.sml_check_faults.specs.Lookup as look;
ghost use Rattle.sml_check_faults.specs.Faults as faults;

use crate::tables::Tables;
use sml_tree::{Action, ActionParam, Class, ClassParam, Name, Scope, State};
use std::alloc::Allocator;
use std::slice::from_ref;

impl<'a, A: Allocator + Clone> Tables<'a, A> {
    /// Returns the class of an object.
    pub(crate) fn class_of(&self, object: &Name) -> Option<&'a Class<A>>
        ensures { option_map (λ c. class_content c.now) result
            ≡ look.class_of (file_content self.now.file.now) object.now }
    {
        match self.object(object) {
            Some(found) => self.class(&found.class),
            None => None,
        }
    }

    /// Returns the action that an object's class declares.
    pub(crate) fn action_of(&self, action: &Name, object: &Name) -> Option<&'a Action<A>>
        ensures { option_map (λ a. action_content a.now) result
            ≡ look.action_of (file_content self.now.file.now) action.now object.now }
    {
        match self.object(object) {
            Some(found) => self.class_action(&found.class, action),
            None => None,
        }
    }

    /// Returns the objects that a name means: itself, or all that the set may come to have.
    pub fn objects_meant<'b>(&'b self, set: bool, name: &'b Name) -> &'b [Name]
        ensures { result.now ≡ look.objects_meant (file_content self.now.file.now) set name.now }
    {
        if set {
            self.may_have(name)
        } else {
            from_ref(name)
        }
    }

    // Whether an object has a state.
    fn object_has_state(&self, state: &Name, object: &Name) -> bool
        ensures { result ≡ faults.object_has_state (file_content self.now.file.now) state.now object.now }
    {
        match self.class_of(object) {
            Some(class) => has_state(class, state),
            None => false,
        }
    }

    /// Whether some object has a state.
    pub(crate) fn some_has_state(&self, state: &Name, objects: &[Name]) -> bool
        ensures { result ≡ list_any (faults.object_has_state (file_content self.now.file.now) state.now) objects.now }
    {
        for object in objects {
            if self.object_has_state(state, object) {
                return true;
            }
        }
        false
    }
}

/// Whether a test asks a set.
pub fn of_set(scope: Scope) -> bool
    ensures { result ≡ look.of_set scope }
{
    match scope {
        Scope::One => false,
        Scope::All | Scope::Any => true,
    }
}

/// Whether two names are the same.
pub fn is_name(name: &Name, other: &Name) -> bool
    ensures { result ≡ look.named name.now other.now }
{
    *name == *other
}

/// Whether a name is among others.
pub fn is_among(names: &[Name], name: &Name) -> bool
    ensures { result ≡ look.among names.now name.now }
{
    for other in names {
        if *name == *other {
            return true;
        }
    }
    false
}

/// Whether a class has a state, the added one included.
pub fn has_state<A: Allocator + Clone>(class: &Class<A>, state: &Name) -> bool
    ensures { result ≡ look.has_state_named (class_content class.now) state.now }
{
    declares_state(&class.states, state) || (!has_dead(&class.states) && *state == dead_name())
}

/// Whether a state of this name is among some.
pub fn declares_state<A: Allocator + Clone>(states: &[State<A>], state: &Name) -> bool
    ensures { result ≡ list_any (look.is_state_named state.now) (map state_content states.now) }
{
    for declared in states {
        if is_name(state, &declared.name) {
            return true;
        }
    }
    false
}

// Whether a state is marked as the dead one, or has this name.
fn is_dead<A: Allocator + Clone>(dead: &Name, state: &State<A>) -> bool
    ensures { result ≡ (state.now.dead || look.named dead.now state.now.name) }
{
    state.dead || *dead == state.name
}

// Whether some state is marked as the dead one, or has its name.
fn has_dead<A: Allocator + Clone>(states: &[State<A>]) -> bool
    ensures { result ≡ list_any look.is_dead (map state_content states.now) }
{
    let dead = dead_name();
    for state in states {
        if is_dead(&dead, state) {
            return true;
        }
    }
    false
}

// Returns the name of the state that is added.
fn dead_name() -> Name
    ensures { result ≡ look.dead_name }
{
    Name::from_word(b"DEAD")
}

/// Returns the first of some parameters of a class that has this name.
pub fn class_param_in<'b, A: Allocator + Clone>(
    params: &'b [ClassParam<A>],
    name: &Name,
) -> Option<&'b ClassParam<A>>
    ensures { option_map (λ p. class_param_content p.now) result ≡ find (look.is_class_param name.now)
        (map class_param_content params.now) }
{
    for param in params {
        if is_name(name, &param.name) {
            return Some(param);
        }
    }
    None
}

/// Returns the parameter of a class.
pub fn class_param<'b, A: Allocator + Clone>(
    class: &'b Class<A>,
    name: &Name,
) -> Option<&'b ClassParam<A>>
    ensures { option_map (λ p. class_param_content p.now) result
        ≡ look.class_param_named (class_content class.now) name.now }
{
    class_param_in(&class.params, name)
}

/// Returns the first of some parameters of an action that has this name.
pub fn action_param_in<'b, A: Allocator + Clone>(
    params: &'b [ActionParam<A>],
    name: &Name,
) -> Option<&'b ActionParam<A>>
    ensures { option_map (λ p. action_param_content p.now) result ≡ find (look.is_action_param name.now)
        (map action_param_content params.now) }
{
    for param in params {
        if is_name(name, &param.name) {
            return Some(param);
        }
    }
    None
}

/// Returns the parameter of an action.
pub fn action_param<'b, A: Allocator + Clone>(
    action: &'b Action<A>,
    name: &Name,
) -> Option<&'b ActionParam<A>>
    ensures { option_map (λ p. action_param_content p.now) result
        ≡ look.action_param_named (action_content action.now) name.now }
{
    action_param_in(&action.params, name)
}
