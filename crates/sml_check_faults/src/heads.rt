//! Faults of classes, actions, objects and sets outside of blocks.
ghost use Rattle.std.specs.Prelude.{◌≡◌, false, Some, map, flat_map, option_map};
ghost use Rattle.sml_tree.specs.Content.{file_content, block_content, class_content, action_content, state_content, object_content, class_param_content, action_param_content, literal_content};
ghost use Rattle.sml_check_faults.specs.Lookup as look;
ghost use Rattle.sml_check_faults.specs.Faults as faults;
ghost use Rattle.sml_check_faults.specs.Heads as heads;
ghost use Rattle.sml_check_faults.specs.Kinds as kinds;

use crate::kind::CheckKind;
use crate::tables::Tables;
use crate::value_kind::{kind_of, same_kind};
use sml_tree::{Action, ActionParam, Block, Class, ClassParam, Literal, Name, Object, State};
use std::alloc::Allocator;

// Whether a state has the mark of the dead one, or that of the initial one.
fn has_mark<A: Allocator + Clone>(dead: bool, state: &State<A>) -> bool
    ensures { result ≡ heads.has_mark dead (state_content state.now) }
{
    if dead { state.dead } else { state.initial }
}

// Whether two states have such a mark.
fn two_marked<A: Allocator + Clone>(dead: bool, states: &[State<A>]) -> bool
    ensures { result ≡ heads.has_two (heads.has_mark dead) (map state_content states.now) }
{
    let mut seen = false;
    for state in states {
        if has_mark(dead, state) {
            if seen {
                return true;
            }
            seen = true;
        }
    }
    false
}

// Whether two states are marked as initial.
fn two_initial<A: Allocator + Clone>(states: &[State<A>]) -> bool
    ensures { result ≡ heads.has_two heads.is_initial (map state_content states.now) }
{
    two_marked(false, states)
}

// Whether two states are marked as dead.
fn two_dead<A: Allocator + Clone>(states: &[State<A>]) -> bool
    ensures { result ≡ heads.has_two heads.is_marked_dead (map state_content states.now) }
{
    two_marked(true, states)
}

// Returns the first parameter of a class whose default is of another kind.
fn class_param_mismatch<A: Allocator + Clone>(params: &[ClassParam<A>]) -> Option<Name>
    ensures { result ≡ look.first_item (flat_map heads.class_param_mismatch (map class_param_content params.now)) }
{
    for param in params {
        if !same_kind(param.kind, kind_of(&param.value)) {
            return Some(param.name);
        }
    }
    None
}

/// The fault of a kind at a class, before those in its actions.
pub fn class_head<A: Allocator + Clone>(kind: CheckKind, class: &Class<A>) -> Option<Name>
    ensures { result ≡ look.first_item (kinds.class_head kind (class_content class.now)) }
{
    let so = match kind {
        CheckKind::NoState => class.states.is_empty(),
        CheckKind::TwoInitial => two_initial(&class.states),
        CheckKind::TwoDead => two_dead(&class.states),
        CheckKind::KindMismatch => return class_param_mismatch(&class.params),
        CheckKind::Duplicate
        | CheckKind::UnknownClass
        | CheckKind::UnknownObject
        | CheckKind::UnknownSet
        | CheckKind::UnknownState
        | CheckKind::UnknownAction
        | CheckKind::UnknownParam
        | CheckKind::MissingArg
        | CheckKind::ParamsDiffer
        | CheckKind::SelfInCondition
        | CheckKind::AssociatedBody
        | CheckKind::Memory => false,
    };
    if so { Some(class.name) } else { None }
}

// Whether a default is of another kind than its parameter.
fn is_default_mismatched<A: Allocator + Clone>(param: &ActionParam<A>) -> bool
    ensures { result ≡ faults.kinds_differ (Some param.now.kind)
        (option_map faults.literal_kind (action_param_content param.now).default) }
{
    match &param.default {
        Some(value) => !same_kind(param.kind, kind_of(value)),
        None => false,
    }
}

// Returns the first parameter of an action whose default is of another kind.
fn action_param_mismatch<A: Allocator + Clone>(params: &[ActionParam<A>]) -> Option<Name>
    ensures { result ≡ look.first_item (flat_map heads.action_param_mismatch (map action_param_content params.now)) }
{
    for param in params {
        if is_default_mismatched(param) {
            return Some(param.name);
        }
    }
    None
}

// Whether there are instructions.
fn has_body<A: Allocator + Clone>(block: &Block<A>) -> bool
    ensures { result ≡ heads.has_body (block_content block.now) }
{
    block.instrs.len() > 0
}

// Returns an action with instructions in an associated class.
fn associated_body<A: Allocator + Clone>(class: &Class<A>, action: &Action<A>) -> Option<Name>
    ensures { result ≡ look.first_item (heads.associated_body (class_content class.now) (action_content action.now)) }
{
    if class.associated && has_body(&action.body) {
        Some(action.name)
    } else {
        None
    }
}

/// The fault of a kind at an action, before those in its block.
pub fn action_head<A: Allocator + Clone>(
    kind: CheckKind,
    class: &Class<A>,
    action: &Action<A>,
) -> Option<Name>
    ensures { result ≡ look.first_item (kinds.action_head kind (class_content class.now) (action_content action.now)) }
{
    match kind {
        CheckKind::KindMismatch => action_param_mismatch(&action.params),
        CheckKind::AssociatedBody => associated_body(class, action),
        CheckKind::Duplicate
        | CheckKind::NoState
        | CheckKind::TwoInitial
        | CheckKind::TwoDead
        | CheckKind::UnknownClass
        | CheckKind::UnknownObject
        | CheckKind::UnknownSet
        | CheckKind::UnknownState
        | CheckKind::UnknownAction
        | CheckKind::UnknownParam
        | CheckKind::MissingArg
        | CheckKind::ParamsDiffer
        | CheckKind::SelfInCondition
        | CheckKind::Memory => None,
    }
}

impl<'a, A: Allocator + Clone> Tables<'a, A> {
    /// Returns the class of an object, if it is not a declared class.
    pub(crate) fn unknown_class(&self, object: &Object) -> Option<Name>
        ensures { result ≡ look.first_item (heads.unknown_class (file_content self.now.file.now)
            (object_content object.now)) }
    {
        if self.class(&object.class).is_none() {
            Some(object.class)
        } else {
            None
        }
    }

    /// Returns the first of some members that is not an object.
    pub(crate) fn unknown_member(&self, members: &[Name]) -> Option<Name>
        ensures { result ≡ look.first_item (flat_map (faults.unknown_object
            (file_content self.now.file.now) false) members.now) }
    {
        for member in members {
            if self.object(member).is_none() {
                return Some(*member);
            }
        }
        None
    }
}
