//! Actions of one name with different parameters.
ghost use Rattle.std.specs.Prelude.{◌≡◌, map, flat_map, option_map};
ghost use Rattle.sml_tree.specs.Content.{file_content, action_content, state_content, item_content, action_param_content, literal_content};
ghost use Rattle.sml_check_faults.specs.Lookup as look;
ghost use Rattle.sml_check_faults.specs.Heads as heads;
ghost use Rattle.sml_check_faults.specs.Tables.{file_class_at, differing_at};

use crate::tables::Tables;
use crate::value_kind::same_kind;
use sml_tree::{Action, ActionParam, Item, Literal, Name, State};
use std::alloc::Allocator;

// Whether two values are the same.
fn same_literal<A: Allocator + Clone>(value: &Literal<A>, other: &Literal<A>) -> bool
    ensures { result ≡ heads.same_literal (literal_content value.now) (literal_content other.now) }
{
    value.same(other)
}

// Whether two defaults are the same.
fn same_default<A: Allocator + Clone>(
    default: &Option<Literal<A>>,
    other: &Option<Literal<A>>,
) -> bool
    ensures { result ≡ heads.same_default (option_map literal_content default.now)
        (option_map literal_content other.now) }
{
    match default {
        Some(value) => match other {
            Some(other) => same_literal(value, other),
            None => false,
        },
        None => other.is_none(),
    }
}

// Whether two parameters are the same.
fn same_param<A: Allocator + Clone>(param: &ActionParam<A>, other: &ActionParam<A>) -> bool
    ensures { result ≡ heads.same_param (action_param_content param.now) (action_param_content other.now) }
{
    same_kind(param.kind, other.kind)
        && param.name == other.name
        && same_default(&param.default, &other.default)
}

// Whether two lists of parameters are the same.
fn same_params<A: Allocator + Clone>(params: &[ActionParam<A>], others: &[ActionParam<A>]) -> bool
    ensures { result ≡ heads.same_params (map action_param_content params.now) (map action_param_content others.now) }
{
    if params.len() != others.len() {
        return false;
    }
    for (i, param) in params.iter().enumerate() {
        if !same_param(param, &others[i]) {
            return false;
        }
    }
    true
}

impl<'a, A: Allocator + Clone> Tables<'a, A> {
    // Whether an action has another list than the first one of its name in its class.
    fn differs(&self, class: usize, action: &Action<A>) -> bool
        ensures { result ≡ heads.differs (look.action_in_class (file_class_at (file_content self.now.file.now) class)
            (action_content action.now).name) (action_content action.now) }
    {
        match self.action_at(class, &action.name) {
            Some(declared) => !same_params(&declared.params, &action.params),
            None => false,
        }
    }

    // Returns the first of some actions that differs from the first one of its name.
    fn other_action(&self, class: usize, actions: &[Action<A>]) -> Option<Name>
        ensures { result ≡ look.first_item (flat_map (heads.other_params
            (file_class_at (file_content self.now.file.now) class)) (map action_content actions.now)) }
    {
        for action in actions {
            if self.differs(class, action) {
                return Some(action.name);
            }
        }
        None
    }

    // Returns the first action of some states that differs from the first one of its name.
    fn other_in_states(&self, class: usize, states: &[State<A>]) -> Option<Name>
        ensures { result ≡ look.first_item (flat_map (heads.other_params
            (file_class_at (file_content self.now.file.now) class))
            (flat_map look.actions_of (map state_content states.now))) }
    {
        for state in states {
            if let Some(name) = self.other_action(class, &state.actions) {
                return Some(name);
            }
        }
        None
    }

    // Returns the first action of an item, which is at this place, that differs from the first one of its name.
    fn other_in_item(&self, place: usize, item: &Item<A>) -> Option<Name>
        ensures { result ≡ look.first_item (differing_at (file_class_at (file_content self.now.file.now) place)
            (item_content item.now)) }
    {
        match item {
            Item::Class(class) => self.other_in_states(place, &class.states),
            Item::Object(_) | Item::Group(_) => None,
        }
    }

    /// Returns the first action that has another list of parameters than the first one of its name in its class.
    pub fn differing(&self) -> Option<Name>
        ensures { result ≡ look.first_item (flat_map heads.differing (file_content self.now.file.now)) }
    {
        let file = self.file;
        for (i, item) in file.items.iter().enumerate() {
            if let Some(name) = self.other_in_item(i, item) {
                return Some(name);
            }
        }
        None
    }
}
