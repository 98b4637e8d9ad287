//! The actions of classes by their names.
ghost use Rattle.std.specs.Prelude.{◌≡◌, ℕ, List, OnOk, IfOk, option_map, nat_eq, map, flat_map};
ghost use Rattle.std.specs.List.{find};
ghost use Rattle.std.specs.Cmp.Lexicographic.{pointwise};
ghost use Rattle.indexmap.specs.IndexMap.{get};
ghost use Rattle.sml_tree.specs.Content.{file_content, item_content, state_content, action_content};
ghost use Rattle.sml_check_faults.specs.Lookup as look;
ghost use Rattle.sml_check_faults.specs.Tables.{HasActions, HasActionsOf, ActionTables, first_or_else, place_of, in_state, action_there, file_class_at};

use crate::tables::{Tables, note};
use indexmap::IndexMap;
use sml_tree::{Action, Class, Item, Name, State};
use std::alloc::{AllocError, Allocator, Global};

/// Where an action is declared: the place of its state in the class, and its own in the state.
#[derive(Clone, Copy)]
pub struct ActionPlace {
    state: usize,
    action: usize,
}

// Notes the places of a state's actions by their names, unless a name has one.
fn note_actions<A: Allocator + Clone>(
    table: &mut IndexMap<Name, ActionPlace>,
    state: usize,
    actions: &[Action<A>],
) -> Result<(), AllocError>
    ensures noted { OnOk result ((q : List ℕ) → get (pointwise nat_eq) table.new q
        ≡ first_or_else (get (pointwise nat_eq) table.old q)
        (option_map (in_state state) (place_of (look.is_action_named q) (map action_content actions.now)))) }
{
    for (i, action) in actions.iter().enumerate() {
        note(table, action.name, ActionPlace { state, action: i })?;
    }
    Ok(())
}

// Returns the places of the actions of some states.
fn states_table<A: Allocator + Clone>(
    alloc: Global,
    states: &[State<A>],
) -> Result<IndexMap<Name, ActionPlace>, AllocError>
    ensures { IfOk result (λ m. HasActions (map state_content states.now) m) }
{
    let mut table = IndexMap::new(alloc);
    for (i, state) in states.iter().enumerate() {
        note_actions(&mut table, i, &state.actions)?;
    }
    Ok(table)
}

// Returns the places of the actions of an item; empty if it is not a class.
fn item_table<A: Allocator + Clone>(
    alloc: Global,
    item: &Item<A>,
) -> Result<IndexMap<Name, ActionPlace>, AllocError>
    ensures { IfOk result (λ m. HasActionsOf (item_content item.now) m) }
{
    match item {
        Item::Class(class) => states_table(alloc, &class.states),
        Item::Object(_) | Item::Group(_) => Ok(IndexMap::new(alloc)),
    }
}

/// Returns the places of the actions of each item.
pub fn item_tables<A: Allocator + Clone>(
    alloc: Global,
    items: &[Item<A>],
) -> Result<Vec<IndexMap<Name, ActionPlace>>, AllocError>
    ensures { IfOk result (λ v. ActionTables (map item_content items.now) v.items) }
{
    let mut tables = Vec::new(alloc);
    for item in items {
        tables.push(item_table(alloc, item)?)?;
    }
    Ok(tables)
}

// Returns the action at a place of some states.
fn action_in<'b, A: Allocator + Clone>(
    states: &'b [State<A>],
    place: ActionPlace,
) -> Option<&'b Action<A>>
    ensures { option_map (λ a. action_content a.now) result ≡ action_there (map state_content states.now) place }
{
    match states.get(place.state) {
        Some(state) => state.actions.get(place.action),
        None => None,
    }
}

// Returns the action of a name in some states, by their table.
fn action_by<'b, A: Allocator + Clone>(
    table: &IndexMap<Name, ActionPlace>,
    states: &'b [State<A>],
    name: &Name,
) -> Option<&'b Action<A>>
    requires { HasActions (map state_content states.now) table.now }
    ensures { option_map (λ a. action_content a.now) result ≡ find (look.is_action_named name.now)
        (flat_map look.actions_of (map state_content states.now)) }
{
    match table.get(name) {
        Some(place) => action_in(states, *place),
        None => None,
    }
}

impl<'a, A: Allocator + Clone> Tables<'a, A> {
    /// Returns the action of the class at a place among the items, as the first state that declares it does.
    pub(crate) fn action_at(&self, place: usize, name: &Name) -> Option<&'a Action<A>>
        ensures { option_map (λ a. action_content a.now) result
            ≡ look.action_in_class (file_class_at (file_content self.now.file.now) place) name.now }
    {
        let class: &'a Class<A> = match self.class_at(place) {
            Some(class) => class,
            None => return None,
        };
        match self.actions.get(place) {
            Some(table) => action_by(table, &class.states, name),
            None => None,
        }
    }
}
