//! The names of a file, each sort numbered apart.
ghost use Rattle.std.specs.Prelude.{◌≡◌, map, flat_map, fold, IfOk, OnOk};
ghost use Rattle.std.specs.List.{list_any};
ghost use Rattle.sml_tree.specs.Content.{action_content, state_content, class_content, item_content};
ghost use Rattle.sml_check_faults.specs.Lookup as look;
ghost use Rattle.sml_check_faults.specs.Lookup.{actions_of};
ghost use Rattle.sml_domain.specs.Names.{distinct, distinct_more};
ghost use Rattle.sml_check_build.specs.Numbers as numbers;
ghost use Rattle.sml_check_faults.specs.Tables.{class_name, object_name, group_name};
ghost use Rattle.sml_check_build.specs.Numbers.{place, number};
ghost use Rattle.sml_check_build.specs.Placed.{NameHasNumber, NamesDiffer};

use crate::marks::{adds_dead, dead_name};
use sml_domain::{ActionId, ClassId, NumberedNames, ObjId, SetId, StateId};
use sml_tree::{Action, Class, Item, Name, State};
use std::alloc::{AllocError, Allocator, Global};
use std::marker::Model;

/// The names of a file that have numbers.
#[derive(Drop)]
pub struct Names {
    pub classes: NumberedNames,
    pub objects: NumberedNames,
    pub groups: NumberedNames,
    pub states: NumberedNames,
    pub actions: NumberedNames,
}

impl Model for Names {
    ghost use Rattle.sml_check_build.specs.Numbers as numbers;

    ghost Value = { numbers.Names };

    ghost view = { λ n. record {
      classes = n.classes;
      objects = n.objects;
      groups = n.groups;
      states = n.states;
      actions = n.actions;
    } };
}

// Numbers the names of states.
fn add_states<A: Allocator + Clone>(
    names: &mut NumberedNames,
    states: &Vec<State<A>, A>,
) -> Result<(), AllocError>
    ensures { OnOk result (names.new ≡ fold distinct_more names.old
        (map numbers.state_name (map state_content states.now.items))) }
{
    for state in states {
        names.add(state.name)?;
    }
    Ok(())
}

// Numbers the names of actions.
fn add_actions<A: Allocator + Clone>(
    names: &mut NumberedNames,
    actions: &Vec<Action<A>, A>,
) -> Result<(), AllocError>
    ensures { OnOk result (names.new ≡ fold distinct_more names.old
        (map numbers.action_name (map action_content actions.now.items))) }
{
    for action in actions {
        names.add(action.name)?;
    }
    Ok(())
}

// Numbers the names of the actions of states.
#[tactic(auto, using(crate::proofs::Foldings::foldings))]
fn add_actions_of<A: Allocator + Clone>(
    names: &mut NumberedNames,
    states: &Vec<State<A>, A>,
) -> Result<(), AllocError>
    ensures { OnOk result (names.new ≡ fold distinct_more names.old
        (map numbers.action_name (flat_map actions_of (map state_content states.now.items)))) }
{
    for state in states {
        add_actions(names, &state.actions)?;
    }
    Ok(())
}

// Numbers the names of the states of an item.
#[tactic(auto, using(crate::proofs::Foldings::foldings))]
fn add_item_states<A: Allocator + Clone>(
    names: &mut NumberedNames,
    item: &Item<A>,
) -> Result<(), AllocError>
    ensures { OnOk result (names.new ≡ fold distinct_more names.old
        (flat_map numbers.names_of_states (numbers.class_list (item_content item.now)))) }
{
    match item {
        Item::Class(class) => add_states(names, &class.states),
        Item::Object(_) | Item::Group(_) => Ok(()),
    }
}

// Numbers the names of the actions of an item.
#[tactic(auto, using(crate::proofs::Foldings::foldings))]
fn add_item_actions<A: Allocator + Clone>(
    names: &mut NumberedNames,
    item: &Item<A>,
) -> Result<(), AllocError>
    ensures { OnOk result (names.new ≡ fold distinct_more names.old
        (flat_map numbers.names_of_actions (numbers.class_list (item_content item.now)))) }
{
    match item {
        Item::Class(class) => add_actions_of(names, &class.states),
        Item::Object(_) | Item::Group(_) => Ok(()),
    }
}

// Returns the names of the states that the classes declare.
fn declared_states<A: Allocator + Clone>(
    alloc: Global,
    items: &[Item<A>],
) -> Result<NumberedNames, AllocError>
    ensures { IfOk result (λ n. n ≡ distinct (flat_map numbers.names_of_states
        (numbers.classes_in (map item_content items.now)))) }
{
    let mut names = NumberedNames::new(alloc);
    for item in items {
        add_item_states(&mut names, item)?;
    }
    Ok(names)
}

// Whether an item is a class to which the state `DEAD` is added.
fn item_adds_dead<A: Allocator + Clone>(item: &Item<A>) -> bool
    ensures { result ≡ list_any look.adds_dead (numbers.class_list (item_content item.now)) }
{
    match item {
        Item::Class(class) => adds_dead(class),
        Item::Object(_) => false,
        Item::Group(_) => false,
    }
}

// Whether the state `DEAD` is added to some class.
fn some_adds_dead<A: Allocator + Clone>(items: &[Item<A>]) -> bool
    ensures { result ≡ list_any look.adds_dead (numbers.classes_in (map item_content items.now)) }
{
    for item in items {
        let adds = item_adds_dead(item);
        if adds {
            return true;
        }
    }
    false
}

// Returns the names of the states of all classes, and last that of the added one.
#[tactic(auto, using(crate::proofs::Foldings::foldings))]
fn state_names<A: Allocator + Clone>(
    alloc: Global,
    items: &[Item<A>],
) -> Result<NumberedNames, AllocError>
    ensures { IfOk result (λ n. n ≡ numbers.state_names (numbers.classes_in (map item_content items.now))) }
{
    let mut names = declared_states(alloc, items)?;
    if some_adds_dead(items) {
        names.add(dead_name())?;
    }
    Ok(names)
}

// Returns the names of the actions of all classes.
fn action_names<A: Allocator + Clone>(
    alloc: Global,
    items: &[Item<A>],
) -> Result<NumberedNames, AllocError>
    ensures { IfOk result (λ n. n ≡ numbers.action_names (numbers.classes_in (map item_content items.now))) }
{
    let mut names = NumberedNames::new(alloc);
    for item in items {
        add_item_actions(&mut names, item)?;
    }
    Ok(names)
}

// Returns the names of the classes.
fn class_names<A: Allocator + Clone>(
    alloc: Global,
    items: &[Item<A>],
) -> Result<NumberedNames, AllocError>
    ensures { IfOk result (λ n. n ≡ distinct (map class_name (numbers.classes_in (map item_content items.now)))) }
{
    let mut names = NumberedNames::new(alloc);
    for item in items {
        match item {
            Item::Class(class) => names.add(class.name)?,
            Item::Object(_) => {}
            Item::Group(_) => {}
        }
    }
    Ok(names)
}

// Returns the names of the objects.
fn object_names<A: Allocator + Clone>(
    alloc: Global,
    items: &[Item<A>],
) -> Result<NumberedNames, AllocError>
    ensures { IfOk result (λ n. n ≡ distinct (map object_name
        (numbers.objects_in (map item_content items.now)))) }
{
    let mut names = NumberedNames::new(alloc);
    for item in items {
        match item {
            Item::Object(object) => names.add(object.name)?,
            Item::Class(_) => {}
            Item::Group(_) => {}
        }
    }
    Ok(names)
}

// Returns the names of the sets.
fn group_names<A: Allocator + Clone>(
    alloc: Global,
    items: &[Item<A>],
) -> Result<NumberedNames, AllocError>
    ensures { IfOk result (λ n. n ≡ distinct (map group_name (numbers.groups_in (map item_content items.now)))) }
{
    let mut names = NumberedNames::new(alloc);
    for item in items {
        match item {
            Item::Group(group) => names.add(group.name)?,
            Item::Class(_) => {}
            Item::Object(_) => {}
        }
    }
    Ok(names)
}

// The names of the items of a file.
#[derive(Drop)]
struct TopNames {
    classes: NumberedNames,
    objects: NumberedNames,
    groups: NumberedNames,
}

// Returns the names of the items of a file, each sort in the order of the text.
fn top_names<A: Allocator + Clone>(alloc: Global, items: &[Item<A>]) -> Result<TopNames, AllocError>
    requires { NamesDiffer (map item_content items.now) }
    ensures classes { IfOk result (λ n. n.classes ≡ map class_name
        (numbers.classes_in (map item_content items.now))) }
    ensures objects { IfOk result (λ n. n.objects ≡ map object_name
        (numbers.objects_in (map item_content items.now))) }
    ensures groups { IfOk result (λ n. n.groups ≡ map group_name
        (numbers.groups_in (map item_content items.now))) }
{
    let classes = class_names(alloc, items)?;
    let objects = object_names(alloc, items)?;
    let groups = group_names(alloc, items)?;
    Ok(TopNames {
        classes,
        objects,
        groups,
    })
}

impl Names {
    /// Numbers the names of a file, of which no two of one sort are the same. The cost is an insertion by hash for
    /// each.
    pub fn of<A: Allocator + Clone>(alloc: Global, items: &[Item<A>]) -> Result<Names, AllocError>
        requires { NamesDiffer (map item_content items.now) }
        ensures { IfOk result (λ n. n ≡ numbers.names_of (map item_content items.now)) }
    {
        let top = top_names(alloc, items)?;
        let states = state_names(alloc, items)?;
        let actions = action_names(alloc, items)?;
        Ok(Names {
            classes: top.classes,
            objects: top.objects,
            groups: top.groups,
            states,
            actions,
        })
    }

    /// Returns the number of a class.
    pub fn class(&self, name: &Name) -> ClassId
        requires { NameHasNumber self.now.classes name.now }
        ensures { result ≡ number self.now.classes name.now }
    {
        match self.classes.number_of(name) {
            Some(number) => ClassId::new(number),
            None => unreachable!(),
        }
    }

    /// Returns the number of an object.
    pub fn object(&self, name: &Name) -> ObjId
        requires { NameHasNumber self.now.objects name.now }
        ensures { result ≡ number self.now.objects name.now }
    {
        match self.objects.number_of(name) {
            Some(number) => ObjId::new(number),
            None => unreachable!(),
        }
    }

    /// Returns the number of a set.
    pub fn group(&self, name: &Name) -> SetId
        requires { NameHasNumber self.now.groups name.now }
        ensures { result ≡ number self.now.groups name.now }
    {
        match self.groups.number_of(name) {
            Some(number) => SetId::new(number),
            None => unreachable!(),
        }
    }

    /// Returns the number of a state.
    pub fn state(&self, name: &Name) -> StateId
        requires { NameHasNumber self.now.states name.now }
        ensures { result ≡ number self.now.states name.now }
    {
        match self.states.number_of(name) {
            Some(number) => StateId::new(number),
            None => unreachable!(),
        }
    }

    /// Returns the number of an action, or None if no class declares it.
    pub fn action(&self, name: &Name) -> Option<ActionId>
        ensures { result ≡ place self.now.actions name.now }
    {
        self.actions.number_of(name).map(ActionId::new)
    }
}
