//! The classes of a domain, whose actions' blocks are laid out as they come.
ghost use Rattle.std.specs.Prelude.{◌≡◌, ◌++◌, All, IfOk, OnOk, length, map};
ghost use Rattle.sml_tree.specs.Content.{action_content, state_content, class_content, item_content};
ghost use Rattle.sml_check_build.specs.Numbers.{class_list, classes_in};
ghost use Rattle.sml_check_build.specs.Placed.{ActionPlaced, StatePlaced, ClassPlaced, ItemPlaced, FilePlaced};
ghost use Rattle.sml_check_build.specs.Layout as laid;

use crate::blocks::Blocks;
use crate::layout::Scope;
use crate::marks::{adds_dead, dead_name, initial_name, last_name};
use crate::names::Names;
use crate::params::class_params;
use crate::signatures::signatures;
use sml_domain::{Action, Class, State, Table};
use sml_tree::Item;
use std::alloc::{AllocError, Allocator, Global};

// Returns an action of a state.
fn action_row<A: Allocator + Clone>(
    alloc: Global,
    blocks: &mut Blocks,
    names: &Names,
    class: &sml_tree::Class<A>,
    action: &sml_tree::Action<A>,
) -> Result<Action, AllocError>
    requires { ActionPlaced names.now (class_content class.now) (action_content action.now) }
    ensures is { IfOk result (λ x. x ≡ laid.action_laid names.now (class_content class.now) (length blocks.old)
        (action_content action.now)) }
    ensures blocks { OnOk result (blocks.new ≡ blocks.old ++ laid.action_blocks names.now (class_content class.now)
        (length blocks.old) (action_content action.now)) }
{
    let Some(number) = names.action(&action.name) else {
        unreachable!();
    };
    let scope = Scope {
        names,
        class,
        action,
    };
    let block = scope.block(alloc, blocks, &action.body)?;
    Ok(Action { number, block })
}

// Returns the actions of a state.
fn action_rows<A: Allocator + Clone>(
    alloc: Global,
    blocks: &mut Blocks,
    names: &Names,
    class: &sml_tree::Class<A>,
    actions: &Vec<sml_tree::Action<A>, A>,
) -> Result<Vec<Action>, AllocError>
    requires { All (ActionPlaced names.now (class_content class.now)) (map action_content actions.now.items) }
    ensures is { IfOk result (λ v. v.items ≡ laid.rows_from
        (laid.action_laid names.now (class_content class.now)) laid.blocks_of_action (length blocks.old)
        (map action_content actions.now.items)) }
    ensures blocks { OnOk result (blocks.new ≡ blocks.old
        ++ laid.blocks_from (laid.action_blocks names.now (class_content class.now)) laid.blocks_of_action
        (length blocks.old) (map action_content actions.now.items)) }
{
    let mut made = Vec::new(alloc);
    for action in actions {
        made.push(action_row(alloc, blocks, names, class, action)?)?;
    }
    Ok(made)
}

// Returns a state of a class.
fn state_row<A: Allocator + Clone>(
    alloc: Global,
    blocks: &mut Blocks,
    names: &Names,
    class: &sml_tree::Class<A>,
    state: &sml_tree::State<A>,
) -> Result<State, AllocError>
    requires { StatePlaced names.now (class_content class.now) (state_content state.now) }
    ensures is { IfOk result (λ x. x ≡ laid.state_laid names.now (class_content class.now) (length blocks.old)
        (state_content state.now)) }
    ensures blocks { OnOk result (blocks.new ≡ blocks.old ++ laid.state_blocks names.now (class_content class.now)
        (length blocks.old) (state_content state.now)) }
{
    let number = names.state(&state.name);
    let actions = action_rows(alloc, blocks, names, class, &state.actions)?;
    Ok(State {
        number,
        actions: Table::new(alloc, actions)?,
    })
}

// Returns the states that a class declares.
fn state_rows<A: Allocator + Clone>(
    alloc: Global,
    blocks: &mut Blocks,
    names: &Names,
    class: &sml_tree::Class<A>,
) -> Result<Vec<State>, AllocError>
    requires { All (StatePlaced names.now (class_content class.now)) (map state_content class.now.states.items) }
    ensures is { IfOk result (λ v. v.items ≡ laid.rows_from
        (laid.state_laid names.now (class_content class.now)) laid.blocks_of_state (length blocks.old)
        (map state_content class.now.states.items)) }
    ensures blocks { OnOk result (blocks.new ≡ blocks.old ++ laid.class_blocks names.now (length blocks.old)
        (class_content class.now)) }
{
    let mut made = Vec::new(alloc);
    for state in &class.states {
        made.push(state_row(alloc, blocks, names, class, state)?)?;
    }
    Ok(made)
}

// Returns the states of a class, with the one that is added.
fn all_states<A: Allocator + Clone>(
    alloc: Global,
    blocks: &mut Blocks,
    names: &Names,
    class: &sml_tree::Class<A>,
) -> Result<Vec<State>, AllocError>
    requires { ClassPlaced names.now (class_content class.now) }
    ensures is { IfOk result (λ v. v.items ≡ laid.rows_from
        (laid.state_laid names.now (class_content class.now)) laid.blocks_of_state (length blocks.old)
        (map state_content class.now.states.items) ++ laid.added_laid names.now (class_content class.now)) }
    ensures blocks { OnOk result (blocks.new ≡ blocks.old ++ laid.class_blocks names.now (length blocks.old)
        (class_content class.now)) }
{
    let mut made = state_rows(alloc, blocks, names, class)?;
    if adds_dead(class) {
        let number = names.state(&dead_name());
        made.push(State {
            number,
            actions: Table::new(alloc, Vec::new(alloc))?,
        })?;
    }
    Ok(made)
}

// Returns a class.
fn class_row<A: Allocator + Clone>(
    alloc: Global,
    blocks: &mut Blocks,
    names: &Names,
    class: &sml_tree::Class<A>,
) -> Result<Class, AllocError>
    requires { ClassPlaced names.now (class_content class.now) }
    ensures is { IfOk result (λ x. x ≡ laid.class_laid names.now (length blocks.old) (class_content class.now)) }
    ensures blocks { OnOk result (blocks.new ≡ blocks.old ++ laid.class_blocks names.now (length blocks.old)
        (class_content class.now)) }
{
    let Some(first) = initial_name(class) else {
        unreachable!();
    };
    let initial = names.state(&first);
    let dead = names.state(&last_name(class));
    let params = class_params(alloc, &class.params)?;
    let signatures = signatures(alloc, names, class)?;
    let states = all_states(alloc, blocks, names, class)?;
    Ok(Class {
        name: class.name,
        associated: class.associated,
        params,
        states: Table::new(alloc, states)?,
        initial,
        dead,
        signatures: Table::new(alloc, signatures)?,
    })
}

// Adds an item, if it is a class.
fn add_class<A: Allocator + Clone>(
    alloc: Global,
    blocks: &mut Blocks,
    made: &mut Vec<Class>,
    names: &Names,
    item: &Item<A>,
) -> Result<(), AllocError>
    requires { ItemPlaced names.now (item_content item.now) }
    ensures is { OnOk result (made.new.items ≡ made.old.items
        ++ laid.rows_from (laid.class_laid names.now) laid.blocks_of_class (length blocks.old)
        (class_list (item_content item.now))) }
    ensures blocks { OnOk result (blocks.new ≡ blocks.old
        ++ laid.blocks_from (laid.class_blocks names.now) laid.blocks_of_class (length blocks.old)
        (class_list (item_content item.now))) }
{
    if let Item::Class(class) = item {
        made.push(class_row(alloc, blocks, names, class)?)?;
    }
    Ok(())
}

/// Returns the classes, whose blocks are put behind the others.
pub fn class_rows<A: Allocator + Clone>(
    alloc: Global,
    blocks: &mut Blocks,
    names: &Names,
    items: &[Item<A>],
) -> Result<Vec<Class>, AllocError>
    requires { FilePlaced names.now (map item_content items.now) }
    ensures is { IfOk result (λ v. v.items ≡ laid.rows_from (laid.class_laid names.now) laid.blocks_of_class
        (length blocks.old) (classes_in (map item_content items.now))) }
    ensures blocks { OnOk result (blocks.new ≡ blocks.old
        ++ laid.blocks_from (laid.class_blocks names.now) laid.blocks_of_class (length blocks.old)
        (classes_in (map item_content items.now))) }
{
    let mut made = Vec::new(alloc);
    for item in items {
        add_class(alloc, blocks, &mut made, names, item)?;
    }
    Ok(made)
}
