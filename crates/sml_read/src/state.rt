//! States and their actions.
ghost use Rattle.std.specs.Prelude.{◌≤◌, ◌<◌, ◌+◌, ◌∷◌, map, OnOk};
ghost use Rattle.sml_tree.specs.Form.{Action as Action', State as State'};
ghost use Rattle.sml_tree.specs.Content.{action_content, state_content};
ghost use Rattle.sml_tree.specs.declared.token_kind.TokenKind.TheVariants as kinds;
ghost use Rattle.sml_read_parts.specs.Reads.{Reads, ReadsFront, SeesKind};
ghost use Rattle.sml_tree.specs.declared.limits.TheConstants.{MAX_ACTIONS, MAX_STATES};

use crate::block::block;
use sml_read_parts::{Reader, Stop, appended, empty_list};
use sml_tree::{Action, MAX_ACTIONS, MAX_STATES, State, TokenKind};
use std::alloc::Allocator;

/// Reads the action in front, of a state that has `before` actions before it.
fn action<A: Allocator + Clone>(
    reader: &mut Reader<'_>,
    alloc: &A,
    before: usize,
) -> Result<Action<A>, Stop>
    requires at_action { SeesKind kinds.Action reader.old }
    requires before { before ≤ MAX_ACTIONS }
    ensures next { ReadsFront (Action' before) (Action' (before + 1))
        (λ a v. action_content a ∷ v) reader.old reader.new result }
    ensures room { OnOk result (before < MAX_ACTIONS) }
{
    let name = reader.head(before, MAX_ACTIONS)?;
    let params = reader.action_params(alloc)?;
    let body = block(reader, alloc, 0)?;
    Ok(Action { name, params, body })
}

/// Reads the actions of a state.
fn actions<A: Allocator + Clone>(
    reader: &mut Reader<'_>,
    alloc: &A,
) -> Result<Vec<Action<A>, A>, Stop>
    ensures { Reads (Action' 0) (λ v. map action_content v.items) reader.old reader.new result }
{
    let mut actions = empty_list(alloc)?;
    'more: while reader.stands(TokenKind::Action) {
        let action = action(reader, alloc, actions.len());
        actions = appended(actions, action)?;
    }
    Ok(actions)
}

/// Reads the state in front, of a class that has `before` states before it.
fn state<A: Allocator + Clone>(
    reader: &mut Reader<'_>,
    alloc: &A,
    before: usize,
) -> Result<State<A>, Stop>
    requires at_state { SeesKind kinds.State reader.old }
    requires before { before ≤ MAX_STATES }
    ensures next { ReadsFront (State' before) (State' (before + 1))
        (λ s v. state_content s ∷ v) reader.old reader.new result }
    ensures room { OnOk result (before < MAX_STATES) }
{
    let name = reader.head(before, MAX_STATES)?;
    let marks = reader.marks()?;
    let actions = actions(reader, alloc)?;
    Ok(State {
        name,
        initial: marks.initial,
        dead: marks.dead,
        actions,
    })
}

/// Reads the states of a class.
pub fn states<A: Allocator + Clone>(
    reader: &mut Reader<'_>,
    alloc: &A,
) -> Result<Vec<State<A>, A>, Stop>
    ensures { Reads (State' 0) (λ v. map state_content v.items) reader.old reader.new result }
{
    let mut states = empty_list(alloc)?;
    'more: while reader.stands(TokenKind::State) {
        let state = state(reader, alloc, states.len());
        states = appended(states, state)?;
    }
    Ok(states)
}
