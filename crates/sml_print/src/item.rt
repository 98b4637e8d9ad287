//! The text of files.
ghost use Rattle.std.specs.Prelude.{map, flat_map};
ghost use Rattle.sml_text.specs.Written.{Told, StaysDue};
ghost use Rattle.sml_tree.specs.Content.{class_param_content, action_content, state_content, class_content, object_content, group_content, item_content};
ghost use Rattle.sml_print.specs.Items as text;

use crate::block::tell_block;
use crate::word::{tell_action_params, tell_class_params, tell_members, tell_name};
use sml_text::{Sink, tell};
use sml_tree::{Action, Class, ClassParam, Group, Item, Object, State};
use std::alloc::Allocator;

// Writes a mark, if `stands`.
fn tell_mark<S: Sink>(sink: &mut S, failed: &mut bool, stands: bool, mark: &[u8])
    ensures told { Told (S.contents sink.old) failed.old (S.contents sink.new) failed.new
        (text.mark_text stands mark.now) }
    ensures due { StaysDue (S.has_refused sink.old) failed.old (S.has_refused sink.new) failed.new }
{
    if stands {
        tell(sink, failed, mark);
    }
}

// Writes an action.
fn tell_action<S: Sink, A: Allocator + Clone>(sink: &mut S, failed: &mut bool, action: &Action<A>)
    ensures told { Told (S.contents sink.old) failed.old (S.contents sink.new) failed.new
        (text.action_text (action_content action.now)) }
    ensures due { StaysDue (S.has_refused sink.old) failed.old (S.has_refused sink.new) failed.new }
{
    tell(sink, failed, b"    action: ");
    tell_name(sink, failed, &action.name);
    tell_action_params(sink, failed, &action.params);
    tell(sink, failed, b"\n");
    tell_block(sink, failed, &action.body, 3);
}

// Writes the actions of a state.
fn tell_actions<S: Sink, A: Allocator + Clone>(
    sink: &mut S,
    failed: &mut bool,
    actions: &Vec<Action<A>, A>,
)
    ensures told { Told (S.contents sink.old) failed.old (S.contents sink.new) failed.new
        (flat_map text.action_text (map action_content actions.now.items)) }
    ensures due { StaysDue (S.has_refused sink.old) failed.old (S.has_refused sink.new) failed.new }
{
    for action in actions {
        tell_action(sink, failed, action);
    }
}

// Writes a state.
fn tell_state<S: Sink, A: Allocator + Clone>(sink: &mut S, failed: &mut bool, state: &State<A>)
    ensures told { Told (S.contents sink.old) failed.old (S.contents sink.new) failed.new
        (text.state_text (state_content state.now)) }
    ensures due { StaysDue (S.has_refused sink.old) failed.old (S.has_refused sink.new) failed.new }
{
    tell(sink, failed, b"  state: ");
    tell_name(sink, failed, &state.name);
    tell_mark(sink, failed, state.initial, b" /initial_state");
    tell_mark(sink, failed, state.dead, b" /dead_state");
    tell(sink, failed, b"\n");
    tell_actions(sink, failed, &state.actions);
}

// Writes the states of a class.
fn tell_states<S: Sink, A: Allocator + Clone>(
    sink: &mut S,
    failed: &mut bool,
    states: &Vec<State<A>, A>,
)
    ensures told { Told (S.contents sink.old) failed.old (S.contents sink.new) failed.new
        (flat_map text.state_text (map state_content states.now.items)) }
    ensures due { StaysDue (S.has_refused sink.old) failed.old (S.has_refused sink.new) failed.new }
{
    for state in states {
        tell_state(sink, failed, state);
    }
}

// Writes the parameters of a class, if it has some.
fn tell_params<S: Sink, A: Allocator + Clone>(
    sink: &mut S,
    failed: &mut bool,
    params: &Vec<ClassParam<A>, A>,
)
    ensures told { Told (S.contents sink.old) failed.old (S.contents sink.new) failed.new
        (text.params_text (map class_param_content params.now.items)) }
    ensures due { StaysDue (S.has_refused sink.old) failed.old (S.has_refused sink.new) failed.new }
{
    if params.is_empty() {
        return;
    }
    tell(sink, failed, b"  parameters: ");
    tell_class_params(sink, failed, params);
    tell(sink, failed, b"\n");
}

// Writes a class.
fn tell_class<S: Sink, A: Allocator + Clone>(sink: &mut S, failed: &mut bool, class: &Class<A>)
    ensures told { Told (S.contents sink.old) failed.old (S.contents sink.new) failed.new
        (text.class_text (class_content class.now)) }
    ensures due { StaysDue (S.has_refused sink.old) failed.old (S.has_refused sink.new) failed.new }
{
    tell(sink, failed, b"class: ");
    tell_name(sink, failed, &class.name);
    tell_mark(sink, failed, class.associated, b" /associated");
    tell(sink, failed, b"\n");
    tell_params(sink, failed, &class.params);
    tell_states(sink, failed, &class.states);
}

// Writes an object.
fn tell_object<S: Sink>(sink: &mut S, failed: &mut bool, object: &Object)
    ensures told { Told (S.contents sink.old) failed.old (S.contents sink.new) failed.new
        (text.object_text (object_content object.now)) }
    ensures due { StaysDue (S.has_refused sink.old) failed.old (S.has_refused sink.new) failed.new }
{
    tell(sink, failed, b"object: ");
    tell_name(sink, failed, &object.name);
    tell(sink, failed, b" is_of_class ");
    tell_name(sink, failed, &object.class);
    tell(sink, failed, b"\n");
}

// Writes a set.
fn tell_group<S: Sink, A: Allocator + Clone>(sink: &mut S, failed: &mut bool, group: &Group<A>)
    ensures told { Told (S.contents sink.old) failed.old (S.contents sink.new) failed.new
        (text.group_text (group_content group.now)) }
    ensures due { StaysDue (S.has_refused sink.old) failed.old (S.has_refused sink.new) failed.new }
{
    tell(sink, failed, b"objectset: ");
    tell_name(sink, failed, &group.name);
    tell(sink, failed, b" ");
    tell_members(sink, failed, &group.members);
    tell(sink, failed, b"\n");
}

// Writes an item.
fn tell_item<S: Sink, A: Allocator + Clone>(sink: &mut S, failed: &mut bool, item: &Item<A>)
    ensures told { Told (S.contents sink.old) failed.old (S.contents sink.new) failed.new
        (text.item_text (item_content item.now)) }
    ensures due { StaysDue (S.has_refused sink.old) failed.old (S.has_refused sink.new) failed.new }
{
    match item {
        Item::Class(class) => tell_class(sink, failed, class),
        Item::Object(object) => tell_object(sink, failed, object),
        Item::Group(group) => tell_group(sink, failed, group),
    }
}

// Writes the items of a file.
pub(crate) fn tell_items<S: Sink, A: Allocator + Clone>(
    sink: &mut S,
    failed: &mut bool,
    items: &Vec<Item<A>, A>,
)
    ensures told { Told (S.contents sink.old) failed.old (S.contents sink.new) failed.new
        (text.file_text (map item_content items.now.items)) }
    ensures due { StaysDue (S.has_refused sink.old) failed.old (S.has_refused sink.new) failed.new }
{
    for item in items {
        tell_item(sink, failed, item);
    }
}
