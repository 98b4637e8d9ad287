//! The text of instructions.
ghost use Rattle.std.specs.Prelude.{◌≡◌, map};
ghost use Rattle.sml_text.specs.Written.{Told, StaysDue};
ghost use Rattle.sml_tree.specs.Content.{passed_content, arg_content, waited_content, cond_content, instr_content, block_content};
ghost use Rattle.sml_print.specs.Words.{deeper as deeper', comma_list};
ghost use Rattle.sml_print.specs.Blocks as text;

use crate::condition::tell_cond;
use crate::word::{tell_arg, tell_args, tell_comma, tell_indent, tell_name};
use sml_text::{Sink, tell};
use sml_tree::{Arg, Block, Instr, Name, Passed, Waited};
use std::alloc::Allocator;

// Returns a level further in.
fn deeper(level: u32) -> u32
    ensures { result ≡ deeper' level }
{
    level.saturating_add(1)
}

// Writes a `do`.
fn tell_send<S: Sink, A: Allocator + Clone>(
    sink: &mut S,
    failed: &mut bool,
    action: &Name,
    args: &Vec<Passed<A>, A>,
    all: bool,
    target: &Name,
)
    ensures told { Told (S.contents sink.old) failed.old (S.contents sink.new) failed.new
        (text.send_text (record {
          action = action.now;
          args = map passed_content args.now.items;
          all = all;
          target =
              target.now;
        })) }
    ensures due { StaysDue (S.has_refused sink.old) failed.old (S.has_refused sink.new) failed.new }
{
    tell(sink, failed, b"do ");
    tell_name(sink, failed, action);
    tell_args(sink, failed, args);
    tell(sink, failed, b" ");
    tell_every(sink, failed, all);
    tell_name(sink, failed, target);
    tell(sink, failed, b"\n");
}

// Writes `all_in` for a `do` to all of a set, or a `wait` for all of it.
fn tell_every<S: Sink>(sink: &mut S, failed: &mut bool, all: bool)
    ensures told { Told (S.contents sink.old) failed.old (S.contents sink.new) failed.new (text.every_text all) }
    ensures due { StaysDue (S.has_refused sink.old) failed.old (S.has_refused sink.new) failed.new }
{
    if all {
        tell(sink, failed, b"all_in ");
    }
}

// Writes a `set`.
fn tell_assignment<S: Sink, A: Allocator + Clone>(
    sink: &mut S,
    failed: &mut bool,
    param: &Name,
    value: &Arg<A>,
)
    ensures told { Told (S.contents sink.old) failed.old (S.contents sink.new) failed.new
        (text.assign_text param.now (arg_content value.now)) }
    ensures due { StaysDue (S.has_refused sink.old) failed.old (S.has_refused sink.new) failed.new }
{
    tell(sink, failed, b"set ");
    tell_name(sink, failed, param);
    tell(sink, failed, b" = ");
    tell_arg(sink, failed, value);
    tell(sink, failed, b"\n");
}

// Writes an instruction that names a state.
fn tell_towards<S: Sink>(sink: &mut S, failed: &mut bool, word: &[u8], state: &Name)
    ensures told { Told (S.contents sink.old) failed.old (S.contents sink.new) failed.new
        (text.towards_text word.now state.now) }
    ensures due { StaysDue (S.has_refused sink.old) failed.old (S.has_refused sink.new) failed.new }
{
    tell(sink, failed, word);
    tell_name(sink, failed, state);
    tell(sink, failed, b"\n");
}

// Writes what a `wait` waits for.
fn tell_waited<S: Sink>(sink: &mut S, failed: &mut bool, waited: &Waited)
    ensures told { Told (S.contents sink.old) failed.old (S.contents sink.new) failed.new
        (text.waited_text (waited_content waited.now)) }
    ensures due { StaysDue (S.has_refused sink.old) failed.old (S.has_refused sink.new) failed.new }
{
    tell_every(sink, failed, waited.all);
    tell_name(sink, failed, &waited.name);
}

// Writes all that a `wait` waits for, with commas between them.
fn tell_waited_list<S: Sink, A: Allocator + Clone>(
    sink: &mut S,
    failed: &mut bool,
    waited: &Vec<Waited, A>,
)
    ensures told { Told (S.contents sink.old) failed.old (S.contents sink.new) failed.new
        (comma_list text.waited_text (map waited_content waited.now.items)) }
    ensures due { StaysDue (S.has_refused sink.old) failed.old (S.has_refused sink.new) failed.new }
{
    for (i, one) in waited.iter().enumerate() {
        tell_comma(sink, failed, i);
        tell_waited(sink, failed, one);
    }
}

// Writes a `wait`.
fn tell_wait<S: Sink, A: Allocator + Clone>(
    sink: &mut S,
    failed: &mut bool,
    waited: &Vec<Waited, A>,
)
    ensures told { Told (S.contents sink.old) failed.old (S.contents sink.new) failed.new
        (text.wait_text (map waited_content waited.now.items)) }
    ensures due { StaysDue (S.has_refused sink.old) failed.old (S.has_refused sink.new) failed.new }
{
    tell(sink, failed, b"wait ( ");
    tell_waited_list(sink, failed, waited);
    tell(sink, failed, b" )\n");
}

// Writes an instruction that changes a set: its word, the object, the word between them, the set.
fn tell_change<S: Sink>(
    sink: &mut S,
    failed: &mut bool,
    word: &[u8],
    member: &Name,
    between: &[u8],
    set: &Name,
)
    ensures told { Told (S.contents sink.old) failed.old (S.contents sink.new) failed.new
        (text.change_text word.now member.now between.now set.now) }
    ensures due { StaysDue (S.has_refused sink.old) failed.old (S.has_refused sink.new) failed.new }
{
    tell(sink, failed, word);
    tell_name(sink, failed, member);
    tell(sink, failed, between);
    tell_name(sink, failed, set);
    tell(sink, failed, b"\n");
}

// Writes an instruction, `level` levels in.
#[cycle(blocks)]
fn tell_instr<S: Sink, A: Allocator + Clone>(
    sink: &mut S,
    failed: &mut bool,
    instr: &Instr<A>,
    level: u32,
)
    ensures told { Told (S.contents sink.old) failed.old (S.contents sink.new) failed.new
        (text.instr_text level (instr_content instr.now)) }
    ensures due { StaysDue (S.has_refused sink.old) failed.old (S.has_refused sink.new) failed.new }
{
    tell_indent(sink, failed, level);
    match instr {
        Instr::Do {
            action,
            args,
            all,
            target,
        } => tell_send(sink, failed, action, args, *all, target),
        Instr::If { cond, yes, no } => {
            tell(sink, failed, b"if ( ");
            tell_cond(sink, failed, cond);
            tell(sink, failed, b" ) then\n");
            tell_block(sink, failed, yes, deeper(level));
            tell_else(sink, failed, no, level);
            tell_indent(sink, failed, level);
            tell(sink, failed, b"endif\n");
        }
        Instr::Set { param, value } => tell_assignment(sink, failed, param, value),
        Instr::MoveTo(state) => tell_towards(sink, failed, b"move_to ", state),
        Instr::Terminate(state) => {
            tell_towards(sink, failed, b"terminate_action /state=", state)
        }
        Instr::Wait(waited) => tell_wait(sink, failed, waited),
        Instr::Insert { member, set } => {
            tell_change(sink, failed, b"insert ", member, b" in ", set)
        }
        Instr::Remove { member, set } => {
            tell_change(sink, failed, b"remove ", member, b" from ", set)
        }
    }
}

// Writes the second block of an `if`, if it has instructions.
#[cycle(blocks)]
fn tell_else<S: Sink, A: Allocator + Clone>(
    sink: &mut S,
    failed: &mut bool,
    block: &Block<A>,
    level: u32,
)
    ensures told { Told (S.contents sink.old) failed.old (S.contents sink.new) failed.new
        (text.else_text level (block_content block.now) (text.block_text (deeper' level) (block_content block.now))) }
    ensures due { StaysDue (S.has_refused sink.old) failed.old (S.has_refused sink.new) failed.new }
{
    if block.instrs.is_empty() {
        return;
    }
    tell_indent(sink, failed, level);
    tell(sink, failed, b"else\n");
    tell_block(sink, failed, block, deeper(level));
}

// Writes instructions, `level` levels in.
#[cycle(blocks)]
pub(crate) fn tell_block<S: Sink, A: Allocator + Clone>(
    sink: &mut S,
    failed: &mut bool,
    block: &Block<A>,
    level: u32,
)
    ensures told { Told (S.contents sink.old) failed.old (S.contents sink.new) failed.new
        (text.block_text level (block_content block.now)) }
    ensures due { StaysDue (S.has_refused sink.old) failed.old (S.has_refused sink.new) failed.new }
{
    for instr in &block.instrs {
        tell_instr(sink, failed, instr, level);
    }
}
