//! Long blocks: a task makes each move of them, in a time that grows with their count alone.

use crate::beginnings::task_of;
use crate::boards::envelope_by;
use crate::walk::{is_sent, is_told};
use smi_interp::{Contact, Task};
use sml_domain::{ActionId, ObjId, StateId, Value};
use sml_load::domain_of;
use std::alloc::Global;
use std::test::*;

const HEAD: &[u8] = b"class: K
  parameters: int N = 0
  state: S
    action: GO
";

const TAIL: &[u8] = b"object: X is_of_class K
objectset: E { }
";

// What a block is of: an instruction, how often the block has it, and how many moves it makes.
const ROWS: &[(&str, &[u8], usize, usize)] = &[
    ("sets", b"set N = 1 ", 10000, 1),
    (
        "`if`s over nobody",
        b"if ( all_in E in_state S ) then set N = 2 endif ",
        2000,
        2,
    ),
    ("requests to nobody", b"do GO all_in E ", 2000, 1),
];

// A text with an instruction `count` times.
fn text_of(alloc: Global, piece: &[u8], count: usize) -> Option<Vec<u8>> {
    let mut text = Vec::new(alloc);
    text.extend_from_slice(HEAD).ok()?;
    for _ in 0..count {
        text.extend_from_slice(piece).ok()?;
    }
    text.extend_from_slice(TAIL).ok()?;
    Some(text)
}

fn begun(alloc: Global, text: &[u8]) -> Option<Task> {
    let domain = domain_of(alloc, text).ok()?;
    let params = vec![in alloc; Value::Int(0)].ok()?;
    let envelope = envelope_by(alloc, 1, ActionId::new(0), &[])?;
    task_of(
        alloc,
        domain,
        ObjId::new(0),
        StateId::new(0),
        &params,
        envelope,
    )
}

// Makes a move that asks nobody. Whether the action continues.
fn moves_on(alloc: Global, task: &mut Task) -> bool {
    let Ok(contact) = task.advance() else {
        return false;
    };
    match &contact {
        Contact::Local { .. } => true,
        Contact::Send(_) => is_sent(alloc, task, &[], &[]),
        Contact::Read(_) => is_told(alloc, task, &[], &[]),
        _ => false,
    }
}

// Whether the task makes `most` moves that ask nobody, and no more.
fn makes(alloc: Global, task: &mut Task, most: usize) -> bool {
    for _ in 0..most {
        if !moves_on(alloc, task) {
            return false;
        }
    }
    task.turn().moves.len() == most && !moves_on(alloc, task)
}

// The task of a block with an instruction `count` times.
fn task_with(alloc: Global, piece: &[u8], count: usize) -> Option<Task> {
    let text = text_of(alloc, piece, count)?;
    begun(alloc, &text)
}

fn is_long(alloc: Global, piece: &[u8], count: usize, each: usize) -> bool {
    let Some(task) = task_with(alloc, piece, count) else {
        return false;
    };
    let mut task = task;
    let long = makes(alloc, &mut task, count.saturating_mul(each));
    // By a call, which is less to prove than on the spot.
    drop(task);
    long
}

#[test]
fn long_blocks_make_all_their_moves(rt: HostRuntime) {
    for (name, piece, count, each) in ROWS {
        assert!(rt; is_long(rt.alloc(), piece, *count, *each), "{name}");
    }
}
