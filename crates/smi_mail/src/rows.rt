//! Ends of all mailboxes, side by side.
ghost use Rattle.std.specs.Prelude.{◌≡◌, ◌<◌, ◌≤◌, ℕ, List, [], IfOk, length, map, slice_get, Some, vec_len, vec_capacity};
ghost use Rattle.std.specs.List.{All};
ghost use Rattle.smi_mail.specs.Sides.{BoardSide, SessionSide};
ghost use Rattle.smi_mail.specs.Rule.{IsWhole};
ghost use Rattle.smi_mail.specs.Drains.{IsRoom, IsDrainOf};
ghost use Rattle.smi_mail.specs.Rows.{session_side_of, more_side, joined_side, MayJoin};

use crate::ends::{BoardEnd, DrainedEnd, SessionEnd};
use smi_journal_entries::Envelope;
use std::alloc::{AllocError, Global};
use std::sync::Wait;

// The ends of one more session.
pub(crate) fn new_session(
    alloc: Global,
    board: &mut Vec<BoardEnd>,
) -> Result<Vec<SessionEnd>, AllocError>
    ensures ends { IfOk result (λ v. v.items ≡ map session_side_of board.old.items) }
    ensures board { IfOk result (λ v. board.new.items ≡ map more_side board.old.items) }
{
    let count = board.len();
    let mut ends = Vec::with_capacity(alloc, count)?;
    for i in 0..count {
        let end = board[i].session()?;
        ends.push_reserved(end);
    }
    Ok(ends)
}

// The board takes in what a session sent to each object.
pub(crate) fn join_session(board: &mut Vec<BoardEnd>, ends: Vec<SessionEnd>)
    requires long { length ends.items ≡ length board.old.items }
    requires each { (o : ℕ) (b : BoardSide) (e : SessionSide) → slice_get board.old.items o ≡ Some b →
        slice_get ends.items o ≡ Some e → MayJoin b e }
    ensures long { length board.new.items ≡ length board.old.items }
    ensures each { (o : ℕ) (b : BoardSide) (e : SessionSide) → slice_get board.old.items o ≡ Some b →
        slice_get ends.items o ≡ Some e → slice_get board.new.items o ≡ Some (joined_side b e) }
{
    let mut place = 0;
    for end in ends {
        board[place].absorb(end);
        place += 1;
    }
}

// Room for what is left in each mailbox.
pub(crate) fn make_rooms(
    alloc: Global,
    count: usize,
    capacity: usize,
) -> Result<Vec<Vec<Envelope>>, AllocError>
    ensures { IfOk result (λ v. (length v.items ≡ count) × All (IsRoom capacity) v.items) }
{
    let mut rooms = Vec::with_capacity(alloc, count)?;
    for _i in 0..count {
        let room = Vec::with_capacity(alloc, capacity)?;
        rooms.push_reserved(room);
    }
    Ok(rooms)
}

// Takes what is left in each mailbox.
pub(crate) fn drain_all<R: Wait>(
    rt: &R,
    board: Vec<BoardEnd>,
    mut rooms: Vec<Vec<Envelope>>,
    mut drained: Vec<DrainedEnd>,
) -> Vec<DrainedEnd>
    requires whole { All (λ (b : BoardSide). IsWhole b.seen) board.items }
    requires rooms { (length rooms.items ≡ length board.items)
        × ((n : ℕ) × All (λ (b : BoardSide). b.seen.capacity ≡ n) board.items × All (IsRoom n) rooms.items) }
    requires drained { (drained.items ≡ []) × (length board.items ≤ vec_capacity drained) }
    ensures long { length result.items ≡ length board.items }
    ensures each { (o : ℕ) (b d : BoardSide) → slice_get board.items o ≡ Some b →
        slice_get result.items o ≡ Some d → IsDrainOf b d }
{
    for end in board {
        let room = rooms.pop().unwrap();
        drained.push_reserved(end.drain(rt, room));
    }
    drained
}
