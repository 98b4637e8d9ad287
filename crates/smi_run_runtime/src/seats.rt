//! Sessions that have left, each put into its place.
ghost use Rattle.std.specs.Prelude.{◌≡◌, ◌≤◌, ◌∷◌, [], IfOk, List, MatchOption, None, Some, false, length, true, vec_capacity, vec_len};
ghost use Rattle.smi_run_runtime.specs.Closing.{AreAllThere, AreSeats, AreSlots, IsMissing, IsRoomFor, closed_of};
ghost use Rattle.smi_run_runtime.specs.Sessions.{SessionBook};

use crate::session::{Closed, Session};
use smi_mail::{MailNames, OperatorEnd};
use smi_run_report::Accepted;
use std::alloc::{AllocError, Global};

// The first of those with a number.
pub(crate) fn closed_at<K: MailNames>(closed: &[Closed<K>], session: usize) -> Option<&Closed<K>>
    ensures { MatchOption result (closed_of closed.now session ≡ None)
        (λ one. closed_of closed.now session ≡ Some one.now) }
{
    for one in closed {
        if usize::from(one.session().get()) == session {
            return Some(one);
        }
    }
    None
}

// Whether a session is missing.
pub(crate) fn is_missing<K: MailNames>(closed: &[Closed<K>], sessions: usize) -> bool
    ensures missing { result ≡ true → IsMissing sessions closed.now }
    ensures all { result ≡ false → AreAllThere sessions closed.now }
{
    for k in 0..sessions {
        match closed_at(closed, k + 1) {
            Some(_) => {}
            None => return true,
        }
    }
    false
}

// A place for each session, with nothing in it.
pub(crate) fn new_slots<K: MailNames>(
    alloc: Global,
    sessions: usize,
) -> Result<Vec<Option<Closed<K>>>, AllocError>
    ensures { IfOk result (λ v. AreSlots sessions [] v.items) }
{
    let mut slots = Vec::with_capacity(alloc, sessions)?;
    for _k in 0..sessions {
        slots.push_reserved(None);
    }
    Ok(slots)
}

// Puts a session into its place.
fn place_one<K: MailNames>(slots: &mut Vec<Option<Closed<K>>>, one: Closed<K>, sessions: usize)
    ensures { (rest : List SessionBook) → AreSlots sessions rest slots.old.items →
        AreSlots sessions (one ∷ rest) slots.new.items }
{
    let place = one.session().get() as usize - 1;
    if place < slots.len() {
        slots[place] = Some(one);
    }
}

// Puts the first of each session into its place, for any order of the list.
fn place_all<K: MailNames>(
    mut closed: Vec<Closed<K>>,
    mut slots: Vec<Option<Closed<K>>>,
    sessions: usize,
) -> Vec<Option<Closed<K>>>
    requires { AreSlots sessions [] slots.items }
    ensures { AreSlots sessions closed.items result.items }
{
    while let Some(one) = closed.pop() {
        place_one(&mut slots, one, sessions);
    }
    slots
}

// The ends of the sessions, and what these were told is accepted, both in the order of the sessions.
pub(crate) fn split_all<K: MailNames>(
    closed: Vec<Closed<K>>,
    slots: Vec<Option<Closed<K>>>,
    mut ends: Vec<OperatorEnd<K>>,
    mut accepted: Vec<Vec<Vec<Accepted>>>,
    sessions: usize,
) -> (Vec<OperatorEnd<K>>, Vec<Vec<Vec<Accepted>>>)
    requires slots { AreSlots sessions [] slots.items }
    requires all { AreAllThere sessions closed.items }
    requires room { IsRoomFor sessions ends × IsRoomFor sessions accepted }
    ensures { AreSeats sessions closed.items result.0.items result.1.items }
{
    let slots = place_all(closed, slots, sessions);
    for slot in slots {
        let Some(one) = slot else {
            unreachable!();
        };
        let Closed { session } = one;
        let Session {
            end,
            accepted: rows,
            receipts: _,
        } = session;
        ends.push_reserved(end);
        accepted.push_reserved(rows);
    }
    (ends, accepted)
}
