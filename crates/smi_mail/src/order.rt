//! The ends of sessions: whether all are there, and in the order of their numbers.
ghost use Rattle.std.specs.Prelude.{◌≡◌, ◌<◌, ◌≤◌, ◌↔◌, ℕ, IsTrue, Some, length, slice_get};
ghost use Rattle.smi_mail.specs.Mails.{OperatorSide};
ghost use Rattle.smi_mail.specs.Drains.{AreAllEnds, AreInOrder, HasEnd, HasSession, HasSessionFrom};

use crate::ruled_mail::{MailNames, OperatorEnd};

// Whether the end of a session is among these.
fn has_session<K: MailNames>(ends: &[OperatorEnd<K>], session: usize) -> bool
    ensures { IsTrue result ↔ HasSession session ends.now }
{
    for end in ends {
        if usize::from(end.session().get()) == session {
            return true;
        }
    }
    false
}

// Whether these are the ends of all `sessions` sessions, each once.
pub(crate) fn are_all<K: MailNames>(ends: &[OperatorEnd<K>], sessions: usize) -> bool
    ensures { IsTrue result ↔ AreAllEnds sessions ends.now }
{
    if ends.len() != sessions {
        return false;
    }
    for place in 0..sessions {
        if !has_session(ends, place + 1) {
            return false;
        }
    }
    true
}

// The place of the end of a session, at a place or behind it.
fn place_of<K: MailNames>(ends: &[OperatorEnd<K>], from: usize, session: usize) -> usize
    requires { HasSessionFrom from session ends.now }
    ensures within { (from ≤ result) × (result < length ends.now) }
    ensures session { (e : OperatorSide) → slice_get ends.now result ≡ Some e → e.session ≡ session }
{
    let mut place = from;
    'places: while usize::from(ends[place].session().get()) != session {
        place += 1;
    }
    place
}

// All ends in the order of their sessions. They change places, so no memory is taken; there are eight at most.
pub(crate) fn in_order<K: MailNames>(mut ends: Vec<OperatorEnd<K>>) -> Vec<OperatorEnd<K>>
    requires { AreAllEnds K.names.sessions ends.items }
    ensures count { length result.items ≡ K.names.sessions }
    ensures order { AreInOrder result.items }
    ensures kept { (i : ℕ) (e : OperatorSide) → slice_get ends.items i ≡ Some e → HasEnd e result.items }
{
    for place in 0..ends.len() {
        let found = place_of(&ends, place, place + 1);
        ends.swap(place, found);
    }
    ends
}
