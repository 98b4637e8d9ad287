//! How mailboxes are closed: all ends are taken in, and what every mailbox still holds.
ghost use Rattle.std.specs.Prelude.{◌≡◌, ◌<◌, ◌↔◌, ℕ, IfErr, IfOk, IsTrue, length, slice_get, Some};
ghost use Rattle.smi_mail.specs.Sides.{BoardSide};
ghost use Rattle.smi_mail.specs.Mails.{OperatorSide, AreBoards};
ghost use Rattle.smi_mail.specs.Drains.{with_known, AreAllEnds, AreInOrder, IsFinal, final_at};

use crate::ends::{BoardEnd, DrainedEnd};
use crate::order::{are_all, in_order};
use crate::rows::{drain_all, join_session, make_rooms};
use crate::ruled_mail::{MailNames, OperatorEnd, RuledMail};
use smi_journal_entries::Envelope;
use sml_domain::ObjId;
use std::alloc::{AllocError, Global};
use std::marker::{Model, PhantomData};
use std::sync::Wait;

/// What the mailboxes of a domain held when they were closed. Contracts also see what was taken of each, and what
/// each sender sent to it. Only `close` and `close_into` make one.
#[derive(Drop)]
pub struct Drained<K: MailNames> {
    ends: Vec<DrainedEnd>,
    of: PhantomData<K>,
}

impl<K: MailNames> Model for Drained<K> {
    ghost use Rattle.std.specs.Prelude.{◌≡◌, List, length, map};
    ghost use Rattle.smi_mail.specs.Drains.{Final, final_of};

    ghost Value = { List Final };

    ghost view = { λ d. map final_of d.ends.items };

    ghost invariant = { λ d. length d.ends.items ≡ length K.names.domain.objects };
}

impl<K: MailNames> Drained<K> {
    /// What is left at an object, in the order in which it was sent there.
    pub fn left(&self, o: ObjId) -> &[Envelope]
        requires { o < length K.names.domain.objects }
        ensures { result.now ≡ (final_at self.now o).left }
    {
        self.ends[o.get()].left()
    }
}

// The board takes in what every session sent.
fn join_sessions<K: MailNames>(board: &mut Vec<BoardEnd>, ends: Vec<OperatorEnd<K>>)
    requires board { AreBoards K.names.domain K.names.capacity K.names.sessions K.names.mailboxes board.old.items }
    requires order { AreInOrder ends.items }
    ensures long { length board.new.items ≡ length board.old.items }
    ensures each { (o : ℕ) (b : BoardSide) → slice_get board.old.items o ≡ Some b →
        slice_get board.new.items o ≡ Some (with_known ends.items o b) }
{
    for end in ends {
        let OperatorEnd {
            session: _,
            ends: row,
            of: _,
        } = end;
        join_session(board, row);
    }
}

/// Room for what is left in each mailbox of a domain. With it mailboxes are closed without memory.
#[derive(Drop)]
pub struct DrainRoom<K: MailNames> {
    rooms: Vec<Vec<Envelope>>,
    drained: Vec<DrainedEnd>,
    of: PhantomData<K>,
}

impl<K: MailNames> Model for DrainRoom<K> {
    ghost use Rattle.std.specs.Prelude.{◌≡◌, [], ℕ, length, vec_capacity, ◌≤◌};
    ghost use Rattle.std.specs.List.{All};
    ghost use Rattle.smi_mail.specs.Drains.{IsRoom};

    ghost Value = { ℕ };

    ghost view = { λ r. length r.rooms.items };

    ghost invariant = { λ r. (r.drained.items ≡ []) × (length K.names.domain.objects ≤ vec_capacity r.drained)
        × (length r.rooms.items ≡ length K.names.domain.objects) × All (IsRoom K.names.capacity) r.rooms.items };
}

impl<R: Wait + Copy + Send, K: MailNames> RuledMail<R, K> {
    /// Room for all that the mailboxes can hold: the count of objects, times the capacity.
    pub fn drain_room(&self, alloc: Global) -> Result<DrainRoom<K>, AllocError> {
        let count = self.ends.len();
        let drained = Vec::with_capacity(alloc, count)?;
        let rooms = make_rooms(alloc, count, self.capacity)?;
        Ok(DrainRoom {
            rooms,
            drained,
            of: PhantomData,
        })
    }

    /// Whether these are the ends of all sessions that were made with this one, each once, in any order: what
    /// closing requires. The cost is the square of the count of sessions, which are eight at most.
    pub fn has_all(&self, ends: &[OperatorEnd<K>]) -> bool
        ensures { IsTrue result ↔ AreAllEnds K.names.sessions ends.now }
    {
        are_all(ends, self.sessions)
    }

    /// Takes in all ends that were made with this one, in any order, and what every mailbox still holds. It takes no
    /// memory: the room was made before.
    pub fn close_into(self, room: DrainRoom<K>, ends: Vec<OperatorEnd<K>>) -> Drained<K>
        requires { AreAllEnds K.names.sessions ends.items }
        ensures { (o : ℕ) → o < length K.names.domain.objects → IsFinal self ends.items result o }
    {
        let RuledMail {
            rt,
            capacity: _,
            sessions: _,
            ends: mut board,
            of: _,
        } = self;
        let DrainRoom {
            rooms,
            drained,
            of: _,
        } = room;
        join_sessions(&mut board, in_order(ends));
        let ends = drain_all(&rt, board, rooms, drained);
        Drained {
            ends,
            of: PhantomData,
        }
    }

    /// Does what [`close_into`](RuledMail::close_into) does, with the room made first. If there is no memory for it,
    /// all is returned.
    pub fn close(
        self,
        alloc: Global,
        ends: Vec<OperatorEnd<K>>,
    ) -> Result<Drained<K>, (AllocError, RuledMail<R, K>, Vec<OperatorEnd<K>>)>
        requires { AreAllEnds K.names.sessions ends.items }
        ensures drained { IfOk result (λ d. (o : ℕ) → o < length K.names.domain.objects → IsFinal self ends.items d o) }
        ensures back { IfErr result (λ r. (r.1 ≡ self) × (r.2.items ≡ ends.items)) }
    {
        match self.drain_room(alloc) {
            Ok(room) => Ok(self.close_into(room, ends)),
            Err(error) => Err((error, self, ends)),
        }
    }
}
