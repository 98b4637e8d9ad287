//! The ends of all mailboxes: the board's, which is a mail, and each session's.
ghost use Rattle.std.specs.Prelude.{◌≡◌, ◌≢◌, ◌<◌, ◌≤◌, ◌++◌, ℕ, [], slice_get, Some, IfSome, IfNone, IfOk, IfErr, OnErr, length, true};
ghost use mathlib.Core.List.{IsPrefix};
ghost use Rattle.smi_journal_entries.specs.declared.entry.Sender.{Sender};
ghost use Rattle.smi_journal_entries.specs.declared.entry.Sender.TheVariants.{Operator};
ghost use Rattle.smi_journal_entries.specs.Fits.{letter_fits};
ghost use Rattle.smi_mail.specs.Mails.{session_sent, with_sent, requests_taken, requests_sent, AreFresh};
ghost use Rattle.smi_mail.specs.Drains.{AreAllEnds};

use crate::ends::{BoardEnd, SessionEnd};
use crate::envelopes::sender_of;
use crate::mailboxes::Mailboxes;
use smi_journal_entries::{Envelope, Sender, SessionId};
use smi_mail_plain::{Full, Mail};
use sml_domain::ObjId;
use std::alloc::{AllocError, Global};
use std::marker::{Brand, Model, PhantomData};
use std::sync::Wait;

/// Names one domain and one set of mailboxes. Generic code is called with a new name after the mailboxes are made, so
/// ends of two sets of mailboxes have two types.
pub trait MailNames {
    ghost use Rattle.smi_mail.specs.Mails.{MailboxesSide};

    ghost names: { MailboxesSide };
}

impl MailNames for Brand {
    ghost use Rattle.std.specs.Prelude.{[]};
    ghost use Rattle.smi_mail.specs.Rule.{no_domain};

    ghost names = { record { domain = no_domain; capacity = 0; sessions = 0; mailboxes = [] } };
}

/// The board's end of every mailbox. As a mail it serves the objects of the domain and always has room. What
/// operators send it knows only once their ends are returned (`close`).
///
/// Each call takes a constant time unless other threads are inside the same mailbox, and no memory.
#[derive(Drop)]
pub struct RuledMail<R: Wait + Copy + Send, K: MailNames> {
    pub(crate) rt: R,
    pub(crate) capacity: usize,
    pub(crate) sessions: usize,
    pub(crate) ends: Vec<BoardEnd>,
    pub(crate) of: PhantomData<K>,
}

impl<R: Wait + Copy + Send, K: MailNames> Model for RuledMail<R, K> {
    ghost use Rattle.std.specs.Prelude.{◌≡◌, List, map};
    ghost use Rattle.smi_mail.specs.Mails.{Letters, letters_of, AreBoards};

    ghost Value = { List Letters };

    ghost view = { λ m. map letters_of m.ends.items };

    ghost invariant = { λ m. (AreBoards K.names.domain K.names.capacity K.names.sessions K.names.mailboxes m.ends.items)
        × (m.capacity ≡ K.names.capacity) × (m.sessions ≡ K.names.sessions) };
}

impl<R: Wait + Copy + Send, K: MailNames> Mail for RuledMail<R, K> {
    ghost use Rattle.std.specs.Prelude.{true};
    ghost use Rattle.smi_mail.specs.Mails.{requests_taken, requests_sent, serves_object};

    ghost domain = { λ m. K.names.domain };

    ghost serves = { λ m. serves_object K.names.domain };

    ghost taken = { requests_taken };

    ghost sent = { requests_sent };

    ghost ready = { λ m o. true };

    ghost capacity = { λ m. K.names.capacity };

    fn in_order(&self, o: ObjId) {
        self.ends[o.get()].in_order()
    }

    fn take(&mut self, o: ObjId) -> Option<Envelope> {
        let rt = self.rt;
        self.ends[o.get()].take(&rt)
    }

    fn room(&mut self, target: ObjId) -> Result<(), AllocError> {
        let _target = target;
        Ok(())
    }

    fn post(&mut self, target: ObjId, envelope: Envelope) -> Result<u64, (Full, Envelope)> {
        let rt = self.rt;
        match sender_of(&envelope) {
            Sender::Object(object) => self.ends[target.get()].post(&rt, object, envelope),
            Sender::Operator(_) => unreachable!(),
        }
    }
}

/// One session's end of every mailbox. Contracts see which session it is, and what it sent to each object.
#[derive(Drop)]
pub struct OperatorEnd<K: MailNames> {
    pub(crate) session: SessionId,
    pub(crate) ends: Vec<SessionEnd>,
    pub(crate) of: PhantomData<K>,
}

impl<K: MailNames> Model for OperatorEnd<K> {
    ghost use Rattle.smi_mail.specs.Mails.{OperatorSide, operator_side, AreSessions};

    ghost Value = { OperatorSide };

    ghost view = { λ o. operator_side o.session o.ends.items };

    ghost invariant = { λ o. AreSessions K.names.domain K.names.capacity o.session K.names.mailboxes o.ends.items };
}

impl<K: MailNames> OperatorEnd<K> {
    /// The session whose end it is.
    pub fn session(&self) -> SessionId
        ensures { result ≡ self.now.session }
    {
        self.session
    }

    /// A law, whose function does nothing: it has an end of each object's mailbox.
    pub fn is_wide(&self)
        ensures { length self.now.sent ≡ length K.names.domain.objects }
    {
        let _ends = &self.ends;
    }

    /// Sends a request of its own session to an object and returns its number: the count of those that the session
    /// sent there before. The envelope is returned if the mailbox is full, or after 2^64 - 1 requests there. It takes
    /// no memory.
    pub fn post<R: Wait>(
        &mut self,
        rt: &R,
        target: ObjId,
        envelope: Envelope,
    ) -> Result<u64, (Full, Envelope)>
        requires target { target < length K.names.domain.objects }
        requires sender { envelope.sender ≡ Operator self.old.session }
        requires fits { letter_fits K.names.domain target envelope ≡ true }
        ensures sent { IfOk result (λ n. (n ≡ length (session_sent self.old target))
            × (self.new ≡ with_sent self.old target (record envelope { number = n }))) }
        ensures full { IfErr result (λ e. (e.1 ≡ envelope) × (self.new ≡ self.old)) }
    {
        self.ends[target.get()].post(rt, envelope)
    }
}

/// Takes mailboxes apart into their ends, the board's and each session's, the first session's first. `K` names these
/// mailboxes.
///
/// If there is no memory for the list of ends, the mailboxes are returned.
pub fn ruled<K: MailNames, R: Wait + Copy + Send>(
    alloc: Global,
    boxes: Mailboxes<R>,
) -> Result<(RuledMail<R, K>, Vec<OperatorEnd<K>>), (AllocError, Mailboxes<R>)>
    requires { K.names ≡ boxes }
    ensures taken { IfOk result (λ r. (o : ℕ) → requests_taken r.0 o ≡ []) }
    ensures sent { IfOk result (λ r. (s : Sender) (o : ℕ) → requests_sent r.0 s o ≡ []) }
    ensures count { IfOk result (λ r. length r.1.items ≡ K.names.sessions) }
    ensures ends { IfOk result (λ r. AreFresh r.1.items) }
    ensures all { IfOk result (λ r. AreAllEnds K.names.sessions r.1.items) }
    ensures back { IfErr result (λ r. r.1 ≡ boxes) }
{
    let count = boxes.sessions.len();
    let mut ends = match Vec::with_capacity(alloc, count) {
        Ok(ends) => ends,
        Err(error) => return Err((error, boxes)),
    };
    let Mailboxes {
        rt,
        domain: _,
        capacity,
        board,
        sessions,
    } = boxes;
    let mut session: u8 = 0;
    for row in sessions {
        session += 1;
        ends.push_reserved(OperatorEnd {
            session: session_of(session),
            ends: row,
            of: PhantomData,
        });
    }
    let mail = RuledMail {
        rt,
        capacity,
        sessions: count,
        ends: board,
        of: PhantomData,
    };
    Ok((mail, ends))
}

// The session with a number.
fn session_of(number: u8) -> SessionId
    requires least { 1 ≤ number }
    requires most { number ≤ 8 }
    ensures { result ≡ number }
{
    match SessionId::new(number) {
        Some(session) => session,
        None => unreachable!(),
    }
}
