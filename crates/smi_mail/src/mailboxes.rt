//! Mailboxes that threads share, before they are taken apart into their ends.
ghost use Rattle.std.specs.Prelude.{◌≡◌, ◌<◌, ◌↔◌, ℕ, List, [], Err, IfOk, length, map};
ghost use Rattle.std.specs.Arc.{arc_value};
ghost use Rattle.smi_mail.specs.Mails.{AreOpenBoards, AreMailNumbers};

use crate::ends::{BoardEnd, SessionEnd, open_mailbox};
use crate::rows::new_session;
use smi_mail_plain::MAX_CAPACITY;
use sml_domain::{Domain, ObjId};
use std::alloc::{AllocError, Global};
use std::marker::Model;
use std::sync::Arc;

/// How many sessions of operators there may be.
pub const MAX_SESSIONS: usize = 8;

/// Why mailboxes were not made.
#[derive(Clone, Copy, Debug, Eq, PartialEq)]
pub enum MailError {
    /// The capacity is not 1 to `MAX_CAPACITY`, or the count of sessions not 1 to `MAX_SESSIONS`.
    BadConfig,
    /// Out of memory.
    Memory,
}

impl From<AllocError> for MailError {
    ghost use Rattle.std.specs.Prelude.{◌≡◌};
    ghost use Rattle.smi_mail.specs.declared.mailboxes.MailError.TheVariants.{Memory};

    ghost from_gives = { λ e r. r ≡ Memory };

    fn from(_error: AllocError) -> MailError {
        MailError::Memory
    }
}

/// The mailboxes of a domain's objects, one queue for each object, which threads share, with an end for the board and
/// one for each session. Contracts see what names them: the domain, the capacity, the count of sessions, and which
/// queues they are.
#[derive(Drop)]
pub struct Mailboxes<R> {
    pub(crate) rt: R,
    pub(crate) domain: Arc<Domain, Global>,
    pub(crate) capacity: usize,
    pub(crate) board: Vec<BoardEnd>,
    pub(crate) sessions: Vec<Vec<SessionEnd>>,
}

impl<R> Model for Mailboxes<R> {
    ghost use Rattle.std.specs.Prelude.{length, map};
    ghost use Rattle.std.specs.Arc.{arc_value};
    ghost use Rattle.smi_mail.specs.Mails.{MailboxesSide, AreMailboxes};
    ghost use Rattle.std.specs.Coded.{codes};
    ghost use Rattle.sml_domain.specs.Codes.{formula_code};

    ghost Value = { MailboxesSide };

    ghost coded = { Prim.hlevel (codes, formula_code) };

    ghost view = { λ m. record {
      domain = arc_value m.domain;
      capacity = m.capacity;
      sessions = length m.sessions.items;
      mailboxes = map (λ e. e.mailbox) m.board.items;
    } };

    ghost invariant = { λ m. AreMailboxes (arc_value m.domain) m.capacity m.board.items m.sessions.items };
}

// A mailbox for each object.
fn open_mailboxes(
    alloc: Global,
    domain: &Domain,
    capacity: usize,
) -> Result<Vec<BoardEnd>, AllocError>
    requires { 0 < capacity }
    ensures { IfOk result (λ v. AreOpenBoards domain.now capacity 0 v.items) }
{
    let count = domain.objects();
    let mut board = Vec::with_capacity(alloc, count)?;
    for i in 0..count {
        let end = open_mailbox(alloc, domain, ObjId::new(i), capacity)?;
        board.push_reserved(end);
    }
    Ok(board)
}

impl<R> Mailboxes<R> {
    /// Makes empty mailboxes for a domain's objects, in each of which `capacity` requests may wait, with ends for
    /// `sessions` operators.
    ///
    /// `rt` is what waiting needs; the mail keeps it. The numbers are looked at before memory is asked for. All
    /// memory that the ends will ever need is taken here: the cost is the count of objects, times the capacity and
    /// the counts of objects and sessions.
    pub fn new(
        rt: R,
        alloc: Global,
        domain: Arc<Domain, Global>,
        capacity: usize,
        sessions: usize,
    ) -> Result<Mailboxes<R>, MailError>
    where
        R: Drop,
        ensures bad_config { (result ≡ Err MailError.BadConfig) ↔ ¬ AreMailNumbers capacity sessions }
        ensures domain { IfOk result (λ m. m.domain ≡ arc_value domain) }
        ensures made { IfOk result (λ m. (m.capacity ≡ capacity) × (m.sessions ≡ sessions)) }
    {
        if capacity < 1 || capacity > MAX_CAPACITY || sessions < 1 || sessions > MAX_SESSIONS {
            return Err(MailError::BadConfig);
        }
        let mut board = open_mailboxes(alloc, &domain, capacity)?;
        let mut rows = Vec::with_capacity(alloc, sessions)?;
        for _i in 0..sessions {
            let ends = new_session(alloc, &mut board)?;
            rows.push_reserved(ends);
        }
        Ok(Mailboxes {
            rt,
            domain,
            capacity,
            board,
            sessions: rows,
        })
    }
}
