//! An operator's session.
ghost use Rattle.std.specs.Prelude.{◌≡◌, ◌<◌, ◌++◌, ◌∷◌, [], ℕ, OnOk, slice_set, slice_index_or, length};
ghost use Rattle.std.specs.List.{All};
ghost use Rattle.sml_domain.specs.Lookups.{object_named};
ghost use Rattle.smi_mail.specs.Mails.{session_sent};
ghost use Rattle.smi_run_report.specs.Told.{rows_of};
ghost use Rattle.smi_run_runtime.specs.Sessions.{HasRoomAt, LeavesOfKill, told_at};

use crate::errors::KillError;
use crate::runtime::Runtime;
use smi_board::KillError as Refusal;
use smi_journal_entries::SessionId;
use smi_mail::{MailNames, OperatorEnd};
use smi_run_report::{Accepted, Receipt};
use sml_domain::ObjId;
use sml_tree::Name;
use std::alloc::{AllocError, Global};
use std::marker::Model;
use std::sync::Wait;

/// A session under way: what it was told is accepted, and what it was told of kills. It is of the runtime whose
/// mailboxes `K` names, and of no other. A session that is dropped without `Runtime::leave` keeps the workers waiting
/// for ever.
#[derive(Drop)]
pub struct Session<K: MailNames> {
    pub(crate) end: OperatorEnd<K>,
    pub(crate) accepted: Vec<Vec<Accepted>>,
    pub(crate) receipts: Vec<Receipt>,
}

impl<K: MailNames> Model for Session<K> {
    ghost use Rattle.std.specs.Prelude.{◌≡◌, length, map};
    ghost use Rattle.smi_run_report.specs.Told.{accepted_of, rows_of};
    ghost use Rattle.smi_run_runtime.specs.Sessions.{SessionBook};

    ghost Value = { SessionBook };

    ghost view = { λ s. record {
      session = s.end.session;
      accepted = rows_of s.accepted.items;
      receipts = s.receipts.items;
    } };

    ghost invariant = { λ s. (rows_of s.accepted.items ≡ map (map accepted_of) s.end.sent)
        × (length s.accepted.items ≡ length K.names.domain.objects) };
}

impl<K: MailNames> Session<K> {
    // A session with its end, which was told nothing yet.
    pub(crate) fn new(
        alloc: Global,
        end: OperatorEnd<K>,
        accepted: Vec<Vec<Accepted>>,
    ) -> Session<K>
        requires sent { (o : ℕ) → session_sent end o ≡ [] }
        requires wide { length accepted.items ≡ length K.names.domain.objects }
        requires empty { All (λ v. v.items ≡ []) accepted.items }
        ensures { result ≡ record {
          session = end.session;
          accepted = rows_of accepted.items;
          receipts = [];
        } }
    {
        end.is_wide();
        Session {
            end,
            accepted,
            receipts: Vec::new(alloc),
        }
    }

    /// Which session it is.
    pub fn session(&self) -> SessionId
        ensures { result ≡ self.now.session }
    {
        self.end.session()
    }

    /// What it was told is accepted at an object, in order.
    pub fn accepted(&self, o: ObjId) -> &[Accepted]
        requires { o < length K.names.domain.objects }
        ensures { result.now ≡ told_at self.now o }
    {
        self.accepted[o.get()].as_slice()
    }

    /// What it was told of kills, in order: one receipt for each kill that it made, and one each time that it was
    /// told that an object is dead.
    pub fn receipts(&self) -> &[Receipt]
        ensures { result.now ≡ self.now.receipts }
    {
        self.receipts.as_slice()
    }

    /// Kills an object, and returns the place of the kill in the journal. The answer leaves a receipt, and so does
    /// AlreadyDead. Takes memory for the receipt and for the journal. It waits for the board's lock, and the cost is
    /// the count of objects, by whose names it looks.
    pub fn kill<R: Wait + Copy + Send, D>(
        &mut self,
        rt: &R,
        runtime: &Runtime<R, K, D>,
        object: &Name,
    ) -> Result<u64, KillError>
        ensures { LeavesOfKill (object_named K.names.domain object.now) self.old result self.new }
    {
        let Some(o) = runtime.object(object) else {
            return Err(KillError::UnknownObject);
        };
        if self.receipts.reserve(1).is_err() {
            return Err(KillError::Memory);
        }
        let session = self.end.session();
        let (place, own) = match runtime.kill(rt, o, session) {
            Ok(place) => (place, true),
            Err(Refusal::AlreadyDead(place)) => (place, false),
            Err(Refusal::Memory) => return Err(KillError::Memory),
        };
        self.receipts.push_reserved(Receipt {
            session,
            object: o,
            place,
            own,
        });
        if own {
            Ok(place)
        } else {
            Err(KillError::AlreadyDead(place))
        }
    }
}

// Room for one more in a row.
pub(crate) fn grow_row(rows: &mut Vec<Vec<Accepted>>, place: usize) -> Result<(), AllocError>
    requires { place < length rows.old.items }
    ensures same { rows_of rows.new.items ≡ rows_of rows.old.items }
    ensures long { length rows.new.items ≡ length rows.old.items }
    ensures room { OnOk result (HasRoomAt rows.new.items place) }
{
    rows[place].reserve(1)
}

// Adds one to a row.
pub(crate) fn add_accepted(rows: &mut Vec<Vec<Accepted>>, place: usize, accepted: Accepted)
    requires within { place < length rows.old.items }
    requires room { HasRoomAt rows.old.items place }
    ensures { rows_of rows.new.items ≡ slice_set (rows_of rows.old.items) place
        (slice_index_or (rows_of rows.old.items) place [] ++ accepted ∷ []) }
{
    rows[place].push_reserved(accepted);
}

/// A session that has left its runtime.
#[derive(Drop)]
pub struct Closed<K: MailNames> {
    pub(crate) session: Session<K>,
}

impl<K: MailNames> Model for Closed<K> {
    ghost use Rattle.smi_run_runtime.specs.Sessions.{SessionBook};

    ghost Value = { SessionBook };

    ghost view = { λ c. c.session };
}

impl<K: MailNames> Closed<K> {
    /// Which session it was.
    pub fn session(&self) -> SessionId
        ensures { result ≡ self.now.session }
    {
        self.session.session()
    }

    /// What it was told of kills, in order.
    pub fn receipts(&self) -> &[Receipt]
        ensures { result.now ≡ self.now.receipts }
    {
        self.session.receipts()
    }
}
