//! What a run returned.
ghost use Rattle.std.specs.Prelude.{◌≡◌, ◌<◌, ◌-◌, length};
ghost use Rattle.smi_journal_entries.specs.Words as says;
ghost use Rattle.smi_journal_entries.specs.declared.journal.Format.TheVariants.{Two};
ghost use Rattle.smi_meaning.specs.Legal.{IsLegal};
ghost use Rattle.smi_mail.specs.Drains.{final_at};
ghost use Rattle.smi_run_report.specs.Told.{accepted_in};
ghost use Rattle.smi_run_report.specs.Reports.{IsFinalReport, device_count, left_from};

use crate::told::{Accepted, Receipt};
use smi_journal_entries::{Entry, Envelope, Journal, Sender, SessionId};
use smi_ledger::Ledger;
use smi_mail::{Drained, MailNames};
use sml_domain::{Domain, ObjId, StateId};
use std::marker::Model;

/// What a run returned: its journal, what each session was told is accepted, what the mailboxes held, the receipts
/// that do not agree with the journal, and the devices.
///
/// No call takes memory. A call whose comment does not mention its cost takes a constant time.
#[derive(Drop)]
pub struct Report<D: Drop, K: MailNames> {
    pub(crate) ledger: Ledger,
    pub(crate) accepted: Vec<Vec<Vec<Accepted>>>,
    pub(crate) drained: Drained<K>,
    pub(crate) unmet: Vec<Receipt>,
    pub(crate) devices: Vec<D>,
}

impl<D: Drop, K: MailNames> Model for Report<D, K> {
    ghost use Rattle.std.specs.Prelude.{◌≡◌, length, map};
    ghost use Rattle.smi_run_report.specs.Told.{rows_of};
    ghost use Rattle.smi_run_report.specs.Reports.{ReportSide, IsFinalReport, device_count};

    ghost Value = { ReportSide };

    ghost view = { λ r. record {
      journal = r.ledger.journal;
      accepted = map (λ v. rows_of v.items) r.accepted.items;
      drained = r.drained;
      unmet = r.unmet.items;
      devices = length r.devices.items;
    } };

    ghost invariant = { λ r. IsFinalReport K.names.domain K.names.sessions r.ledger.journal
        (map (λ v. rows_of v.items) r.accepted.items) r.drained
        × (r.ledger.domain ≡ K.names.domain)
        × (length r.devices.items ≡ device_count K.names.domain) };
}

impl<D: Drop, K: MailNames> Report<D, K> {
    /// A law, whose function does nothing: what was told is what was started and what is left, and there is one
    /// device for each associated object.
    pub fn tells(&self)
        ensures final_report { IsFinalReport K.names.domain K.names.sessions self.now.journal self.now.accepted
            self.now.drained }
        ensures devices { self.now.devices ≡ device_count K.names.domain }
    {
        let _ledger = &self.ledger;
    }

    /// The domain.
    pub fn domain(&self) -> &Domain
        ensures { result.now ≡ K.names.domain }
    {
        self.ledger.domain()
    }

    /// The journal.
    pub fn journal(&self) -> &[Entry]
        ensures is { result.now ≡ self.now.journal }
        ensures legal { IsLegal Two K.names.domain self.now.journal }
    {
        self.ledger.journal()
    }

    /// What a session was told is accepted at an object, in the order in which it posted. Nothing for a session that
    /// the run does not have, or an object that the domain does not have.
    pub fn accepted(&self, session: SessionId, o: ObjId) -> &[Accepted]
        ensures { result.now ≡ accepted_in self.now.accepted (session - 1) o }
    {
        let Some(rows) = self.accepted.get(usize::from(session.get()) - 1) else {
            return &[];
        };
        match rows.get(o.get()) {
            Some(row) => row,
            None => &[],
        }
    }

    /// How many requests of an object to another were accepted.
    pub fn posted(&self, a: ObjId, o: ObjId) -> usize
        requires sender { a < length K.names.domain.objects }
        requires target { o < length K.names.domain.objects }
        ensures { result ≡ length (says.posts_between a o self.now.journal) }
    {
        self.ledger.posted(a, o)
    }

    /// What is left at an object, in the order in which it was sent there.
    pub fn left(&self, o: ObjId) -> &[Envelope]
        requires { o < length K.names.domain.objects }
        ensures { result.now ≡ (final_at self.now.drained o).left }
    {
        self.drained.left(o)
    }

    /// How many requests of a sender are left at an object. The cost is the count of all that is left there.
    pub fn left_count(&self, sender: &Sender, o: ObjId) -> usize
        requires { o < length K.names.domain.objects }
        ensures { result ≡ length (left_from self.now.drained sender.now o) }
    {
        let left = self.left(o);
        let mut count = 0;
        for envelope in left {
            if sender.is(&envelope.letter().sender) {
                count += 1;
            }
        }
        count
    }

    /// The state of an object in the end.
    pub fn state(&self, o: ObjId) -> StateId
        requires { o < length K.names.domain.objects }
        ensures { result ≡ says.state_of K.names.domain o self.now.journal }
    {
        self.ledger.state(o)
    }

    /// Whether an object is stalled: an action is open there.
    pub fn is_stalled(&self, o: ObjId) -> bool
        requires { o < length K.names.domain.objects }
        ensures { result ≡ says.is_open o self.now.journal }
    {
        self.ledger.is_open(o)
    }

    /// How many requests were started at all.
    pub fn starts(&self) -> usize
        ensures { result ≡ length (says.all_starts self.now.journal) }
    {
        self.ledger.starts()
    }

    /// What the mailboxes held.
    pub fn drained(&self) -> &Drained<K>
        ensures { result.now ≡ self.now.drained }
    {
        &self.drained
    }

    /// The receipts that do not agree with the journal, in the order in which they were passed.
    pub fn unmet(&self) -> &[Receipt]
        ensures { result.now ≡ self.now.unmet }
    {
        &self.unmet
    }

    /// The devices, one for each associated object, in the order in which they were passed.
    pub fn devices(&self) -> &[D]
        ensures { length result.now ≡ self.now.devices }
    {
        &self.devices
    }

    /// Returns the journal, as [`journal`](Report::journal) shows it. All else is dropped.
    pub fn into_journal(self) -> Journal
        ensures is { result.entries ≡ self.journal }
        ensures legal { IsLegal Two K.names.domain result.entries }
    {
        let Report {
            ledger,
            accepted: _,
            drained: _,
            unmet: _,
            devices: _,
        } = self;
        ledger.into_journal()
    }

    /// Returns the devices, as [`devices`](Report::devices) shows them. All else is dropped.
    pub fn into_devices(self) -> Vec<D>
        ensures { length result.items ≡ self.devices }
    {
        let Report {
            ledger: _,
            accepted: _,
            drained: _,
            unmet: _,
            devices,
        } = self;
        devices
    }
}
