//! Books without a journal: what the entries so far say of each object, for a caller that keeps no entries.
ghost use Rattle.std.specs.Prelude.{◌≡◌, ◌<◌, ◌++◌, ◌∷◌, [], ℕ, IfOk, None, OnErr, OnOk, length, option_map};
ghost use Rattle.std.specs.Arc.{arc_value};
ghost use Rattle.smi_journal_entries.specs.Sets.{AreOf, sets_after, sets_next};
ghost use Rattle.smi_journal_entries.specs.Words as says;
ghost use Rattle.smi_ledger.specs.Books.{DiesOnce, IsLast, NamesKnown, Says, changed_or, posted_between, started_of};
ghost use Rattle.smi_ledger.specs.Tables.{IsKnown};

use crate::ledger::first_slots;
use crate::slot::Slot;
use smi_journal_entries::{Entry, Letter, Members, Sender};
use smi_mail_plain::History;
use sml_domain::{Domain, ObjId, StateId};
use std::alloc::{AllocError, Global};
use std::marker::Model;
use std::sync::Arc;

/// What a journal says of each object of a domain, and how long it is, without its entries.
///
/// A look-up takes a constant time, and so does an entry that is added, except one that closes an action: its
/// answers are forgotten in the time of their count. The memory is that of the open actions' answers.
#[derive(Drop)]
pub struct Books {
    domain: Arc<Domain>,
    entries: History<Entry>,
    count: usize,
    last: Option<ObjId>,
    slots: Vec<Slot>,
    members: Members,
}

impl Model for Books {
    ghost use Rattle.std.specs.Arc.{arc_value};
    ghost use Rattle.std.specs.Coded.{codes};
    ghost use Rattle.sml_domain.specs.Codes.{formula_code};
    ghost use Rattle.smi_ledger.specs.Views.{BooksView};
    ghost use Rattle.smi_ledger.specs.Books.{IsBooked};

    ghost Value = { BooksView };

    ghost coded = { Prim.hlevel (codes, formula_code) };

    ghost view = { λ b. record { domain = arc_value b.domain; journal = b.entries.items } };

    ghost invariant = { λ b. IsBooked (arc_value b.domain) b.entries.items b.count b.last b.slots.items b.members };
}

// The object that an entry is of.
fn object_of(entry: &Entry) -> ObjId
    ensures { result ≡ says.object_of entry.now }
{
    match entry {
        Entry::Start { object, .. }
        | Entry::Wait { object }
        | Entry::Seen { object, .. }
        | Entry::End { object, .. }
        | Entry::Kill { object, .. }
        | Entry::Insert { object, .. }
        | Entry::Remove { object, .. }
        | Entry::NoMember { object, .. } => *object,
        Entry::Post { sender, .. } => *sender,
    }
}

// The members of all sets behind an entry, if it changes one of these sets.
fn changed_by(
    alloc: Global,
    domain: &Domain,
    sets: &Members,
    entry: &Entry,
) -> Result<Option<Members>, AllocError>
    ensures { IfOk result (λ m. changed_or m sets.now ≡ sets_next domain.now sets.now entry.now) }
{
    match entry {
        Entry::Insert { member, set, .. } => {
            Ok(Some(sets.with_change(alloc, domain, true, *member, *set)?))
        }
        Entry::Remove { member, set, .. } => {
            Ok(Some(sets.with_change(alloc, domain, false, *member, *set)?))
        }
        _ => Ok(None),
    }
}

impl Books {
    /// The books of a domain that is not begun. The cost is the square of the count of objects.
    pub fn new(alloc: Global, domain: Arc<Domain>) -> Result<Books, AllocError>
        ensures domain { IfOk result (λ b. b.domain ≡ arc_value domain) }
        ensures journal { IfOk result (λ b. b.journal ≡ []) }
    {
        let slots = first_slots(alloc, &domain)?;
        let members = Members::declared(alloc, &domain)?;
        Ok(Books {
            domain,
            entries: History::new(),
            count: 0,
            last: None,
            slots,
            members,
        })
    }

    /// The domain.
    pub fn domain(&self) -> &Domain
        ensures { result.now ≡ self.now.domain }
    {
        &self.domain
    }

    /// The object of the last entry, or None before the first.
    pub fn last(&self) -> Option<ObjId>
        ensures { IsLast self.now.journal result }
    {
        self.last
    }

    // The slot of an object.
    fn slot(&self, o: ObjId) -> &Slot
        requires { o < length self.now.domain.objects }
        ensures { Says self.now.domain self.now.journal o result.now }
    {
        &self.slots[o.get()]
    }

    /// The state of an object.
    pub fn state(&self, o: ObjId) -> StateId
        requires { o < length self.now.domain.objects }
        ensures { result ≡ says.state_of self.now.domain o self.now.journal }
    {
        self.slot(o).state
    }

    /// The letter whose action is open at an object, or None if no action is open.
    pub fn opened(&self, o: ObjId) -> Option<&Letter>
        requires { o < length self.now.domain.objects }
        ensures { option_map (λ l. l.now) result ≡ says.open_at o self.now.journal }
    {
        self.slot(o).opened.as_ref()
    }

    /// Whether an action is open at an object.
    pub fn is_open(&self, o: ObjId) -> bool
        requires { o < length self.now.domain.objects }
        ensures { result ≡ says.is_open o self.now.journal }
    {
        self.opened(o).is_some()
    }

    /// The members of all sets.
    pub fn sets(&self) -> &Members
        ensures is { result.now ≡ sets_after self.now.domain self.now.journal }
        ensures are { AreOf self.now.domain result.now }
    {
        &self.members
    }

    /// The place of the kill of an object in the journal, or None if it is not killed.
    pub fn killed(&self, o: ObjId) -> Option<usize>
        requires { o < length self.now.domain.objects }
        ensures { result ≡ says.killed_at o self.now.journal }
    {
        self.slot(o).killed
    }

    /// How many requests of a sender were started at an object.
    pub fn started(&self, sender: &Sender, o: ObjId) -> usize
        requires within { o < length self.now.domain.objects }
        requires known { IsKnown (length self.now.domain.objects) sender.now }
        ensures { result ≡ started_of sender.now o self.now.journal }
    {
        let slot = self.slot(o);
        match sender {
            Sender::Operator(session) => slot.of_sessions[session.get() as usize],
            Sender::Object(object) => slot.of_objects[object.get()],
        }
    }

    /// How many posts of one object to another were accepted.
    pub fn posted(&self, a: ObjId, b: ObjId) -> usize
        requires sender { a < length self.now.domain.objects }
        requires target { b < length self.now.domain.objects }
        ensures { result ≡ posted_between a b self.now.journal }
    {
        self.slot(a).posted[b.get()]
    }

    /// Whether an object is clear for another, `a`: it is killed, or no action is open there and all that
    /// `a` posted to it was started.
    pub fn is_clear(&self, a: ObjId, o: ObjId) -> bool
        requires sender { a < length self.now.domain.objects }
        requires within { o < length self.now.domain.objects }
        ensures { result ≡ says.is_clear a o self.now.journal }
    {
        self.killed(o).is_some()
            || (self.opened(o).is_none()
                && self.posted(a, o) == self.started(&Sender::Object(a), o))
    }

    /// Adds an entry. Its arguments and readings are shared, and it is not kept. It fails if memory runs out, and
    /// if there are 2^64 - 1 entries already.
    pub fn add(&mut self, alloc: Global, entry: &Entry) -> Result<(), AllocError>
        requires known { NamesKnown self.old.domain entry.now }
        requires once { DiesOnce self.old.journal entry.now }
        ensures journal { OnOk result (self.new.journal ≡ self.old.journal ++ entry.now ∷ []) }
        ensures domain { OnOk result (self.new.domain ≡ self.old.domain) }
        ensures err { OnErr result (self.new ≡ self.old) }
    {
        let Some(count) = self.count.checked_add(1) else {
            return Err(AllocError);
        };
        let o = object_of(entry);
        let dead = self.domain.dead(o);
        let changed = changed_by(alloc, &self.domain, &self.members, entry)?;
        self.slots[o.get()].hold(1)?;
        self.slots[o.get()].take(entry, dead, self.count, &self.members)?;
        self.entries = self.entries.and(entry);
        self.count = count;
        self.last = Some(o);
        match changed {
            Some(sets) => self.members = sets,
            None => {}
        }
        Ok(())
    }
}
