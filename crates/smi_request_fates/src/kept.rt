//! Counts of each object, and the fates of some requests, as a journal grows.
ghost use Rattle.std.specs.Prelude.{◌≡◌, ◌<◌, ◌≤◌, ◌-◌, ◌++◌, ◌∷◌, [], ℕ, All, List, IfOk, OnErr, OnOk, Some, length, map, slice_get, slice_set, take};
ghost use Rattle.std.specs.List.{slice_index_or};
ghost use Rattle.smi_journal_entries.specs.declared.entry.Entry.{Entry as Entries};
ghost use Rattle.smi_journal_entries.specs.Journals.{most_entries};
ghost use Rattle.smi_journal_entries.specs.Words.{object_of};
ghost use Rattle.sml_domain.specs.Domain.{Domain as Objects};
ghost use Rattle.smi_request_fates.specs.Fates.{fate_of};
ghost use Rattle.smi_request_fates.specs.Kept.{IsOfCounted, RoomAt, FatesTell, watched_request};

use crate::counts::Counts;
use crate::fate::Fate;
use crate::watched::{Watched, add_to_each};
use smi_journal_entries::{Entry, Sender};
use sml_domain::{Domain, ObjId};
use std::alloc::{AllocError, Global};
use std::marker::Model;

/// The counts of each object, and what became of the requests that are watched. An entry that is added costs a look at
/// each request that is watched, and a look-up a constant time.
#[derive(Drop)]
pub struct Fates {
    counts: Vec<Counts>,
    watched: Vec<Watched>,
    room: usize,
}

impl Model for Fates {
    ghost use Rattle.std.specs.Prelude.{◌≤◌, ◌+◌, vec_len, vec_capacity};
    ghost use Rattle.smi_request_fates.specs.Kept.{FatesView};

    ghost Value = { FatesView };

    ghost view = { λ f. record { counts = f.counts.items; watched = f.watched.items; room = f.room } };

    ghost invariant = { λ f. vec_len f.watched + f.room ≤ vec_capacity f.watched };
}

// The object that an entry is of.
fn object_in(entry: &Entry) -> ObjId
    ensures { result ≡ object_of entry.now }
{
    match entry {
        Entry::Start { object, .. }
        | Entry::Wait { object }
        | Entry::Seen { object, .. }
        | Entry::End { object, .. }
        | Entry::Kill { object, .. }
        | Entry::Insert { object, .. }
        | Entry::Remove { object, .. }
        | Entry::NoMember { object, .. } => *object,
        Entry::Post { sender, .. } => *sender,
    }
}

// How many entries there are.
fn count_of(entries: &[Entry]) -> usize
    ensures is { result ≡ length entries.now }
    ensures few { result ≤ most_entries }
{
    entries.len()
}

impl Fates {
    /// Those of a domain that is not begun, and no request is watched. The error is out of memory.
    pub fn new(alloc: Global, domain: &Domain) -> Result<Fates, AllocError>
        ensures tells { IfOk result (λ f. FatesTell domain.now [] f) }
        ensures count { IfOk result (λ f. length f.counts ≡ length domain.now.objects) }
        ensures none { IfOk result (λ f. f.watched ≡ []) }
    {
        let mut counts = Vec::new(alloc);
        for o in 0..domain.objects() {
            let o = ObjId::new(o);
            counts.push(Counts {
                state: domain.initial(o),
                dead: domain.dead(o),
                started: 0,
                ended: 0,
            })?;
        }
        Ok(Fates {
            counts,
            watched: Vec::new(alloc),
            room: 0,
        })
    }

    /// Takes one more entry.
    pub fn add(&mut self, entry: &Entry)
        requires known { object_of entry.now < length self.old.counts }
        requires room { RoomAt self.old.counts (object_of entry.now) }
        ensures tells { (d : Objects) (J : List Entries) → FatesTell d J self.old → FatesTell d (J ++ entry.now ∷ []) self.new }
        ensures count { length self.new.counts ≡ length self.old.counts }
        ensures requests { map watched_request self.new.watched ≡ map watched_request self.old.watched }
        ensures room_stays { self.new.room ≡ self.old.room }
    {
        let object = object_in(entry);
        self.counts[object.get()].add(entry);
        let at = self.counts[object.get()].stands();
        add_to_each(&mut self.watched, object, entry, &at);
    }

    /// Takes the entries of a journal from a place on, of which it has those before. The cost is that of each.
    pub fn add_from(&mut self, domain: &Domain, entries: &[Entry], first: usize)
        requires known { All (IsOfCounted (length self.old.counts)) entries.now }
        requires told { FatesTell domain.now (take first entries.now) self.old }
        requires within { first ≤ length entries.now }
        ensures tells { FatesTell domain.now entries.now self.new }
        ensures count { length self.new.counts ≡ length self.old.counts }
        ensures requests { map watched_request self.new.watched ≡ map watched_request self.old.watched }
        ensures room_stays { self.new.room ≡ self.old.room }
    {
        let _domain = domain;
        for place in first..count_of(entries) {
            self.add(&entries[place]);
        }
    }

    /// How many requests are watched.
    pub fn requests(&self) -> usize
        ensures { result ≡ length self.now.watched }
    {
        self.watched.len()
    }

    /// What is kept of an object. None if the domain has no such object.
    pub fn counts(&self, o: ObjId) -> Option<Counts>
        ensures { result ≡ slice_get self.now.counts o }
    {
        self.counts.get(o.get()).copied()
    }

    /// Keeps room for at least `room` more requests that are watched. The error is out of memory, and then nothing is
    /// changed. Nothing else takes memory after `new`.
    pub fn hold(&mut self, room: usize) -> Result<(), AllocError>
        ensures ok { OnOk result (room ≤ self.new.room) }
        ensures same { OnOk result (self.new ≡ record self.old { room = self.new.room }) }
        ensures err { OnErr result (self.new ≡ self.old) }
    {
        if self.room >= room {
            return Ok(());
        }
        self.watched.reserve(room)?;
        self.room = room;
        Ok(())
    }

    /// Watches one more request, for which room was kept.
    pub fn watch(&mut self, watched: Watched)
        requires { 0 < self.old.room }
        ensures { self.new ≡ record self.old {
          watched = self.old.watched ++ watched ∷ [];
          room = self.old.room - 1;
        } }
    {
        self.watched.push_reserved(watched);
        self.room -= 1;
    }

    /// Watches this request in place of another.
    pub fn watch_instead(&mut self, place: usize, watched: Watched)
        requires { place < length self.old.watched }
        ensures { self.new ≡ record self.old { watched = slice_set self.old.watched place watched } }
    {
        self.watched[place] = watched;
    }

    /// A watched request, and what became of it. None if fewer are watched.
    pub fn watched(&self, place: usize) -> Option<Watched>
        ensures { result ≡ slice_get self.now.watched place }
    {
        self.watched.get(place).copied()
    }
}
