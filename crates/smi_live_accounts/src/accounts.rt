//! What a manager keeps of what it did, so that no question about it walks the journal.
ghost use Rattle.std.specs.Prelude.{◌≡◌, ◌≤◌, ◌<◌, ◌^◌, [], ℕ, IfNone, IfOk, List, OnErr, OnOk, length, slice_get, take};
ghost use Rattle.sml_domain.specs.Domain.{Domain as Objects};
ghost use Rattle.smi_journal_entries.specs.declared.entry.Entry.{Entry as Entries};
ghost use Rattle.smi_journal_entries.specs.Words.{all_starts, any_start};
ghost use Rattle.smi_live_once.specs.Carrying.{past_text};
ghost use Rattle.smi_live_once.specs.Tables.{with_last_told};
ghost use Rattle.smi_request_fates.specs.Kept.{IsCame, watched_request};
ghost use Rattle.smi_live_accounts.specs.Accounts.{AccountsTell, IsAnswerTo, IsNotedTo, stands_kept};
ghost use Rattle.smi_live_accounts.specs.Requested.{IsWatchedRefused, RequestedAs};

use crate::recalled::{Recalled, watched_at};
use crate::requested::Requested;
use smi_core::Core;
use smi_journal_entries::{Entry, Sender};
use smi_live_once::{OnceTable, add_past};
use smi_request_fates::{Came, Counts, Fate, Fates, Stands, Watched};
use sml_domain::{Domain, ObjId};
use std::alloc::{AllocError, Global};
use std::marker::Model;

/// How often each object started and ended, and all together started, what was told last to each of those who ask for
/// requests that are made once, and what became of these requests. No call walks the journal.
#[derive(Drop)]
pub struct Accounts {
    table: OnceTable,
    // At the place of a name its last request is watched.
    fates: Fates,
    // How many actions were started.
    starts: usize,
}

impl Model for Accounts {
    ghost use Rattle.smi_live_accounts.specs.Accounts.{AccountsView};

    ghost Value = { AccountsView };

    ghost view = { λ a. record { told = a.table.told; fates = a.fates; starts = a.starts } };
}

// How many starts an entry is: one or none.
fn starts_of(entry: &Entry) -> usize
    ensures { result ≡ length (any_start entry.now) }
{
    if matches!(entry, Entry::Start { .. }) {
        1
    } else {
        0
    }
}

// How many entries there are.
fn count_of(entries: &[Entry]) -> usize
    ensures is { result ≡ length entries.now }
    ensures few { result < 2 ^ 64 }
{
    entries.len()
}

// How many entries are starts, of which this many stand before a place.
fn count_starts(before: usize, entries: &[Entry], first: usize) -> usize
    requires before { before ≡ length (all_starts (take first entries.now)) }
    requires within { first ≤ length entries.now }
    ensures { result ≡ length (all_starts entries.now) }
{
    let mut starts = before;
    for place in first..count_of(entries) {
        starts += starts_of(&entries[place]);
    }
    starts
}

impl Accounts {
    /// Those of a domain of which nothing was asked. The cost is the count of objects. The error is out of memory.
    pub fn new(alloc: Global, domain: &Domain) -> Result<Accounts, AllocError>
        ensures tells { IfOk result (λ a. AccountsTell domain.now [] a) }
        ensures told { IfOk result (λ a. a.told ≡ []) }
    {
        let fates = Fates::new(alloc, domain)?;
        Ok(Accounts {
            table: OnceTable::new(alloc),
            fates,
            starts: 0,
        })
    }

    /// Takes the entries of the core's journal from a place on, those of one step. The cost of an entry is a look at
    /// each name.
    pub fn note(&mut self, core: &Core, first: usize)
        requires { IsNotedTo core.now first self.old }
        ensures tells { AccountsTell core.now.setup.domain core.now.world.journal self.new }
        ensures told { self.new.told ≡ self.old.told }
    {
        self.fates.add_from(core.domain(), core.journal(), first);
        self.starts = count_starts(self.starts, core.journal(), first);
    }

    /// How many actions were started, those that were skipped too.
    pub fn starts(&self) -> usize
        ensures { result ≡ self.now.starts }
    {
        self.starts
    }

    /// Keeps what was told last to a name, and which request that was. The cost is the count of names. The error is out
    /// of memory; then what was told stays.
    pub fn put(
        &mut self,
        alloc: Global,
        name: &[u8],
        number: u64,
        answer: &[u8],
        watched: Watched,
    ) -> Result<(), AllocError>
        ensures told { OnOk result (self.new.told
            ≡ with_last_told self.old.told (record { name = name.now; number = number; answer = answer.now })) }
        ensures same { OnErr result (self.new.told ≡ self.old.told) }
        ensures tells { (d : Objects) (J : List Entries) → AccountsTell d J self.old → IsCame d J watched
            → IsAnswerTo d (watched_request watched) answer.now → AccountsTell d J self.new }
    {
        self.fates.hold(1)?;
        let place = self.table.put(alloc, name, number, answer)?;
        if place < self.fates.requests() {
            self.fates.watch_instead(place, watched);
        } else {
            self.fates.watch(watched);
        }
        Ok(())
    }

    /// Keeps what a log before had of a name: what became of its last request is told again. The cost is the count of
    /// names. The error is out of memory; then what was told stays.
    pub fn recall(&mut self, alloc: Global, recalled: &Recalled<'_>) -> Result<(), AllocError>
        ensures told { OnOk result (self.new.told ≡ with_last_told self.old.told (record {
          name = recalled.now.name.now;
          number = recalled.now.number;
          answer = past_text recalled.now.what.now;
        })) }
        ensures same { OnErr result (self.new.told ≡ self.old.told) }
        ensures tells { (d : Objects) (J : List Entries) → AccountsTell d J self.old → AccountsTell d J self.new }
    {
        let mut answer = Vec::new(alloc);
        let watched = watched_at(recalled.place);
        match add_past(&mut answer, recalled.what) {
            Ok(()) => self.put(alloc, recalled.name, recalled.number, &answer, watched),
            Err(error) => Err(error),
        }
    }

    /// The request that is to be watched for a name, which asked this and was answered so.
    pub fn watched_of(&self, requested: Requested) -> Watched
        ensures came { (d : Objects) (J : List Entries) (text : List ℕ) → AccountsTell d J self.now
            → RequestedAs d J requested text → IsCame d J result × IsAnswerTo d (watched_request result) text }
        ensures refused { IfNone requested.number (IsWatchedRefused self.now requested result) }
    {
        let sender = Sender::Operator(requested.sender);
        match (requested.object, requested.number) {
            (Some(object), Some(number)) => Watched {
                object,
                sender,
                number,
                came: Came::Accepted(Fate::Waits),
            },
            (Some(object), None) => Watched {
                object,
                sender,
                number: 0,
                came: Came::Refused(self.stands(object)),
            },
            (None, _) => Watched {
                object: ObjId::new(0),
                sender,
                number: 0,
                came: Came::Refused(None),
            },
        }
    }

    /// What is kept of an object: its state, and how often it started and ended. None if the domain has no such object.
    pub fn counts(&self, o: ObjId) -> Option<Counts>
        ensures { result ≡ slice_get self.now.fates.counts o }
    {
        self.fates.counts(o)
    }

    /// How an object stands. None if the domain has no such object.
    pub fn stands(&self, o: ObjId) -> Option<Stands>
        ensures { result ≡ stands_kept self.now o }
    {
        match self.fates.counts(o) {
            Some(counts) => Some(counts.stands()),
            None => None,
        }
    }

    /// What was told last to each of those who ask for requests that are made once.
    pub fn told(&self) -> &OnceTable
        ensures { result.now.told ≡ self.now.told }
    {
        &self.table
    }

    /// The last request of the name at a place of that table, and what became of it. None past the last name.
    pub fn watched(&self, place: usize) -> Option<Watched>
        ensures { result ≡ slice_get self.now.fates.watched place }
    {
        self.fates.watched(place)
    }
}
