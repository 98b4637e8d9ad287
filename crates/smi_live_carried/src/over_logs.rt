//! What is kept of what a manager did, by all logs of a chain.
ghost use Rattle.std.specs.Prelude.{◌≡◌, map, option_map, slice_get};
ghost use Rattle.smi_live_carried.specs.OverLogs as over;

use smi_carried::CarriedCounts;
use smi_live_accounts::Accounts;
use smi_live_once::OnceTable;
use smi_request_fates::{Came, Counts, Fate, Stands, Watched};
use sml_domain::ObjId;
use std::marker::Model;

/// What is kept of what a manager did, with the counts of the logs before its own: as `Accounts` tells it, but that
/// counts and versions are those of all logs. A manager of a first log has no counts before.
#[derive(Drop)]
pub struct OverLogs<'a> {
    accounts: &'a Accounts,
    before: &'a [CarriedCounts],
}

impl<'a> Model for OverLogs<'a> {
    ghost use Rattle.smi_live_accounts.specs.Accounts.{AccountsView};
    ghost use Rattle.smi_live_carried.specs.OverLogs.{accounts_over};

    ghost Value = { AccountsView };

    ghost view = { λ o. accounts_over o.before.now o.accounts.now };
}

// Two counts together, as far as 64 bits go.
fn together(n: u64, m: u64) -> u64
    ensures { result ≡ over.together n m }
{
    n.saturating_add(m)
}

// How an object stood, by all logs.
fn stands_over(before: Option<CarriedCounts>, at: Stands) -> Stands
    ensures { result ≡ over.stands_over before at }
{
    match before {
        Some(counts) => Stands {
            state: at.state,
            ended: together(counts.ended, at.ended),
        },
        None => at,
    }
}

// What is kept of an object, by all logs.
fn counts_over(before: Option<CarriedCounts>, counts: Counts) -> Counts
    ensures { result ≡ over.counts_over before counts }
{
    match before {
        Some(carried) => Counts {
            state: counts.state,
            dead: counts.dead,
            started: together(carried.started, counts.started),
            ended: together(carried.ended, counts.ended),
        },
        None => counts,
    }
}

// What became of an accepted request, by all logs.
fn fate_over(before: Option<CarriedCounts>, fate: Fate) -> Fate
    ensures { result ≡ over.fate_over before fate }
{
    match fate {
        Fate::Waits => Fate::Waits,
        Fate::Open => Fate::Open,
        Fate::Ended(at) => Fate::Ended(stands_over(before, at)),
        Fate::Skipped(at) => Fate::Skipped(stands_over(before, at)),
        Fate::Killed(at) => Fate::Killed(stands_over(before, at)),
    }
}

// What became of a request, by all logs.
fn came_over(before: Option<CarriedCounts>, came: Came) -> Came
    ensures { result ≡ over.came_over before came }
{
    match came {
        Came::Accepted(fate) => Came::Accepted(fate_over(before, fate)),
        Came::Refused(Some(at)) => Came::Refused(Some(stands_over(before, at))),
        Came::Refused(None) => Came::Refused(None),
        Came::Past(at) => Came::Past(at),
    }
}

// What was counted of an object before.
fn counted_before(before: &[CarriedCounts], o: ObjId) -> Option<CarriedCounts>
    ensures { result ≡ slice_get before.now o }
{
    before.get(o.get()).copied()
}

// What is kept of an object, after logs with these counts.
#[tactic(auto, using(crate::proofs::Over::get_over, crate::proofs::Over::get_none))]
fn counts_of(accounts: &Accounts, before: &[CarriedCounts], o: ObjId) -> Option<Counts>
    ensures { result ≡ slice_get (over.all_counts_over before.now accounts.now.fates.counts) o }
{
    match accounts.counts(o) {
        Some(counts) => Some(counts_over(counted_before(before, o), counts)),
        None => None,
    }
}

// A request that is watched, after logs with these counts.
fn watched_after(before: &[CarriedCounts], watched: &Watched) -> Watched
    ensures { result ≡ over.watched_over before.now watched.now }
{
    Watched {
        object: watched.object,
        sender: watched.sender,
        number: watched.number,
        came: came_over(counted_before(before, watched.object), watched.came),
    }
}

// The last request of the name at a place, after logs with these counts.
#[tactic(auto, using(crate::proofs::Over::get_watched, crate::proofs::Over::get_unwatched))]
fn watched_of(accounts: &Accounts, before: &[CarriedCounts], place: usize) -> Option<Watched>
    ensures { result ≡ slice_get (map (over.watched_over before.now) accounts.now.fates.watched) place }
{
    match accounts.watched(place) {
        Some(watched) => Some(watched_after(before, &watched)),
        None => None,
    }
}

/// What is told of a first log is what is kept of it. This does nothing when called.
pub fn first_logs()
    ensures { over.FirstLogsAreAlone }
{}

impl<'a> OverLogs<'a> {
    /// What is kept in this log, after logs with these counts of the objects, in order.
    pub fn new(accounts: &'a Accounts, before: &'a [CarriedCounts]) -> OverLogs<'a>
        ensures { result ≡ over.accounts_over before.now accounts.now }
    {
        OverLogs { accounts, before }
    }

    /// What is kept of an object: its state, and how often it started and ended. None if the domain has no such object.
    pub fn counts(&self, o: ObjId) -> Option<Counts>
        ensures { result ≡ slice_get self.now.fates.counts o }
    {
        counts_of(self.accounts, self.before, o)
    }

    /// How an object stands. None if the domain has no such object.
    pub fn stands(&self, o: ObjId) -> Option<Stands>
        ensures { result ≡ option_map (λ c. record { state = c.state; ended = c.ended })
            (slice_get self.now.fates.counts o) }
    {
        match self.counts(o) {
            Some(counts) => Some(counts.stands()),
            None => None,
        }
    }

    /// What was told last to each of those who ask for requests that are made once.
    pub fn told(&self) -> &OnceTable
        ensures { result.now.told ≡ self.now.told }
    {
        self.accounts.told()
    }

    /// The last request of the name at a place of that table, and what became of it. None past the last name.
    pub fn watched(&self, place: usize) -> Option<Watched>
        ensures { result ≡ slice_get self.now.fates.watched place }
    {
        watched_of(self.accounts, self.before, place)
    }
}
