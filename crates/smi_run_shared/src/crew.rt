//! The workers of a run: which are at work, which are away, and which wait.
//!
//! A worker that will be back in a moment takes the next thing itself and is not helped: to wake another costs more
//! than most calls of devices do. A worker that goes out for an object that was slow before leaves its place to
//! another. One of those that wait is the guard. It looks from time to time whether those at work get on, and steps
//! in if they do not. So nothing that is ready waits for longer than two looks of the guard, for any devices.
//!
//! No wake-up is lost. Suppose that the lock is free, something comes next and a worker waits. Then a worker was
//! notified that has not looked yet; or a worker is at work, and there is a guard, or that worker is on its way to the
//! lock and will notify one as it leaves it. For the thread that makes something ready holds the lock, and
//! notifies a worker as it leaves, unless a worker is at work and there is a guard. The last place is given up only if
//! a worker goes out, which notifies one, or if nothing comes next. A worker that was notified and finds another at
//! work becomes the guard. A guard stops being one only if it begins to work, if it ends, or if nobody gets on and
//! nothing comes next: the thread that then brings something notifies a worker.
ghost use Rattle.std.specs.Prelude.{◌≡◌, false, slice_set};
ghost use Rattle.smi_run_shared.specs.declared.crew.Notify.TheVariants.{All, One};
ghost use Rattle.smi_run_shared.specs.Crews.{crew_back, crew_begun, crew_left, crew_looked, crew_notified, crew_out, crew_waiting, crew_without_one, has_no_place, is_another_guard, is_guard_next, is_needed, is_spare_after, is_up_to_date, makes_way, micros_next, pace_of, slowness_at, slowness_by, trip_out, wants_one, was_brief, watch_looked, watch_next};

use std::marker::Model;

/// The most that an object is held to be slow.
pub(crate) const SLOWEST: u8 = 4;

/// How slow a device's object is held to be before its first call.
pub(crate) const SLOW_AT_FIRST: u8 = 2;

/// For how many microseconds a guard sleeps before its first look.
pub(crate) const FIRST_LOOK: u64 = 100;

/// For how many microseconds a guard sleeps at most.
pub(crate) const LAST_LOOK: u64 = 1_000;

/// Workers by what they do. A worker is at work under the lock, and outside it while it is out for a moment.
#[derive(Drop)]
pub struct Crew {
    working: usize,
    waiting: usize,
    // One of those that wait was notified, and has not looked since.
    is_notified: bool,
    // One of those that wait is the guard.
    is_guarded: bool,
    // How often a worker went out or came back.
    moves: u64,
    // How often a guard stepped in: then the workers that are out have no place any more.
    relieved: u64,
    // How often a worker that was notified looked.
    arrivals: u64,
    // For each object, how slow what is done for it outside the lock is held to be: 0 for a moment.
    slowness: Vec<u8>,
}

impl Model for Crew {
    ghost use Rattle.smi_run_shared.specs.Crews.{CrewView};

    ghost Value = { CrewView };

    ghost view = { λ c. record {
      working = c.working;
      waiting = c.waiting;
      is_notified = c.is_notified;
      is_guarded = c.is_guarded;
      moves = c.moves;
      relieved = c.relieved;
      arrivals = c.arrivals;
      slowness = c.slowness.items;
    } };
}

/// Which workers are to be notified once the lock is released. It can't be dropped, so that it isn't forgotten.
pub enum Notify {
    /// No worker.
    Nobody,
    /// One of those that wait.
    One,
    /// All that wait.
    All,
}

/// A worker's way out of the lock and back, for the moves of a task or a call of a device.
#[derive(Clone, Copy)]
pub struct Trip {
    object: usize,
    // It left its place.
    is_away: bool,
    // As it left, one that waits was notified that had not looked.
    is_another_notified: bool,
    relieved: u64,
    arrivals: u64,
}

/// What a trip that cost its worker the place tells of its object.
#[derive(Clone, Copy)]
enum Pace {
    /// It took a moment, though the object was held to be slow.
    Brief,
    /// It took longer than a wake-up.
    Long,
    /// A guard stepped in, since nobody got on.
    Stuck,
    /// Nobody was notified for it, so nothing is known.
    Unknown,
}

/// How a worker waits.
#[derive(Clone, Copy)]
pub struct Watch {
    is_guard: bool,
    // The count of moves when it looked last, or None if it has not looked, or has not slept its time since.
    seen: Option<u64>,
    micros: u64,
}

impl Watch {
    /// The watch of a worker that begins to wait.
    pub fn new() -> Watch
        ensures guard { result.is_guard ≡ false }
    {
        Watch {
            is_guard: false,
            seen: None,
            micros: FIRST_LOOK,
        }
    }

    /// For how many microseconds the worker sleeps at most, or None if it sleeps until it is notified.
    pub fn micros(&self) -> Option<u64> {
        if self.is_guard {
            Some(self.micros)
        } else {
            None
        }
    }

    // Whether it has seen `moves` moves.
    fn is_up_to_date(&self, moves: u64) -> bool
        ensures { result ≡ is_up_to_date self.now.seen moves }
    {
        match self.seen {
            Some(seen) => seen == moves,
            None => false,
        }
    }
}

/// How slow what is done for an object is held to be at first, with or without a device.
pub fn first_slowness(is_device: bool) -> u8 {
    if is_device { SLOW_AT_FIRST } else { 0 }
}

impl Pace {
    // How slow an object is held to be after a trip, by how slow it was held to be before.
    fn slowness(self, before: u8) -> u8
        ensures { result ≡ slowness_by self before }
    {
        match self {
            Pace::Brief => before.saturating_sub(1),
            Pace::Long => before.saturating_add(1).min(SLOWEST),
            Pace::Stuck => SLOWEST,
            Pace::Unknown => before,
        }
    }
}

impl Crew {
    /// No worker, with how slow each object is held to be (`first_slowness`).
    pub fn new(slowness: Vec<u8>) -> Crew
        ensures { result ≡ record {
          working = 0;
          waiting = 0;
          is_notified = false;
          is_guarded = false;
          moves = 0;
          relieved = 0;
          arrivals = 0;
          slowness = slowness.items;
        } }
    {
        Crew {
            working: 0,
            waiting: 0,
            is_notified: false,
            is_guarded: false,
            moves: 0,
            relieved: 0,
            arrivals: 0,
            slowness,
        }
    }

    /// Whether a worker that waits is to be notified, if there is something to do: a worker waits, none was notified,
    /// and either no worker is at work or there is no guard.
    pub(crate) fn wants_one(&self) -> bool
        ensures { result ≡ wants_one self.now }
    {
        self.waiting > 0 && !self.is_notified && !(self.working > 0 && self.is_guarded)
    }

    /// One of those that wait is notified.
    pub(crate) fn notify_one(&mut self)
        ensures { self.new ≡ crew_notified One self.old }
    {
        self.is_notified = true;
    }

    /// All that wait are notified: which of them have looked since is not counted.
    pub(crate) fn notify_all(&mut self)
        ensures { self.new ≡ crew_notified All self.old }
    {
        self.is_notified = false;
    }

    // How slow an object is held to be.
    fn slowness(&self, object: usize) -> u8
        ensures { result ≡ slowness_at self.now object }
    {
        match self.slowness.get(object) {
            Some(slowness) => *slowness,
            None => 0,
        }
    }

    fn set_slowness(&mut self, object: usize, slowness: u8)
        ensures { self.new ≡ record self.old { slowness = slice_set self.old.slowness object slowness } }
    {
        if let Some(place) = self.slowness.get_mut(object) {
            *place = slowness;
        }
    }

    /// A worker goes out for an object. If the object is slow, it leaves its place.
    pub(crate) fn go_out(&mut self, object: usize) -> Trip
        ensures crew { self.new ≡ crew_out object self.old }
        ensures trip { result ≡ trip_out object self.old }
    {
        let is_away = self.slowness(object) > 0;
        self.moves = self.moves.saturating_add(1);
        if is_away {
            self.working = self.working.saturating_sub(1);
        }
        Trip {
            object,
            is_away,
            is_another_notified: false,
            relieved: self.relieved,
            arrivals: self.arrivals,
        }
    }

    /// The trip once it is decided whether one is notified.
    pub(crate) fn known(&self, trip: Trip) -> Trip
        ensures { result ≡ record trip { is_another_notified = self.now.is_notified } }
    {
        Trip {
            is_another_notified: self.is_notified,
            ..trip
        }
    }

    // Whether a worker that comes back has no place: it left it, or a guard stepped in meanwhile.
    fn has_no_place(&self, trip: &Trip) -> bool
        ensures { result ≡ has_no_place trip.now self.now }
    {
        trip.is_away || trip.relieved != self.relieved
    }

    // Whether a trip for a slow object was brief after all: its worker had to wait for the lock, or another was
    // notified for it, and nobody that was notified has looked since.
    fn was_brief(&self, trip: &Trip, is_crowded: bool) -> bool
        ensures { result ≡ was_brief trip.now is_crowded self.now }
    {
        is_crowded || (trip.is_another_notified && trip.arrivals == self.arrivals)
    }

    // What a trip that cost its worker the place tells of its object.
    fn pace(&self, trip: &Trip, is_crowded: bool) -> Pace
        ensures { result ≡ pace_of trip.now is_crowded self.now }
    {
        if !trip.is_away {
            Pace::Stuck
        } else if self.was_brief(trip, is_crowded) {
            Pace::Brief
        } else if trip.is_another_notified {
            Pace::Long
        } else {
            Pace::Unknown
        }
    }

    // Whether a worker that comes back may be one too many: it had to wait for the lock, and for its object it will be
    // out for a moment only.
    fn is_spare_after(&self, trip: &Trip, is_crowded: bool) -> bool
        ensures { result ≡ is_spare_after trip.now is_crowded self.now }
    {
        if !is_crowded {
            return false;
        }
        if trip.is_away {
            return self.slowness(trip.object) <= 1;
        }
        trip.relieved == self.relieved
    }

    /// A worker came back from a trip, and had to wait for the lock or not. Tells whether it may be one too many.
    pub(crate) fn come_back(&mut self, trip: Trip, is_crowded: bool) -> bool
        ensures crew { self.new ≡ crew_back trip is_crowded self.old }
        ensures spare { result ≡ is_spare_after trip is_crowded self.old }
    {
        let is_spare = self.is_spare_after(&trip, is_crowded);
        if self.has_no_place(&trip) {
            let slowness = self.slowness(trip.object);
            let after = self.pace(&trip, is_crowded).slowness(slowness);
            self.set_slowness(trip.object, after);
            self.working = self.working.saturating_add(1);
        }
        self.moves = self.moves.saturating_add(1);
        is_spare
    }

    /// Whether a worker that may be one too many makes way, since another is at work.
    pub(crate) fn makes_way(&self, is_spare: bool) -> bool
        ensures { result ≡ makes_way is_spare self.now }
    {
        is_spare && self.working > 1
    }

    /// A worker is at work no more.
    pub(crate) fn stop(&mut self)
        ensures { self.new ≡ crew_without_one self.old }
    {
        self.working = self.working.saturating_sub(1);
    }

    /// Whether one that waits is to begin to work, if there is something to do: nobody is at work, or it is the
    /// guard and nobody got on since it looked last.
    pub(crate) fn is_needed(&self, watch: &Watch) -> bool
        ensures { result ≡ is_needed watch.now self.now }
    {
        self.working == 0 || (watch.is_guard && watch.is_up_to_date(self.moves))
    }

    // Whether another than the one with this watch is the guard.
    fn is_another_guard(&self, watch: &Watch) -> bool
        ensures { result ≡ is_another_guard watch.now self.now }
    {
        self.is_guarded && !watch.is_guard
    }

    /// One that waited begins to work. Those that were at work have no place any more.
    pub(crate) fn begin(&mut self, watch: &Watch)
        ensures { self.new ≡ crew_begun watch.now self.old }
    {
        self.is_guarded = self.is_another_guard(watch);
        if self.working > 0 {
            self.relieved = self.relieved.saturating_add(1);
        }
        self.working = 1;
    }

    /// One that waited ends.
    pub(crate) fn leave(&mut self, watch: &Watch)
        ensures { self.new ≡ crew_left watch.now self.old }
    {
        self.is_guarded = self.is_another_guard(watch);
    }

    // Whether one that waits on is the guard: as long as somebody is at work, if there is no other guard, and if it was
    // the guard itself, as long as they get on.
    fn is_guard_next(&self, watch: &Watch) -> bool
        ensures { result ≡ is_guard_next watch.now self.now }
    {
        if self.working == 0 {
            return false;
        }
        if watch.is_guard {
            return !watch.is_up_to_date(self.moves);
        }
        !self.is_guarded
    }

    // For how long one sleeps at most that waits on: a guard that saw others get on twice as long as before.
    fn next_micros(&self, watch: &Watch) -> u64
        ensures { result ≡ micros_next watch.now self.now }
    {
        if watch.is_guard && !watch.is_up_to_date(self.moves) {
            watch.micros.min(LAST_LOOK / 2) * 2
        } else {
            watch.micros
        }
    }

    /// A worker waits from now on, or waits on. If nobody gets on and there is nothing to do, there is no guard: the
    /// thread that brings something notifies a worker again.
    pub(crate) fn wait(&mut self, watch: Watch) -> Watch
        ensures crew { self.new ≡ crew_waiting watch self.old }
        ensures watch { result ≡ watch_next watch self.old }
    {
        let is_guard = self.is_guard_next(&watch);
        let micros = self.next_micros(&watch);
        self.is_guarded = is_guard || self.is_another_guard(&watch);
        self.waiting = self.waiting.saturating_add(1);
        Watch {
            is_guard,
            seen: Some(self.moves),
            micros,
        }
    }

    /// One that waited looks. A guard that was notified in between has not slept its time.
    pub(crate) fn look(&mut self, watch: Watch) -> Watch
        ensures crew { self.new ≡ crew_looked self.old }
        ensures watch { result ≡ watch_looked watch self.old }
    {
        self.waiting = self.waiting.saturating_sub(1);
        if !self.is_notified {
            return watch;
        }
        self.is_notified = false;
        self.arrivals = self.arrivals.saturating_add(1);
        Watch {
            seen: None,
            ..watch
        }
    }
}
