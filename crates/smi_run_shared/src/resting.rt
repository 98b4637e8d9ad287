//! Which workers are notified when the lock is released, and what a worker does that is not at work.
ghost use Rattle.std.specs.Prelude.{◌≡◌, ◌-◌};
ghost use Rattle.smi_run_shared.specs.declared.crew.Notify.TheVariants.{All, One};
ghost use Rattle.smi_run_shared.specs.Crews.{crew_back, crew_looked, crew_notified, crew_out, crew_without_one, is_spare_after, trip_out, watch_looked};
ghost use Rattle.smi_run_shared.specs.Notices.{NotifiesLast, NotifiesWanted, Pauses};

use crate::crew::{Notify, Trip, Watch};
use crate::ending::ServeEnd;
use crate::shared::Shared;
use smi_mail::MailNames;
use std::sync::Wait;

/// What a worker does that is not at work.
pub enum Pause {
    /// It ends, since all is over, and notifies the others.
    Over { end: ServeEnd, notify: Notify },
    /// It begins to work.
    Begin,
    /// It sleeps, until it is notified or, as the guard, for a while.
    Sleep(Watch),
}

impl<R: Wait + Copy + Send, K: MailNames> Shared<R, K> {
    /// Who is to be notified if the lock is released now: one worker, if a worker that waits is wanted and something
    /// comes next, and else nobody. The worker then counts as notified, and the caller must notify it, so no worker is
    /// notified twice before it gets the lock. The cost is that of `Board::has_next`, if a worker that waits is wanted.
    pub fn notify_wanted(&mut self) -> Notify
        ensures notifies { NotifiesWanted self.old.crew self.old.board result self.new.crew }
        ensures same { self.new ≡ record self.old { crew = self.new.crew } }
    {
        if !self.crew.wants_one() || !self.board.has_next() {
            return Notify::Nobody;
        }
        self.crew.notify_one();
        Notify::One
    }

    /// A session has left. The last one notifies all.
    pub fn leave(&mut self) -> Notify
        ensures sessions { self.new.sessions ≡ self.old.sessions - 1 }
        ensures notifies { NotifiesLast self.new.sessions self.old.crew result self.new.crew }
        ensures same { self.new ≡ record self.old { sessions = self.new.sessions; crew = self.new.crew } }
    {
        self.sessions = self.sessions.saturating_sub(1);
        if self.sessions > 0 {
            return Notify::Nobody;
        }
        self.crew.notify_all();
        Notify::All
    }

    /// A worker goes out of the lock, for the moves of a task of an object or a call of its device.
    pub fn go_out(&mut self, object: usize) -> (Trip, Notify)
        ensures notifies { NotifiesWanted (crew_out object self.old.crew) self.old.board result.1 self.new.crew }
        ensures trip { result.0 ≡ record (trip_out object self.old.crew) {
          is_another_notified = self.new.crew.is_notified;
        } }
        ensures same { self.new ≡ record self.old { crew = self.new.crew } }
    {
        let trip = self.crew.go_out(object);
        let notify = self.notify_wanted();
        (self.crew.known(trip), notify)
    }

    /// A worker came back, and had to wait for the lock or not. Returns whether it may be one too many.
    pub fn come_back(&mut self, trip: Trip, is_crowded: bool) -> bool
        ensures crew { self.new ≡ record self.old { crew = crew_back trip is_crowded self.old.crew } }
        ensures spare { result ≡ is_spare_after trip is_crowded self.old.crew }
    {
        self.crew.come_back(trip, is_crowded)
    }

    /// A worker is at work no more, and rests.
    pub fn stop(&mut self)
        ensures { self.new ≡ record self.old { crew = crew_without_one self.old.crew } }
    {
        self.crew.stop();
    }

    /// A worker that is out of memory is at work no more, and ends. It notifies all.
    pub fn give_up(&mut self) -> Notify
        ensures all { result ≡ All }
        ensures crew { self.new ≡ record self.old {
          crew = crew_notified All (crew_without_one self.old.crew);
        } }
    {
        self.crew.stop();
        self.crew.notify_all();
        Notify::All
    }

    /// What a worker does that is not at work: it ends if all is over; else it begins to work if something comes
    /// next and it is needed; and else it waits. The cost is that of `Board::quiet`.
    pub fn rest(&mut self, watch: Watch) -> Pause
        ensures pauses { Pauses self.old.sessions self.old.is_limited self.old.board watch self.old.crew
            result self.new.crew }
        ensures same { self.new ≡ record self.old { crew = self.new.crew } }
    {
        if let Some(end) = self.ended() {
            self.crew.leave(&watch);
            self.crew.notify_all();
            return Pause::Over {
                end,
                notify: Notify::All,
            };
        }
        if self.crew.is_needed(&watch) && self.board.has_next() {
            self.crew.begin(&watch);
            return Pause::Begin;
        }
        Pause::Sleep(self.crew.wait(watch))
    }

    /// One that waited looks, with the lock: it was notified, or has slept its time.
    pub fn look(&mut self, watch: Watch) -> Watch
        ensures crew { self.new ≡ record self.old { crew = crew_looked self.old.crew } }
        ensures watch { result ≡ watch_looked watch self.old.crew }
    {
        self.crew.look(watch)
    }
}
