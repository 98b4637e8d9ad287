//! Workers over a board under a lock.
ghost use Rattle.std.specs.Prelude.{◌≡◌, ◌<◌, IfSome, length, slice_get};
ghost use Rattle.smi_run_runtime.specs.Opening.{device_places};
ghost use Rattle.sml_domain.specs.Lookups.{object_named};

use crate::opening::Config;
use crate::session::{Closed, Session};
use smi_board::{KillError, Started};
use smi_journal_entries::SessionId;
use smi_mail::MailNames;
use smi_run_shared::{
    Device, DeviceFault, Job, Notify, Pause, Progress, ServeEnd, Shared, Tally, Trip, Watch,
    make_moves,
};
use sml_domain::{Domain, ObjId, StateId};
use sml_tree::Name;
use std::marker::Model;
use std::sync::{Arc, Condvar, Mutex, MutexGuard, Wait};
use std::time::Duration;

/// A board that workers and sessions share under one lock, with the devices of its objects. Contracts see its
/// numbers; of what the lock holds they say what `Shared::keeps` says.
#[derive(Drop)]
pub struct Runtime<R: Wait + Copy + Send, K: MailNames, D> {
    pub(crate) shared: Mutex<Shared<R, K>>,
    // Notified if a worker that waits could do something, and if all is over.
    pub(crate) changed: Condvar,
    pub(crate) devices: Vec<Mutex<D>>,
    // The place of each object's device.
    pub(crate) places: Vec<usize>,
    pub(crate) domain: Arc<Domain>,
    pub(crate) sessions: usize,
    pub(crate) config: Config,
}

impl<R: Wait + Copy + Send, K: MailNames, D> Model for Runtime<R, K, D> {
    ghost use Rattle.std.specs.Prelude.{◌≡◌, length};
    ghost use Rattle.std.specs.Arc.{arc_value};
    ghost use Rattle.smi_run_report.specs.Reports.{device_count};
    ghost use Rattle.smi_run_runtime.specs.declared.opening.Config.{Config as Numbers};
    ghost use Rattle.smi_run_runtime.specs.Opening.{device_places};

    ghost Value = { Numbers };

    ghost view = { λ r. r.config };

    ghost invariant = { λ r. (arc_value r.domain ≡ K.names.domain) × (r.sessions ≡ K.names.sessions)
        × (length r.devices.items ≡ device_count K.names.domain)
        × (r.places.items ≡ device_places K.names.domain) };
}

impl<R: Wait + Copy + Send, K: MailNames, D> Runtime<R, K, D> {
    /// The numbers of the run.
    pub fn config(&self) -> Config
        ensures { result ≡ self.now }
    {
        self.config
    }

    /// The domain.
    pub fn domain(&self) -> &Domain
        ensures { result.now ≡ K.names.domain }
    {
        &self.domain
    }

    // The object with a name.
    pub(crate) fn object(&self, name: &Name) -> Option<ObjId>
        ensures is { result ≡ object_named K.names.domain name.now }
        ensures within { IfSome result (λ o. o < length K.names.domain.objects) }
    {
        self.domain.object(name)
    }

    // Where an object was killed, as the board says now.
    pub(crate) fn dead_at(&self, rt: &R, o: ObjId) -> Option<u64>
        requires { o < length K.names.domain.objects }
    {
        self.shared.lock(rt).dead_at(o)
    }

    // Notifies the workers that the lock's last holder picked, once the lock is free. Why no wake-up is lost is said at
    // the head of `smi_run_shared::crew`.
    fn notify(&self, whom: Notify) {
        match whom {
            Notify::Nobody => {}
            Notify::One => self.changed.notify_one(),
            Notify::All => self.changed.notify_all(),
        }
    }

    // A worker releases the lock for something that it does for an object.
    fn go_out(&self, mut shared: MutexGuard<'_, Shared<R, K>>, object: usize) -> Trip {
        let (trip, whom) = shared.go_out(object);
        drop(shared);
        self.notify(whom);
        trip
    }

    // A worker takes the lock again. Returns also whether it may be one too many.
    fn come_back(&self, rt: &R, trip: Trip) -> (MutexGuard<'_, Shared<R, K>>, bool) {
        if let Some(mut shared) = self.shared.try_lock() {
            let is_spare = shared.come_back(trip, false);
            return (shared, is_spare);
        }
        let mut shared = self.shared.lock(rt);
        let is_spare = shared.come_back(trip, true);
        (shared, is_spare)
    }

    // A worker that is not at work releases the lock and sleeps, until it is notified or, as the guard, for a while.
    fn sleep<'a>(
        &'a self,
        rt: &R,
        shared: MutexGuard<'a, Shared<R, K>>,
        watch: &Watch,
    ) -> MutexGuard<'a, Shared<R, K>> {
        let Some(micros) = watch.micros() else {
            return self.changed.wait(rt, shared);
        };
        // Read under the lock: a notification between the lock and the sleep ends the sleep.
        let seen = self.changed.notifications();
        drop(shared);
        self.changed.sleep(rt, seen, Duration::from_micros(micros));
        self.shared.lock(rt)
    }

    // A worker that is not at work waits until it is to begin, or all is over.
    fn rest<'a>(
        &'a self,
        rt: &R,
        shared: MutexGuard<'a, Shared<R, K>>,
    ) -> Result<MutexGuard<'a, Shared<R, K>>, ServeEnd> {
        let mut shared = shared;
        let mut watch = Watch::new();
        for _ in rt.forever() {
            match shared.rest(watch) {
                Pause::Over { end, notify } => {
                    drop(shared);
                    self.notify(notify);
                    return Err(end);
                }
                Pause::Begin => return Ok(shared),
                Pause::Sleep(next) => {
                    shared = self.sleep(rt, shared, &next);
                    watch = shared.look(next);
                }
            }
        }
        unreachable!()
    }

    // A session kills an object.
    pub(crate) fn kill(&self, rt: &R, o: ObjId, session: SessionId) -> Result<u64, KillError>
        requires { o < length K.names.domain.objects }
    {
        let mut shared = self.shared.lock(rt);
        let (killed, whom) = shared.kill(o, session);
        drop(shared);
        self.notify(whom);
        killed
    }

    // An object has one request more.
    pub(crate) fn wake(&self, rt: &R, o: ObjId)
        requires { o < length K.names.domain.objects }
    {
        let mut shared = self.shared.lock(rt);
        let whom = shared.wake(o);
        drop(shared);
        self.notify(whom);
    }

    /// How far the run is, as `Shared::progress` says. It takes the board's lock once.
    ///
    /// A session's post counts a moment after it is in the mailbox, and before the session is told. If it is
    /// started in between, `waiting` is one too few for that moment, though not below zero.
    pub fn progress(&self, rt: &R, tally: &mut Tally) -> Progress {
        self.shared.lock(rt).progress(tally)
    }

    /// A session leaves: it posts and kills no more. Once the last has left, the workers may end.
    pub fn leave(&self, rt: &R, session: Session<K>) -> Closed<K>
        ensures { result ≡ session }
    {
        let mut shared = self.shared.lock(rt);
        let whom = shared.leave();
        drop(shared);
        self.notify(whom);
        Closed { session }
    }
}

impl<R: Wait + Copy + Send, K: MailNames, D: Device> Runtime<R, K, D> {
    // The place of an object's device.
    fn place(&self, object: usize) -> Option<usize>
        ensures { result ≡ slice_get (device_places K.names.domain) object }
    {
        match self.places.get(object) {
            Some(place) => Some(*place),
            None => None,
        }
    }

    // A device performs what was started at its object, outside the board's lock. An object without one has a fault.
    fn perform(&self, rt: &R, object: usize, started: &Started) -> Result<StateId, DeviceFault> {
        let Started::Perform { action, args } = started else {
            return Err(DeviceFault);
        };
        let Some(place) = self.place(object) else {
            return Err(DeviceFault);
        };
        let Some(device) = self.devices.get(place) else {
            return Err(DeviceFault);
        };
        device.lock(rt).perform(rt, *action, args)
    }

    /// Serves as one worker: until all is over or memory runs out it takes what can be done next, under the board's
    /// lock, and does it. The moves of a task up to one that asks the board for something are made outside the lock,
    /// and so are calls of devices.
    ///
    /// It ends as `ServeEnd` says. If nothing can be done and not all is over, it waits for sessions that have not
    /// left and for what other workers have in hand. It also waits if another worker is at work that will do in a
    /// moment what there is. A session that is dropped without `leave` keeps the workers waiting for ever.
    ///
    /// The thread that releases the lock notifies a worker that waits if something can be done and nobody does it. One
    /// of those that wait looks now and then whether those at work get on. The last session that leaves and a worker
    /// that ends notify all. (`smi_run_shared::crew` has the rules.)
    pub fn serve(&self, rt: &R) -> ServeEnd {
        let mut shared = match self.rest(rt, self.shared.lock(rt)) {
            Ok(shared) => shared,
            Err(end) => return end,
        };
        let mut is_spare = false;
        let mut job = Job::Again;
        for _ in rt.forever() {
            match job {
                Job::Again => job = shared.job_after(is_spare),
                Job::Move(mut task) => {
                    let trip = self.go_out(shared, task.turn().object.get());
                    let is_moved = make_moves(rt, &mut task);
                    (shared, is_spare) = self.come_back(rt, trip);
                    job = shared.contact(task, is_moved);
                }
                Job::Perform { object, started } => {
                    let trip = self.go_out(shared, object);
                    let answer = self.perform(rt, object, &started);
                    (shared, is_spare) = self.come_back(rt, trip);
                    shared.answered(object, answer);
                    job = Job::Again;
                }
                Job::Rest => {
                    shared.stop();
                    shared = match self.rest(rt, shared) {
                        Ok(shared) => shared,
                        Err(end) => return end,
                    };
                    is_spare = false;
                    job = Job::Again;
                }
                Job::Memory => {
                    let whom = shared.give_up();
                    drop(shared);
                    self.notify(whom);
                    return ServeEnd::Memory;
                }
            }
        }
        unreachable!()
    }
}
