//! How far a run is, told on a terminal while it lasts.

use smi_run::{Progress, Watch, Wish};
use std::io::Write;
use std::thread;
use std::time::{Clock, Duration, Instant};

// How many milliseconds a run lasts before its progress is told first, and then from one time to the next.
const FIRST: u64 = 2_000;

const EACH: u64 = 250;

// For how many milliseconds no one looks whether the run has ended.
const STEP: u64 = 10;

// One who tells how far a run is, on one line that is written over. A fault of the terminal changes nothing.
#[derive(Drop)]
pub(crate) struct Teller<'a, C: Clock + Drop, E: Write> {
    clock: C,
    errors: &'a mut E,
    began: Option<Instant>,
    due: Duration,
    is_told: bool,
}

impl<'a, C: Clock + Drop, E: Write> Teller<'a, C, E> {
    // One who begins now.
    pub(crate) fn new(clock: C, errors: &'a mut E) -> Teller<'a, C, E> {
        let began = Instant::now(&clock).ok();
        Teller {
            clock,
            errors,
            began,
            due: Duration::from_millis(FIRST),
            is_told: false,
        }
    }
}

impl<C: Clock + Drop, E: Write> Watch for Teller<'_, C, E> {
    fn wish(&mut self) -> Wish {
        thread::sleep(&self.clock, Duration::from_millis(STEP));
        let Some(began) = self.began else {
            return Wish::Away;
        };
        let Ok(time) = began.elapsed(&self.clock) else {
            return Wish::Away;
        };
        if time < self.due {
            return Wish::Later;
        }
        self.due = time.saturating_add(Duration::from_millis(EACH));
        Wish::Now
    }

    fn tell(&mut self, progress: Progress) {
        let Progress {
            starts,
            waiting,
            open,
        } = progress;
        let _ = write!(
            self.errors,
            "\rstarts {starts}, waiting {waiting}, open {open}\x1b[K"
        );
        let _ = self.errors.flush();
        self.is_told = true;
    }

    fn end(&mut self) {
        if self.is_told {
            let _ = write!(self.errors, "\r\x1b[K");
            let _ = self.errors.flush();
        }
    }
}
