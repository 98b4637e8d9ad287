//! Who watches a run.

use crate::workers::Workers;
use smi_mail::MailNames;
use smi_run_runtime::Runtime;
use smi_run_shared::{Progress, Tally};
use std::sync::Wait;

/// What one who watches a run wants.
#[derive(Clone, Copy, Debug, Eq, PartialEq)]
pub enum Wish {
    /// To look away from now on.
    Away,
    /// To be asked again.
    Later,
    /// To hear how far the run is.
    Now,
}

/// One who watches a run, in the thread that started the others.
pub trait Watch {
    /// What is wanted, after a moment that is waited here. Asked over and over while workers are at work. The run
    /// continues only once the last answer is there, so a moment is to be short.
    fn wish(&mut self) -> Wish;

    /// How far the run is.
    fn tell(&mut self, progress: Progress);

    /// The workers have ended. Not called of one who looked away.
    fn end(&mut self);
}

/// One who looks away at once.
#[derive(Drop)]
pub struct Unwatched;

impl Watch for Unwatched {
    fn wish(&mut self) -> Wish {
        Wish::Away
    }

    fn tell(&mut self, _progress: Progress) {}

    fn end(&mut self) {}
}

// Someone watches a run until its workers have ended.
pub(crate) fn watch_all<R: Wait + Copy + Send, K: MailNames, D, W: Watch>(
    rt: &R,
    runtime: &Runtime<R, K, D>,
    workers: &Workers,
    watcher: &mut W,
) {
    let mut tally = Tally::new();
    for _ in rt.forever() {
        if workers.have_ended() {
            break;
        }
        match watcher.wish() {
            Wish::Away => return,
            Wish::Later => {}
            Wish::Now => watcher.tell(runtime.progress(rt, &mut tally)),
        }
    }
    watcher.end();
}
