//! The workers of a run.

use smi_run_shared::ServeEnd;
use std::sync::atomic::{AtomicUsize, Ordering};
use std::sync::{Mutex, Wait};

/// The workers of a run: how many have not ended, and how those that have did.
#[derive(Drop)]
pub struct Workers {
    running: AtomicUsize,
    end: Mutex<ServeEnd>,
}

// The worse of two ends: Memory, or else Limit.
fn worse(a: ServeEnd, b: ServeEnd) -> ServeEnd {
    match (a, b) {
        (ServeEnd::Memory, _) | (_, ServeEnd::Memory) => ServeEnd::Memory,
        (ServeEnd::Limit, _) | (_, ServeEnd::Limit) => ServeEnd::Limit,
        _ => ServeEnd::Quiet,
    }
}

impl Workers {
    // `count` workers, none of which has ended.
    pub(crate) fn new(count: usize) -> Workers {
        Workers {
            running: AtomicUsize::new(count),
            end: Mutex::new(ServeEnd::Quiet),
        }
    }

    /// Whether all have ended. One that could not be started has.
    pub fn have_ended(&self) -> bool {
        self.running.load(Ordering::SeqCst) == 0
    }

    // The run ends no better than so.
    pub(crate) fn worsen<R: Wait>(&self, rt: &R, other: ServeEnd) {
        let mut end = self.end.lock(rt);
        *end = worse(*end, other);
    }

    // One of them has ended so.
    pub(crate) fn count_out<R: Wait>(&self, rt: &R, other: ServeEnd) {
        self.worsen(rt, other);
        self.running.fetch_sub(1, Ordering::SeqCst);
    }

    // The worst of the ends.
    pub(crate) fn into_end(self) -> ServeEnd {
        self.end.into_inner()
    }
}
