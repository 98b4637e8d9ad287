//! A test whose run does not end fails with a sentence.

use std::alloc::Global;
use std::process::Abort;
use std::sync::atomic::{AtomicU64, Ordering};
use std::sync::{Arc, Wait};
use std::thread;
use std::thread::{JoinHandle, Threads};
use std::time::Duration;

// How often it is looked whether a test is over: for 50 seconds. A test has 60, and takes a few.
const LOOKS: u64 = 500;

// For how many milliseconds one sleeps between two looks.
const LOOK: u64 = 100;

/// A thread that waits until a test is over.
#[derive(Drop)]
pub struct Watch {
    is_over: Arc<AtomicU64, Global>,
    watcher: JoinHandle<()>,
}

// Waits until a test is over. If that does not come in time, the process ends with a sentence.
fn wait_for<R: Wait + Abort>(rt: &R, is_over: &AtomicU64) {
    for _ in 0..LOOKS {
        is_over.park_timeout(rt, 0, Duration::from_millis(LOOK));
        if is_over.load(Ordering::SeqCst) == 1 {
            return;
        }
    }
    panic!(rt; "a run did not end in 50 seconds: a worker, a device or a session waits for ever");
}

/// Watches a test from now on, if there is memory and a thread for it.
pub fn begin_watch<R: Threads + Wait + Abort + Copy + Send + Drop + 'static>(
    rt: R,
    alloc: Global,
) -> Option<Watch> {
    let is_over = Arc::new(alloc, AtomicU64::new(0)).ok()?;
    let theirs = Arc::try_clone(&is_over).ok()?;
    let watcher = thread::spawn(&rt, move || wait_for(&rt, &theirs)).ok()?;
    Some(Watch { is_over, watcher })
}

/// The test is over.
pub fn end_watch<R: Threads + Wait>(rt: &R, watched: Option<Watch>) {
    if let Some(Watch { is_over, watcher }) = watched {
        is_over.store(1, Ordering::SeqCst);
        is_over.wake_all();
        watcher.join(rt);
    }
}
