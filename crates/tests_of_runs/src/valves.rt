//! Supplies that a test holds back.
ghost use Rattle.std.specs.Prelude.{◌≡◌};

use crate::devices::state_after;
use smi_journal::Args;
use smi_run::{Device, DeviceFault};
use sml_domain::{ActionId, StateId};
use std::alloc::Global;
use std::sync::atomic::{AtomicU64, Ordering};
use std::sync::{Arc, Wait};
use std::time::Duration;

/// Supplies answer at once.
pub const BRIEF: u64 = 0;

/// The first supply waits until another mode is set; the others answer at once.
pub const HELD: u64 = 1;

/// Each supply waits until as many were entered as are to meet.
pub const MEET: u64 = 2;

/// The first supply sleeps before it answers; the others answer at once.
pub const SLOW: u64 = 3;

/// How often the session looks before it gives up waiting: with `NAP`, for two seconds and more.
pub const NAPS: u64 = 10_000;

// How often a supply looks before it fails. It is released before, since the session gives up sooner.
const DEVICE_NAPS: u64 = 1_000_000;

/// For how many microseconds one sleeps between two looks.
pub const NAP: u64 = 200;

// For how many microseconds a slow supply sleeps.
const SLOW_NAP: u64 = 2_000;

/// Sleeps for `micros` microseconds, or less.
pub fn nap<R: Wait>(rt: &R, micros: u64) {
    let clock = AtomicU64::new(0);
    clock.park_timeout(rt, 0, Duration::from_micros(micros));
}

/// What supplies are to do, and how many were entered that are to meet.
#[derive(Drop)]
pub struct Stage {
    mode: AtomicU64,
    entered: AtomicU64,
    meeting: u64,
}

impl Stage {
    /// Supplies that answer at once, of which `meeting` are to meet.
    pub fn new(meeting: u64) -> Stage {
        Stage {
            mode: AtomicU64::new(BRIEF),
            entered: AtomicU64::new(0),
            meeting,
        }
    }

    /// Sets what supplies do from now on.
    pub fn set(&self, mode: u64) {
        self.mode.store(mode, Ordering::SeqCst);
    }

    // Whether a supply that was entered may answer.
    fn is_free(&self, place: usize) -> bool {
        match self.mode.load(Ordering::SeqCst) {
            HELD => place > 0,
            MEET => self.entered.load(Ordering::SeqCst) >= self.meeting,
            _ => true,
        }
    }

    // Enters a supply.
    fn enter<R: Wait>(&self, rt: &R, place: usize) {
        match self.mode.load(Ordering::SeqCst) {
            MEET => {
                self.entered.fetch_add(1, Ordering::SeqCst);
            }
            SLOW if place == 0 => nap(rt, SLOW_NAP),
            _ => {}
        }
    }

    // Waits until a supply that was entered may answer. Whether it may.
    fn lets_go<R: Wait>(&self, rt: &R, place: usize) -> bool {
        for _ in 0..DEVICE_NAPS {
            if self.is_free(place) {
                return true;
            }
            nap(rt, NAP);
        }
        false
    }
}

/// A supply that answers when its stage lets it go.
#[derive(Drop)]
pub struct Valve {
    place: usize,
    faults: u64,
    stage: Arc<Stage, Global>,
}

impl Device for Valve {
    ghost faults = { λ s. s.faults };

    fn perform<R: Wait>(
        &mut self,
        rt: &R,
        action: ActionId,
        _given: &Args,
    ) -> Result<StateId, DeviceFault> {
        self.stage.enter(rt, self.place);
        if self.stage.lets_go(rt, self.place) {
            if let Some(state) = state_after(action.get()) {
                return Ok(StateId::new(state));
            }
        }
        self.faults = self.faults.saturating_add(1);
        Err(DeviceFault)
    }
}

/// Returns `count` supplies of one stage.
pub fn valves(alloc: Global, stage: &Arc<Stage, Global>, count: usize) -> Option<Vec<Valve>> {
    let mut devices = Vec::new(alloc);
    for place in 0..count {
        let device = Valve {
            place,
            faults: 0,
            stage: Arc::try_clone(stage).ok()?,
        };
        devices.push(device).ok()?;
    }
    Some(devices)
}
