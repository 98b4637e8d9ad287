//! Supplies, as devices.
ghost use Rattle.std.specs.Prelude.{◌≡◌};

use crate::texts::{OFF, ON, SWITCH_OFF, SWITCH_ON};
use smi_journal::Args;
use smi_run::{Device, DeviceFault};
use sml_domain::{ActionId, StateId};
use std::alloc::Global;
use std::sync::atomic::{AtomicU64, Ordering};
use std::sync::{Arc, Wait};
use std::thread;

// How often a supply looks for the other before it fails.
const TURNS: u64 = 100_000_000;

/// A supply. It returns from an action only after the other was entered, as its count tells.
#[derive(Drop)]
pub struct Supply {
    pub place: usize,
    pub performed: u64,
    faults: u64,
    mine: Arc<AtomicU64, Global>,
    other: Arc<AtomicU64, Global>,
}

impl Supply {
    // Waits until the other supply was entered: whether it was.
    fn meets(&self) -> bool {
        for _ in 0..TURNS {
            if self.other.load(Ordering::SeqCst) > 0 {
                return true;
            }
            thread::yield_now();
        }
        false
    }
}

/// The state after an action.
pub fn state_after(action: usize) -> Option<usize> {
    match action {
        SWITCH_ON => Some(ON),
        SWITCH_OFF => Some(OFF),
        _ => None,
    }
}

impl Device for Supply {
    ghost faults = { λ s. s.faults };

    fn perform<R: Wait>(
        &mut self,
        _rt: &R,
        action: ActionId,
        _given: &Args,
    ) -> Result<StateId, DeviceFault> {
        self.performed = self.performed.saturating_add(1);
        self.mine.fetch_add(1, Ordering::SeqCst);
        if self.meets() {
            if let Some(state) = state_after(action.get()) {
                return Ok(StateId::new(state));
            }
        }
        self.faults = self.faults.saturating_add(1);
        Err(DeviceFault)
    }
}

/// Two supplies, each of which was entered `entered` times.
pub fn supplies(alloc: Global, entered: u64) -> Option<Vec<Supply>> {
    let first = Arc::new(alloc, AtomicU64::new(entered)).ok()?;
    let second = Arc::new(alloc, AtomicU64::new(entered)).ok()?;
    let mut devices = Vec::new(alloc);
    let device = Supply {
        place: 0,
        performed: 0,
        faults: 0,
        mine: Arc::try_clone(&first).ok()?,
        other: Arc::try_clone(&second).ok()?,
    };
    devices.push(device).ok()?;
    let device = Supply {
        place: 1,
        performed: 0,
        faults: 0,
        mine: second,
        other: first,
    };
    devices.push(device).ok()?;
    Some(devices)
}
