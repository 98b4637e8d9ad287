//! Devices: what performs the actions of associated objects.
ghost use Rattle.std.specs.Prelude.{◌≡◌, ◌<◌, ◌+◌, OnErr, OnOk};
ghost use Rattle.smi_run_shared.specs.Faults.{most_faults};

use smi_journal_entries::Args;
use sml_domain::{ActionId, StateId};
use std::sync::Wait;

/// A device failed to perform an action. Its object is killed for it.
#[derive(Clone, Copy, Debug, Eq, PartialEq)]
pub struct DeviceFault;

/// What performs the actions of an associated object. One thread at a time asks it, outside every lock except its own.
///
/// A state that the object's class does not have counts as a fault of the device, but is not in its own count.
pub trait Device {
    ghost use Rattle.std.specs.Prelude.{ℕ};

    // How often it failed: up to 2^64 - 1, where it stays.
    ghost faults: { Self → ℕ };

    /// Performs an action, and returns the state in which the object is then.
    fn perform<R: Wait>(
        &mut self,
        rt: &R,
        action: ActionId,
        given: &Args,
    ) -> Result<StateId, DeviceFault>
        ensures fault { OnErr result (faults self.old < most_faults → faults self.new ≡ faults self.old + 1) }
        ensures same { OnOk result (faults self.new ≡ faults self.old) };
}
