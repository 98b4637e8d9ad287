//! Devices that answer as a script says.
ghost use Rattle.std.specs.Prelude.{◌≡◌, ◌==◌, ◌<◌, ◌+◌, ℕ, IfOk, OnErr, OnOk, None, Some, if◌then◌else◌};
ghost use Rattle.smi_run_shared.specs.Faults.{most_faults};
ghost use Rattle.smi_run_plan.specs.Devices.{answer_to};

use indexmap::IndexMap;
use smi_journal_entries::Args;
use smi_run::{Device, DeviceFault};
use sml_domain::{ActionId, StateId};
use std::alloc::{AllocError, Global};
use std::sync::Wait;

/// The device of one object: it answers an action by the state that the script says last for it, and fails at an
/// action of which the script says nothing. Whether the object's class has the state is not asked here.
#[derive(Drop)]
pub struct ScriptDevice {
    states: IndexMap<usize, StateId>,
    faults: u64,
}

impl ScriptDevice {
    // A device that answers no action. Takes no memory.
    pub(crate) fn new(alloc: Global) -> ScriptDevice
        ensures silent { (a : ℕ) → answer_to result a ≡ None }
        ensures faults { result.faults ≡ 0 }
    {
        ScriptDevice {
            states: IndexMap::new(alloc),
            faults: 0,
        }
    }

    // From now on an action is answered by a state.
    pub(crate) fn set(&mut self, action: ActionId, state: StateId) -> Result<(), AllocError>
        ensures set { OnOk result ((a : ℕ) →
            answer_to self.new a ≡ (if a == action then Some state else answer_to self.old a)) }
        ensures faults { self.new.faults ≡ self.old.faults }
    {
        self.states.insert(action.get(), state)?;
        Ok(())
    }
}

impl Device for ScriptDevice {
    ghost faults = { λ d. d.faults };

    fn perform<R: Wait>(
        &mut self,
        _rt: &R,
        action: ActionId,
        _given: &Args,
    ) -> Result<StateId, DeviceFault>
        ensures fault { OnErr result (self.old.faults < most_faults → self.new.faults ≡ self.old.faults + 1) }
        ensures same { OnOk result (self.new.faults ≡ self.old.faults) }
        ensures answered { IfOk result (λ s. answer_to self.old action ≡ Some s) }
        ensures silent { OnErr result (answer_to self.old action ≡ None) }
        ensures keeps { (a : ℕ) → answer_to self.new a ≡ answer_to self.old a }
    {
        match self.states.get(&action.get()) {
            Some(state) => Ok(*state),
            None => {
                self.faults = self.faults.saturating_add(1);
                Err(DeviceFault)
            }
        }
    }
}
