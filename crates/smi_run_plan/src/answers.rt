//! What the devices of a script answer.
ghost use Rattle.std.specs.Prelude.{◌≡◌, IfOk};
ghost use Rattle.smi_run_plan.specs.Devices.{devices_from};

use crate::device::ScriptDevice;
use sml_domain::{Domain, ObjId};
use std::alloc::{AllocError, Global};

/// What the devices answer, for each object of a domain.
#[derive(Drop)]
pub struct DeviceAnswers {
    pub(crate) devices: Vec<ScriptDevice>,
}

impl DeviceAnswers {
    /// Returns the devices of the objects that have one, in the order of their declaration. The domain is the one that
    /// the script was read for. The cost is the count of objects.
    pub fn devices(self, alloc: Global, domain: &Domain) -> Result<Vec<ScriptDevice>, AllocError>
        ensures { IfOk result (λ v. v.items ≡ devices_from domain.now 0 self.devices.items) }
    {
        let mut devices = Vec::new(alloc);
        for (o, device) in self.devices.into_iter().enumerate() {
            if domain.associated(ObjId::new(o)) {
                devices.push(device)?;
            }
        }
        Ok(devices)
    }
}
