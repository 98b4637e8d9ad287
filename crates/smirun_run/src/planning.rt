//! The plan of a script.
ghost use Rattle.std.specs.Prelude.{IfErr, IfOk};
ghost use Rattle.std.specs.Arc.{arc_value};
ghost use Rattle.smi_run_plan.specs.Plans.{IsPlanOfText};
ghost use Rattle.smirun_run.specs.Running.{HasDevices};
ghost use Rattle.smirun_run.specs.Unplanned.{IsUnplanned};

use smi_run_plan::{LONGEST_SCRIPT, Plan, ScriptError, read_script};
use smirun_commands::{Advice, Fault, load_prefix};
use sml_domain::Domain;
use std::alloc::Global;
use std::fs::Files;
use std::io::Read;
use std::sync::Arc;

/// The plan of a script of this path, which is read whole. What is advised on its lines goes to the advice.
pub(crate) fn load_plan<'a, R: Files + AllocGlobal, I: Read>(
    rt: &R,
    input: &mut I,
    domain: &Arc<Domain>,
    script: &'a str,
    advice: &mut Advice,
) -> Result<Plan, Fault<'a>>
    ensures devices { IfOk result (HasDevices (arc_value domain.now)) }
{
    // One byte more, so that a script which is too long is seen to be so.
    match load_prefix(rt, input, script, LONGEST_SCRIPT as u64 + 1) {
        Ok(text) => advised_plan(rt.alloc(), domain, script, text.as_slice(), advice),
        Err(error) => Err(Fault::of_input(script, &error)),
    }
}

// The plan of the text of a script. What is advised on a fault, or on lines that will be refused, goes to the advice.
#[tactic(auto, using(crate::proofs::Planned::has_devices))]
fn advised_plan<'a>(
    heap: Global,
    domain: &Arc<Domain>,
    script: &'a str,
    text: &[u8],
    advice: &mut Advice,
) -> Result<Plan, Fault<'a>>
    ensures devices { IfOk result (HasDevices (arc_value domain.now)) }
{
    let plan = plan_of_bytes(heap, domain, script, text);
    match &plan {
        Ok(_) => {
            advice.of_requests(heap, domain, script, text);
            advice.of_devices(heap, domain, script, text);
        }
        Err(fault) => advice.of_script(domain, script, text, fault),
    }
    plan
}

/// The plan of the text of a script: what each session does, and what the devices answer.
///
/// Cost and memory are those of `read_script`. The error is the fault of the script, by its path, or `Memory`.
pub fn plan_of_bytes<'a>(
    heap: Global,
    domain: &Domain,
    script: &'a str,
    text: &[u8],
) -> Result<Plan, Fault<'a>>
    ensures plan { IfOk result (IsPlanOfText domain.now text.now) }
    ensures err { IfErr result (IsUnplanned domain.now script.now text.now) }
{
    match read_script(heap, domain, text) {
        Ok(plan) => Ok(plan),
        Err(ScriptError::TooLong) => Err(Fault::TooLong(script)),
        Err(ScriptError::BadLine(number)) => Err(Fault::BadLine(script, number)),
        Err(ScriptError::Memory) => Err(Fault::Memory),
    }
}
