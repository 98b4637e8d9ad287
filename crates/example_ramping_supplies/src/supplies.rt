//! Three supplies, their commands, and what comes of them.
ghost use Rattle.std.specs.Prelude.{◌≡◌};
ghost use Rattle.std.specs.Arc.{arc_value};

use crate::fault::Fault;
use smi_mail::{MailNames, Mailboxes, ruled};
use smi_run::{Args, Config, Device, DeviceFault, Report, Runtime, run_scripts};
use smi_run_plan::{Plan, read_script};
use sml_check::{ActionId, Domain, Name, ObjId, StateId, Value};
use std::alloc::Global;
use std::io;
use std::io::Write;
use std::sync::{Arc, Wait};
use std::thread::Threads;

const DOMAIN: &[u8] = b"class: CONTROL
  state: IDLE /initial_state
    action: CONFIGURE (int VOLTS)
      do SWITCH_ON (VOLTS = VOLTS) all_in SUPPLIES
      if ( all_in SUPPLIES in_state ON ) then
        move_to READY
      endif
      move_to ERROR
  state: READY
  state: ERROR
class: SUPPLY /associated
  state: OFF /initial_state action: SWITCH_ON (int VOLTS)
  state: ON action: SWITCH_OFF
object: RUN is_of_class CONTROL
object: HV1 is_of_class SUPPLY object: HV2 is_of_class SUPPLY object: HV3 is_of_class SUPPLY
objectset: SUPPLIES { HV1, HV2 }
";

const SCRIPT: &[u8] = b"request @1 RUN CONFIGURE (VOLTS = 1500)
request @2 HV3 SWITCH_ON (VOLTS = 1200)
request @2 HV3 SWITCH_OFF
request @2 HV3 SWITCH_ON (VOLTS = 5000)
";

// By how much a supply goes up at once, and how much it withstands.
const STEP: i64 = 100;

const MOST_VOLTS: i64 = 2000;

/// A supply that ramps up in steps, and fails above what it withstands. It knows the numbers of its action and states.
#[derive(Drop)]
struct Supply {
    switch_on: ActionId,
    off: StateId,
    on: StateId,
    volts: i64,
    steps: i64,
    faults: u64,
}

impl Supply {
    // A supply in a domain, or None if the domain lacks the names of a supply.
    fn of(domain: &Domain) -> Option<Supply> {
        Some(Supply {
            switch_on: domain.action(&Name::from_word(b"SWITCH_ON"))?,
            off: domain.state(&Name::from_word(b"OFF"))?,
            on: domain.state(&Name::from_word(b"ON"))?,
            volts: 0,
            steps: 0,
            faults: 0,
        })
    }
}

impl Device for Supply {
    // A supply that answers a fault counts it; one that answers a state does not.
    ghost faults = { λ s. s.faults };

    fn perform<R: Wait>(
        &mut self,
        _rt: &R,
        action: ActionId,
        given: &Args,
    ) -> Result<StateId, DeviceFault> {
        if action.get() != self.switch_on.get() {
            self.volts = 0;
            return Ok(self.off);
        }
        let volts = match given.values().first() {
            Some(Value::Int(volts)) => *volts,
            _ => 0,
        };
        if volts > MOST_VOLTS {
            self.faults = self.faults.saturating_add(1);
            return Err(DeviceFault);
        }
        let more = volts.saturating_sub(self.volts).max(0) / STEP;
        self.steps = self.steps.saturating_add(more);
        self.volts = volts;
        Ok(self.on)
    }
}

// A supply for each object with a device, in the order in which these are declared.
fn supplies_of(alloc: Global, domain: &Domain) -> Result<Vec<Supply>, Fault> {
    let mut supplies = Vec::new(alloc);
    for o in 0..domain.objects() {
        if domain.associated(ObjId::new(o)) {
            let Some(supply) = Supply::of(domain) else {
                return Err(Fault::Names);
            };
            if supplies.push(supply).is_err() {
                return Err(Fault::Memory);
            }
        }
    }
    Ok(supplies)
}

// Tells the state of each object, and what its supply did.
fn tell_report<K: MailNames, W: Write>(
    output: &mut W,
    report: &Report<Supply, K>,
) -> io::Result<()> {
    let domain = report.domain();
    let mut supplies = report.devices().iter();
    for o in 0..domain.objects() {
        let o = ObjId::new(o);
        if let (Some(object), Some(state)) = (
            domain.object_name(o),
            domain.state_name(report.state(o)),
        ) {
            writeln!(output, "{object} is {state}")?;
        }
        if domain.associated(o) {
            if let Some(supply) = supplies.next() {
                let (steps, faults) = (supply.steps, supply.faults);
                writeln!(output, "  its supply: {steps} steps up, {faults} faults")?;
            }
        }
    }
    output.flush()
}

// Runs the plan over mailboxes.
fn run_over<K: MailNames + Send + Sync, R: Threads + Wait + Copy + Send + Sync, W: Write>(
    rt: R,
    alloc: Global,
    domain: Arc<Domain>,
    boxes: Mailboxes<R>,
    plan: Plan,
    output: &mut W,
) -> Result<(), Fault>
    requires named { K.names ≡ boxes }
    requires domain { boxes.domain ≡ arc_value domain }
{
    let (scripts, _answers) = plan.into_parts();
    let devices = supplies_of(alloc, &domain)?;
    let config = Config {
        workers: 4,
        max_starts: 1_000_000,
    };
    let Ok((mail, ends)) = ruled::<K, R>(alloc, boxes) else {
        return Err(Fault::Memory);
    };
    let (runtime, sessions) = match Runtime::open(alloc, domain, mail, ends, devices, config) {
        Ok(opened) => opened,
        Err((error, _, _, _)) => return Err(Fault::Open(error)),
    };
    if sessions.len() != scripts.len() {
        return Err(Fault::Sessions);
    }
    match run_scripts(&rt, alloc, runtime, sessions, &scripts) {
        Ok((_end, _refused, report)) => tell_report(output, &report).map_err(Fault::Output),
        Err(_) => Err(Fault::Memory),
    }
}

/// Reads the domain and the script, runs it, and tells what came of it.
pub fn run<R: Threads + Wait + Copy + Send + Sync + Drop, W: Write>(
    rt: R,
    alloc: Global,
    output: &mut W,
) -> Result<(), Fault> {
    let domain = sml_load::domain_of(alloc, DOMAIN).map_err(Fault::Domain)?;
    let plan = read_script(alloc, &domain, SCRIPT).map_err(Fault::Script)?;
    let Ok(shared) = Arc::try_clone(&domain) else {
        return Err(Fault::Memory);
    };
    let Ok(boxes) = Mailboxes::new(rt, alloc, shared, 16, plan.sessions()) else {
        return Err(Fault::Memory);
    };
    run_over::<std::marker::Brand, _, _>(rt, alloc, domain, boxes, plan, output)
}
