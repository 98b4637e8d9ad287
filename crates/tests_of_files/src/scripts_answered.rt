//! What devices answer.

use crate::scripts::{ON, RUN_BETWEEN_SUPPLIES};
use smi_journal::Args;
use smi_run::Device;
use smi_run_plan::{ScriptDevice, read_script};
use sml_domain::{ActionId, Domain};
use sml_load::domain_of;
use std::alloc::Global;
use std::sync::Wait;
use std::test::*;

// The number of an action of the domain, which has fewer than eight.
fn action_named(domain: &Domain, name: &[u8]) -> Option<ActionId> {
    for number in 0..8usize {
        let action = ActionId::new(number);
        if let Some(told) = domain.action_name(action) {
            if told.as_bytes() == name {
                return Some(action);
            }
        }
    }
    None
}

// Whether a device answers an action by a state, or fails where none is named.
fn answers<R: Wait>(
    rt: &R,
    alloc: Global,
    domain: &Domain,
    device: &mut ScriptDevice,
    row: &(&[u8], Option<&[u8]>),
) -> bool {
    let (action, state) = row;
    let Some(action) = action_named(domain, action) else {
        return false;
    };
    let Ok(given) = Args::new(alloc, Vec::new(alloc)) else {
        return false;
    };
    match device.perform(rt, action, &given) {
        Ok(told) => domain
            .state_name(told)
            .map(|name| Some(name.as_bytes()) == *state)
            == Some(true),
        Err(_) => state.is_none(),
    }
}

/// What is asked of the devices of a script, as a row writes it: the place of the device, the action, and the state
/// that it tells, or None if it fails.
type Told = (usize, (&'static [u8], Option<&'static [u8]>));

// Whether the devices of a text tell over a domain what a row says.
fn tell_over<R: Wait>(rt: &R, alloc: Global, domain: &Domain, text: &[u8], rows: &[Told]) -> bool {
    let Ok(plan) = read_script(alloc, domain, text) else {
        return false;
    };
    let (_scripts, by_object) = plan.into_parts();
    let Ok(mut devices) = by_object.devices(alloc, domain) else {
        return false;
    };
    let mut good = devices.len() == 2;
    for (place, row) in rows {
        good = good
            && match devices.get_mut(*place) {
                Some(device) => answers(rt, alloc, domain, device, row),
                None => false,
            };
    }
    good
}

// The same, over the domain of the scripts.
fn tell<R: Wait>(rt: &R, alloc: Global, text: &[u8], rows: &[Told]) -> bool {
    let Ok(domain) = domain_of(alloc, RUN_BETWEEN_SUPPLIES) else {
        return false;
    };
    tell_over(rt, alloc, &domain, text, rows)
}

const ON_IS_ON: (&[u8], Option<&[u8]>) = (b"SWITCH_ON", Some(b"ON"));

const ON_FAILS: (&[u8], Option<&[u8]>) = (b"SWITCH_ON", None);

const OFF_IS_OFF: (&[u8], Option<&[u8]>) = (b"SWITCH_OFF", Some(b"OFF"));

const OFF_FAILS: (&[u8], Option<&[u8]>) = (b"SWITCH_OFF", None);

// A name, a script, and what its devices tell, one after another.
const ROWS: &[(&str, &[u8], &[Told])] = &[
    (
        "no line: each device fails",
        b"",
        &[(0, ON_FAILS), (1, ON_FAILS), (0, ON_FAILS)],
    ),
    (
        "each device answers the action of its line alone",
        ON,
        &[(0, ON_IS_ON), (1, ON_IS_ON), (0, OFF_FAILS), (0, ON_IS_ON)],
    ),
    (
        "the last line of a pair counts, and RUN has no device",
        b"device HV2 SWITCH_ON OFF\ndevice HV2 SWITCH_ON ON\ndevice RUN SWITCH_ON OFF",
        &[(0, ON_FAILS), (1, ON_IS_ON)],
    ),
    (
        "one device answers, and the other fails",
        b"device HV2 SWITCH_OFF OFF",
        &[(0, OFF_FAILS), (1, OFF_IS_OFF), (1, ON_FAILS)],
    ),
    (
        "a state of another class is taken, and a line in small letters",
        b"device hv1 switch_on ready",
        &[(0, (b"SWITCH_ON", Some(b"READY")))],
    ),
    (
        "an action of another class is taken",
        b"device HV1 CONFIGURE ON",
        &[(0, (b"CONFIGURE", Some(b"ON"))), (0, ON_FAILS)],
    ),
];

#[test]
fn devices_answer_as_the_script_says(rt: HostRuntime) {
    for (name, text, rows) in ROWS {
        assert!(rt; tell(&rt, rt.alloc(), *text, *rows), "{name}");
    }
}
