//! Cores of texts, and what they write for a schedule.

use smi_core::{Core, run_schedule};
use sml_load::domain_of;
use std::alloc::Global;

/// A core of the domain of a text, with the limits that a command line has unless it says others.
pub fn core_of(alloc: Global, text: &[u8]) -> Option<Core> {
    let domain = domain_of(alloc, text).ok()?;
    Core::new(alloc, domain, 16, 1_000_000).ok()
}

/// What a core writes for a schedule, or None if that fails.
pub fn written(alloc: Global, core: &mut Core, schedule: &str) -> Option<Vec<u8>> {
    let mut reader = schedule.as_bytes();
    let mut output = Vec::new(alloc);
    run_schedule(alloc, core, &mut reader, &mut output).ok()?;
    Some(output)
}
