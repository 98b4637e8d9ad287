//! The examples in the docstrings of the calls that a user of the libraries starts with: of files, of a core and of the
//! judge.

use crate::cores::{core_of, written};
use crate::domain_of::checked;
use smi_audit::{Judgement, audit};
use smi_core::{Core, StepError, read_step};
use sml_load::domain_of;
use sml_print::print;
use sml_read::{ReadErrorKind, read};
use std::alloc::Global;
use test_domains::LAMP;

// `sml_read::read`, and `sml_print::print`.
fn reads_and_prints(alloc: Global) -> Option<bool> {
    let file = read(alloc, b"class:lamp state:off").ok()?;
    let text = print(alloc, &file).ok()?;
    Some(text.as_slice() == b"class: LAMP\n  state: OFF\n".as_slice())
}

// `sml_read::read`, of a text that is not a text of the language.
fn refuses(alloc: Global) -> Option<bool> {
    let error = read(alloc, b"class lamp").err()?;
    Some(error.kind == ReadErrorKind::Unexpected && error.offset == 6)
}

// `sml_check::check`.
fn checks(alloc: Global) -> bool {
    let answer = checked(alloc, LAMP);
    let objects = match &answer {
        Some(Ok(domain)) => domain.objects(),
        _ => 0,
    };
    drop(answer);
    objects == 1
}

#[test]
fn examples_of_files_hold(rt: HostRuntime) {
    assert!(rt; reads_and_prints(rt.alloc()) == Some(true));
    assert!(rt; refuses(rt.alloc()) == Some(true));
    assert!(rt; checks(rt.alloc()));
}

// Whether a core tells that nothing waits to be started.
fn is_empty(alloc: Global, core: &mut Core) -> Option<bool> {
    let step = read_step(alloc, b"start L").ok()??;
    Some(matches!(core.step(&step), Err(StepError::Empty)))
}

// Whether a core writes what the lamp does.
fn lights(alloc: Global, core: &mut Core) -> Option<bool> {
    let output = written(alloc, core, "request @1 L LIGHT\nstart L\ngo L\n")?;
    let told = b"accept @1 L 0 LIGHT\nstart L @1 0 LIGHT\nend L ON\n".as_slice();
    Some(output.as_slice() == told)
}

// `Core::new` and `Core::step`, and `run_schedule`.
fn steps_and_runs(alloc: Global) -> Option<bool> {
    let mut core = core_of(alloc, LAMP)?;
    let is_empty = is_empty(alloc, &mut core);
    let lights = lights(alloc, &mut core);
    drop(core);
    Some(is_empty == Some(true) && lights == Some(true))
}

// `smi_audit::audit`.
fn judges(alloc: Global) -> Option<bool> {
    let domain = domain_of(alloc, LAMP).ok()?;
    let journal = b"smi-journal 2\nstart L @1 0 LIGHT\nend L ON\n";
    let judgement = audit(alloc, domain, journal).ok()?;
    Some(judgement == Judgement::Legal)
}

#[test]
fn examples_of_cores_and_the_judge_hold(rt: HostRuntime) {
    assert!(rt; steps_and_runs(rt.alloc()) == Some(true));
    assert!(rt; judges(rt.alloc()) == Some(true));
}
