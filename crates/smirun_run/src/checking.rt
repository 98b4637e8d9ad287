//! The command `check` of a domain with scripts and schedules.
ghost use Rattle.std.specs.Prelude.{◌≤◌, IfOk};

use crate::host::Host;
use crate::planning::plan_of_bytes;
use smi_run_plan::LONGEST_SCRIPT;
use smirun_commands::{
    Advice, DONE, Fault, LONGEST_SCHEDULE, LineKind, REFUSED, check_domain, load_prefix,
    look_at_schedule, tell_cause,
};
use sml_domain::Domain;
use std::alloc::Global;
use std::io::{Read, Write};
use std::sync::Arc;

/// What `check` is asked to look at beside a domain file. The texts are words of a command line.
#[derive(Drop)]
pub struct CheckOptions<'a> {
    /// The path of the domain file, or `-`.
    pub file: &'a str,
    /// The paths of scripts, or `-`.
    pub scripts: Vec<&'a str>,
    /// The paths of schedules, or `-`.
    pub schedules: Vec<&'a str>,
    /// Whether it is explained why a text or a line is refused.
    pub explain: bool,
}

/// Tells of a domain file whether it is well-formed, as `run_check` does, and if it is, of each script and then of each
/// schedule whether its lines are lines of one. Nothing is run. Returns the exit status: `REFUSED` if a text was
/// refused or could not be read.
///
/// Why a text cannot be read goes to `errors`, and so does the explanation, if that is asked for, once the line of the
/// text is written out. The error is `Output` or `Memory`. The cost is that of reading the texts.
pub fn run_check_lines<R: Host, I: Read, W: Write, E: Write>(
    rt: &R,
    options: &CheckOptions<'_>,
    input: &mut I,
    output: &mut W,
    errors: &mut E,
) -> Result<u8, Fault<'static>>
    ensures { IfOk result (λ status. status ≤ 1) }
{
    let domain = match check_domain(rt, options.file, options.explain, input, output, errors) {
        Ok(Some(domain)) => domain,
        Ok(None) => return Ok(REFUSED),
        Err(fault) => return Err(fault),
    };
    let scripts = options.scripts.as_slice();
    let schedules = options.schedules.as_slice();
    let explain = options.explain;
    let told = tell_each(
        rt,
        &domain,
        LineKind::Script,
        scripts,
        explain,
        input,
        output,
        errors,
    );
    let first = match told {
        Ok(status) => status,
        Err(fault) => return Err(fault),
    };
    let told = tell_each(
        rt,
        &domain,
        LineKind::Schedule,
        schedules,
        explain,
        input,
        output,
        errors,
    );
    match told {
        Ok(status) => Ok(first.max(status)),
        Err(fault) => Err(fault),
    }
}

// Tells of each text of a kind, and returns the worst of their statuses.
fn tell_each<R: Host, I: Read, W: Write, E: Write>(
    rt: &R,
    domain: &Arc<Domain>,
    kind: LineKind,
    paths: &[&str],
    explain: bool,
    input: &mut I,
    output: &mut W,
    errors: &mut E,
) -> Result<u8, Fault<'static>>
    ensures { IfOk result (λ status. status ≤ 1) }
{
    let mut is_refused = false;
    for path in paths {
        let mut advice = Advice::new(rt.alloc(), explain);
        let looked = look_at(rt, domain, kind, path, input, &mut advice);
        if let Err(fault) = tell_line(rt.alloc(), path, &looked, output, errors) {
            return Err(fault);
        }
        advice.tell(errors);
        is_refused |= looked.is_err();
    }
    if is_refused { Ok(REFUSED) } else { Ok(DONE) }
}

// How many bytes a text of a kind may have.
fn longest(kind: LineKind) -> usize {
    match kind {
        LineKind::Script => LONGEST_SCRIPT,
        LineKind::Schedule => LONGEST_SCHEDULE,
    }
}

// Reads a text and looks at its lines. What is advised on them goes to the advice.
fn look_at<'a, R: Host, I: Read>(
    rt: &R,
    domain: &Arc<Domain>,
    kind: LineKind,
    path: &'a str,
    input: &mut I,
    advice: &mut Advice,
) -> Result<(), Fault<'a>> {
    // One byte more, so that a text which is too long is seen to be so.
    let text = match load_prefix(rt, input, path, (longest(kind) as u64).saturating_add(1)) {
        Ok(text) => text,
        Err(error) => return Err(Fault::of_input(path, &error)),
    };
    let heap = rt.alloc();
    let looked = look_at_lines(heap, domain, kind, path, text.as_slice());
    advise_on_lines(heap, domain, kind, path, text.as_slice(), &looked, advice);
    looked
}

// Looks at the lines of a text: a script has a plan, and a schedule has steps alone.
fn look_at_lines<'a>(
    heap: Global,
    domain: &Domain,
    kind: LineKind,
    path: &'a str,
    text: &[u8],
) -> Result<(), Fault<'a>> {
    match kind {
        LineKind::Script => look_at_script(heap, domain, path, text),
        LineKind::Schedule => look_at_schedule(heap, path, text),
    }
}

// Looks at the lines of a script, as `run` does, and drops its plan.
fn look_at_script<'a>(
    heap: Global,
    domain: &Domain,
    path: &'a str,
    text: &[u8],
) -> Result<(), Fault<'a>> {
    let plan = match plan_of_bytes(heap, domain, path, text) {
        Ok(plan) => plan,
        Err(fault) => return Err(fault),
    };
    drop(plan);
    Ok(())
}

// Advises on the lines of a text: on all that it cannot have, or where there are no such lines, on those that the
// domain refuses whenever they come, and of a script on lines of devices that do nothing.
fn advise_on_lines(
    heap: Global,
    domain: &Arc<Domain>,
    kind: LineKind,
    path: &str,
    text: &[u8],
    looked: &Result<(), Fault<'_>>,
    advice: &mut Advice,
) {
    match looked {
        Ok(()) => {
            advice.of_requests(heap, domain, path, text);
            if kind == LineKind::Script {
                advice.of_devices(heap, domain, path, text);
            }
        }
        Err(Fault::BadLine(..)) => advice.of_bad_lines(heap, kind, domain, path, text),
        Err(_) => {}
    }
}

// Writes the line of a text: that its lines are right, or its fault, and why it cannot be read.
fn tell_line<W: Write, E: Write>(
    heap: Global,
    path: &str,
    looked: &Result<(), Fault<'_>>,
    output: &mut W,
    errors: &mut E,
) -> Result<(), Fault<'static>> {
    let line = match looked {
        Ok(()) => format!(in heap; "{path} ok\n"),
        Err(Fault::Memory) => return Err(Fault::Memory),
        Err(fault) => format!(in heap; "{fault}\n"),
    };
    let Ok(line) = line else {
        return Err(Fault::Memory);
    };
    if output.write_all(line.as_bytes()).is_err() || output.flush().is_err() {
        return Err(Fault::Output);
    }
    if let Err(Fault::Unreadable(file, Some(cause))) = looked {
        tell_cause(file, cause, errors);
    }
    Ok(())
}
