//! The command `run`.
ghost use Rattle.std.specs.Prelude.{◌≡◌, ◌≤◌, Err, IfErr, IfOk, IfSome};
ghost use Rattle.std.specs.Arc.{arc_value};
ghost use Rattle.smirun_commands.specs.Paths.{IsReadAs};
ghost use Rattle.smirun_run.specs.Running.{IsRunError};

use crate::host::Host;
use crate::options::RunOptions;
use crate::outcome::{Outcome, is_troubled, tell_outcome};
use crate::planning::load_plan;
use crate::progress::Teller;
use crate::running::{RunError, run_plan};
use show_states::rest_text;
use smi_run::Unwatched;
use smi_run_plan::Plan;
use smirun_commands::{Advice, DONE, Fault, REFUSED, is_one_read, load_domain};
use sml_domain::Domain;
use std::alloc::{AllocError, Global};
use std::io::{Read, Write};
use std::sync::Arc;

/// Runs the script on the domain, in threads, and writes the summary, and the journal if that is asked for. How far
/// the run is goes to `errors`, if that is asked for, and the advice on the domain, the script and the run to
/// `advice`.
///
/// A journal with the path of the domain or of the script is refused before anything is read (`Fault::Overwrites`).
/// The domain is read and checked before the script is opened, and the script is read whole before anything runs. The
/// summary is written to its end before the file of the journal is made, or emptied. What was read is passed to
/// `plan_of_bytes` and `run_plan`, and what the run came to, to `tell_outcome`.
///
/// Returns the exit status: `DONE`, and in a strict run `REFUSED` if something went wrong in it.
pub fn run_run<'a, R: Host, I: Read, W: Write, E: Write>(
    rt: &R,
    options: &RunOptions<'a>,
    input: &mut I,
    output: &mut W,
    errors: &mut E,
    advice: &mut Advice,
) -> Result<u8, Fault<'a>>
    ensures status { IfOk result (λ status. status ≤ 1) }
    ensures domain_stays { IfSome options.now.journal (λ path. IsReadAs options.now.file.now path.now
        → result ≡ Err (Fault.Overwrites path)) }
    ensures script_stays { IfSome options.now.journal (λ path. IsReadAs options.now.script.now path.now
        → result ≡ Err (Fault.Overwrites path)) }
{
    if let Some(path) = options.journal {
        if is_one_read(rt, options.file, options.script, path) {
            return Err(Fault::Overwrites(path));
        }
    }
    let domain = match load_domain(rt, input, options.file, advice) {
        Ok(domain) => domain,
        Err(fault) => return Err(fault),
    };
    let plan = match load_plan(rt, input, &domain, options.script, advice) {
        Ok(plan) => plan,
        Err(fault) => return Err(fault),
    };
    match run_told(rt, &domain, plan, options, errors) {
        Ok(outcome) => end_run(rt, &domain, options, outcome, output, advice),
        Err(RunError::BadConfig) => Err(Fault::WrongRunNumbers),
        Err(RunError::DeviceCount) => unreachable!(),
        Err(RunError::Memory) => Err(Fault::Memory),
    }
}

// Advises on what a run came to: what went wrong in it, the lines of each session that were refused for a cause that
// depends on the run, and the length of the journal that is kept.
fn advise_on(
    alloc: Global,
    domain: &Arc<Domain>,
    options: &RunOptions<'_>,
    outcome: &Outcome,
    advice: &mut Advice,
) {
    advice.of_run(alloc, domain, outcome.journal.entries());
    for (place, refusals) in outcome.refused.iter().enumerate() {
        let session = place.saturating_add(1);
        advice.of_full(session, refusals.full, options.numbers.capacity);
        advice.of_dead(session, refusals.dead);
    }
    if let Some(path) = options.journal {
        advice.of_kept_journal(alloc, domain, path, outcome.journal.entries());
    }
}

// Advises on what a run came to and tells it, with how all stands behind the summary where that is asked for, and
// returns the exit status. If memory runs out for that alone, the rest is told first.
fn end_run<'a, R: Host, W: Write>(
    rt: &R,
    domain: &Arc<Domain>,
    options: &RunOptions<'a>,
    mut outcome: Outcome,
    output: &mut W,
    advice: &mut Advice,
) -> Result<u8, Fault<'a>>
    ensures { IfOk result (λ status. status ≤ 1) }
{
    advise_on(rt.alloc(), domain, options, &outcome, advice);
    let stands = if options.states {
        add_states(rt.alloc(), domain, &mut outcome)
    } else {
        Ok(())
    };
    match tell_outcome(rt, domain, options.journal, &outcome, output) {
        Ok(()) if stands.is_err() => Err(Fault::Memory),
        Ok(()) if options.strict && is_troubled(&outcome) => Ok(REFUSED),
        Ok(()) => Ok(DONE),
        Err(fault) => Err(fault),
    }
}

// Adds to a summary how all stands, but for the states, which it has.
fn add_states(
    alloc: Global,
    domain: &Arc<Domain>,
    outcome: &mut Outcome,
) -> Result<(), AllocError> {
    let text = rest_text(alloc, domain, outcome.journal.entries())?;
    outcome.summary.extend_from_slice(text.as_slice())
}

// Runs a plan, and tells how far it is where that is asked for.
fn run_told<R: Host, E: Write>(
    rt: &R,
    domain: &Arc<Domain>,
    plan: Plan,
    options: &RunOptions<'_>,
    errors: &mut E,
) -> Result<Outcome, RunError>
    ensures refused { IfErr result (IsRunError (arc_value domain.now) options.now.numbers plan) }
{
    if !options.progress {
        return run_plan(
            *rt,
            rt.alloc(),
            domain,
            plan,
            options.numbers,
            &mut Unwatched,
        );
    }
    let mut teller = Teller::new(*rt, errors);
    run_plan(*rt, rt.alloc(), domain, plan, options.numbers, &mut teller)
}
