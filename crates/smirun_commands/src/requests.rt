//! Lines of scripts and schedules that a domain refuses whenever they come.

use explain_lines::{History, LineKind, SourceLine, explain_bad_line, explain_refused};
use smi_core::{Step, StepError, read_step};
use smi_journal_entries::{AddressError, address};
use sml_domain::Domain;
use sml_text::Sink;
use sml_tree::Name;
use sml_writer::Out;
use std::alloc::{AllocError, Global};
use std::sync::Arc;

// How many lines are explained.
const MOST_TOLD: usize = 20;

// Why a line is refused whenever it comes, if it is.
fn refusal(alloc: Global, domain: &Domain, line: &[u8]) -> Option<(Step, StepError)> {
    let Ok(Some(step)) = read_step(alloc, line) else {
        return None;
    };
    let error = lasting_error(alloc, domain, &step)?;
    Some((step, error))
}

// Why a step is refused, no matter what was done before it: by its names and what it passes alone.
fn lasting_error(alloc: Global, domain: &Domain, step: &Step) -> Option<StepError> {
    match step {
        Step::Request {
            sender,
            object,
            action,
            args,
        } => match address(alloc, domain, *sender, object, action, args.list()) {
            Ok(_) | Err(AddressError::Memory) => None,
            Err(error) => Some(StepError::from(error)),
        },
        Step::Start(object) | Step::Kill { object, .. } => match domain.object(object) {
            Some(_) => None,
            None => Some(StepError::UnknownObject),
        },
        Step::Go(object) => device_error(domain, object, false, StepError::Associated),
        Step::Fault(object) => device_error(domain, object, true, StepError::NotAssociated),
        Step::Answer { object, state } => answer_error(domain, object, state),
    }
}

// Why a step is refused that is for objects which have a device, or for those which have none.
fn device_error(
    domain: &Domain,
    object: &Name,
    wants_device: bool,
    error: StepError,
) -> Option<StepError> {
    let Some(o) = domain.object(object) else {
        return Some(StepError::UnknownObject);
    };
    if domain.associated(o) == wants_device {
        None
    } else {
        Some(error)
    }
}

// Why a device's answer is refused.
fn answer_error(domain: &Domain, object: &Name, state: &Name) -> Option<StepError> {
    let refused = device_error(domain, object, true, StepError::NotAssociated);
    if refused.is_some() {
        return refused;
    }
    let o = domain.object(object)?;
    match domain.state(state) {
        Some(s) if domain.is_state(o, s) => None,
        _ => Some(StepError::NotAState),
    }
}

/// Writes why each line is refused that the domain refuses whenever it comes, by its names and what it passes: at most
/// twenty, and then how many others there are. The error is out of memory; then the first of them are written.
pub(crate) fn explain_requests<W: Sink>(
    alloc: Global,
    domain: &Arc<Domain>,
    file: &str,
    text: &[u8],
    out: &mut Out<'_, W>,
) -> Result<(), AllocError> {
    let history = History::new(alloc, domain)?;
    let mut count = 0usize;
    for (place, bytes) in text.split(|b| *b == b'\n').enumerate() {
        let Some((step, error)) = refusal(alloc, domain, bytes) else {
            continue;
        };
        count = count.saturating_add(1);
        if count <= MOST_TOLD {
            let line = SourceLine {
                file,
                number: place.saturating_add(1),
                text: bytes,
            };
            explain_refused(&history, domain, &line, &step, error, out);
        }
    }
    tell_others(out, file, count.saturating_sub(MOST_TOLD));
    Ok(())
}

/// Writes of each line that is no line of its kind why that is so: at most twenty, and then how many others there are.
pub(crate) fn explain_bad_lines<W: Sink>(
    alloc: Global,
    kind: LineKind,
    domain: &Domain,
    file: &str,
    text: &[u8],
    out: &mut Out<'_, W>,
) {
    let mut count = 0usize;
    let mut said = Vec::new(alloc);
    for (place, bytes) in text.split(|b| *b == b'\n').enumerate() {
        let line = SourceLine {
            file,
            number: place.saturating_add(1),
            text: bytes,
        };
        said.clear();
        let mut about = Out::new(&mut said);
        explain_bad_line(kind, domain, &line, &mut about);
        if about.failed {
            out.failed = true;
        }
        if said.len() > 0 {
            count = count.saturating_add(1);
            if count <= MOST_TOLD {
                out.say(said.as_slice());
            }
        }
    }
    tell_others(out, file, count.saturating_sub(MOST_TOLD));
}

// How many others there are, if any.
fn tell_others<W: Sink>(out: &mut Out<'_, W>, file: &str, count: usize) {
    if count > 0 {
        out.say(file.as_bytes());
        out.say(b": ");
        out.number(count as u64);
        out.say(b" more refused\n");
    }
}
