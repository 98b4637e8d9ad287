//! How all stands behind the steps of a core, and how all stood behind a journal.
ghost use Rattle.std.specs.Prelude.{ℕ, IfOk, List, OnOk};
ghost use Rattle.sml_writer.specs.Tells.{Tells};
ghost use Rattle.show_states.specs.StandingText.{TellsStanding};

use crate::lines::{tell_params, tell_states};
use crate::opens::tell_opens;
use crate::others::{tell_members, tell_waiting};
use crate::pieces::other_lines;
use crate::stands::Standing;
use explain_lines::History;
use smi_audit::Past;
use smi_core::Core;
use smi_journal::{Entry, write_journal};
use sml_domain::{Domain, ObjId, SetId};
use sml_text::Sink;
use sml_writer::Out;
use std::alloc::{AllocError, Global};
use std::sync::Arc;

// The members of all sets that have others than the declared ones.
fn tell_all_members<S: Standing, W: Sink>(out: &mut Out<'_, W>, standing: &S, declared: &Domain) {
    for (place, group) in declared.groups().iter().enumerate() {
        tell_members(out, standing, SetId::new(place), group);
    }
}

/// Writes how all stands behind the steps of a core: a line for each state, each parameter, each open action with
/// what it waits for, each mailbox that is not empty, and each set that has other members than the declared ones.
/// (docs/FORMATS.md, "How all stands".)
///
/// The history is that of the core's steps. The declared domain is that of the file: the same as the core's, unless the
/// domain begins otherwise than it is declared. No journal is walked: the time is that of the lines, and for each open
/// action that no device performs that of `Core::waits_for`; memory is taken for one line. The error is out of memory;
/// then a part is written.
pub fn tell_standing<W: Sink>(
    alloc: Global,
    declared: &Domain,
    core: &Core,
    history: &History,
    out: &mut Out<'_, W>,
) -> Result<(), AllocError> {
    tell_states(out, core);
    tell_params(out, core);
    tell_opens(alloc, core, out)?;
    let domain = core.domain();
    for o in 0..domain.objects() {
        let o = ObjId::new(o);
        tell_waiting(out, core, o, history.waiting(o));
    }
    tell_all_members(out, core, declared);
    Ok(())
}

// Writes how all stood behind the entries of a past. The error is out of memory; then a part is written.
fn tell_past<W: Sink>(
    alloc: Global,
    past: &Past,
    declared: &Domain,
    out: &mut Out<'_, W>,
) -> Result<(), AllocError>
    ensures { OnOk result ((text : List ℕ)
        × TellsStanding past.now.format past.now.books.domain past.now.books.journal text
        × Tells W.contents W.has_refused out.old out.new text) }
{
    let more = other_lines(alloc, past, declared)?;
    tell_states(out, past);
    tell_params(out, past);
    tell_opens(alloc, past, out)?;
    out.say(more.as_slice());
    Ok(())
}

/// How all stands behind the entries of a journal, as a text of those lines that a summary of a run has not: the
/// parameters, what is open, and sets that have other members than the declared ones. (docs/FORMATS.md, "How all
/// stands".)
///
/// The time and the memory are those of writing the journal and judging it. The error is out of memory.
pub fn rest_text(
    alloc: Global,
    domain: &Arc<Domain>,
    entries: &[Entry],
) -> Result<Vec<u8>, AllocError> {
    let mut journal = Vec::new(alloc);
    if write_journal(domain, entries, &mut journal).is_err() {
        return Err(AllocError);
    }
    let Some(past) = Past::of_text(alloc, domain, journal.as_slice()) else {
        return Err(AllocError);
    };
    let mut text = Vec::new(alloc);
    let mut out = Out::new(&mut text);
    tell_params(&mut out, &past);
    tell_opens(alloc, &past, &mut out)?;
    tell_all_members(&mut out, &past, domain);
    if out.failed {
        Err(AllocError)
    } else {
        Ok(text)
    }
}

/// How all stood behind the entries of a past, as a text: the lines of `tell_standing`, where only requests of objects
/// are counted as waiting, since no journal holds those of sessions, and a line for what each open action does next.
/// (docs/FORMATS.md, "How all stood".)
///
/// The declared domain is that of the file. The cost is that of the lines, and for the requests that wait the square of
/// the count of objects. The error is out of memory.
pub fn past_text(alloc: Global, past: &Past, declared: &Domain) -> Result<Vec<u8>, AllocError>
    ensures { IfOk result (λ text.
        TellsStanding past.now.format past.now.books.domain past.now.books.journal text.items) }
{
    let mut text = Vec::new(alloc);
    let mut out = Out::new(&mut text);
    tell_past(alloc, past, declared, &mut out)?;
    if out.failed {
        Err(AllocError)
    } else {
        Ok(text)
    }
}
