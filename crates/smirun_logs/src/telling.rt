//! How all stood after the entries of a run.
ghost use Rattle.std.specs.Prelude.{◌≡◌, ◌<◌, ◌≤◌, ◌+◌, ◌-◌, ◌⊎◌, IfNone, IfOk, IfSome, length, take};
ghost use Rattle.std.specs.Arc.{arc_value};
ghost use Rattle.smi_journal.specs.JournalText.{journal_text};
ghost use Rattle.smi_audit.specs.Pasts.{IsPastOf};
ghost use Rattle.smi_journal_entries.specs.declared.journal.Format.TheVariants.{Two};
ghost use Rattle.smirun_commands.specs.States.{WritesStanding, WritesStates};

use crate::replaying::{Unlooked, past_of_entries, text_of};
use show_states::{change_text, past_text};
use smi_audit::Past;
use smi_journal::Entry;
use smirun_commands::{DONE, Fault, StatesOptions, states_of_bytes, tell_text};
use smirun_live::Continued;
use sml_domain::Domain;
use std::alloc::Global;
use std::io::Write;
use std::sync::Arc;

/// Judges the entries of a run by its domain, writes how all stood after them, and returns `DONE`; or if they are not
/// legal, what `states` says of their journal. The declared domain is that of the file.
///
/// The cost is that of judging and of the text. The error is `Output` or `Memory`.
pub fn states_of_entries<'a, W: Write>(
    alloc: Global,
    domain: &Arc<Domain>,
    declared: &Domain,
    path: &'a str,
    entries: &[Entry],
    output: &mut W,
) -> Result<u8, Fault<'a>>
    ensures told { IfOk result (λ status. WritesStates (arc_value domain.now)
        (journal_text Two (arc_value domain.now) entries.now) status (W.contents output.old) (W.contents output.new)) }
    ensures range { IfOk result (λ status. status ≤ 4) }
{
    match past_of_entries(alloc, domain, entries, &mut Unlooked) {
        Some(past) => tell_stood(alloc, domain, declared, &past, entries, output),
        None => tell_of_text(alloc, domain, path, entries, output),
    }
}

// Writes how all stood after the entries of a past.
fn tell_stood<'a, W: Write>(
    alloc: Global,
    domain: &Arc<Domain>,
    declared: &Domain,
    past: &Past,
    entries: &[Entry],
    output: &mut W,
) -> Result<u8, Fault<'a>>
    requires { IsPastOf (arc_value domain.now) (journal_text Two (arc_value domain.now) entries.now) past.now }
    ensures told { IfOk result (λ status. (status ≡ 0) × WritesStanding (arc_value domain.now)
        (journal_text Two (arc_value domain.now) entries.now) (W.contents output.old) (W.contents output.new)) }
{
    let Ok(text) = past_text(alloc, past, declared) else {
        return Err(Fault::Memory);
    };
    match tell_text(text.as_slice(), output) {
        Ok(()) => Ok(DONE),
        Err(fault) => Err(fault),
    }
}

// Writes what `states` says of the journal of a run.
fn tell_of_text<'a, W: Write>(
    alloc: Global,
    domain: &Arc<Domain>,
    path: &'a str,
    entries: &[Entry],
    output: &mut W,
) -> Result<u8, Fault<'a>>
    ensures told { IfOk result (λ status. WritesStates (arc_value domain.now)
        (journal_text Two (arc_value domain.now) entries.now) status (W.contents output.old) (W.contents output.new)) }
    ensures range { IfOk result (λ status. status ≤ 4) }
{
    match text_of(alloc, domain, entries) {
        Ok(text) => states_of_bytes(alloc, domain, path, &text, output),
        Err(fault) => Err(fault),
    }
}

// The entries that stand in a journal up to a line, of which the first is the header. None where it has no such line.
fn first_entries(entries: &[Entry], line: usize) -> Option<&[Entry]>
    ensures some { IfSome result (λ front. (front.now ≡ take (line - 1) entries.now)
        × (length front.now + 1 ≡ line)) }
    ensures none { IfNone result ((line ≡ 0) ⊎ (length entries.now + 1 < line)) }
{
    if line == 0 || line - 1 > entries.len() {
        return None;
    }
    Some(entries.split_at(line - 1).0)
}

// The entries up to a line of the journal that a log has, or all of them.
fn entries_up_to<'a, 'e>(
    path: &'a str,
    entries: &'e [Entry],
    line: Option<usize>,
) -> Result<&'e [Entry], Fault<'a>> {
    let Some(line) = line else {
        return Ok(entries);
    };
    match first_entries(entries, line) {
        Some(front) => Ok(front),
        None => Err(Fault::NoLine(path, line as u64)),
    }
}

/// Tells how all stood behind a line of the journal that a log has, or what differs between two lines, and returns the
/// exit status, as `run_states` does of a journal.
pub(crate) fn tell_states<'a, W: Write>(
    alloc: Global,
    run: &Continued<'a>,
    options: &StatesOptions<'a>,
    output: &mut W,
) -> Result<u8, Fault<'a>>
    ensures { IfOk result (λ status. status ≤ 4) }
{
    let entries = run.manager.core().journal();
    let front = match entries_up_to(options.journal, entries, options.at) {
        Ok(front) => front,
        Err(fault) => return Err(fault),
    };
    if options.with.is_none() {
        return states_of_entries(
            alloc,
            &run.domain,
            &run.declared,
            options.journal,
            front,
            output,
        );
    }
    match entries_up_to(options.journal, entries, options.with) {
        Ok(others) => tell_changes(alloc, run, options.journal, front, others, output),
        Err(fault) => Err(fault),
    }
}

// Writes what differs between how all stood after entries of a run and after others of its entries.
fn tell_changes<'a, W: Write>(
    alloc: Global,
    run: &Continued<'a>,
    path: &'a str,
    entries: &[Entry],
    others: &[Entry],
    output: &mut W,
) -> Result<u8, Fault<'a>>
    ensures { IfOk result (λ status. status ≤ 4) }
{
    let domain = &run.domain;
    let Some(before) = past_of_entries(alloc, domain, entries, &mut Unlooked) else {
        return tell_of_text(alloc, domain, path, entries, output);
    };
    let Some(after) = past_of_entries(alloc, domain, others, &mut Unlooked) else {
        return tell_of_text(alloc, domain, path, others, output);
    };
    let Ok(text) = change_text(alloc, &before, &after, &run.declared) else {
        return Err(Fault::Memory);
    };
    match tell_text(text.as_slice(), output) {
        Ok(()) => Ok(DONE),
        Err(fault) => Err(fault),
    }
}
