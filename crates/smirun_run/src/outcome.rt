//! What a run came to, and how it is told.
ghost use Rattle.std.specs.Prelude.{◌≡◌, ◌≢◌, [], IfErr, OnErr, OnOk};
ghost use Rattle.sml_text.specs.Written.{Wrote, WroteFront};
ghost use Rattle.smi_journal_entries.specs.declared.journal.Format.TheVariants.{Two};
ghost use Rattle.smi_journal.specs.JournalText.{journal_text};
ghost use Rattle.smirun_run.specs.Outcomes.{IsFaultOf};

use smi_journal::{Cause, Entry, Journal, write_journal};
use smi_run::{Receipt, Refusals, ServeEnd};
use smirun_commands::Fault;
use sml_domain::Domain;
use sml_text::{Sink, WriteFault, put};
use std::alloc::Global;
use std::fs::Files;
use std::io::{BufWriter, Write};
use std::{fs, io};

/// What a run came to.
#[derive(Drop)]
pub struct Outcome {
    /// How it ended.
    pub end: ServeEnd,
    /// The text of its summary.
    pub summary: Vec<u8>,
    /// Its journal.
    pub journal: Journal,
    /// The receipts that the journal does not agree with, by sessions and in their order.
    pub unmet: Vec<Receipt>,
    /// How many lines of each session were refused, by their causes.
    pub refused: Vec<Refusals>,
}

// Whether a summary has a line that begins so.
fn has_line(summary: &[u8], front: &[u8]) -> bool {
    summary
        .split(|b| *b == b'\n')
        .any(|line| line.starts_with(front))
}

/// Whether something went wrong in a run: its summary has a line `refused`, `stalled` or `left`, or a device failed.
/// The cost is the length of the summary and of the journal.
pub(crate) fn is_troubled(outcome: &Outcome) -> bool {
    let summary = outcome.summary.as_slice();
    has_line(summary, b"refused ")
        || has_line(summary, b"stalled ")
        || has_line(summary, b"left ")
        || outcome.journal.entries().iter().any(is_device_fault)
}

// Whether an entry is the kill of an object whose device failed.
fn is_device_fault(entry: &Entry) -> bool {
    match entry {
        Entry::Kill { cause, .. } => matches!(cause, Cause::Fault),
        _ => false,
    }
}

/// Tells what a run came to: its summary goes to `output`, to its end, and then the journal to the file of the path,
/// if there is one. After both the error is `Memory` if the run ended so, or else `ReportDiffers` if a receipt is
/// unmet.
///
/// What is written to the file is what `write_kept_journal` writes.
///
/// The cost is the length of what is written. The error is `Output`, where the summary cannot be written;
/// `JournalUnwritten`, `Memory`, or one of these two.
pub fn tell_outcome<'a, R: Files + AllocGlobal, W: Write>(
    rt: &R,
    domain: &Domain,
    journal: Option<&'a str>,
    outcome: &Outcome,
    output: &mut W,
) -> Result<(), Fault<'a>>
    ensures told { OnOk result (Wrote (W.contents output.old) (W.contents output.new) outcome.now.summary.items) }
    ensures met { OnOk result ((outcome.now.end ≢ ServeEnd.Memory) × (outcome.now.unmet.items ≡ [])) }
    ensures fault { IfErr result (IsFaultOf outcome.now.end outcome.now.unmet.items) }
{
    if let Err(fault) = tell_summary(outcome.summary.as_slice(), output) {
        return Err(fault);
    }
    if let Some(path) = journal {
        match keep_journal(rt, domain, &outcome.journal, path) {
            Ok(()) => {}
            Err(Unkept::Unwritten(cause)) => return Err(Fault::JournalUnwritten(path, cause)),
            Err(Unkept::Memory) => return Err(Fault::Memory),
        }
    }
    if outcome.end == ServeEnd::Memory {
        return Err(Fault::Memory);
    }
    if !outcome.unmet.is_empty() {
        return Err(Fault::ReportDiffers);
    }
    Ok(())
}

// Writes a summary to its end.
fn tell_summary<W: Write>(summary: &[u8], output: &mut W) -> Result<(), Fault<'static>>
    ensures told { OnOk result (Wrote (W.contents output.old) (W.contents output.new) summary.now) }
    ensures fault { IfErr result (λ fault. fault ≡ Fault.Output) }
{
    if put(output, summary).is_err() {
        return Err(Fault::Output);
    }
    match output.flush() {
        Ok(()) => Ok(()),
        Err(_) => Err(Fault::Output),
    }
}

// Why a journal was not kept.
#[derive(Drop)]
enum Unkept {
    // The file cannot be made or written, for this cause where the system told one.
    Unwritten(Option<io::Error>),
    Memory,
}

// Writes a journal to the file of a path, which is made, or emptied.
fn keep_journal<R: Files + AllocGlobal>(
    rt: &R,
    domain: &Domain,
    journal: &Journal,
    path: &str,
) -> Result<(), Unkept> {
    match fs::create(rt, path) {
        Ok(mut file) => write_to_end(rt.alloc(), domain, journal, &mut file),
        Err(error) => Err(Unkept::Unwritten(Some(error))),
    }
}

// Writes a journal to a file that was opened, to its end.
fn write_to_end<J: Write>(
    heap: Global,
    domain: &Domain,
    journal: &Journal,
    file: &mut J,
) -> Result<(), Unkept> {
    let Ok(mut kept) = BufWriter::new(heap, &mut *file) else {
        return Err(Unkept::Memory);
    };
    let written = write_kept_journal(domain, journal, &mut kept);
    // After a fault too: this says its cause.
    match kept.flush() {
        Ok(()) if written.is_ok() => Ok(()),
        Ok(()) => Err(Unkept::Unwritten(None)),
        Err(error) => Err(Unkept::Unwritten(Some(error))),
    }
}

/// Writes the text of the journal of a run.
///
/// The text goes out in many small parts, so that a writer to a file should be buffered. No memory is taken; the
/// cost is the length of the text. The error comes from the writer alone; then a prefix of the text is written.
pub fn write_kept_journal<W: Sink>(
    domain: &Domain,
    journal: &Journal,
    writer: &mut W,
) -> Result<(), WriteFault>
    ensures ok { OnOk result (Wrote (W.contents writer.old) (W.contents writer.new)
        (journal_text Two domain.now journal.now.entries)) }
    ensures err { OnErr result (WroteFront (W.contents writer.old) (W.contents writer.new)
        (journal_text Two domain.now journal.now.entries)) }
    ensures refused { OnErr result (W.has_refused writer.new) }
{
    write_journal(domain, journal.entries(), writer)
}
