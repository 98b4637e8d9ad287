//! The journal of a schedule that is standard input: its file has at every moment what was told.
//!
//! What a line writes is held until the entries of its step are in the file, and goes out then. So an interruption may
//! leave the entries of one step whose lines were not told, and never a line whose entry is not kept. The output that
//! holds lines, the input that ends where something is lost, and the lookout that keeps entries share one `Keeping`.
ghost use Rattle.std.specs.Prelude.{◌≡◌, ◌≤◌, IfOk, OnOk, Option, List, [], ℕ, false, drop, length, take};
ghost use Rattle.std.specs.Io.KnownBytes.{Appends, Keeps};
ghost use Rattle.smi_journal_entries.specs.declared.journal.Format.TheVariants.{Two};
ghost use Rattle.smi_journal.specs.JournalText.{journal_text};

use crate::fault::Fault;
use crate::notes::{Notes, Recording};
use explain_lines::History;
use smi_core::{Answer, Core, Lookout, Step, StepError, Taken};
use smi_journal::{Entry, tell_lines, write_journal};
use sml_domain::Domain;
use sml_text::{Sink, put};
use std::alloc::Global;
use std::cell::RefCell;
use std::io;
use std::io::{ErrorKind, Read, Write};
use std::sync::Arc;

/// Writes out what a writer has, after a fault too. The error is a fault, with its cause where the system told one.
pub(crate) fn flushed<F: Write>(file: &mut F, failed: bool) -> Result<(), Option<io::Error>>
    ensures bytes { Keeps (F.contents file.old) (F.contents file.new) }
    ensures ok { OnOk result (failed ≡ false) }
{
    match file.flush() {
        Ok(()) if failed => Err(None),
        Ok(()) => Ok(()),
        Err(error) => Err(Some(error)),
    }
}

// The entries from a place on.
fn behind(entries: &[Entry], first: usize) -> &[Entry]
    ensures { result.now ≡ drop first entries.now }
{
    if first <= entries.len() {
        entries.split_at(first).1
    } else {
        &[]
    }
}

/// The file of a journal, and how many of its entries were written to it.
#[derive(Drop)]
pub(crate) struct KeptJournal<F> {
    file: F,
    count: usize,
}

impl<F: Write> KeptJournal<F> {
    /// The journal of a file that has nothing of it.
    pub(crate) fn new(file: F) -> KeptJournal<F>
        ensures file { result.file ≡ file }
        ensures count { result.count ≡ 0 }
    {
        KeptJournal { file, count: 0 }
    }

    /// Writes the first line, and writes it out. The error has the cause where the system told one.
    pub(crate) fn begin(&mut self, domain: &Domain) -> Result<(), Option<io::Error>>
        ensures ok { OnOk result (Appends (F.contents self.old.file) (F.contents self.new.file)
            (journal_text Two domain.now [])) }
        ensures count { self.new.count ≡ self.old.count }
    {
        let written = write_journal(domain, &[], &mut self.file);
        flushed(&mut self.file, written.is_err())
    }

    /// Writes the entries of the journal that were not written yet, and writes them out. The journal is that of which
    /// the others were written, or has more entries behind these. The cost is the length of what is written. The error
    /// has the cause where the system told one; then the first part of the lines may be in the file.
    pub(crate) fn keep_up(
        &mut self,
        domain: &Domain,
        journal: &[Entry],
    ) -> Result<(), Option<io::Error>>
        ensures ok { OnOk result ((begun : Option (List ℕ))
            → Appends begun (F.contents self.old.file) (journal_text Two domain.now (take self.old.count journal.now))
            → Appends begun (F.contents self.new.file) (journal_text Two domain.now journal.now)) }
        ensures count { OnOk result (self.new.count ≡ length journal.now) }
    {
        let mut failed = false;
        tell_lines(
            &mut self.file,
            &mut failed,
            domain,
            behind(journal, self.count),
        );
        self.count = journal.len();
        flushed(&mut self.file, failed)
    }
}

// Why a schedule does not go on.
#[derive(Clone, Copy)]
enum Lost {
    Memory,
    Output,
    // The journal's file cannot be written, for this cause where the system told one.
    Journal(Option<io::Error>),
}

/// What the output, the input and the lookout of a schedule share.
#[derive(Drop)]
pub(crate) struct Keeping<'k, F, W> {
    journal: KeptJournal<F>,
    output: &'k mut W,
    // What the line writes that is made.
    held: Vec<u8>,
    lost: Option<Lost>,
}

impl<'k, F: Write, W: Write> Keeping<'k, F, W> {
    /// Nothing is written yet, to the journal neither.
    pub(crate) fn new(alloc: Global, file: F, output: &'k mut W) -> Keeping<'k, F, W> {
        Keeping {
            journal: KeptJournal::new(file),
            output,
            held: Vec::new(alloc),
            lost: None,
        }
    }

    /// Writes the first line of the journal.
    pub(crate) fn begin(&mut self, domain: &Domain) {
        if let Err(cause) = self.journal.begin(domain) {
            self.lost = Some(Lost::Journal(cause));
        }
    }

    // Holds bytes that a line writes.
    fn hold(&mut self, bytes: &[u8]) -> io::Result<usize>
        ensures { IfOk result (λ count. count ≤ length bytes.now) }
    {
        if self.lost.is_some() {
            return Err(io::Error::from(ErrorKind::Other));
        }
        match self.held.extend_from_slice(bytes) {
            Ok(()) => Ok(bytes.len()),
            Err(_) => {
                self.lost = Some(Lost::Memory);
                Err(io::Error::from(ErrorKind::OutOfMemory))
            }
        }
    }

    // Writes out what is held, unless something is lost.
    fn tell_held(&mut self) -> io::Result<()> {
        if self.lost.is_some() {
            return Err(io::Error::from(ErrorKind::Other));
        }
        let told = put(&mut *self.output, self.held.as_slice());
        self.held.clear();
        let out = self.output.flush();
        if told.is_err() || out.is_err() {
            self.lost = Some(Lost::Output);
            return Err(io::Error::from(ErrorKind::Other));
        }
        Ok(())
    }

    // Writes the entries of a step, and then what its line writes.
    fn tell_step(&mut self, core: &Core) {
        match self.journal.keep_up(core.domain(), core.journal()) {
            Ok(()) => {
                let _ = self.tell_held();
            }
            Err(cause) => self.lost = Some(Lost::Journal(cause)),
        }
    }
}

/// Why a schedule did not go on, if something was lost. The path is that of the journal.
pub(crate) fn lost_fault<'a, F: Write, W: Write>(
    keeping: &RefCell<Keeping<'_, F, W>>,
    path: &'a str,
) -> Option<Fault<'a>> {
    let Ok(keeping) = keeping.try_borrow() else {
        return None;
    };
    match keeping.lost {
        None => None,
        Some(Lost::Memory) => Some(Fault::Memory),
        Some(Lost::Output) => Some(Fault::Output),
        Some(Lost::Journal(cause)) => Some(Fault::JournalUnwritten(path, cause)),
    }
}

/// An output that holds what a line writes until the entries of its step are kept.
#[derive(Drop)]
pub(crate) struct HeldOutput<'c, 'k, F, W> {
    keeping: &'c RefCell<Keeping<'k, F, W>>,
}

impl<'c, 'k, F, W> HeldOutput<'c, 'k, F, W> {
    /// An output that shares this.
    pub(crate) fn new(keeping: &'c RefCell<Keeping<'k, F, W>>) -> HeldOutput<'c, 'k, F, W> {
        HeldOutput { keeping }
    }
}

impl<F: Write, W: Write> Write for HeldOutput<'_, '_, F, W> {
    fn write(&mut self, bytes: &[u8]) -> io::Result<usize> {
        match self.keeping.try_borrow_mut() {
            Ok(mut keeping) => keeping.hold(bytes),
            Err(_) => Err(io::Error::from(ErrorKind::Other)),
        }
    }

    fn flush(&mut self) -> io::Result<()> {
        match self.keeping.try_borrow_mut() {
            Ok(mut keeping) => keeping.tell_held(),
            Err(_) => Err(io::Error::from(ErrorKind::Other)),
        }
    }
}

/// An input that fails once something is lost, so that no line is made any more.
#[derive(Drop)]
pub(crate) struct KeptInput<'r, 'c, 'k, I, F, W> {
    reader: &'r mut I,
    keeping: &'c RefCell<Keeping<'k, F, W>>,
}

impl<'r, 'c, 'k, I, F, W> KeptInput<'r, 'c, 'k, I, F, W> {
    /// The input of a reader, that shares this.
    pub(crate) fn new(
        reader: &'r mut I,
        keeping: &'c RefCell<Keeping<'k, F, W>>,
    ) -> KeptInput<'r, 'c, 'k, I, F, W> {
        KeptInput { reader, keeping }
    }
}

impl<I: Read, F: Write, W: Write> Read for KeptInput<'_, '_, '_, I, F, W> {
    fn read(&mut self, buf: &mut [u8]) -> io::Result<usize> {
        let is_lost = match self.keeping.try_borrow() {
            Ok(keeping) => keeping.lost.is_some(),
            Err(_) => true,
        };
        if is_lost {
            return Err(io::Error::from(ErrorKind::Other));
        }
        self.reader.read(buf)
    }
}

/// Notes on the lines of a schedule, before which the entries of each step are kept and what its line writes is told.
#[derive(Drop)]
pub(crate) struct KeptNotes<'r, 'c, 'k, 'n, 'a, E, F, W> {
    notes: &'r mut Notes<'n, 'a, E>,
    keeping: &'c RefCell<Keeping<'k, F, W>>,
}

impl<'r, 'c, 'k, 'n, 'a, E, F: Write, W: Write> KeptNotes<'r, 'c, 'k, 'n, 'a, E, F, W> {
    /// These notes, that share this.
    pub(crate) fn new(
        notes: &'r mut Notes<'n, 'a, E>,
        keeping: &'c RefCell<Keeping<'k, F, W>>,
    ) -> KeptNotes<'r, 'c, 'k, 'n, 'a, E, F, W> {
        KeptNotes { notes, keeping }
    }

    fn tell_step(&self, core: &Core) {
        if let Ok(mut keeping) = self.keeping.try_borrow_mut() {
            keeping.tell_step(core);
        }
    }
}

impl<E: Sink, F: Write, W: Write> Lookout for KeptNotes<'_, '_, '_, '_, '_, E, F, W> {
    fn bad_line(&mut self, core: &Core, taken: Taken<'_>) {
        self.tell_step(core);
        self.notes.bad_line(core, taken);
    }

    fn answered(
        &mut self,
        core: &Core,
        taken: Taken<'_>,
        step: &Step,
        answer: &Result<Answer, StepError>,
        added: &[Entry],
    ) {
        self.tell_step(core);
        self.notes.answered(core, taken, step, answer, added);
    }
}

impl<E: Sink, F: Write, W: Write> Recording for KeptNotes<'_, '_, '_, '_, '_, E, F, W> {
    fn domain(&self) -> &Arc<Domain> {
        self.notes.domain()
    }

    fn history(&self) -> &History {
        self.notes.history()
    }
}
