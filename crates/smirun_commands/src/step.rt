//! The command `step`: a domain and a schedule go in, and what was done comes out.
//!
//! From the file of a domain to what is written it goes through these functions, in this order: `run_step` loads the
//! core, `run_in` opens the schedule, `run_traced` keeps why it cannot be read, `run_by_lines` or `run_file` lay a
//! buffer before the output, `run_opened` makes the file of the journal, `run_kept` writes the journal to it in the
//! end or `run_keeping` as the run goes, `run_all` writes out the output, and `run_and_tell` runs the steps and tells
//! how all stands. They are as many as things are opened: what is opened in one is closed when it returns.
ghost use Rattle.std.specs.Prelude.{◌≡◌, ◌≢◌, ◌≤◌, ◌⊎◌, ℕ, List, Option, Err, None, IfErr, IfOk, IfSome, OnErr, OnOk};
ghost use Rattle.std.specs.Arc.{arc_value};
ghost use Rattle.std.specs.Io.KnownBytes.{Appends};
ghost use Rattle.sml_text.specs.Written.{Wrote, WroteFront};
ghost use Rattle.sml_load.specs.Texts.{IsDomainOfText};
ghost use Rattle.smi_world.specs.World.{opening};
ghost use Rattle.smi_journal_entries.specs.declared.journal.Format.TheVariants.{Two};
ghost use Rattle.smi_journal.specs.JournalText.{journal_text};
ghost use Rattle.smi_core.specs.Machines.{AreLimits};
ghost use Rattle.smirun_commands.specs.Performed.{FollowsIf, PerformsAll, PerformsFirst};
ghost use Rattle.smirun_commands.specs.Refused.{IsDomainFault};
ghost use Rattle.smirun_commands.specs.Paths.{IsReadAs};

use crate::advice::Advice;
use crate::fault::Fault;
use crate::kept_journal::{HeldOutput, Keeping, KeptInput, KeptNotes, flushed, lost_fault};
use crate::loading::domain_of_bytes;
use crate::notes::{Notes, Recording};
use crate::same_file::is_one_read;
use crate::status::{DONE, REFUSED};
use crate::text::{STANDARD_INPUT, load_text};
use crate::traced::TracedReader;
use show_states::tell_standing;
use smi_core::{Core, Input, Lookout, run_watched_schedule};
use smi_journal::write_journal;
use sml_domain::Domain;
use sml_text::{Sink, WriteFault, put};
use sml_writer::Out;
use std::alloc::{AllocError, Global};
use std::cell::RefCell;
use std::fs;
use std::fs::Files;
use std::io::{BufWriter, LineWriter, Read, Write};
use std::sync::Arc;

/// What `step` is asked to do. The texts are words of a command line.
#[derive(Drop)]
pub struct StepOptions<'a> {
    /// The path of the domain file, or `-`.
    pub file: &'a str,
    /// The path of the schedule, or `-`.
    pub schedule: &'a str,
    /// How many requests wait at an object at most, 1 to `MAX_CAPACITY`.
    pub capacity: usize,
    /// How many actions are started at most, 1 to `MAX_STARTS`.
    pub max_starts: usize,
    /// The path that the journal is written to, if it is. `-` is a file of that name, and a file that is read is
    /// refused.
    pub journal: Option<&'a str>,
    /// Whether a refused line makes the status that of a refusal.
    pub strict: bool,
    /// Whether it is explained why a line was refused.
    pub explain: bool,
    /// Whether how all stands is written in the end.
    pub states: bool,
}

/// Runs the schedule on the domain, writes in the end how all stands and the journal, if these are asked for, and
/// returns the exit status: `DONE`, and in a strict run `REFUSED` if a line was refused.
///
/// A journal with the path of the domain or of the schedule is refused before anything is read
/// (`Fault::Overwrites`). The domain is read and checked before the schedule is opened. Then the file of the journal
/// is made, or emptied, before the first step; the journal is written to it when all the output is written. The
/// schedule is read as it runs, so at a fault a prefix of the output is written, and nothing of the journal. Where
/// it is standard input, what the lines that were read write is written out before more is read. Why a line was refused
/// goes to `errors` once the line of its refusal is written out, and what is advised on the domain to `advice`.
///
/// What is read is passed to `core_of_bytes` and `run_steps`, and the core then to `write_run`.
pub fn run_step<'a, R: Files + AllocGlobal, I: Read, W: Write, E: Write>(
    rt: &R,
    options: &StepOptions<'a>,
    input: &mut I,
    output: &mut W,
    errors: &mut E,
    advice: &mut Advice,
) -> Result<u8, Fault<'a>>
    ensures domain_stays { IfSome options.now.journal (λ path. IsReadAs options.now.file.now path.now
        → result ≡ Err (Fault.Overwrites path)) }
    ensures schedule_stays { IfSome options.now.journal (λ path. IsReadAs options.now.schedule.now path.now
        → result ≡ Err (Fault.Overwrites path)) }
    ensures range { IfOk result (λ status. status ≤ 1) }
{
    if let Some(path) = options.journal {
        if is_one_read(rt, options.file, options.schedule, path) {
            return Err(Fault::Overwrites(path));
        }
    }
    let (mut core, domain) = match load_core(rt, options, input, advice) {
        Ok(made) => made,
        Err(fault) => return Err(fault),
    };
    let done = run_core(rt, options, &mut core, &domain, input, output, errors);
    advise_on_journal(rt.alloc(), options, &core, advice);
    drop(core);
    drop(domain);
    done
}

// Runs the schedule in the core of the domain, with notes on its lines, and returns the exit status.
fn run_core<'a, R: Files + AllocGlobal, I: Read, W: Write, E: Write>(
    rt: &R,
    options: &StepOptions<'a>,
    core: &mut Core,
    domain: &Arc<Domain>,
    input: &mut I,
    output: &mut W,
    errors: &mut E,
) -> Result<u8, Fault<'a>>
    ensures { IfOk result (λ status. status ≤ 1) }
{
    let notes = Notes::new(rt.alloc(), options, domain, errors);
    run_noted(rt, core, input, output, notes)
}

// Advises on the length of the journal, if it is kept.
fn advise_on_journal(alloc: Global, options: &StepOptions<'_>, core: &Core, advice: &mut Advice) {
    if let Some(path) = options.journal {
        advice.of_kept_journal(alloc, core.domain(), path, core.journal());
    }
}

// The core of a domain file, and its domain.
fn load_core<'a, R: Files + AllocGlobal, I: Read>(
    rt: &R,
    options: &StepOptions<'a>,
    input: &mut I,
    advice: &mut Advice,
) -> Result<(Core, Arc<Domain>), Fault<'a>> {
    match load_text(rt, input, options.file) {
        Ok(text) => advised_core(rt.alloc(), options, text.as_slice(), advice),
        Err(error) => Err(Fault::of_input(options.file, &error)),
    }
}

// The core of the text of a domain file, and its domain. What is advised on a fault goes to the advice.
fn advised_core<'a>(
    heap: Global,
    options: &StepOptions<'a>,
    text: &[u8],
    advice: &mut Advice,
) -> Result<(Core, Arc<Domain>), Fault<'a>> {
    let made = core_of_bytes(heap, options, text);
    if let Err(fault) = &made {
        advice.of_domain(heap, options.file, text, fault);
    }
    made
}

/// The core of the text of a domain file, in the opening world of its domain, with the limits of the options, and that
/// domain.
///
/// The cost is that of reading, of checking and of `Core::new`. The error is the fault of the file, by its path,
/// `WrongNumbers` or `Memory`.
pub fn core_of_bytes<'a>(
    heap: Global,
    options: &StepOptions<'a>,
    text: &[u8],
) -> Result<(Core, Arc<Domain>), Fault<'a>>
    ensures domain { IfOk result (λ made. IsDomainOfText text.now made.0.setup.domain) }
    ensures shared { IfOk result (λ made. made.0.setup.domain ≡ arc_value made.1) }
    ensures limits { IfOk result (λ made. (made.0.setup.capacity ≡ options.now.capacity)
        × (made.0.setup.max_starts ≡ options.now.max_starts)
        × AreLimits options.now.capacity options.now.max_starts) }
    ensures opening { IfOk result (λ made. made.0.world ≡ opening made.0.setup) }
    ensures numbers { result ≡ Err Fault.WrongNumbers → ¬ AreLimits options.now.capacity options.now.max_starts }
    ensures err { IfErr result (λ fault. fault ≢ Fault.WrongNumbers
        → IsDomainFault options.now.file.now text.now fault) }
{
    let domain = match domain_of_bytes(heap, options.file, text) {
        Ok(domain) => domain,
        Err(fault) => return Err(fault),
    };
    let Ok(shared) = Arc::try_clone(&domain) else {
        return Err(Fault::Memory);
    };
    match Core::new(heap, shared, options.capacity, options.max_starts) {
        Ok(core) => Ok((core, domain)),
        Err(error) => Err(Fault::of_core(error)),
    }
}

// Runs the schedule in the core of the domain, and returns the exit status.
fn run_noted<'a, R: Files + AllocGlobal, I: Read, W: Write, E: Write>(
    rt: &R,
    core: &mut Core,
    input: &mut I,
    output: &mut W,
    notes: Result<Notes<'_, 'a, E>, AllocError>,
) -> Result<u8, Fault<'a>>
    ensures { IfOk result (λ status. status ≤ 1) }
{
    let Ok(mut notes) = notes else {
        return Err(Fault::Memory);
    };
    match run_in(rt, core, input, output, &mut notes) {
        Ok(()) if notes.options.strict && notes.is_refused => Ok(REFUSED),
        Ok(()) => Ok(DONE),
        Err(fault) => Err(fault),
    }
}

// Runs the schedule in the core of the domain, and writes the journal, if that is asked for.
fn run_in<'a, R: Files + AllocGlobal, I: Read, W: Write, E: Write>(
    rt: &R,
    core: &mut Core,
    input: &mut I,
    output: &mut W,
    notes: &mut Notes<'_, 'a, E>,
) -> Result<(), Fault<'a>> {
    let schedule = notes.options.schedule;
    if schedule == STANDARD_INPUT {
        return run_traced(rt, core, input, output, notes);
    }
    match fs::open(rt, schedule) {
        Ok(mut reader) => run_traced(rt, core, &mut reader, output, notes),
        Err(error) => Err(Fault::of_input(schedule, &error)),
    }
}

// Runs a schedule. If its reader fails, the fault has the cause.
fn run_traced<'a, R: Files + AllocGlobal, I: Read, W: Write, E: Write>(
    rt: &R,
    core: &mut Core,
    reader: &mut I,
    output: &mut W,
    notes: &mut Notes<'_, 'a, E>,
) -> Result<(), Fault<'a>> {
    let mut traced = TracedReader::new(reader);
    let ran = if notes.options.explain || notes.options.schedule == STANDARD_INPUT {
        run_by_lines(rt, core, &mut traced, output, notes)
    } else {
        run_file(rt, core, &mut traced, output, notes)
    };
    let is_unread = matches!(ran, Err(Fault::Unreadable(_, None)));
    if is_unread {
        return Err(Fault::Unreadable(notes.options.schedule, traced.cause));
    }
    ran
}

// Runs a schedule, and writes each line out before more is read. So a user who types the lines of standard input one by
// one sees the answer to each, and behind it why a line was refused.
fn run_by_lines<'a, R: Files + AllocGlobal, I: Read, W: Write, E: Write>(
    rt: &R,
    core: &mut Core,
    reader: &mut I,
    output: &mut W,
    notes: &mut Notes<'_, 'a, E>,
) -> Result<(), Fault<'a>> {
    match LineWriter::new(rt.alloc(), &mut *output) {
        Ok(mut writer) => run_opened(rt, core, reader, &mut writer, notes),
        Err(_) => Err(Fault::Memory),
    }
}

// Runs the schedule of a file.
fn run_file<'a, R: Files + AllocGlobal, I: Read, W: Write, E: Write>(
    rt: &R,
    core: &mut Core,
    reader: &mut I,
    output: &mut W,
    notes: &mut Notes<'_, 'a, E>,
) -> Result<(), Fault<'a>> {
    match BufWriter::new(rt.alloc(), &mut *output) {
        Ok(mut writer) => run_opened(rt, core, reader, &mut writer, notes),
        Err(_) => Err(Fault::Memory),
    }
}

// Runs a schedule that was opened, and writes the journal where that is asked for. The file of the journal is made
// before the first step, so that no step is made whose journal has no place.
fn run_opened<'a, R: Files + AllocGlobal, I: Read, W: Write, E: Write>(
    rt: &R,
    core: &mut Core,
    reader: &mut I,
    writer: &mut W,
    notes: &mut Notes<'_, 'a, E>,
) -> Result<(), Fault<'a>> {
    let options = notes.options;
    let Some(path) = options.journal else {
        return run_all(rt.alloc(), core, options, reader, writer, notes);
    };
    let mut file = match fs::create(rt, path) {
        Ok(file) => file,
        Err(error) => return Err(Fault::JournalUnwritten(path, Some(error))),
    };
    if options.schedule == STANDARD_INPUT {
        return run_keeping(rt.alloc(), core, reader, writer, notes, path, &mut file);
    }
    run_kept(rt.alloc(), core, reader, writer, notes, path, &mut file)
}

// Runs the schedule of standard input. The file of the journal has the entries of each step before its line is told.
fn run_keeping<'a, I: Read, W: Write, E: Write, J: Write>(
    heap: Global,
    core: &mut Core,
    reader: &mut I,
    writer: &mut W,
    notes: &mut Notes<'_, 'a, E>,
    path: &'a str,
    file: &mut J,
) -> Result<(), Fault<'a>> {
    let Ok(kept) = BufWriter::new(heap, &mut *file) else {
        return Err(Fault::Memory);
    };
    let options = notes.options;
    let mut keeping = Keeping::new(heap, kept, writer);
    keeping.begin(core.domain());
    let keeping = RefCell::new(keeping);
    let mut input = KeptInput::new(reader, &keeping);
    let mut output = HeldOutput::new(&keeping);
    let mut noted = KeptNotes::new(notes, &keeping);
    let ran = run_all(heap, core, options, &mut input, &mut output, &mut noted);
    match lost_fault(&keeping, path) {
        Some(fault) => Err(fault),
        None => ran,
    }
}

// Runs a schedule, and then writes the journal to its file.
fn run_kept<'a, I: Read, W: Write, E: Write, J: Write>(
    heap: Global,
    core: &mut Core,
    reader: &mut I,
    writer: &mut W,
    notes: &mut Notes<'_, 'a, E>,
    path: &'a str,
    file: &mut J,
) -> Result<(), Fault<'a>> {
    let Ok(mut kept) = BufWriter::new(heap, &mut *file) else {
        return Err(Fault::Memory);
    };
    match run_all(heap, core, notes.options, reader, writer, notes) {
        Ok(()) => write_all_of(core, path, &mut kept),
        Err(fault) => Err(fault),
    }
}

// Runs a schedule, and writes out all that it writes, and behind it how all stands, if that is asked for.
fn run_all<'a, I: Read, W: Write, N: Recording>(
    heap: Global,
    core: &mut Core,
    options: &StepOptions<'a>,
    reader: &mut I,
    writer: &mut W,
    notes: &mut N,
) -> Result<(), Fault<'a>> {
    let ran = run_and_tell(heap, core, options, reader, writer, notes);
    // After a fault too: what was done before it is told.
    let flushed = writer.flush();
    match ran {
        Ok(()) if flushed.is_ok() => Ok(()),
        Ok(()) => Err(Fault::Output),
        Err(fault) => Err(fault),
    }
}

// Runs a schedule, and writes behind its output how all stands, if that is asked for. After a fault of the schedule
// nothing more is written.
fn run_and_tell<'a, I: Input, W: Sink, N: Recording>(
    heap: Global,
    core: &mut Core,
    options: &StepOptions<'a>,
    reader: &mut I,
    writer: &mut W,
    notes: &mut N,
) -> Result<(), Fault<'a>>
    ensures ok { OnOk result ((mid : Option (List ℕ)) × PerformsAll (I.remaining reader.old)
        (I.remaining reader.new) (W.contents writer.old) mid core.old core.new
        × FollowsIf options.now.states mid (W.contents writer.new)) }
    ensures err { OnErr result ((mid : Option (List ℕ)) × FollowsIf options.now.states mid (W.contents writer.new)
        × (PerformsAll (I.remaining reader.old) (I.remaining reader.new) (W.contents writer.old) mid core.old core.new
        ⊎ PerformsFirst (I.remaining reader.old) (I.remaining reader.new) (W.contents writer.old) mid core.old core.new
        (result ≡ Err Fault.Output) (result ≡ Err (Fault.TooLong options.now.schedule)))) }
{
    if let Err(fault) = run_steps(heap, core, options.schedule, reader, writer, notes) {
        return Err(fault);
    }
    if options.states {
        return tell_states(heap, core, notes, writer);
    }
    Ok(())
}

// Writes how all stands. It is a text in memory before it is written.
fn tell_states<'a, W: Sink, N: Recording>(
    heap: Global,
    core: &Core,
    notes: &N,
    writer: &mut W,
) -> Result<(), Fault<'a>>
    ensures { (more : List ℕ) × Appends (W.contents writer.old) (W.contents writer.new) more }
{
    let Ok(text) = standing_text(heap, core, notes) else {
        return Err(Fault::Memory);
    };
    match put(writer, text.as_slice()) {
        Ok(()) => Ok(()),
        Err(_) => Err(Fault::Output),
    }
}

// The text of how all stands.
fn standing_text<N: Recording>(
    heap: Global,
    core: &Core,
    notes: &N,
) -> Result<Vec<u8>, AllocError> {
    let mut text = Vec::new(heap);
    let mut out = Out::new(&mut text);
    tell_standing(heap, notes.domain(), core, notes.history(), &mut out)?;
    if out.failed {
        Err(AllocError)
    } else {
        Ok(text)
    }
}

/// Runs the steps of a schedule of this path in a core, and writes what they write. The lookout hears of each line.
///
/// Cost, memory and what is done at a fault are those of `run_schedule`. The error is the fault of the schedule, by
/// its path, `Output` or `Memory`.
pub fn run_steps<'a, I: Input, W: Sink, L: Lookout>(
    heap: Global,
    core: &mut Core,
    schedule: &'a str,
    reader: &mut I,
    writer: &mut W,
    lookout: &mut L,
) -> Result<(), Fault<'a>>
    ensures ok { OnOk result (PerformsAll (I.remaining reader.old) (I.remaining reader.new) (W.contents writer.old)
        (W.contents writer.new) core.old core.new) }
    ensures err { OnErr result (PerformsFirst (I.remaining reader.old) (I.remaining reader.new)
        (W.contents writer.old) (W.contents writer.new) core.old core.new (result ≡ Err Fault.Output)
        (result ≡ Err (Fault.TooLong schedule.entry))) }
    ensures fault { IfErr result (λ fault. (fault ≡ Fault.Unreadable schedule.entry None) ⊎ (fault ≡ Fault.Output)
        ⊎ (fault ≡ Fault.TooLong schedule.entry) ⊎ (fault ≡ Fault.Memory)) }
    ensures read { result ≡ Err (Fault.Unreadable schedule.entry None) → I.has_failed reader.new }
    ensures write { result ≡ Err Fault.Output → W.has_refused writer.new }
{
    match run_watched_schedule(heap, core, reader, writer, lookout) {
        Ok(()) => Ok(()),
        Err(fault) => Err(Fault::of_schedule(schedule, fault)),
    }
}

// Writes the journal to the file of this path, to its end.
fn write_all_of<'a, J: Write>(core: &Core, path: &'a str, kept: &mut J) -> Result<(), Fault<'a>> {
    let written = write_run(core, kept);
    match flushed(kept, written.is_err()) {
        Ok(()) => Ok(()),
        Err(cause) => Err(Fault::JournalUnwritten(path, cause)),
    }
}

/// Writes the text of the journal of a core's run.
///
/// The text goes out in many small parts, so that a writer to a file should be buffered. No memory is taken; the
/// cost is the length of the text. The error comes from the writer alone; then a prefix of the text is written.
pub fn write_run<W: Sink>(core: &Core, writer: &mut W) -> Result<(), WriteFault>
    ensures ok { OnOk result (Wrote (W.contents writer.old) (W.contents writer.new)
        (journal_text Two core.now.setup.domain core.now.world.journal)) }
    ensures err { OnErr result (WroteFront (W.contents writer.old) (W.contents writer.new)
        (journal_text Two core.now.setup.domain core.now.world.journal)) }
    ensures refused { OnErr result (W.has_refused writer.new) }
{
    write_journal(core.domain(), core.journal(), writer)
}
