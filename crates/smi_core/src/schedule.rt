//! Schedules: lines of steps from a reader, and what they write to a writer.
ghost use Rattle.std.specs.Prelude.{◌≡◌, ℕ, List, [], ◌++◌, ◌∷◌, ◌<◌, ◌≤◌, ◌+◌, ◌⊎◌, length, take, drop, Option, IfSome, IfNone, IfOk, OnOk, OnErr, Ok, Err, Some, codes};
ghost use Rattle.std.specs.Io.KnownBytes.{Appends, Consumes, IsAtEnd, Keeps};
ghost use Rattle.sml_text.specs.Written.{Told, StaysDue};
ghost use Rattle.smi_lines.specs.Answers.{refused_text};
ghost use Rattle.smi_lines.specs.Line.{LineReads};
ghost use Rattle.sml_text.specs.Lines.{Outputs, lines_of};
ghost use Rattle.smi_core.specs.Feeds.{IsPending, Torn, Went, FedTo, Halted, HasNoEnd, FirstLines, WholeLines};
ghost use Rattle.smi_core.specs.Output.{Writes, LineWrites};
ghost use Rattle.smi_core.specs.FaultText.{schedule_fault_text};
ghost use Rattle.smi_core.specs.declared.schedule.TheConstants.{LONGEST_SCHEDULE};

use crate::lookout::{LookAway, Lookout, Taken};
use crate::stepper::Core;
use smi_journal_entries::Entry;
use smi_lines::{LONGEST_LINE, LineError, read_step, tell_answer, tell_refused};
use smi_world::{Step, StepError};
use sml_text::Sink;
use std::alloc::{AllocError, Global};
use std::error::Error;
use std::fmt;
use std::io::{Read, Write};

/// Why a schedule was not run to its end.
#[derive(Clone, Copy, Debug, PartialEq, Eq)]
pub enum ScheduleFault {
    /// The reader failed.
    Read,
    /// The writer failed, or took no byte of some.
    Write,
    /// The text has more than `LONGEST_SCHEDULE` bytes.
    TooLong,
    /// Out of memory.
    Memory,
}

impl fmt::Display for ScheduleFault {
    ghost output = { λ e. Some (schedule_fault_text e) };

    fn fmt<W: fmt::Write>(&self, f: &mut fmt::Formatter<W>) -> fmt::Result {
        f.write_str(match *self {
            ScheduleFault::Read => "the schedule can't be read",
            ScheduleFault::Write => "the output can't be written",
            ScheduleFault::TooLong => "the schedule has more than 16777216 bytes",
            ScheduleFault::Memory => "out of memory",
        })
    }
}

impl Error for ScheduleFault {}

// Why a line was not ended.
enum LineFault {
    Write,
    Memory,
}

impl LineFault {
    fn of_schedule(self) -> ScheduleFault
        ensures read { result ≡ ScheduleFault.Read → ⊥ }
        ensures too_long { result ≡ ScheduleFault.TooLong → ⊥ }
        ensures write { (result ≡ ScheduleFault.Write → self ≡ LineFault.Write)
            × (self ≡ LineFault.Write → result ≡ ScheduleFault.Write) }
    {
        match self {
            LineFault::Write => ScheduleFault::Write,
            LineFault::Memory => ScheduleFault::Memory,
        }
    }
}

/// How many bytes a schedule may have.
pub const LONGEST_SCHEDULE: usize = 16_777_216;

// What is kept of a line whose end has not come: its bytes, or the first of them if there are too many, and its number.
#[derive(Drop)]
struct Pending {
    kept: Vec<u8>,
    over: bool,
    number: usize,
}

impl Pending {
    // Adds bytes to the line. Of a line that is too long one byte more than a line may have is kept, so that it takes
    // no more memory, however long it is.
    fn add(&mut self, bytes: &[u8]) -> Result<(), AllocError>
        ensures ok { OnOk result ((line : List ℕ) → IsPending self.old.kept.items self.old.over line
            → IsPending self.new.kept.items self.new.over (line ++ bytes.now)) }
        ensures err { OnErr result ((self.new.kept.items ≡ self.old.kept.items) × (self.new.over ≡ self.old.over)) }
    {
        if self.over {
            return Ok(());
        }
        let room = (LONGEST_LINE + 1).saturating_sub(self.kept.len());
        let count = bytes.len().min(room);
        self.kept.extend_from_slice(bytes.split_at(count).0)?;
        self.over = self.kept.len() > LONGEST_LINE;
        Ok(())
    }

    // What the line asks.
    fn read(&self, alloc: Global) -> Result<Option<Step>, LineError>
        ensures { (line : List ℕ) → IsPending self.now.kept.items self.now.over line → LineReads line result }
    {
        if self.over {
            Err(LineError::BadLine)
        } else {
            read_step(alloc, &self.kept)
        }
    }

    // Begins the next line.
    fn clear(&mut self)
        ensures { IsPending self.new.kept.items self.new.over [] }
    {
        self.kept.clear();
        self.over = false;
        self.number = self.number.saturating_add(1);
    }

    // The line as it is shown to others.
    fn taken(&self) -> Taken<'_> {
        Taken {
            number: self.number,
            text: &self.kept,
        }
    }
}

// The entries from a place on.
fn behind(entries: &[Entry], first: usize) -> &[Entry]
    ensures { result.now ≡ drop first entries.now }
{
    if first <= entries.len() {
        entries.split_at(first).1
    } else {
        &[]
    }
}

// Makes a step and writes its lines. One that is out of memory changes nothing and writes nothing.
fn make_step<W: Sink, L: Lookout>(
    core: &mut Core,
    writer: &mut W,
    failed: &mut bool,
    step: &Step,
    taken: Taken<'_>,
    lookout: &mut L,
) -> Result<(), AllocError>
    ensures ok { OnOk result ((out : List ℕ) × Writes core.old (Ok (Some step.now)) out core.new
        × Told (W.contents writer.old) failed.old (W.contents writer.new) failed.new out) }
    ensures err { OnErr result ((core.new ≡ core.old) × (W.contents writer.new ≡ W.contents writer.old)) }
    ensures due { StaysDue (W.has_refused writer.old) failed.old (W.has_refused writer.new) failed.new }
{
    let first = core.journal().len();
    let answer = core.step(step);
    if let Err(StepError::Memory) = answer {
        return Err(AllocError);
    }
    let added = behind(core.journal(), first);
    tell_answer(writer, failed, core.domain(), step, &answer, added);
    lookout.answered(core, taken, step, &answer, added);
    Ok(())
}

// Makes a step and writes its lines, or the first part of them.
fn step_line<W: Sink, L: Lookout>(
    core: &mut Core,
    writer: &mut W,
    step: &Step,
    taken: Taken<'_>,
    lookout: &mut L,
) -> Result<(), LineFault>
    ensures ok { OnOk result ((out : List ℕ) × Writes core.old (Ok (Some step.now)) out core.new
        × Appends (W.contents writer.old) (W.contents writer.new) out) }
    ensures err { OnErr result
        (((core.new ≡ core.old) × Appends (W.contents writer.old) (W.contents writer.new) [])
        ⊎ ((result ≡ Err LineFault.Write) × (out : List ℕ) × (unwritten : List ℕ)
        × Writes core.old (Ok (Some step.now)) (out ++ unwritten) core.new
        × Appends (W.contents writer.old) (W.contents writer.new) out)) }
    ensures write { result ≡ Err LineFault.Write → W.has_refused writer.new }
{
    let mut failed = false;
    let Ok(()) = make_step(core, writer, &mut failed, step, taken, lookout) else {
        return Err(LineFault::Memory);
    };
    if failed {
        return Err(LineFault::Write);
    }
    Ok(())
}

// Writes that a line is not a step, or the first part of that.
fn bad_line<W: Sink>(writer: &mut W) -> Result<(), LineFault>
    ensures ok { OnOk result (Appends (W.contents writer.old) (W.contents writer.new)
        (refused_text (codes "BadLine"))) }
    ensures err { OnErr result ((result ≡ Err LineFault.Write) × (out : List ℕ) × (unwritten : List ℕ)
        × (refused_text (codes "BadLine") ≡ out ++ unwritten)
        × Appends (W.contents writer.old) (W.contents writer.new) out) }
    ensures write { result ≡ Err LineFault.Write → W.has_refused writer.new }
{
    let mut failed = false;
    tell_refused(writer, &mut failed, b"BadLine");
    if failed {
        return Err(LineFault::Write);
    }
    Ok(())
}

// Does what a line asks and writes what it writes, or the first part of that.
fn make_line<W: Sink, L: Lookout>(
    core: &mut Core,
    writer: &mut W,
    asked: Result<Option<Step>, LineError>,
    taken: Taken<'_>,
    lookout: &mut L,
) -> Result<(), LineFault>
    ensures ok { OnOk result ((out : List ℕ) × Writes core.old asked out core.new
        × Appends (W.contents writer.old) (W.contents writer.new) out) }
    ensures err { OnErr result
        (((core.new ≡ core.old) × Appends (W.contents writer.old) (W.contents writer.new) [])
        ⊎ ((result ≡ Err LineFault.Write) × (out : List ℕ) × (unwritten : List ℕ)
        × Writes core.old asked (out ++ unwritten) core.new
        × Appends (W.contents writer.old) (W.contents writer.new) out)) }
    ensures write { result ≡ Err LineFault.Write → W.has_refused writer.new }
{
    match asked {
        Err(LineError::BadLine) => {
            let told = bad_line(writer);
            lookout.bad_line(core, taken);
            told
        }
        Err(LineError::Memory) => Err(LineFault::Memory),
        Ok(None) => Ok(()),
        Ok(Some(step)) => step_line(core, writer, &step, taken, lookout),
    }
}

// Ends the line: does what it asks, writes what it writes, and begins the next line.
fn end_line<W: Sink, L: Lookout>(
    alloc: Global,
    core: &mut Core,
    writer: &mut W,
    pending: &mut Pending,
    lookout: &mut L,
) -> Result<(), LineFault>
    ensures ok { (line : List ℕ) → IsPending pending.old.kept.items pending.old.over line → OnOk result
        ((out : List ℕ) × LineWrites core.old line out core.new
        × Appends (W.contents writer.old) (W.contents writer.new) out
        × IsPending pending.new.kept.items pending.new.over []) }
    ensures err { (line : List ℕ) → IsPending pending.old.kept.items pending.old.over line → OnErr result
        (Torn LineWrites core.old line (result ≡ Err LineFault.Write) (W.contents writer.old)
        (W.contents writer.new) core.new) }
    ensures write { result ≡ Err LineFault.Write → W.has_refused writer.new }
{
    let asked = pending.read(alloc);
    if let Err(fault) = make_line(core, writer, asked, pending.taken(), lookout) {
        return Err(fault);
    }
    pending.clear();
    Ok(())
}

// How many bytes are before the first line feed: all of them if there is no line feed.
fn front_length(bytes: &[u8]) -> usize
    ensures within { result ≤ length bytes.now }
    ensures none { HasNoEnd (take result bytes.now) }
    ensures ends { result < length bytes.now → drop result bytes.now ≡ 10 ∷ drop (result + 1) bytes.now }
{
    for (place, byte) in bytes.iter().enumerate() {
        if *byte == b'\n' {
            return place;
        }
    }
    bytes.len()
}

// Feeds the bytes to the end of the first line, with its line feed, or all of them if no line ends. Returns the
// bytes behind them. A piece of a line is added as a whole, which takes less time than byte by byte.
fn feed_line<'a, W: Sink, L: Lookout>(
    alloc: Global,
    core: &mut Core,
    writer: &mut W,
    pending: &mut Pending,
    lookout: &mut L,
    bytes: &'a [u8],
) -> Result<&'a [u8], LineFault>
    ensures ok { (line : List ℕ) → IsPending pending.old.kept.items pending.old.over line → IfOk result
        (λ more. FedTo LineWrites core.old line bytes.now more.now (W.contents writer.old) (W.contents writer.new)
        core.new pending.new.kept.items pending.new.over) }
    ensures err { (line : List ℕ) → IsPending pending.old.kept.items pending.old.over line → OnErr result
        (Halted LineWrites core.old line bytes.now (result ≡ Err LineFault.Write) (W.contents writer.old)
        (W.contents writer.new) core.new) }
    ensures write { result ≡ Err LineFault.Write → W.has_refused writer.new }
    ensures less { 0 < length bytes.now → IfOk result (λ more. length more.now < length bytes.now) }
{
    let length = front_length(bytes);
    let (front, behind) = bytes.split_at(length);
    let Ok(()) = pending.add(front) else {
        return Err(LineFault::Memory);
    };
    if length == bytes.len() {
        return Ok(&[]);
    }
    if let Err(fault) = end_line(alloc, core, writer, pending, lookout) {
        return Err(fault);
    }
    let (_, more) = behind.split_at(1);
    Ok(more)
}

// Feeds bytes, one line after another.
fn feed_chunk<W: Sink, L: Lookout>(
    alloc: Global,
    core: &mut Core,
    writer: &mut W,
    pending: &mut Pending,
    lookout: &mut L,
    chunk: &[u8],
) -> Result<(), LineFault>
    ensures ok { (line : List ℕ) → IsPending pending.old.kept.items pending.old.over line → OnOk result
        (Went LineWrites core.old line chunk.now (W.contents writer.old)
        (W.contents writer.new) core.new pending.new.kept.items pending.new.over) }
    ensures err { (line : List ℕ) → IsPending pending.old.kept.items pending.old.over line → OnErr result
        (Halted LineWrites core.old line chunk.now (result ≡ Err LineFault.Write) (W.contents writer.old)
        (W.contents writer.new) core.new) }
    ensures write { result ≡ Err LineFault.Write → W.has_refused writer.new }
{
    let mut rest = chunk;
    while !rest.is_empty() {
        match feed_line(alloc, core, writer, pending, lookout, rest) {
            Ok(more) => rest = more,
            Err(fault) => return Err(fault),
        }
    }
    Ok(())
}

// Feeds the bytes that were read. A fault ends the schedule, and what is kept of a line that it cut off is dropped.
fn feed_read<W: Sink, L: Lookout>(
    alloc: Global,
    core: &mut Core,
    writer: &mut W,
    pending: &mut Pending,
    lookout: &mut L,
    bytes: &[u8],
) -> Result<(), ScheduleFault>
    ensures ok { (line : List ℕ) → IsPending pending.old.kept.items pending.old.over line → OnOk result
        (Went LineWrites core.old line bytes.now (W.contents writer.old) (W.contents writer.new) core.new
        pending.new.kept.items pending.new.over) }
    ensures err { (line : List ℕ) → IsPending pending.old.kept.items pending.old.over line → OnErr result
        (Halted LineWrites core.old line bytes.now (result ≡ Err ScheduleFault.Write) (W.contents writer.old)
        (W.contents writer.new) core.new) }
    ensures read { result ≡ Err ScheduleFault.Read → ⊥ }
    ensures too_long { result ≡ Err ScheduleFault.TooLong → ⊥ }
    ensures write { result ≡ Err ScheduleFault.Write → W.has_refused writer.new }
{
    match feed_chunk(alloc, core, writer, pending, lookout, bytes) {
        Ok(()) => Ok(()),
        Err(fault) => Err(fault.of_schedule()),
    }
}

/// What returns bytes, some at a call, and knows whether it has failed to. Every reader is one.
///
/// A reader's own contract doesn't say that it failed. So a function over any `Input` can say of a
/// fault that it came from there and was not made up.
pub trait Input {
    ghost remaining: { Self → Option (List ℕ) };

    ghost has_failed: { Self → Type 0 };

    /// Reads into `buf` and returns how many bytes were read. None if the input failed.
    fn fetch(&mut self, buf: &mut [u8]) -> Option<usize>
        ensures some { IfSome result (λ n. (n ≤ length buf.new)
            × Consumes (remaining self.old) (remaining self.new) (take n buf.new)
            × (n ≡ 0 → 0 < length buf.new → IsAtEnd (remaining self.new))) }
        ensures none { IfNone result (has_failed self.new × Keeps (remaining self.old) (remaining self.new)) };
}

impl<R: Read> Input for R {
    ghost remaining = { R.remaining };

    ghost has_failed = { λ _. Unit {0} };

    fn fetch(&mut self, buf: &mut [u8]) -> Option<usize> {
        match self.read(buf) {
            Ok(n) => Some(n),
            Err(_) => None,
        }
    }
}

/// Runs a schedule: reads it to its end, makes the steps of its lines in order, and writes what they
/// write. (docs/FORMATS.md, "Schedules".)
///
/// Lines that are not steps, and steps that are refused, are reported in the output and do not end the
/// schedule. The error is `Read` if the reader failed, `Write` if the writer failed or took nothing, `TooLong`
/// past `LONGEST_SCHEDULE` bytes, and `Memory` if an allocation failed, also in a step. After an error the first
/// lines of what was read were made and their output is written, except that after `Write` the end of the output
/// may be missing. Every line that is made is whole: a line feed ends it, or the end of the text does. So a piece
/// of a line that a fault cut off is not made. The text is read in parts of 4,096 bytes; each turn reads a byte
/// or ends. Memory is taken for one line and for the journal. Every `Read` is an `Input` and every `Write` a
/// `Sink`.
///
/// `tests_of_files` has this example as `first_calls::steps_and_runs`; L is a lamp that is off:
///
/// ```
/// let mut schedule = b"request @1 L LIGHT\nstart L\ngo L\n".as_slice();
/// let mut output = Vec::new(alloc);
/// run_schedule(alloc, &mut core, &mut schedule, &mut output)?;
/// // the output: accept @1 L 0 LIGHT\nstart L @1 0 LIGHT\nend L ON\n
/// ```
pub fn run_schedule<R: Input, W: Sink>(
    alloc: Global,
    core: &mut Core,
    reader: &mut R,
    writer: &mut W,
) -> Result<(), ScheduleFault>
    ensures ok { OnOk result ((text : List ℕ) × Consumes (R.remaining reader.old) (R.remaining reader.new) text
        × IsAtEnd (R.remaining reader.new) × (length text ≤ LONGEST_SCHEDULE)
        × ((out : List ℕ) × Appends (W.contents writer.old) (W.contents writer.new) out
        × Outputs LineWrites core.old (lines_of text) out core.new)) }
    ensures err { OnErr result ((text : List ℕ) × Consumes (R.remaining reader.old) (R.remaining reader.new) text
        × FirstLines LineWrites core.old text (IsAtEnd (R.remaining reader.new)) (result ≡ Err ScheduleFault.Write)
        (W.contents writer.old) (W.contents writer.new) core.new
        × ((length text ≤ LONGEST_SCHEDULE) ⊎ (result ≡ Err ScheduleFault.TooLong))) }
    ensures too_long { result ≡ Err ScheduleFault.TooLong → (text : List ℕ) × (more : List ℕ)
        × Consumes (R.remaining reader.old) (R.remaining reader.new) (text ++ more)
        × (LONGEST_SCHEDULE < length (text ++ more))
        × WholeLines LineWrites core.old text (W.contents writer.old) (W.contents writer.new) core.new }
    ensures cut { result ≡ Err ScheduleFault.Read → (text : List ℕ)
        × Consumes (R.remaining reader.old) (R.remaining reader.new) text
        × WholeLines LineWrites core.old text (W.contents writer.old) (W.contents writer.new) core.new }
    ensures read { result ≡ Err ScheduleFault.Read → R.has_failed reader.new }
    ensures write { result ≡ Err ScheduleFault.Write → W.has_refused writer.new }
{
    run_watched_schedule(alloc, core, reader, writer, &mut LookAway)
}

/// Runs a schedule as `run_schedule` does, with one who hears of each line.
pub fn run_watched_schedule<R: Input, W: Sink, L: Lookout>(
    alloc: Global,
    core: &mut Core,
    reader: &mut R,
    writer: &mut W,
    lookout: &mut L,
) -> Result<(), ScheduleFault>
    ensures ok { OnOk result ((text : List ℕ) × Consumes (R.remaining reader.old) (R.remaining reader.new) text
        × IsAtEnd (R.remaining reader.new) × (length text ≤ LONGEST_SCHEDULE)
        × ((out : List ℕ) × Appends (W.contents writer.old) (W.contents writer.new) out
        × Outputs LineWrites core.old (lines_of text) out core.new)) }
    ensures err { OnErr result ((text : List ℕ) × Consumes (R.remaining reader.old) (R.remaining reader.new) text
        × FirstLines LineWrites core.old text (IsAtEnd (R.remaining reader.new)) (result ≡ Err ScheduleFault.Write)
        (W.contents writer.old) (W.contents writer.new) core.new
        × ((length text ≤ LONGEST_SCHEDULE) ⊎ (result ≡ Err ScheduleFault.TooLong))) }
    ensures too_long { result ≡ Err ScheduleFault.TooLong → (text : List ℕ) × (more : List ℕ)
        × Consumes (R.remaining reader.old) (R.remaining reader.new) (text ++ more)
        × (LONGEST_SCHEDULE < length (text ++ more))
        × WholeLines LineWrites core.old text (W.contents writer.old) (W.contents writer.new) core.new }
    ensures cut { result ≡ Err ScheduleFault.Read → (text : List ℕ)
        × Consumes (R.remaining reader.old) (R.remaining reader.new) text
        × WholeLines LineWrites core.old text (W.contents writer.old) (W.contents writer.new) core.new }
    ensures read { result ≡ Err ScheduleFault.Read → R.has_failed reader.new }
    ensures write { result ≡ Err ScheduleFault.Write → W.has_refused writer.new }
{
    let mut buf = [0u8; 4096];
    let mut pending = Pending {
        kept: Vec::new(alloc),
        over: false,
        number: 1,
    };
    let mut total = 0usize;
    'reads: loop {
        let Some(n) = reader.fetch(&mut buf) else {
            return Err(ScheduleFault::Read);
        };
        if n == 0 {
            break;
        }
        if n > LONGEST_SCHEDULE - total {
            return Err(ScheduleFault::TooLong);
        }
        total += n;
        if let Err(fault) = feed_read(alloc, core, writer, &mut pending, lookout, &buf[..n]) {
            return Err(fault);
        }
    }
    match end_line(alloc, core, writer, &mut pending, lookout) {
        Ok(()) => Ok(()),
        Err(fault) => Err(fault.of_schedule()),
    }
}
