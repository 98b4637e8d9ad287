//! A manager that continues after the lines of a log.
ghost use Rattle.std.specs.Prelude.{◌≡◌, ◌≤◌, ℕ, IfNone, IfOk, length};
ghost use Rattle.std.specs.Arc.{arc_value};
ghost use Rattle.sml_load.specs.Texts.{IsDomainOfText};
ghost use Rattle.smi_live.specs.Managing.{keeper_of};
ghost use Rattle.smi_live_carried.specs.Recalling.{recalled_table};
ghost use Rattle.smi_log_front.specs.declared.first_line.LogVersion.TheVariants.{One};
ghost use Rattle.smi_world.specs.World.{opening};
ghost use Rattle.smirun_live.specs.Continuing.{BeginsAs, ContinuesLog, ContinuesWith, begun_with};
ghost use Rattle.smirun_live.specs.FirstLine.{IsHeadOf};

use crate::beginning::{Beginning, LogText, beginning_of};
use crate::log_lines::{capacity_at_end, first_line_refusal, starts_in, whole_lines};
use crate::observer::LiveNotes;
use crate::options::LiveOptions;
use crate::performing::perform;
use crate::preparing::{Prepared, prepare_text};
use smi_carried::{CarriedCounts, CarriedOnce};
use smi_core::Core;
use smi_live::Manager;
use smi_log_begin::recall_all;
use smirun_commands::{Fault, LogRefusal, MAX_CAPACITY, MAX_STARTS, STANDARD_INPUT};
use sml_domain::Domain;
use std::alloc::{AllocError, Global};
use std::sync::Arc;

// Why a log, of which this many bytes are whole lines, is refused before they are made again: by its first line, and
// then by its starts.
fn refusal_of(
    log: LogText<'_, '_>,
    whole: usize,
    first: &[u8],
    max_starts: usize,
) -> Option<LogRefusal>
    requires { whole ≤ length log.text.now }
    ensures { IfNone result (BeginsAs first.now log.entry.text.now whole) }
{
    if let Some(refusal) = first_line_refusal(log.text, whole, first) {
        return Some(refusal);
    }
    let starts = starts_in(log.text.split_at(whole).0);
    if starts > max_starts {
        return Some(LogRefusal::Starts(starts as u64));
    }
    None
}

// The notes of a manager of a domain, which is as its file declares it, after logs with these counts.
fn notes_of<'a>(
    alloc: Global,
    options: &LiveOptions<'a>,
    declared: &Arc<Domain>,
    before: Vec<CarriedCounts>,
) -> Result<LiveNotes<'a>, AllocError> {
    let shared = Arc::try_clone(declared)?;
    let log = options.log.unwrap_or(STANDARD_INPUT);
    let notes = LiveNotes::new(
        alloc,
        shared,
        options.file,
        log,
        options.max_starts,
        options.explain,
    )?;
    Ok(notes.after_logs(before))
}

// A core of a domain, which did nothing yet.
fn core_of<'a>(
    alloc: Global,
    options: &LiveOptions<'a>,
    domain: Arc<Domain>,
) -> Result<Core, Fault<'a>>
    ensures domain { IfOk result (λ core. core.setup.domain ≡ arc_value domain) }
    ensures limits { IfOk result (λ core. (core.setup.capacity ≡ options.now.capacity)
        × (core.setup.max_starts ≡ options.now.max_starts)) }
    ensures opening { IfOk result (λ core. core.world ≡ opening core.setup) }
{
    match Core::new(alloc, domain, options.capacity, options.max_starts) {
        Ok(core) => Ok(core),
        Err(error) => Err(Fault::of_core(error)),
    }
}

// The manager of a core that did nothing yet, to which these names of the logs before were told.
fn manager_of<'a>(
    alloc: Global,
    core: Core,
    max_starts: usize,
    notes: LiveNotes<'a>,
    names: &[CarriedOnce],
) -> Result<Manager<LiveNotes<'a>>, Fault<'a>>
    requires opening { core.world ≡ opening core.setup }
    requires starts { max_starts ≡ core.setup.max_starts }
    ensures setup { IfOk result (λ m. m.core.setup ≡ core.setup) }
    ensures keeper { IfOk result (λ m. keeper_of m ≡ begun_with core.setup (recalled_table names.now)) }
{
    let mut manager = match Manager::new(alloc, core, max_starts, notes) {
        Ok(manager) => manager,
        Err(_) => return Err(Fault::Memory),
    };
    match recall_all(&mut manager, names) {
        Ok(()) => Ok(manager),
        Err(_) => Err(Fault::Memory),
    }
}

// A manager of the domain with which a log begins, of which no line was made.
fn manager_begun<'a>(
    alloc: Global,
    options: &LiveOptions<'a>,
    declared: &Arc<Domain>,
    beginning: Beginning,
) -> Result<Manager<LiveNotes<'a>>, Fault<'a>>
    ensures domain { IfOk result (λ m. m.core.setup.domain ≡ arc_value beginning.domain) }
    ensures limits { IfOk result (λ m. (m.core.setup.capacity ≡ options.now.capacity)
        × (m.core.setup.max_starts ≡ options.now.max_starts)) }
    ensures keeper { IfOk result (λ m. keeper_of m
        ≡ begun_with m.core.setup (recalled_table beginning.carried.names)) }
{
    let Beginning {
        domain,
        carried,
        ..
    } = beginning;
    let Ok(notes) = notes_of(alloc, options, declared, carried.counts) else {
        return Err(Fault::Memory);
    };
    match core_of(alloc, options, domain) {
        Ok(core) => manager_of(alloc, core, options.max_starts, notes, &carried.names),
        Err(fault) => Err(fault),
    }
}

// A manager of what a log begins with, after the whole lines of the log.
fn manager_after_lines<'a>(
    alloc: Global,
    prepared: &Prepared<'a>,
    beginning: Beginning,
    log: LogText<'a, '_>,
) -> Result<Manager<LiveNotes<'a>>, Fault<'a>>
    ensures domain { IfOk result (λ m. m.core.setup.domain ≡ arc_value beginning.domain) }
    ensures limits { IfOk result (λ m. (m.core.setup.capacity ≡ prepared.now.options.capacity)
        × (m.core.setup.max_starts ≡ prepared.now.options.max_starts)) }
    ensures log { IfOk result (λ m. ContinuesWith m.core.setup (recalled_table beginning.carried.names)
        beginning.first.items log.entry.text.now (keeper_of m)) }
{
    let options = &prepared.options;
    let whole = whole_lines(log.text);
    if let Some(refusal) = refusal_of(log, whole, &beginning.first, options.max_starts) {
        return Err(Fault::Log(log.path, refusal));
    }
    let mut manager = match manager_begun(alloc, options, &prepared.domain, beginning) {
        Ok(manager) => manager,
        Err(fault) => return Err(fault),
    };
    match perform(alloc, log.path, &mut manager, log.text.split_at(whole).0) {
        Ok(()) => Ok(manager),
        Err(fault) => Err(fault),
    }
}

/// A manager of what was prepared, after the whole lines of a log, which are made again in silence. A log without a
/// line is that of a manager that begins.
///
/// The faults are those of the log: `Log`, by its first line, then by its front, if it has one, and then by its starts;
/// `BadLine` at the first line that no manager would have written there; and out of memory. The cost is that of the
/// steps of its lines.
pub(crate) fn manager_after<'a>(
    alloc: Global,
    prepared: &Prepared<'a>,
    log: LogText<'a, '_>,
) -> Result<Manager<LiveNotes<'a>>, Fault<'a>>
    requires domain { IsDomainOfText prepared.now.text.items (arc_value prepared.now.domain) }
    requires first { IsHeadOf prepared.now.text.items One prepared.now.options.capacity prepared.now.first.items }
    ensures limits { IfOk result (λ m. (m.core.setup.capacity ≡ prepared.now.options.capacity)
        × (m.core.setup.max_starts ≡ prepared.now.options.max_starts)) }
    ensures log { IfOk result (λ m.
        ContinuesLog prepared.now.text.items log.entry.text.now m.core.setup (keeper_of m)) }
{
    match beginning_of(alloc, prepared, log) {
        Ok(beginning) => manager_after_lines(alloc, prepared, beginning, log),
        Err(fault) => Err(fault),
    }
}

/// The manager of the text of a domain and of that of a log, which `live` runs: on the domain of exactly this text, as
/// it declares it or as the front of the log says, with the limits that are given, in the opening world or in that after
/// the whole lines of the log, of which the first names the domain and the capacity. No file is read or written.
///
/// The faults are those of the domain's text, then those of the log, and out of memory.
pub fn manager_of_texts<'a>(
    alloc: Global,
    options: &LiveOptions<'a>,
    text: &[u8],
    log: &[u8],
) -> Result<Manager<LiveNotes<'a>>, Fault<'a>>
    ensures limits { IfOk result (λ m. (m.core.setup.capacity ≡ options.now.capacity)
        × (m.core.setup.max_starts ≡ options.now.max_starts)) }
    ensures log { IfOk result (λ m. ContinuesLog text.now log.now m.core.setup (keeper_of m)) }
{
    match prepare_text(alloc, options, text) {
        Ok(prepared) => {
            let log = LogText {
                path: options.log.unwrap_or(""),
                text: log,
            };
            manager_after(alloc, &prepared, log)
        }
        Err(fault) => Err(fault),
    }
}

/// A manager that continues after a log, and its domain.
#[derive(Drop)]
pub struct Continued<'a> {
    /// The manager.
    pub manager: Manager<LiveNotes<'a>>,
    /// The domain that it runs, as that begins, which may be shared with others.
    pub domain: Arc<Domain>,
    /// The domain as its file declares it: the same, unless the log follows another.
    pub declared: Arc<Domain>,
    /// How many requests wait at an object at most.
    pub capacity: usize,
}

/// The manager of the text of a domain and of that of a log that a manager of it wrote, with the capacity that the log
/// names and the most starts that there may be. No file is read or written.
///
/// The faults are those of [`manager_of_texts`], but for that of another capacity.
pub fn continued_of_texts<'a>(
    alloc: Global,
    file: &'a str,
    path: &'a str,
    text: &[u8],
    log: &[u8],
) -> Result<Continued<'a>, Fault<'a>>
    ensures declared { IfOk result (λ c. IsDomainOfText text.now (arc_value c.declared)) }
    ensures shared { IfOk result (λ c. c.manager.core.setup.domain ≡ arc_value c.domain) }
    ensures capacity { IfOk result (λ c. c.capacity ≡ c.manager.core.setup.capacity) }
    ensures log { IfOk result (λ c.
        ContinuesLog text.now log.now c.manager.core.setup (keeper_of c.manager)) }
{
    // A log without a whole first line names none, and is that of a manager that did nothing yet.
    let capacity = capacity_at_end(log).unwrap_or(MAX_CAPACITY);
    match prepare_text(alloc, &options_of_log(file, path, capacity), text) {
        Ok(prepared) => continued_of(alloc, prepared, path, log),
        Err(fault) => Err(fault),
    }
}

// The options of a manager of a log that another one may have.
fn options_of_log<'a>(file: &'a str, path: &'a str, capacity: usize) -> LiveOptions<'a> {
    LiveOptions {
        file,
        log: Some(path),
        resume: true,
        sync: false,
        in_turn: true,
        capacity,
        max_starts: MAX_STARTS,
        explain: false,
    }
}

// The manager of what was prepared, after a log of this path, and its domain.
fn continued_of<'a>(
    alloc: Global,
    prepared: Prepared<'a>,
    path: &'a str,
    log: &[u8],
) -> Result<Continued<'a>, Fault<'a>>
    requires domain { IsDomainOfText prepared.text.items (arc_value prepared.domain) }
    requires first { IsHeadOf prepared.text.items One prepared.options.capacity prepared.first.items }
    ensures declared { IfOk result (λ c. arc_value c.declared ≡ arc_value prepared.entry.domain) }
    ensures shared { IfOk result (λ c. c.manager.core.setup.domain ≡ arc_value c.domain) }
    ensures capacity { IfOk result (λ c. c.capacity ≡ c.manager.core.setup.capacity) }
    ensures log { IfOk result (λ c.
        ContinuesLog prepared.entry.text.items log.now c.manager.core.setup (keeper_of c.manager)) }
{
    let text = LogText { path, text: log };
    let beginning = match beginning_of(alloc, &prepared, text) {
        Ok(beginning) => beginning,
        Err(fault) => return Err(fault),
    };
    let Ok(domain) = Arc::try_clone(&beginning.domain) else {
        return Err(Fault::Memory);
    };
    let Ok(declared) = Arc::try_clone(&prepared.domain) else {
        return Err(Fault::Memory);
    };
    match manager_after_lines(alloc, &prepared, beginning, text) {
        Ok(manager) => Ok(Continued {
            manager,
            domain,
            declared,
            capacity: prepared.options.capacity,
        }),
        Err(fault) => Err(fault),
    }
}
