//! The command `live`.
ghost use Rattle.std.specs.Prelude.{◌≡◌, Err, IfSome};
ghost use Rattle.std.specs.Arc.{arc_value};
ghost use Rattle.sml_load.specs.Texts.{IsDomainOfText};
ghost use Rattle.smi_log_front.specs.declared.first_line.LogVersion.TheVariants.{One};
ghost use Rattle.smirun_commands.specs.Paths.{IsReadAs};
ghost use Rattle.smirun_live.specs.FirstLine.{IsHeadOf};

use crate::arriving::Arriving;
use crate::beginning::LogText;
use crate::continuing::manager_after;
use crate::host::LiveHost;
use crate::in_turn::InTurn;
use crate::inbox::{Inbox, read_all};
use crate::lines::Lines;
use crate::log::NoLog;
use crate::log_watch::{LogSize, LogWatch};
use crate::observer::LiveNotes;
use crate::open_log::OpenLog;
use crate::options::LiveOptions;
use crate::preparing::{Prepared, prepare};
use crate::resume::{Opened, open_log};
use crate::running::{run_manager, tell_remains};
use crate::wanted_log::WantedLog;
use smi_live::Manager;
use smirun_commands::{Advice, Fault, is_one_read};
use sml_text::put;
use std::alloc::{AllocError, Global};
use std::io::{LineWriter, Read, Write};
use std::sync::atomic::AtomicU64;
use std::sync::{Arc, Wait};
use std::thread;
use std::thread::Threads;

/// Runs a manager on the domain, whose lines are those of `input`, in turn: a line is taken only if nothing else is
/// left to do.
///
/// A log with the path of the domain is refused before anything is read (`Fault::Overwrites`). The domain is read and
/// checked before the log is opened. Then the log is locked and begun, or what it holds is made again; how all stands,
/// and the starts of what devices have in hand, are then the first that is written. What lines write is written before
/// the next line is taken, and a line is in the log before what it writes is written. Remarks go to `errors`, also what
/// is left at the end, and the advice on the domain to `advice`. What is made of the domain and the log is passed to
/// `run_manager`.
pub fn run_live<'a, R: LiveHost, I: Read, W: Write, E: Write>(
    rt: &R,
    options: &LiveOptions<'a>,
    input: &mut I,
    output: &mut W,
    errors: &mut E,
    advice: &mut Advice,
) -> Result<(), Fault<'a>>
    ensures domain_stays { IfSome options.now.log (λ path. IsReadAs options.now.file.now path.now
        → result ≡ Err (Fault.Overwrites path)) }
{
    if let Some(path) = options.log {
        if is_one_read(rt, options.file, options.file, path) {
            return Err(Fault::Overwrites(path));
        }
    }
    let Ok(mut writer) = LineWriter::new(rt.alloc(), &mut *output) else {
        return Err(Fault::Memory);
    };
    match begin(rt, options, &mut writer, advice) {
        Ok(begun) => {
            let mut feed = InTurn::new(rt.alloc(), &mut *input, &mut *errors);
            let ran = run_begun(rt.alloc(), options, begun, &mut feed, &mut writer);
            advise_on_end(&ran, advice);
            ran
        }
        Err(fault) => Err(fault),
    }
}

/// Runs a manager on the domain as [`run_live`] does, whose lines are those of `input`, as they come: another thread
/// reads them, and a line that has come is taken between two steps.
pub fn run_live_as_lines_come<
    'a,
    R: LiveHost + 'static,
    I: Read + Send + Drop + 'static,
    W: Write,
    E: Write,
>(
    rt: &R,
    options: &LiveOptions<'a>,
    input: I,
    output: &mut W,
    errors: &mut E,
    advice: &mut Advice,
) -> Result<(), Fault<'a>>
    ensures domain_stays { IfSome options.now.log (λ path. IsReadAs options.now.file.now path.now
        → result ≡ Err (Fault.Overwrites path)) }
{
    if let Some(path) = options.log {
        if is_one_read(rt, options.file, options.file, path) {
            return Err(Fault::Overwrites(path));
        }
    }
    let Ok(mut writer) = LineWriter::new(rt.alloc(), &mut *output) else {
        return Err(Fault::Memory);
    };
    match begin(rt, options, &mut writer, advice) {
        Ok(begun) => {
            let ran = run_arriving(rt, options, begun, input, &mut writer, errors);
            advise_on_end(&ran, advice);
            ran
        }
        Err(fault) => Err(fault),
    }
}

// Advises on a log that a manager which ended so writes no more.
fn advise_on_end(ran: &Result<(), Fault<'_>>, advice: &mut Advice) {
    if let Err(Fault::Log(path, refusal)) = ran {
        advice.of_refused_log(path, *refusal);
    }
}

// Runs a manager until the input has ended.
fn run_arriving<'a, R: LiveHost + 'static, I: Read + Send + Drop + 'static, W: Write, E: Write>(
    rt: &R,
    options: &LiveOptions<'a>,
    begun: Begun<'a>,
    input: I,
    output: &mut W,
    errors: &mut E,
) -> Result<(), Fault<'a>> {
    let watch = match begun.watch(options) {
        Ok(watch) => watch,
        Err(fault) => return Err(fault),
    };
    match start_reader(*rt, rt.alloc(), input) {
        Ok(inbox) => {
            let mut feed = Arriving::new(*rt, inbox, watch, &mut *errors);
            run_begun(rt.alloc(), options, begun, &mut feed, output)
        }
        Err(_) => Err(Fault::Memory),
    }
}

// Starts the thread that reads the lines. It is never joined: it may wait for a line for ever, if the manager is
// stopped by a fault.
fn start_reader<R: Threads + Wait + Copy + Send + Drop + 'static, I: Read + Send + Drop + 'static>(
    rt: R,
    alloc: Global,
    input: I,
) -> Result<Arc<Inbox>, AllocError> {
    let inbox = Arc::new(alloc, Inbox::new(alloc))?;
    let theirs = Arc::try_clone(&inbox)?;
    match thread::spawn(&rt, move || read_all(&rt, alloc, input, &theirs)) {
        Ok(_) => Ok(inbox),
        Err(_) => Err(AllocError),
    }
}

// A manager that can continue, and its log, with how many bytes that has.
#[derive(Drop)]
struct Begun<'a> {
    manager: Manager<LiveNotes<'a>>,
    log: Option<OpenLog>,
    size: LogSize,
}

impl<'a> Begun<'a> {
    // The watch of its log, if it has one.
    fn watch(&self, options: &LiveOptions<'a>) -> Result<Option<LogWatch<'a>>, Fault<'a>> {
        let (Some(path), Some(log)) = (options.log, &self.log) else {
            return Ok(None);
        };
        match Arc::try_clone(&self.size) {
            Ok(size) => match log.watch(path, size) {
                Ok(watch) => Ok(Some(watch)),
                Err(fault) => Err(fault),
            },
            Err(_) => Err(Fault::Memory),
        }
    }
}

// Makes a manager of the domain, and opens its log. What is to be told about a log that is resumed is written.
fn begin<'a, R: LiveHost, W: Write>(
    rt: &R,
    options: &LiveOptions<'a>,
    output: &mut W,
    advice: &mut Advice,
) -> Result<Begun<'a>, Fault<'a>> {
    match prepare(rt, options, advice) {
        Ok(prepared) => begin_log(rt, options, prepared, output, advice),
        Err(fault) => Err(fault),
    }
}

// Makes a manager of what was prepared, opens the log, and writes what is told about one that is resumed.
fn begin_log<'a, R: LiveHost, W: Write>(
    rt: &R,
    options: &LiveOptions<'a>,
    prepared: Prepared<'a>,
    output: &mut W,
    advice: &mut Advice,
) -> Result<Begun<'a>, Fault<'a>>
    requires domain { IsDomainOfText prepared.text.items (arc_value prepared.domain) }
    requires first { IsHeadOf prepared.text.items One prepared.options.capacity prepared.first.items }
{
    let mut told = Vec::new(rt.alloc());
    match open_wanted(rt, options, prepared, &mut told, advice) {
        Ok((manager, log)) if put(output, &told).is_ok() => begun_with(rt.alloc(), manager, log),
        Ok(_) => Err(Fault::Output),
        Err(fault) => Err(fault),
    }
}

// A manager that continues after what its log has.
fn begun_with<'a>(
    alloc: Global,
    mut manager: Manager<LiveNotes<'a>>,
    log: Option<OpenLog>,
) -> Result<Begun<'a>, Fault<'a>> {
    let (bytes, lines, room) = match &log {
        Some(log) => (log.size, log.lines, Some(log.room())),
        None => (0, 0, None),
    };
    manager.begin(lines, room);
    match Arc::new(alloc, AtomicU64::new(bytes as u64)) {
        Ok(size) => Ok(Begun { manager, log, size }),
        Err(_) => Err(Fault::Memory),
    }
}

// A manager of what was prepared, and its log, if one is asked for.
fn open_wanted<'a, R: LiveHost>(
    rt: &R,
    options: &LiveOptions<'a>,
    prepared: Prepared<'a>,
    told: &mut Vec<u8>,
    advice: &mut Advice,
) -> Result<(Manager<LiveNotes<'a>>, Option<OpenLog>), Fault<'a>>
    requires domain { IsDomainOfText prepared.text.items (arc_value prepared.domain) }
    requires first { IsHeadOf prepared.text.items One prepared.options.capacity prepared.first.items }
{
    let Some(path) = options.log else {
        return match manager_after(rt.alloc(), &prepared, LogText::none()) {
            Ok(manager) => Ok((manager, None)),
            Err(fault) => Err(fault),
        };
    };
    let wanted = WantedLog {
        path,
        resume: options.resume,
        sync: options.sync,
    };
    match open_log(rt, &wanted, prepared, told, advice) {
        Ok(Opened { manager, log }) => Ok((manager, Some(log))),
        Err(fault) => Err(fault),
    }
}

// Runs a manager until no line will come any more, and tells beside the output what is left.
fn run_begun<'a, F: Lines, W: Write>(
    alloc: Global,
    options: &LiveOptions<'a>,
    begun: Begun<'a>,
    feed: &mut F,
    output: &mut W,
) -> Result<(), Fault<'a>> {
    let Begun {
        mut manager,
        log,
        size,
    } = begun;
    let path = options.log.unwrap_or("");
    let ran = match log {
        Some(log) => {
            let mut kept = log.into_file(size, options.sync);
            run_manager(alloc, path, &mut manager, feed, &mut kept, output)
        }
        None => run_manager(alloc, path, &mut manager, feed, &mut NoLog, output),
    };
    // After a fault too: what was done before it is told.
    let flushed = output.flush();
    match ran {
        Ok(()) if flushed.is_ok() => {
            tell_remains(alloc, &mut manager, feed);
            Ok(())
        }
        Ok(()) => Err(Fault::Output),
        Err(fault) => Err(fault),
    }
}
