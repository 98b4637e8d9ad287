//! The command `next`.
ghost use Rattle.std.specs.Prelude.{◌≤◌, IfOk};

use crate::handing::{Unhanded, hand_over, next_path};
use crate::next_text::{NextLog, next_of_texts};
use crate::options::NextOptions;
use smirun_commands::{
    Advice, DONE, Fault, LoadedDomain, LogRefusal, is_one_read, load_with_text, tell_text,
};
use smirun_live::{LiveHost, open_locked, read_log};
use std::alloc::Global;
use std::fs;
use std::fs::File;
use std::io::{Read, Write};

/// Begins the log that follows one, in its place, and returns the exit status. The log keeps a name beside it, which is
/// written to the output.
///
/// A domain file that has the path of the next log before it takes its place is refused before anything is read
/// (`Fault::Overwrites`). The domain is read and checked before the log is looked at. That is no link, is locked, and its
/// lines are made again; it has to be whole, and to rest. Where it does not, the lines of how all stands that say why go
/// to `errors`, after the fault. Whatever is refused, nothing is changed. What is advised goes to `advice`.
///
/// The error is the fault of the domain, by its path; that of the log, as where it is resumed, or `Log` with `IsLink`,
/// `Torn` or `Moved`; `JournalUnwritten`, `Output` or `Memory`.
pub fn run_next<'a, R: LiveHost, I: Read, W: Write, E: Write>(
    rt: &R,
    options: &NextOptions<'a>,
    input: &mut I,
    output: &mut W,
    errors: &mut E,
    advice: &mut Advice,
) -> Result<u8, Fault<'a>>
    ensures { IfOk result (λ status. status ≤ 4) }
{
    if let Err(fault) = look_at_paths(rt, options) {
        return Err(fault);
    }
    let loaded = match load_with_text(rt, input, options.file, advice) {
        Ok(loaded) => loaded,
        Err(fault) => return Err(fault),
    };
    let log = open_log(rt, options.log);
    advise_on(&log, advice);
    let log = match log {
        Ok(log) => log,
        Err(fault) => return Err(fault),
    };
    match next_of_log(rt.alloc(), options, &loaded, &log, advice) {
        Ok(NextLog::Begins(text)) => {
            let written = write_next(rt, options, &log.file, &text, output, errors);
            advise_on(&written, advice);
            written
        }
        Ok(NextLog::Restless(lines)) => Ok(tell_restless(options, &lines, errors, advice)),
        Err(fault) => Err(fault),
    }
}

// Refuses a domain file that would be written over.
fn look_at_paths<'a, R: LiveHost>(rt: &R, options: &NextOptions<'a>) -> Result<(), Fault<'a>> {
    let Ok(next) = next_path(rt.alloc(), options.log) else {
        return Err(Fault::Memory);
    };
    if is_one_read(rt, options.file, options.file, next.as_str()) {
        return Err(Fault::Overwrites(options.file));
    }
    Ok(())
}

// The file of a log, which is locked, and all its bytes.
#[derive(Drop)]
struct LockedLog {
    file: File,
    text: Vec<u8>,
}

// Opens a log, locks it, and reads it.
fn open_log<'a, R: LiveHost>(rt: &R, path: &'a str) -> Result<LockedLog, Fault<'a>> {
    match fs::symlink_metadata(rt, path) {
        Ok(known) if known.is_symlink() => return Err(Fault::Log(path, LogRefusal::IsLink)),
        _ => {}
    }
    let mut file = match open_locked(rt, path, false) {
        Ok(file) => file,
        Err(fault) => return Err(fault),
    };
    match read_log(rt.alloc(), path, &mut file) {
        Ok(text) => Ok(LockedLog { file, text }),
        Err(fault) => Err(fault),
    }
}

// Advises on a log that is refused.
fn advise_on<T>(made: &Result<T, Fault<'_>>, advice: &mut Advice) {
    if let Err(Fault::Log(path, refusal)) = made {
        advice.of_refused_log(path, *refusal);
    }
}

// The log that follows one, with advice on what is refused.
fn next_of_log<'a>(
    alloc: Global,
    options: &NextOptions<'a>,
    loaded: &LoadedDomain<'a>,
    log: &LockedLog,
    advice: &mut Advice,
) -> Result<NextLog, Fault<'a>> {
    let next = next_of_texts(
        alloc,
        options.file,
        options.log,
        &loaded.text,
        &log.text,
        options.capacity,
    );
    if let Err(Fault::BadLine(path, number)) = &next {
        advice.of_bad_log(path, &log.text, *number);
    }
    advise_on(&next, advice);
    next
}

// Tells that not all rests, and what does not.
fn tell_restless<E: Write>(
    options: &NextOptions<'_>,
    lines: &[u8],
    errors: &mut E,
    advice: &mut Advice,
) -> u8
    ensures { result ≤ 4 }
{
    advice.of_refused_log(options.log, LogRefusal::Restless);
    let status = Fault::Log(options.log, LogRefusal::Restless).tell(errors);
    let _ = errors.write_all(lines);
    status
}

// Writes the next log in the place of the log, and tells the name that the log has then.
fn write_next<'a, R: LiveHost, W: Write, E: Write>(
    rt: &R,
    options: &NextOptions<'a>,
    file: &File,
    text: &[u8],
    output: &mut W,
    errors: &mut E,
) -> Result<u8, Fault<'a>>
    ensures { IfOk result (λ status. status ≤ 4) }
{
    match hand_over(rt, options.log, file, text) {
        Ok(name) => tell_handed(rt.alloc(), name.as_str(), output),
        Err(Unhanded::At(path, cause)) => {
            Ok(Fault::JournalUnwritten(path.as_str(), Some(cause)).tell(errors))
        }
        Err(Unhanded::Moved) => Err(Fault::Log(options.log, LogRefusal::Moved)),
        Err(Unhanded::Memory) => Err(Fault::Memory),
    }
}

// Tells the name that the log has now.
fn tell_handed<'a, W: Write>(alloc: Global, name: &str, output: &mut W) -> Result<u8, Fault<'a>>
    ensures { IfOk result (λ status. status ≤ 4) }
{
    let Ok(line) = format!(in alloc; "{name}\n") else {
        return Err(Fault::Memory);
    };
    match tell_text(line.as_bytes(), output) {
        Ok(()) => Ok(DONE),
        Err(fault) => Err(fault),
    }
}
