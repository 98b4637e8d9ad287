//! The command `check`: domain files go in, and one line comes out for each.

ghost use Rattle.std.specs.Prelude.{◌≤◌, ◌++◌, IfOk, OnOk, codes};
ghost use Rattle.sml_text.specs.Written.{Wrote};
ghost use Rattle.smirun_commands.specs.Judgement.{PathIsTold, judgement_text};

use crate::advice::Advice;
use crate::fault::{Fault, tell_cause};
use crate::judgement::{FileOutcome, judge};
use crate::loading::domain_of_bytes;
use crate::status::DONE;
use crate::text::load_text;
use bumpalo::Bump;
use sml_domain::Domain;
use sml_text::{Sink, put};
use std::alloc::{AllocError, Allocator, Global};
use std::fs::Files;
use std::io::{BufWriter, Read, Write};
use std::sync::Arc;

/// Tells of each file whether it is well-formed, or why not, and returns the exit status. A refused or
/// unreadable file is reported, and the next follows; a fault of the output, or being out of memory, ends it.
/// Why a file is unreadable goes to `errors`. So does the advice on a file, if that is asked for, once the file's line
/// is written out. Each tree lies in an arena that is emptied for the next file. The text of each file is passed to
/// `judge`, and the line is that of its judgement.
pub fn run_check<R: Files + AllocGlobal, I: Read, W: Write, E: Write>(
    rt: &R,
    files: &[&str],
    explain: bool,
    input: &mut I,
    output: &mut W,
    errors: &mut E,
) -> Result<u8, Fault<'static>>
    ensures { IfOk result (λ status. status ≤ 1) }
{
    let Ok(mut writer) = BufWriter::new(rt.alloc(), &mut *output) else {
        return Err(Fault::Memory);
    };
    let told = tell_files(rt, files, explain, input, &mut writer, errors);
    // After a fault too: what was told before it is written.
    let flushed = writer.flush();
    match told {
        Ok(status) if flushed.is_ok() => Ok(status),
        Ok(_) => Err(Fault::Output),
        Err(fault) => Err(fault),
    }
}

/// Tells of one file whether it is well-formed, or why not, as `run_check` does, and returns its domain if it is.
pub fn check_domain<R: Files + AllocGlobal, I: Read, W: Write, E: Write>(
    rt: &R,
    file: &str,
    explain: bool,
    input: &mut I,
    output: &mut W,
    errors: &mut E,
) -> Result<Option<Arc<Domain>>, Fault<'static>> {
    let heap = rt.alloc();
    let mut text = Vec::new(heap);
    let Ok(judgement) = judge_file(rt, heap, file, &mut text, input, errors) else {
        return Err(Fault::Memory);
    };
    if let Err(fault) = tell_judgement(heap, file, judgement, output) {
        return Err(fault);
    }
    if explain && output.flush().is_ok() {
        advise(heap, file, text.as_slice(), judgement, errors);
    }
    if judgement.status() != DONE {
        return Ok(None);
    }
    match domain_of_bytes(heap, file, text.as_slice()) {
        Ok(domain) => Ok(Some(domain)),
        Err(_) => Err(Fault::Memory),
    }
}

// Writes the line of each file, and returns the worst of their statuses.
fn tell_files<R: Files + AllocGlobal, I: Read, W: Write, E: Write>(
    rt: &R,
    files: &[&str],
    explain: bool,
    input: &mut I,
    writer: &mut W,
    errors: &mut E,
) -> Result<u8, Fault<'static>>
    ensures { IfOk result (λ status. status ≤ 1) }
{
    let mut arena = Bump::new(rt.alloc());
    let mut worst = 0;
    for file in files {
        let mut text = Vec::new(rt.alloc());
        let Ok(judgement) = judge_file(rt, &arena, file, &mut text, input, errors) else {
            return Err(Fault::Memory);
        };
        if let Err(fault) = tell_judgement(rt.alloc(), file, judgement, writer) {
            return Err(fault);
        }
        if explain && writer.flush().is_ok() {
            advise(rt.alloc(), file, text.as_slice(), judgement, errors);
        }
        worst = worst.max(judgement.status());
        if arena.reset().is_err() {
            return Err(Fault::Memory);
        }
    }
    Ok(worst)
}

/// Writes the line of a file that was judged so.
pub(crate) fn tell_judgement<W: Sink>(
    heap: Global,
    file: &str,
    judgement: FileOutcome,
    writer: &mut W,
) -> Result<(), Fault<'static>>
    ensures { OnOk result (Wrote (W.contents writer.old) (W.contents writer.new)
        (file.now ++ (codes " " ++ (judgement_text judgement ++ codes "\n")))) }
{
    let Ok(line) = format!(in heap; "{file} {judgement}\n") else {
        return Err(Fault::Memory);
    };
    match put(writer, line.as_bytes()) {
        Ok(()) => Ok(()),
        Err(_) => Err(Fault::Output),
    }
}

/// Writes the advice on a text that was judged so.
pub(crate) fn advise<E: Sink>(
    heap: Global,
    file: &str,
    text: &[u8],
    judgement: FileOutcome,
    errors: &mut E,
) {
    let mut advice = Advice::new(heap, true);
    match judgement {
        FileOutcome::Good => advice.of_good_domain(file, text),
        FileOutcome::Read(error) => {
            let fault = Fault::of_text(file, error);
            advice.of_domain(heap, file, text, &fault);
        }
        FileOutcome::Check(error) => {
            let fault = Fault::of_file(file, error);
            advice.of_domain(heap, file, text, &fault);
        }
        FileOutcome::Unreadable => {}
    }
    advice.tell(errors);
}

/// Judges the file of a path, and puts its text into `text`. The error is out of memory, while the text is read
/// (`FileOutcome::of_input`) or judged.
pub(crate) fn judge_file<R: Files + AllocGlobal, A: Allocator + Clone, I: Read, E: Write>(
    rt: &R,
    alloc: A,
    file: &str,
    text: &mut Vec<u8>,
    input: &mut I,
    errors: &mut E,
) -> Result<FileOutcome, AllocError>
    ensures { IfOk result PathIsTold }
{
    match load_text(rt, input, file) {
        Ok(read) => {
            *text = read;
            judge(rt.alloc(), alloc, text.as_slice())
        }
        Err(error) => {
            let judgement = FileOutcome::of_input(&error)?;
            tell_cause(file, &error, errors);
            Ok(judgement)
        }
    }
}
