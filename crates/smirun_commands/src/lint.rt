//! The command `lint`: domain files go in, and a line comes out for each thing in them that is senseless.
ghost use Rattle.std.specs.Prelude.{◌≤◌, IfOk};

use crate::check::{advise, judge_file, tell_judgement};
use crate::fault::Fault;
use crate::judgement::FileOutcome;
use crate::loading::domain_of_bytes;
use crate::status::{DONE, REFUSED};
use bumpalo::Bump;
use explain_lint::{Lines, Warning, explain_warning, tell_warning, warnings_of};
use sml_domain::Domain;
use sml_text::{Sink, put};
use sml_writer::Out;
use std::alloc::{AllocError, Global};
use std::fs::Files;
use std::io::{BufWriter, Read, Write};

/// What `lint` is asked to do. The texts are words of a command line.
#[derive(Drop)]
pub struct LintOptions<'a> {
    /// The paths of the domain files, of which one may be `-`.
    pub files: Vec<&'a str>,
    /// Whether states are told that no action leaves.
    pub all: bool,
    /// Whether a warning makes the status that of a refusal.
    pub strict: bool,
    /// Whether it is explained why a file is refused, and what is senseless.
    pub explain: bool,
}

/// Reads and checks each file as `run_check` does, tells of a refused one what that tells, and of a well-formed one
/// each warning. Returns the exit status: `REFUSED` if a file was refused, or in a strict run if there was a warning,
/// and otherwise `DONE`. A fault of the output, or being out of memory, ends it. Explanations of a file go to `errors`
/// when its lines are written out.
///
/// The cost is that of `check` and of `warnings_of`.
pub fn run_lint<R: Files + AllocGlobal, I: Read, W: Write, E: Write>(
    rt: &R,
    options: &LintOptions<'_>,
    input: &mut I,
    output: &mut W,
    errors: &mut E,
) -> Result<u8, Fault<'static>>
    ensures { IfOk result (λ status. status ≤ 1) }
{
    let Ok(mut writer) = BufWriter::new(rt.alloc(), &mut *output) else {
        return Err(Fault::Memory);
    };
    let told = lint_files(rt, options, input, &mut writer, errors);
    // After a fault too: what was told before it is written.
    let flushed = writer.flush();
    match told {
        Ok(status) if flushed.is_ok() => Ok(status),
        Ok(_) => Err(Fault::Output),
        Err(fault) => Err(fault),
    }
}

// Tells the warnings of each file, and returns the worst of their statuses.
fn lint_files<R: Files + AllocGlobal, I: Read, W: Write, E: Write>(
    rt: &R,
    options: &LintOptions<'_>,
    input: &mut I,
    writer: &mut W,
    errors: &mut E,
) -> Result<u8, Fault<'static>>
    ensures { IfOk result (λ status. status ≤ 1) }
{
    let heap = rt.alloc();
    let mut arena = Bump::new(heap);
    let mut worst = DONE;
    for file in &options.files {
        let mut text = Vec::new(heap);
        let Ok(judgement) = judge_file(rt, &arena, file, &mut text, input, errors) else {
            return Err(Fault::Memory);
        };
        let told = if judgement.status() == DONE {
            lint_text(heap, options, file, text.as_slice(), writer, errors)
        } else {
            refuse(
                heap,
                options,
                file,
                text.as_slice(),
                &judgement,
                writer,
                errors,
            )
        };
        match told {
            Ok(status) => worst = worst.max(status),
            Err(fault) => return Err(fault),
        }
        if arena.reset().is_err() {
            return Err(Fault::Memory);
        }
    }
    Ok(worst)
}

// Tells of a file that it is refused.
fn refuse<W: Write, E: Write>(
    heap: Global,
    options: &LintOptions<'_>,
    file: &str,
    text: &[u8],
    judgement: &FileOutcome,
    writer: &mut W,
    errors: &mut E,
) -> Result<u8, Fault<'static>>
    ensures { IfOk result (λ status. status ≤ 1) }
{
    if let Err(fault) = tell_judgement(heap, file, *judgement, writer) {
        return Err(fault);
    }
    if options.explain && writer.flush().is_ok() {
        advise(heap, file, text, *judgement, errors);
    }
    Ok(REFUSED)
}

// Tells the warnings on a well-formed text, and returns the status that they make.
fn lint_text<W: Write, E: Write>(
    heap: Global,
    options: &LintOptions<'_>,
    file: &str,
    text: &[u8],
    writer: &mut W,
    errors: &mut E,
) -> Result<u8, Fault<'static>>
    ensures { IfOk result (λ status. status ≤ 1) }
{
    let Ok(domain) = domain_of_bytes(heap, file, text) else {
        return Err(Fault::Memory);
    };
    let Ok(warnings) = warnings_of(heap, &domain, text, options.all) else {
        return Err(Fault::Memory);
    };
    let Ok(lines) = Lines::of(heap, text) else {
        return Err(Fault::Memory);
    };
    if !tell_warnings(file, &lines, &warnings, writer) {
        return Err(Fault::Output);
    }
    if options.explain && writer.flush().is_ok() {
        let Ok(told) = explained(heap, &domain, (file, text, &lines), &warnings) else {
            return Err(Fault::Memory);
        };
        // A fault of `errors` changes nothing.
        let _ = put(errors, told.as_slice());
    }
    if options.strict && !warnings.is_empty() {
        return Ok(REFUSED);
    }
    Ok(DONE)
}

// Writes the lines of warnings, and returns whether all were written.
fn tell_warnings<W: Sink>(file: &str, lines: &Lines, warnings: &[Warning], writer: &mut W) -> bool {
    let mut out = Out::new(writer);
    for warning in warnings {
        tell_warning(&mut out, file, warning, lines.place(warning.at));
    }
    !out.failed
}

// What is said of warnings on a file. The error is out of memory.
fn explained(
    heap: Global,
    domain: &Domain,
    source: (&str, &[u8], &Lines),
    warnings: &[Warning],
) -> Result<Vec<u8>, AllocError> {
    let mut text = Vec::new(heap);
    let mut out = Out::new(&mut text);
    for warning in warnings {
        explain_warning(&mut out, domain, source, warning);
    }
    if out.failed {
        Err(AllocError)
    } else {
        Ok(text)
    }
}
