//! The command `graph`: a domain goes in, and its graph comes out, or with a journal the picture of that run.

use crate::advice::Advice;
use crate::audit::load_journal;
use crate::fault::Fault;
use crate::loading::load_domain;
use show_pictures::{GraphParts, RunFiles, Window, tell_graph, tell_life};
use smi_journal::{Entry, read_journal};
use sml_domain::Domain;
use sml_writer::Out;
use std::alloc::{AllocError, Global};
use std::fs::Files;
use std::io::{BufWriter, Read, Write};

/// How many entries a picture shows well: where there are more, a page shows them better.
pub const MANY_ENTRIES: usize = 2000;

/// What `graph` is asked to draw. The texts are words of a command line.
#[derive(Drop)]
pub struct GraphOptions<'a> {
    /// The path of the domain file, or `-`.
    pub file: &'a str,
    /// The path of the journal, or `-`. None if the domain is drawn.
    pub journal: Option<&'a str>,
    /// Whether the objects and sets of the domain are drawn too.
    pub objects: bool,
    /// Whether the members of large sets are drawn with them.
    pub members: bool,
    /// The first entry of the journal that is shown, counted from 1.
    pub from: usize,
    /// How many entries are shown at most.
    pub count: usize,
    /// Whether it is explained why a text is refused.
    pub explain: bool,
}

/// Draws the graph of a domain, or with a journal the picture of that run. The domain is read and checked before the
/// journal is opened, and the journal is read whole, and not judged, before anything is written. At a fault of the
/// output a prefix is written. Behind the picture of a long journal `errors` is told which command shows it better.
///
/// What is read is passed to `tell_graph` and `tell_life`. The error is the fault of the domain, by its path, or of
/// the journal as of `run_audit`, `Output` or `Memory`.
pub fn run_graph<'a, R: Files + AllocGlobal, I: Read, W: Write, E: Write>(
    rt: &R,
    options: &GraphOptions<'a>,
    input: &mut I,
    output: &mut W,
    errors: &mut E,
    advice: &mut Advice,
) -> Result<(), Fault<'a>> {
    let domain = match load_domain(rt, input, options.file, advice) {
        Ok(domain) => domain,
        Err(fault) => return Err(fault),
    };
    let Some(journal) = options.journal else {
        return draw_domain(rt.alloc(), &domain, options, output);
    };
    let bytes = match load_journal(rt, input, journal) {
        Ok(bytes) => bytes,
        Err(fault) => return Err(fault),
    };
    let drawn = draw_run(
        rt.alloc(),
        &domain,
        options,
        journal,
        bytes.as_slice(),
        output,
    );
    if let Err(fault) = &drawn {
        advice.of_journal(&domain, journal, bytes.as_slice(), fault);
    }
    drop(domain);
    drop(bytes);
    match drawn {
        Ok(entries) => {
            note_page(options.file, journal, entries, errors);
            Ok(())
        }
        Err(fault) => Err(fault),
    }
}

// Notes that a page shows a journal with this many entries better, where it does.
fn note_page<E: Write>(file: &str, journal: &str, entries: usize, errors: &mut E) {
    if entries > MANY_ENTRIES {
        let _ = writeln!(
            errors,
            "{journal}: {entries} entries; `smirun page {file} {journal}` shows them better"
        );
    }
}

// Draws a domain, to the end.
fn draw_domain<'a, W: Write>(
    heap: Global,
    domain: &Domain,
    options: &GraphOptions<'a>,
    output: &mut W,
) -> Result<(), Fault<'a>> {
    let Ok(mut writer) = BufWriter::new(heap, &mut *output) else {
        return Err(Fault::Memory);
    };
    let mut out = Out::new(&mut writer);
    let drawn = tell_graph(
        heap,
        &mut out,
        domain,
        options.file.as_bytes(),
        GraphParts {
            objects: options.objects,
            members: options.members,
        },
    );
    let failed = out.failed;
    finish(&mut writer, failed, drawn)
}

// Draws the run of a journal, to the end. Returns how many entries it has.
fn draw_run<'a, W: Write>(
    heap: Global,
    domain: &Domain,
    options: &GraphOptions<'a>,
    path: &'a str,
    bytes: &[u8],
    output: &mut W,
) -> Result<usize, Fault<'a>> {
    let (_format, journal) = match read_journal(heap, domain, bytes) {
        Ok(read) => read,
        Err(error) => return Err(Fault::of_journal(path, error)),
    };
    match draw_entries(heap, domain, options, path, journal.entries(), output) {
        Ok(()) => Ok(journal.entries().len()),
        Err(fault) => Err(fault),
    }
}

/// Draws the run of the entries of a journal, to the end. The picture names the path of what they are of.
///
/// The cost is that of `tell_life`. The error is `Output` or `Memory`.
pub fn draw_entries<'a, W: Write>(
    heap: Global,
    domain: &Domain,
    options: &GraphOptions<'a>,
    path: &'a str,
    entries: &[Entry],
    output: &mut W,
) -> Result<(), Fault<'a>> {
    let Ok(mut writer) = BufWriter::new(heap, &mut *output) else {
        return Err(Fault::Memory);
    };
    let mut out = Out::new(&mut writer);
    let drawn = tell_life(
        heap,
        &mut out,
        domain,
        &RunFiles {
            domain: options.file.as_bytes(),
            journal: path.as_bytes(),
        },
        entries,
        Window {
            from: options.from,
            count: options.count,
        },
    );
    let failed = out.failed;
    finish(&mut writer, failed, drawn)
}

// Writes out what is left of a picture.
fn finish<'a, W: Write>(
    writer: &mut W,
    failed: bool,
    drawn: Result<(), AllocError>,
) -> Result<(), Fault<'a>> {
    let flushed = writer.flush();
    if drawn.is_err() {
        return Err(Fault::Memory);
    }
    match flushed {
        Ok(()) if !failed => Ok(()),
        _ => Err(Fault::Output),
    }
}
