//! The command `page`: a domain and a journal go in, and a page of that run comes out, which a browser shows.

use crate::advice::Advice;
use crate::audit::{explain_judgement, judge_text, load_journal};
use crate::fault::Fault;
use crate::loading::load_domain;
use show_lists::tell_begun_list;
use show_page::{Page, tell_page};
use smi_audit::Judgement;
use sml_domain::Domain;
use sml_writer::Out;
use std::alloc::{AllocError, Global};
use std::fs::Files;
use std::io::{BufWriter, Read, Write};
use std::sync::Arc;

/// What `page` is asked to show. The texts are words of a command line.
#[derive(Drop)]
pub struct PageOptions<'a> {
    /// The path of the domain file, or `-`.
    pub file: &'a str,
    /// The path of the journal, or `-`.
    pub journal: &'a str,
}

/// Writes the page of a run. The domain is read and checked before the journal is opened, and the journal is read
/// whole and judged before anything is written. At a fault of the output a prefix is written.
///
/// A journal that is not legal has its page too, which says so. The error is the fault of the domain, by its path, or
/// of the journal as of `run_audit`, `Output` or `Memory`.
pub fn run_page<'a, R: Files + AllocGlobal, I: Read, W: Write>(
    rt: &R,
    options: &PageOptions<'a>,
    input: &mut I,
    output: &mut W,
    advice: &mut Advice,
) -> Result<(), Fault<'a>> {
    let domain = match load_domain(rt, input, options.file, advice) {
        Ok(domain) => domain,
        Err(fault) => return Err(fault),
    };
    let bytes = match load_journal(rt, input, options.journal) {
        Ok(bytes) => bytes,
        Err(fault) => return Err(fault),
    };
    let shown = page_of_bytes(
        rt.alloc(),
        &domain,
        &domain,
        options,
        bytes.as_slice(),
        output,
    );
    drop(domain);
    drop(bytes);
    shown
}

/// Judges the bytes of a journal by a domain, and writes the page of that run to its end, which calls classes as the
/// declared domain does, that of the file.
///
/// The cost is that of judging and of the page, which has the bytes. The error is the fault of the journal, by its
/// path, `Output` or `Memory`.
pub fn page_of_bytes<'a, W: Write>(
    heap: Global,
    domain: &Arc<Domain>,
    declared: &Domain,
    options: &PageOptions<'a>,
    bytes: &[u8],
    output: &mut W,
) -> Result<(), Fault<'a>> {
    let judgement = match judge_text(heap, domain, options.journal, bytes) {
        Ok(judgement) => judgement,
        Err(fault) => return Err(fault),
    };
    let Ok(texts) = texts_of(heap, domain, declared, bytes, judgement) else {
        return Err(Fault::Memory);
    };
    let page = Page {
        domain: options.file.as_bytes(),
        run: options.journal.as_bytes(),
        ruling: texts.ruling.as_bytes(),
        reason: texts.reason.as_slice(),
        list: texts.list.as_slice(),
        journal: bytes,
    };
    write_page(heap, &page, output)
}

// What a page says of a domain and a journal beside their names and the journal itself.
#[derive(Drop)]
struct Texts {
    ruling: String,
    reason: Vec<u8>,
    list: Vec<u8>,
}

// These texts. The reason is empty for a legal journal.
fn texts_of(
    heap: Global,
    domain: &Arc<Domain>,
    declared: &Domain,
    bytes: &[u8],
    judgement: Judgement,
) -> Result<Texts, AllocError> {
    let mut reason = Vec::new(heap);
    let mut about = Out::new(&mut reason);
    explain_judgement(heap, domain, None, bytes, judgement, &mut about)?;
    if about.failed {
        return Err(AllocError);
    }
    let mut list = Vec::new(heap);
    let mut out = Out::new(&mut list);
    tell_begun_list(&mut out, declared, domain);
    if out.failed {
        return Err(AllocError);
    }
    let ruling = format!(in heap; "{judgement}")?;
    Ok(Texts {
        ruling,
        reason,
        list,
    })
}

// Writes a page to its end.
fn write_page<'a, W: Write>(
    heap: Global,
    page: &Page<'_>,
    output: &mut W,
) -> Result<(), Fault<'a>> {
    let Ok(mut writer) = BufWriter::new(heap, &mut *output) else {
        return Err(Fault::Memory);
    };
    let mut out = Out::new(&mut writer);
    tell_page(&mut out, page);
    let failed = out.failed;
    match writer.flush() {
        Ok(()) if !failed => Ok(()),
        _ => Err(Fault::Output),
    }
}
