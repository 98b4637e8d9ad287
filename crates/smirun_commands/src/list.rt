//! The command `list`: a domain file goes in, and a line for each thing that it declares comes out.

use crate::advice::Advice;
use crate::fault::Fault;
use crate::loading::load_domain;
use show_lists::tell_list;
use sml_domain::Domain;
use sml_writer::Out;
use std::alloc::Global;
use std::fs::Files;
use std::io::{BufWriter, Read, Write};

/// Lists what the domain of a file declares. The file is read and checked. At a fault of the output a prefix of the
/// list is written.
pub fn run_list<'a, R: Files + AllocGlobal, I: Read, W: Write>(
    rt: &R,
    file: &'a str,
    input: &mut I,
    output: &mut W,
    advice: &mut Advice,
) -> Result<(), Fault<'a>> {
    match load_domain(rt, input, file, advice) {
        Ok(domain) => list_all(rt.alloc(), &domain, output),
        Err(fault) => Err(fault),
    }
}

// Lists what a domain declares, to the end.
fn list_all<'a, W: Write>(heap: Global, domain: &Domain, output: &mut W) -> Result<(), Fault<'a>> {
    let Ok(mut writer) = BufWriter::new(heap, &mut *output) else {
        return Err(Fault::Memory);
    };
    let mut out = Out::new(&mut writer);
    tell_list(&mut out, domain);
    let failed = out.failed;
    match writer.flush() {
        Ok(()) if !failed => Ok(()),
        _ => Err(Fault::Output),
    }
}
