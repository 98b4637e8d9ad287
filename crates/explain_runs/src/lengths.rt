//! Journals that are longer than other commands read.

use show_names::tell_lines;
use smi_journal::Entry;
use sml_domain::Domain;
use sml_text::Sink;
use sml_writer::Out;
use std::alloc::{AllocError, Global};

// The first line of a journal, in bytes.
const HEADER: u64 = 14;

// The length of the text of a journal, in bytes.
fn length_of(alloc: Global, domain: &Domain, entries: &[Entry]) -> Result<u64, AllocError> {
    let mut line = Vec::new(alloc);
    let mut length = HEADER;
    for place in 0..entries.len() {
        line.clear();
        let mut out = Out::new(&mut line);
        tell_lines(&mut out, domain, &entries[place..place + 1]);
        if out.failed {
            return Err(AllocError);
        }
        length = length.saturating_add(line.len() as u64);
    }
    Ok(length)
}

/// Writes that the journal of a path is longer than other commands read, if it is: `most` bytes.
///
/// The time is the length of the journal, and memory is taken for one line. The error is out of memory; then nothing
/// is written.
pub fn tell_length<W: Sink>(
    alloc: Global,
    domain: &Domain,
    path: &str,
    entries: &[Entry],
    most: u64,
    out: &mut Out<'_, W>,
) -> Result<(), AllocError> {
    let length = length_of(alloc, domain, entries)?;
    if length > most {
        out.say(path.as_bytes());
        out.say(b": the journal has ");
        out.number(length);
        out.say(b" bytes, and other commands read at most ");
        out.number(most);
        out.say(b"\n");
    }
    Ok(())
}
