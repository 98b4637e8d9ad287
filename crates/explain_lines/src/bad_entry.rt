//! Why a line of a journal is not an entry.

use crate::entry_fault::{EntryCause, EntryFault};
use crate::entry_lines::fault_in_entry;
use crate::entry_reader::{line_of, text_from};
use crate::entry_sentence::tell_entry_fault;
use crate::source_line::{SourceLine, tell_back, tell_front};
use smi_journal::Format;
use sml_domain::Domain;
use sml_text::Sink;
use sml_writer::Out;

/// Writes why a line of a journal's text is not an entry: the place of its first fault, one sentence, the line, and a
/// caret. Lines count from 1, the header included. Nothing is written if the line is an entry.
///
/// It is text for people, and no part of a format. The cost is the length of the text up to the end of the line, and
/// where a name is unknown the count of the names that it may have meant. No memory is taken.
pub fn explain_bad_entry<W: Sink>(
    domain: &Domain,
    file: &str,
    text: &[u8],
    number: usize,
    out: &mut Out<'_, W>,
) {
    let line = SourceLine {
        file,
        number,
        text: line_of(text, number),
    };
    let is_ended = line.text.len() < text_from(text, number).len();
    if let Some(fault) = fault_of(domain, format_of(text), line.text, is_ended) {
        tell_front(out, &line, fault.at);
        tell_entry_fault(out, domain, line.text, &fault);
        tell_back(out, &line, fault.at);
    }
}

// The format of the text of a journal: the second one, if its first line does not name the first.
fn format_of(text: &[u8]) -> Format {
    if line_of(text, 1) == b"smi-journal 1".as_slice() {
        Format::One
    } else {
        Format::Two
    }
}

// The first fault of a line, which may or may not end with a line feed.
fn fault_of(domain: &Domain, format: Format, line: &[u8], is_ended: bool) -> Option<EntryFault> {
    match fault_in_entry(domain, format, line) {
        None if !is_ended => Some(EntryFault {
            at: line.len(),
            cause: EntryCause::NoFeed,
        }),
        found => found,
    }
}
