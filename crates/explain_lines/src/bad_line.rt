//! Why a line is not a line of a schedule or script.

use crate::line_fault::{fault_in, unknown_in};
use crate::line_sentence::tell_fault;
use crate::source_line::{SourceLine, tell_back, tell_front};
use sml_domain::Domain;
use sml_text::Sink;
use sml_writer::Out;

/// Which kind of text a line is of.
#[derive(Clone, Copy, Eq, PartialEq)]
pub enum LineKind {
    Schedule,
    Script,
}

/// Writes the place of the first fault of a line, one sentence, the line, and a caret: three lines, or nothing if the
/// line has no fault. A line may be cut off behind 8,193 bytes.
///
/// It is text for people, and no part of a format. The cost is the length of the line, and if a name is unknown, the
/// count of the names that it may have meant. No memory is taken.
pub fn explain_bad_line<W: Sink>(
    kind: LineKind,
    domain: &Domain,
    line: &SourceLine,
    out: &mut Out<'_, W>,
) {
    let mut fault = fault_in(kind, line.text);
    if fault.is_none() && kind == LineKind::Script {
        fault = unknown_in(domain, line.text);
    }
    if let Some(fault) = fault {
        tell_front(out, line, fault.at);
        tell_fault(out, kind, domain, line.text, &fault);
        tell_back(out, line, fault.at);
    }
}
