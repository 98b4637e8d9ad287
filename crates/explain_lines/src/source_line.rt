//! The line that an explanation is about.

use explain_places::{Position, tell_place, tell_quoted};
use sml_text::Sink;
use sml_writer::Out;

/// A line, and where it is.
#[derive(Clone, Copy)]
pub struct SourceLine<'a> {
    /// The name of the text, as in the command line.
    pub file: &'a str,
    /// The number of the line, from 1.
    pub number: usize,
    /// The line without its line feed.
    pub text: &'a [u8],
}

/// Writes `FILE:LINE:COLUMN: ` for the byte of the line at an offset, which counts from 0.
pub(crate) fn tell_front<W: Sink>(out: &mut Out<'_, W>, line: &SourceLine, offset: usize) {
    let place = Position {
        line: line.number,
        column: offset.saturating_add(1),
    };
    tell_place(out, line.file, place);
}

/// Ends the sentence, and writes the line with a caret under the byte at an offset.
pub(crate) fn tell_back<W: Sink>(out: &mut Out<'_, W>, line: &SourceLine, offset: usize) {
    out.say(b"\n");
    tell_quoted(out, line.text, offset);
}
