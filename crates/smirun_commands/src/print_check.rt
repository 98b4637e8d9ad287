//! Whether a domain's text is what `print` would write of it, and if not, where it differs.
ghost use Rattle.std.specs.Prelude.{◌≡◌, ◌≤◌, ◌↔◌, IfOk, None, false};
ghost use Rattle.smirun_commands.specs.Printed.{IsCompared};

use crate::advice::Advice;
use crate::audit::tell_text;
use crate::fault::Fault;
use crate::print::PrintOptions;
use crate::print_kept::printed_text;
use crate::status::{DONE, REFUSED};
use explain_places::{Position, place_of, tell_place, tell_quoted};
use sml_text::Sink;
use sml_writer::Out;
use std::alloc::Global;
use std::io::Write;

/// The first difference of a text from what would be printed of it.
#[derive(Clone, Copy)]
pub(crate) struct Difference<'a> {
    text: &'a [u8],
    printed: &'a [u8],
    // How many bytes before it are the same.
    offset: usize,
}

impl<'a> Difference<'a> {
    // None if both are the same.
    fn first(text: &'a [u8], printed: &'a [u8]) -> Option<Difference<'a>>
        ensures { result ≡ None ↔ text.now ≡ printed.now }
    {
        if text == printed {
            return None;
        }
        Some(Difference {
            text,
            printed,
            offset: same_in_front(text, printed),
        })
    }

    // Where it is in the text. Behind the text it is the place of its end.
    fn place(self) -> Position {
        place_of(self.text, self.offset)
    }

    /// Writes the place, what is expected and what stands there, the line of the text and, if more would be printed,
    /// that line, both with a caret. The cost is the offset, and the length of both lines.
    pub(crate) fn explain<W: Sink>(&self, file: &str, out: &mut Out<'_, W>) {
        tell_place(out, file, self.place());
        out.say(b"expected ");
        tell_byte(out, self.printed.get(self.offset));
        out.say(b", found ");
        tell_byte(out, self.text.get(self.offset));
        out.say(b"\n");
        tell_quoted(out, self.text, self.offset);
        if self.offset < self.printed.len() {
            out.say(b"is printed as\n");
            tell_quoted(out, self.printed, self.offset);
        }
    }
}

// How many bytes two texts have in common before the first in which they differ.
fn same_in_front(one: &[u8], other: &[u8]) -> usize {
    one.iter()
        .zip(other)
        .take_while(|pair| *pair.0 == *pair.1)
        .count()
}

// Writes what stands at a place of a text.
fn tell_byte<W: Sink>(out: &mut Out<'_, W>, byte: Option<&u8>) {
    match byte.copied() {
        None => out.say(b"the end of the text"),
        Some(b'\n') => out.say(b"a line feed"),
        Some(b'\r') => out.say(b"a carriage return"),
        Some(b'\t') => out.say(b"a tab"),
        Some(b' ') => out.say(b"a blank"),
        Some(shown @ 0x21..=0x7E) => out.say(&[b'`', shown, b'`']),
        Some(_) => out.say(b"a byte that is not shown"),
    }
}

/// Compares a text with what would be printed of it, and returns the exit status. If they differ, a line is written:
/// `FILE differs at LINE:COLUMN`, and the advice on that goes to `advice`.
///
/// The cost is that of printing it. The error is the fault of the text, Output or Memory.
pub fn check_print<'a, W: Write>(
    heap: Global,
    options: &PrintOptions<'a>,
    text: &[u8],
    output: &mut W,
    advice: &mut Advice,
) -> Result<u8, Fault<'a>>
    ensures compared { options.now.keep ≡ false → IfOk result (IsCompared text.now) }
    ensures range { IfOk result (λ status. status ≤ 1) }
{
    let printed = match printed_text(heap, options.file, options.keep, text) {
        Ok(printed) => printed,
        Err(fault) => return Err(fault),
    };
    let Some(difference) = Difference::first(text, printed.as_slice()) else {
        return Ok(DONE);
    };
    advice.of_difference(options.file, &difference);
    match tell_differs(heap, options.file, difference.place(), output) {
        Ok(()) => Ok(REFUSED),
        Err(fault) => Err(fault),
    }
}

// Writes that a file differs there from what would be printed.
fn tell_differs<'a, W: Write>(
    heap: Global,
    file: &str,
    place: Position,
    output: &mut W,
) -> Result<(), Fault<'a>> {
    let Ok(line) = format!(in heap; "{file} differs at {}:{}\n", place.line, place.column) else {
        return Err(Fault::Memory);
    };
    tell_text(line.as_bytes(), output)
}
