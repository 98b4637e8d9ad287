//! Lines and columns.
ghost use Rattle.std.specs.Prelude.{◌≡◌, ◌==◌, ◌≤◌, length, take, count_by};
ghost use Rattle.sml_writer.specs.Tells.{Tells};
ghost use Rattle.explain_places.specs.Places.{IsPlace, LineBegins, NoLineFeedFrom, place_text, spot_text};

use memchr::memrchr;
use sml_text::Sink;
use sml_writer::Out;

/// Where a byte of a text is. Lines and columns count from 1, and each byte is one column, a tab too.
#[derive(Clone, Copy, Debug, Eq, PartialEq)]
pub struct Position {
    pub line: usize,
    pub column: usize,
}

/// The place of the byte at an offset, which counts from 0. Behind the text it is the place of its end.
///
/// The cost is the offset. No memory is taken.
pub fn place_of(text: &[u8], offset: usize) -> Position
    ensures { IsPlace (take offset text.now) result }
{
    let before = text.split_at(offset.min(text.len())).0;
    Position {
        line: line_feeds(before) + 1,
        column: before.len() - line_begin(before) + 1,
    }
}

// How many line feeds a text has.
fn line_feeds(text: &[u8]) -> usize
    ensures count { result ≡ count_by (λ b. b == 10) text.now }
    ensures within { result ≤ length text.now }
{
    text.iter().filter(|b| **b == b'\n').count()
}

// Where the last line of a text begins.
fn line_begin(text: &[u8]) -> usize
    ensures begins { LineBegins text.now result }
    ensures last { NoLineFeedFrom result text.now }
    ensures within { result ≤ length text.now }
{
    match memrchr(b'\n', text) {
        Some(at) => at + 1,
        None => 0,
    }
}

/// Writes `FILE:LINE:COLUMN: `, as compilers do and editors read it, unless a write before it failed. The cost is that
/// of `tell`.
pub fn tell_place<W: Sink>(out: &mut Out<'_, W>, file: &str, place: Position)
    ensures { Tells W.contents W.has_refused out.old out.new
        (place_text file.now place) }
{
    out.say(file.as_bytes());
    out.say(b":");
    tell_spot(out, place);
    out.say(b": ");
}

/// Writes `LINE:COLUMN`, unless a write before it failed. The cost is that of `tell`.
pub fn tell_spot<W: Sink>(out: &mut Out<'_, W>, place: Position)
    ensures { Tells W.contents W.has_refused out.old out.new (spot_text place) }
{
    out.number(place.line as u64);
    out.say(b":");
    out.number(place.column as u64);
}
