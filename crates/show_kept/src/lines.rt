//! The lines of the kept text, as they are written.
ghost use Rattle.std.specs.Prelude.{◌≤◌, length};

use crate::pieces::{Lead, Piece};
use memchr::memchr;
use sml_text::{Lexeme, Sign, Sink, Source, next_token};
use sml_writer::Out;

/// What of a canonical text is to be written yet. A line of it is written once its last token has come in the text, so
/// that comments which stand between its tokens are written in front of it.
#[derive(Clone, Copy)]
pub(crate) struct Lines<'a> {
    // The next line of the canonical text, without its line feed; empty at the end.
    line: &'a [u8],
    // What of this line has not come in the text yet.
    rest: &'a [u8],
    // The lines behind it.
    later: &'a [u8],
    // Whether the piece before was the last token of a line.
    is_behind_line: bool,
    // Whether the text has a blank line in front of the next line that is written.
    is_blank_due: bool,
    // Whether a line was written, without its line feed.
    has_line: bool,
}

impl<'a> Lines<'a> {
    /// Nothing is written yet.
    pub(crate) fn new(canonical: &'a [u8]) -> Lines<'a> {
        let (line, later) = cut_line(canonical);
        Lines {
            line,
            rest: line,
            later,
            is_behind_line: false,
            is_blank_due: false,
            has_line: false,
        }
    }

    /// Adds the next piece of the text. The cost is the length of what is written, and of a token of each text.
    pub(crate) fn add<W: Sink>(&mut self, out: &mut Out<'_, W>, lead: Lead, piece: Piece<'a>) {
        let is_behind = self.is_behind_line && lead == Lead::SameLine;
        self.is_behind_line = false;
        // Within a canonical line there is no blank line.
        if lead == Lead::BehindBlankLine && self.rest.len() == self.line.len() {
            self.is_blank_due = true;
        }
        match piece {
            Piece::Comment(comment) if is_behind => {
                out.say(b"  ");
                out.say(comment);
            }
            Piece::Comment(comment) => {
                self.begin_line(out);
                out.say(indent_of(self.line));
                out.say(comment);
            }
            Piece::Token(lexeme) => self.pass(out, lexeme),
        }
    }

    /// Writes the end of the last line, and the lines of the canonical text whose tokens have not come. All have come
    /// where the canonical text is that of the text.
    pub(crate) fn end<W: Sink>(&mut self, out: &mut Out<'_, W>) {
        if !self.line.is_empty() {
            self.begin_line(out);
            out.say(self.line);
        }
        if self.has_line {
            out.say(b"\n");
        }
        out.say(self.later);
    }

    // Ends the line before, and leaves a blank line if the text has one there.
    fn begin_line<W: Sink>(&mut self, out: &mut Out<'_, W>) {
        if self.has_line {
            out.say(b"\n");
        }
        if self.has_line && self.is_blank_due {
            out.say(b"\n");
        }
        self.has_line = true;
        self.is_blank_due = false;
    }

    // Goes on behind a token of the text, unless the canonical text leaves it out. Both texts have the same tokens but
    // for those, and but for the order of two marks of a state.
    fn pass<W: Sink>(&mut self, out: &mut Out<'_, W>, lexeme: Lexeme) {
        let Some((next, behind, _)) = next_token(Source::Domain, self.rest, 0) else {
            return;
        };
        if may_be_left_out(lexeme) && !is_same(lexeme, next.lexeme) {
            return;
        }
        self.rest = behind;
        if behind.is_empty() {
            self.end_line(out);
        }
    }

    // Writes the line whose last token has come, and goes on to the next.
    fn end_line<W: Sink>(&mut self, out: &mut Out<'_, W>) {
        self.begin_line(out);
        out.say(self.line);
        let (line, later) = cut_line(self.later);
        self.line = line;
        self.rest = line;
        self.later = later;
        self.is_behind_line = true;
    }
}

// The first line of a text without its line feed, and the lines behind it.
fn cut_line(text: &[u8]) -> (&[u8], &[u8]) {
    match memchr(b'\n', text) {
        Some(at) => {
            let (line, behind) = text.split_at(at);
            (line, behind.split_at(1).1)
        }
        None => (text, &[]),
    }
}

// The blanks that a line begins with.
fn indent_of(line: &[u8]) -> &[u8] {
    line.split_at(width_of_indent(line)).0
}

// How many blanks a line begins with.
fn width_of_indent(line: &[u8]) -> usize
    ensures { result ≤ length line.now }
{
    line.iter().take_while(|b| **b == b' ').count()
}

// Whether a canonical text leaves out such a token at some places: brackets of a condition, braces of a list of one
// state, and the `else` of an empty block.
fn may_be_left_out(lexeme: Lexeme) -> bool {
    match lexeme {
        Lexeme::Word(word) => word.eq_ignore_ascii_case(b"else"),
        Lexeme::Sign(sign) => matches!(
            sign,
            Sign::OpenBracket | Sign::CloseBracket | Sign::OpenBrace | Sign::CloseBrace
        ),
        Lexeme::Int(_) | Lexeme::Str(_) | Lexeme::Session(_) => false,
    }
}

// Whether two words or signs are the same.
fn is_same(one: Lexeme, other: Lexeme) -> bool {
    match (one, other) {
        (Lexeme::Word(one), Lexeme::Word(other)) => one.eq_ignore_ascii_case(other),
        (Lexeme::Sign(one), Lexeme::Sign(other)) => one == other,
        _ => false,
    }
}
