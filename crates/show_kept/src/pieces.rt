//! The pieces of a text: its comments and its tokens.
ghost use Rattle.std.specs.Prelude.{◌≤◌, length};

use memchr::memchr;
use sml_text::{Lexeme, Source, next_token};

/// Where a piece stands, seen from the end of the piece before it.
#[derive(Clone, Copy, PartialEq, Eq)]
pub(crate) enum Lead {
    SameLine,
    NextLine,
    BehindBlankLine,
}

/// A comment or a token.
#[derive(Clone, Copy)]
pub(crate) enum Piece<'a> {
    /// From its `!` on, without the blanks at its end.
    Comment(&'a [u8]),
    Token(Lexeme<'a>),
}

/// The pieces of a text that are left.
#[derive(Clone, Copy)]
pub(crate) struct Pieces<'a> {
    rest: &'a [u8],
}

impl<'a> Pieces<'a> {
    /// All pieces of a text.
    pub(crate) fn new(text: &'a [u8]) -> Pieces<'a> {
        Pieces { rest: text }
    }

    /// The next piece, or None at the end and at what is no token. The cost is its length, with the blanks in front.
    pub(crate) fn take(&mut self) -> Option<(Lead, Piece<'a>)> {
        let (blanks, text) = self.rest.split_at(blanks_in_front(self.rest));
        let (piece, behind) = piece_at(text)?;
        self.rest = behind;
        Some((lead_of(blanks), piece))
    }
}

// How many blanks a text begins with.
fn blanks_in_front(text: &[u8]) -> usize
    ensures { result ≤ length text.now }
{
    text.iter()
        .take_while(|b| matches!(**b, b' ' | b'\t' | b'\r' | b'\n'))
        .count()
}

// Where a piece stands behind these blanks.
fn lead_of(blanks: &[u8]) -> Lead {
    match blanks.iter().filter(|b| **b == b'\n').count() {
        0 => Lead::SameLine,
        1 => Lead::NextLine,
        _ => Lead::BehindBlankLine,
    }
}

// The piece that a text begins with, and the text behind it.
fn piece_at(text: &[u8]) -> Option<(Piece, &[u8])> {
    if text.first() == Some(&b'!') {
        let (comment, behind) = first_line(text);
        return Some((Piece::Comment(comment.trim_ascii_end()), behind));
    }
    let (token, behind, _) = next_token(Source::Domain, text, 0)?;
    Some((Piece::Token(token.lexeme), behind))
}

// The first line of a text without its line feed, and the text from there on.
fn first_line(text: &[u8]) -> (&[u8], &[u8]) {
    match memchr(b'\n', text) {
        Some(at) => text.split_at(at),
        None => (text, &[]),
    }
}
