//! A line that is read up to its first fault.

use crate::fault::{Cause, Fault, Wanted};
use crate::form::{Form, Piece, Token};
use crate::pieces::{from, part, piece_at};
use crate::verb::Verb;
use sml_text::Sign;

/// A line, how far it was read, and the fault that was found. Nothing is read behind a fault.
#[derive(Drop)]
pub(crate) struct LineReader<'a> {
    line: &'a [u8],
    // the place behind what was read
    place: usize,
    // the token that was read last
    last: &'a [u8],
    fault: Option<Fault<'a>>,
}

impl<'a> LineReader<'a> {
    // Nothing is read yet.
    pub(crate) fn new(line: &'a [u8]) -> LineReader<'a> {
        LineReader {
            line,
            place: 0,
            last: &[],
            fault: None,
        }
    }

    // The line.
    pub(crate) fn line(&self) -> &'a [u8] {
        self.line
    }

    // The fault that was found.
    pub(crate) fn fault(&self) -> Option<Fault<'a>> {
        self.fault
    }

    // What is next.
    pub(crate) fn next(&self) -> Piece {
        piece_at(self.line, self.place)
    }

    // Goes behind a token.
    pub(crate) fn pass(&mut self, token: &Token) {
        self.place = token.end;
        self.last = part(self.line, token.at, token.end);
    }

    // Keeps a fault.
    pub(crate) fn fail(&mut self, at: usize, cause: Cause<'a>) {
        self.fault = Some(Fault { at, cause });
    }

    // Keeps the fault of a piece that may not be there: this one, unless it is no token or begins a comment of
    // another language.
    pub(crate) fn refuse(&mut self, piece: &Piece, cause: Cause<'a>) {
        match piece {
            Piece::Bad(at) => self.fail(*at, Cause::NoToken),
            Piece::Token(token) if self.begins_comment(token) => {
                self.fail(token.at, Cause::Comment);
            }
            Piece::Token(token) => self.fail(token.at, cause),
            Piece::End => self.fail(self.place, cause),
        }
    }

    // Whether two slashes are there.
    fn begins_comment(&self, token: &Token) -> bool {
        token.form == Form::Sign(Sign::Slash)
            && matches!(from(self.line, token.end), [b'/', ..] | [b'*', ..])
    }

    // Reads what is wanted, or keeps the fault.
    pub(crate) fn take(&mut self, what: Wanted) -> Option<Token> {
        let piece = self.next();
        if let Piece::Token(token) = piece {
            if what.is_met(token.form) {
                self.pass(&token);
                return Some(token);
            }
            if what.is_name() && token.form == Form::Reserved {
                self.fail(token.at, Cause::Reserved);
                return None;
            }
        }
        let behind = self.last;
        self.refuse(&piece, Cause::Expected { what, behind });
        None
    }

    // Reads a session, which has one digit.
    pub(crate) fn take_session(&mut self) -> Option<()> {
        let token = self.take(Wanted::Session)?;
        match from(self.line, token.end) {
            [b'0'..=b'9', ..] => {
                self.fail(token.end, Cause::LongSession);
                None
            }
            _ => Some(()),
        }
    }

    // Reads a sign, if it is there.
    pub(crate) fn skip(&mut self, sign: Sign) -> bool {
        match self.next() {
            Piece::Token(token) if token.form == Form::Sign(sign) => {
                self.pass(&token);
                true
            }
            _ => false,
        }
    }

    // Reads the end of the line of a verb.
    pub(crate) fn end(&mut self, verb: Verb) -> Option<()> {
        match self.next() {
            Piece::End => Some(()),
            piece => {
                self.refuse(&piece, Cause::TooMuch(verb));
                None
            }
        }
    }
}
