//! The first fault of a line.

use crate::bad_line::LineKind;
use crate::fault::{Cause, Fault, Wanted};
use crate::form::{Form, Piece, Token};
use crate::line_reader::LineReader;
use crate::pieces::name_at;
use crate::verb::{Verb, verb_at};
use smi_lines::LONGEST_LINE;
use sml_domain::Domain;
use sml_text::Sign;
use sml_tree::MAX_ARGUMENTS;

/// The first fault of a line by its form, or None if it has the form of a line of its kind, or no token.
pub(crate) fn fault_in<'a>(kind: LineKind, line: &'a [u8]) -> Option<Fault<'a>> {
    if line.len() > LONGEST_LINE {
        return Some(Fault {
            at: LONGEST_LINE,
            cause: Cause::TooLong,
        });
    }
    if let Some(at) = line.iter().position(|b| *b > 127) {
        return Some(Fault {
            at,
            cause: Cause::NotAscii,
        });
    }
    let mut reader = LineReader::new(line);
    let _ = read_line(&mut reader, kind);
    reader.fault()
}

// Reads a line.
fn read_line(reader: &mut LineReader, kind: LineKind) -> Option<()> {
    match reader.next() {
        Piece::End => Some(()),
        Piece::Token(token) if token.form == Form::Name => read_named(reader, kind, &token),
        piece => {
            reader.refuse(&piece, Cause::NoVerb);
            None
        }
    }
}

// Reads a line whose first word is a name.
fn read_named(reader: &mut LineReader, kind: LineKind, token: &Token) -> Option<()> {
    let Some(verb) = verb_at(reader.line(), token.at) else {
        reader.fail(token.at, Cause::NoVerb);
        return None;
    };
    if !verb.is_of(kind) {
        reader.fail(token.at, Cause::OtherKind(verb));
        return None;
    }
    reader.pass(token);
    read_verb(reader, verb)
}

// Reads what is behind a verb.
fn read_verb(reader: &mut LineReader, verb: Verb) -> Option<()> {
    if verb == Verb::Request {
        return read_request(reader);
    }
    reader.take(Wanted::Object)?;
    match verb {
        Verb::Answer => {
            reader.take(Wanted::State)?;
        }
        Verb::Kill => reader.take_session()?,
        Verb::Device => {
            reader.take(Wanted::Action)?;
            reader.take(Wanted::State)?;
        }
        Verb::Request | Verb::Start | Verb::Go | Verb::Fault => {}
    }
    reader.end(verb)
}

// Reads what is behind `request`.
fn read_request(reader: &mut LineReader) -> Option<()> {
    reader.take_session()?;
    reader.take(Wanted::Object)?;
    reader.take(Wanted::Action)?;
    if reader.skip(Sign::OpenBracket) {
        read_arguments(reader)
    } else {
        reader.end(Verb::Request)
    }
}

// Reads the arguments behind an opening bracket.
fn read_arguments(reader: &mut LineReader) -> Option<()> {
    if let Piece::Token(token) = reader.next() {
        if token.form == Form::Sign(Sign::CloseBracket) {
            reader.fail(token.at, Cause::EmptyArguments);
            return None;
        }
    }
    for _ in 0..MAX_ARGUMENTS {
        if !read_argument(reader)? {
            return reader.end(Verb::Request);
        }
    }
    let piece = reader.next();
    reader.refuse(&piece, Cause::TooManyArguments);
    None
}

// Reads an argument and what is behind it, and tells whether that is a comma.
fn read_argument(reader: &mut LineReader) -> Option<bool> {
    reader.take(Wanted::Parameter)?;
    reader.take(Wanted::Equals)?;
    reader.take(Wanted::Value)?;
    let sign = reader.take(Wanted::CommaOrBracket)?;
    Some(sign.form == Form::Sign(Sign::Comma))
}

/// The first name of a line of a device that the domain does not have. The line has the form of one of a script.
pub(crate) fn unknown_in<'a>(domain: &Domain, line: &'a [u8]) -> Option<Fault<'a>> {
    let mut reader = LineReader::new(line);
    let verb = reader.take(Wanted::Object)?;
    if verb_at(line, verb.at)? != Verb::Device {
        return None;
    }
    let object = reader.take(Wanted::Object)?;
    let action = reader.take(Wanted::Action)?;
    let state = reader.take(Wanted::State)?;
    let is_known = [
        names_object(domain, line, object.at),
        names_action(domain, line, action.at),
        names_state(domain, line, state.at),
    ];
    match is_known {
        [false, _, _] => Some(Fault {
            at: object.at,
            cause: Cause::UnknownObject,
        }),
        [true, false, _] => Some(Fault {
            at: action.at,
            cause: Cause::UnknownAction,
        }),
        [true, true, false] => Some(Fault {
            at: state.at,
            cause: Cause::UnknownState,
        }),
        [true, true, true] => None,
    }
}

// Whether the word at a place is the name of an object.
fn names_object(domain: &Domain, line: &[u8], place: usize) -> bool {
    match name_at(line, place) {
        Some(name) => domain.object(&name).is_some(),
        None => false,
    }
}

// Whether the word at a place is the name of an action.
fn names_action(domain: &Domain, line: &[u8], place: usize) -> bool {
    match name_at(line, place) {
        Some(name) => domain.action(&name).is_some(),
        None => false,
    }
}

// Whether the word at a place is the name of a state.
fn names_state(domain: &Domain, line: &[u8], place: usize) -> bool {
    match name_at(line, place) {
        Some(name) => domain.state(&name).is_some(),
        None => false,
    }
}
