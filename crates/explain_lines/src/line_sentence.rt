//! The explanation of the first fault of a line.

use crate::bad_line::LineKind;
use crate::declared::{tell_no_action, tell_no_object, tell_no_state};
use crate::fault::{Cause, Fault, Wanted};
use crate::no_token::tell_no_token;
use crate::pieces::{from, name_at, part};
use crate::verb::{Verb, tell_verbs};
use crate::words::{tell_marked, tell_name};
use explain_places::tell_not_ascii;
use smi_lines::LONGEST_LINE;
use sml_domain::Domain;
use sml_text::Sink;
use sml_tree::MAX_ARGUMENTS;
use sml_writer::Out;

const NOT_ASCII: &[u8] = b"only ASCII may stand in a line, in comments too";

const BYTE_ORDER_MARK: &[u8] = b"the text begins with a byte order mark: save it without";

const UTF16: &[u8] = b"this looks like UTF-16: save it as ASCII";

const MERGE: &[u8] = b"this looks like a mark of a merge: keep one of the two versions";

const ACTION_FIRST: &[u8] = b" is a state: the action stands first";

const EMPTY_ARGUMENTS: &[u8] = b"an empty list of arguments: leave the brackets out";

/// Writes the sentence of a fault, without its end.
pub(crate) fn tell_fault<W: Sink>(
    out: &mut Out<'_, W>,
    kind: LineKind,
    domain: &Domain,
    line: &[u8],
    fault: &Fault,
) {
    let at = fault.at;
    match fault.cause {
        Cause::TooLong | Cause::TooManyArguments => tell_most(out, fault.cause),
        Cause::NotAscii => tell_byte(out, line, at),
        Cause::NoToken | Cause::NoVerb if is_mark_of_merge(line, at) => {
            out.say(MERGE);
        }
        Cause::NoToken => tell_no_token(out, line, at),
        Cause::Comment => out.say(b"a comment begins with `!`"),
        Cause::NoVerb => tell_verbs(out, kind, line, at),
        Cause::OtherKind(verb) => tell_other_kind(out, verb),
        Cause::Expected { what, behind } => tell_expected(out, what, behind),
        Cause::Reserved => tell_reserved(out, line, at),
        Cause::LongSession => tell_long_session(out, line, at),
        Cause::TooMuch(verb) => tell_too_much(out, verb),
        Cause::EmptyArguments => out.say(EMPTY_ARGUMENTS),
        Cause::UnknownObject | Cause::UnknownAction | Cause::UnknownState => {
            tell_unknown(out, domain, line, fault);
        }
    }
}

// Writes how much a line has at most.
fn tell_most<W: Sink>(out: &mut Out<'_, W>, cause: Cause) {
    let (number, behind): (usize, &[u8]) = match cause {
        Cause::TooManyArguments => (MAX_ARGUMENTS, b" arguments"),
        _ => (LONGEST_LINE, b" bytes"),
    };
    out.say(b"a line has at most ");
    out.number(number as u64);
    out.say(behind);
}

// Writes that a byte is above 0x7F.
fn tell_byte<W: Sink>(out: &mut Out<'_, W>, line: &[u8], at: usize) {
    match from(line, at) {
        [0xEF, 0xBB, 0xBF, ..] if at == 0 => out.say(BYTE_ORDER_MARK),
        [0xFF, 0xFE, ..] | [0xFE, 0xFF, ..] if at == 0 => out.say(UTF16),
        bytes => tell_not_ascii(out, bytes, NOT_ASCII),
    }
}

// Whether a line begins at a place with what a merge of two versions writes between them.
fn is_mark_of_merge(line: &[u8], at: usize) -> bool {
    at == 0
        && (line.starts_with(b"<<<<<<<")
            || line.starts_with(b"=======")
            || line.starts_with(b">>>>>>>")
            || line.starts_with(b"|||||||"))
}

// Writes what says the same in the kind of lines that lacks a verb.
fn tell_other_kind<W: Sink>(out: &mut Out<'_, W>, verb: Verb) {
    let (text, behind): (&[u8], &[u8]) = match verb {
        Verb::Device => (
            b"a schedule",
            b" lines: `answer OBJECT STATE` is what a device answers",
        ),
        Verb::Answer => (
            b"a script",
            b" lines: `device OBJECT ACTION STATE` says what a device answers",
        ),
        Verb::Fault => (
            b"a script",
            b" lines: a device fails at an action for which it has no `device` line",
        ),
        Verb::Request | Verb::Start | Verb::Go | Verb::Kill => {
            (b"a script", b" lines: the workers do that")
        }
    };
    out.say(text);
    out.say(b" has no ");
    tell_marked(out, verb.word());
    out.say(behind);
}

// Writes what was expected, and behind what.
fn tell_expected<W: Sink>(out: &mut Out<'_, W>, what: Wanted, behind: &[u8]) {
    let words: &[u8] = match what {
        Wanted::Session => b"a session `@1` to `@8` expected behind ",
        Wanted::Object => b"the name of an object expected behind ",
        Wanted::Action => b"the name of an action expected behind ",
        Wanted::State => b"the name of a state expected behind ",
        Wanted::Parameter => b"the name of a parameter expected behind ",
        Wanted::Equals => b"`=` expected behind ",
        Wanted::Value => b"an int or a string in `\"` expected",
        Wanted::CommaOrBracket => b"`,` or `)` expected behind ",
    };
    out.say(words);
    if what != Wanted::Value {
        tell_marked(out, behind);
    }
}

// Writes that a word is no name.
fn tell_reserved<W: Sink>(out: &mut Out<'_, W>, line: &[u8], at: usize) {
    if let Some(name) = name_at(line, at) {
        tell_marked(out, name.as_bytes());
        out.say(b" is a reserved word, and no name");
    }
}

// Writes what is directly behind a session.
fn tell_long_session<W: Sink>(out: &mut Out<'_, W>, line: &[u8], at: usize) {
    tell_marked(out, part(line, at, at.saturating_add(1)));
    out.say(b" stands behind the session ");
    tell_marked(out, part(line, at.saturating_sub(2), at));
    out.say(b": sessions are @1 to @8");
}

// Writes the form of a line that has more.
fn tell_too_much<W: Sink>(out: &mut Out<'_, W>, verb: Verb) {
    out.say(b"nothing more expected: the line is ");
    tell_marked(out, verb.form());
}

// Writes that a domain does not have a name.
fn tell_unknown<W: Sink>(out: &mut Out<'_, W>, domain: &Domain, line: &[u8], fault: &Fault) {
    let Some(name) = name_at(line, fault.at) else {
        return;
    };
    match fault.cause {
        Cause::UnknownAction if domain.state(&name).is_some() => {
            tell_name(out, &name);
            out.say(ACTION_FIRST);
        }
        Cause::UnknownAction => tell_no_action(out, domain, &name),
        Cause::UnknownState => tell_no_state(out, domain, &name),
        _ => tell_no_object(out, domain, &name),
    }
}
