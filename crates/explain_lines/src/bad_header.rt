//! Why a text does not begin as a journal.

use crate::bad_line::LineKind;
use crate::entry_reader::line_of;
use crate::line_fault::fault_in;
use crate::pieces::{from, name_at, part, token_at};
use crate::source_line::{SourceLine, tell_back, tell_front};
use crate::verb::verb_at;
use sml_text::Sink;
use sml_writer::Out;

// The first line of journals, in either format.
const HEADERS: [&[u8]; 2] = [b"smi-journal 1", b"smi-journal 2"];

// How long it is.
const HEADER_LENGTH: usize = 13;

// What a text seems to be that is no journal, or how it differs from one.
#[derive(Clone, Copy)]
enum Seems {
    Empty,
    Marked,
    Returned,
    Unended,
    Domain,
    Schedule,
    Entries,
    Other,
}

// What the first token of a text says about it.
fn seems_by_word(text: &[u8]) -> Seems {
    let Some(token) = token_at(text, 0) else {
        return Seems::Other;
    };
    let Some(name) = name_at(text, token.at) else {
        return Seems::Other;
    };
    match name.as_bytes() {
        b"CLASS" | b"OBJECT" | b"OBJECTSET" => Seems::Domain,
        b"POST" | b"WAIT" | b"SEEN" | b"END" => Seems::Entries,
        b"INSERT" | b"REMOVE" | b"EMPTY" => Seems::Entries,
        _ if verb_at(text, token.at).is_some() => seems_by_line(line_of(from(text, token.at), 1)),
        _ => Seems::Other,
    }
}

// What the first line that has a verb says about a text: a start or a kill may be an entry, too.
fn seems_by_line(line: &[u8]) -> Seems {
    let is_line = fault_in(LineKind::Schedule, line).is_none()
        || fault_in(LineKind::Script, line).is_none();
    if is_line {
        Seems::Schedule
    } else {
        Seems::Entries
    }
}

// What a text seems to be.
fn guess(text: &[u8]) -> Seems {
    if text.is_empty() {
        return Seems::Empty;
    }
    let behind = from(text, HEADER_LENGTH);
    let front = part(text, 0, HEADER_LENGTH);
    let begins = HEADERS.iter().any(|header| front == *header);
    match (text, behind) {
        ([0xEF, 0xBB, 0xBF, ..], _) => Seems::Marked,
        (_, [b'\r', ..]) if begins => Seems::Returned,
        (_, []) if begins => Seems::Unended,
        _ => seems_by_word(text),
    }
}

// How many bytes are before the place of what is wrong.
fn place_of(seems: Seems) -> usize {
    match seems {
        Seems::Returned | Seems::Unended => HEADER_LENGTH,
        _ => 0,
    }
}

// The sentence, or its beginning.
fn sentence(seems: Seems) -> &'static [u8] {
    match seems {
        Seems::Empty => {
            b"the journal is empty: its first line has to be `smi-journal 1` or `smi-journal 2`"
        }
        Seems::Marked => b"the text begins with a byte order mark: save it without",
        Seems::Returned => {
            b"the line ends with a carriage return: those of a journal end with a line feed alone"
        }
        Seems::Unended => b"a line feed has to end the line",
        Seems::Domain | Seems::Schedule | Seems::Entries | Seems::Other => {
            b"the first line has to be `smi-journal 1` or `smi-journal 2`"
        }
    }
}

// The end of the sentence.
fn end_of_sentence(seems: Seems) -> &'static [u8] {
    match seems {
        Seems::Domain => b"; this looks like a domain: is the order FILE JOURNAL?",
        Seems::Schedule => b"; this looks like a schedule or a script",
        Seems::Entries => b": it is missing",
        _ => b"",
    }
}

/// Writes why the bytes of a text do not begin with the first line of journals: a place, one sentence, the line, and a
/// caret.
///
/// It is text for people, and no part of a format. The cost is the length of the first line that is not empty. No
/// memory is taken.
pub fn explain_bad_header<W: Sink>(file: &str, text: &[u8], out: &mut Out<'_, W>) {
    let seems = guess(text);
    let line = SourceLine {
        file,
        number: 1,
        text: line_of(text, 1),
    };
    tell_front(out, &line, place_of(seems));
    out.say(sentence(seems));
    out.say(end_of_sentence(seems));
    tell_back(out, &line, place_of(seems));
}
