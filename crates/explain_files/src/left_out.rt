//! Forms that the language leaves out, and texts that are no domains.

use crate::teller::Teller;
use crate::tokens::name_of;
use crate::trail::Trail;
use sml_text::Sink;
use sml_tree::{Name, TokenKind};

/// Where the list of what the language leaves out is.
pub(crate) const DOMAINS: &[u8] = b" (docs/LANGUAGE.md, \"Domains\")";

/// What is said if a schedule is given in place of a domain.
pub(crate) const SCHEDULE: &[u8] =
    b"this looks like a schedule or a script, and not like a domain: is the order FILE SCHEDULE?";

/// What is said if a word is cut by a minus.
pub(crate) const MINUS: &[u8] =
    b"a name has letters, digits and `_`: `-` begins an int, and names with `-` are left out";

const WHEN: &[u8] =
    b"`when` is not part of this language: an action asks by `if`, and a state does nothing by itself";

const STAY: &[u8] =
    b"`stay_in_state` is not part of this language: an action that runs off its end leaves the state as it was";

const FLOAT: &[u8] = b"`float` is not part of this language: there are only int and string";

const ELSE_IF: &[u8] =
    b"there is no such word: write `else`, and an `if` with an `endif` of its own";

const SEVERAL: &[u8] =
    b"`::` is not part of this language: there is one domain, and names stand alone";

// What is said about a word that other such languages have.
fn other_word(name: &Name) -> Option<&'static [u8]> {
    match name.as_bytes() {
        b"WHEN" => Some(WHEN),
        b"STAY_IN_STATE" => Some(STAY),
        b"FLOAT" | b"DOUBLE" | b"REAL" => Some(FLOAT),
        b"UNION" => Some(b"`union` is not part of this language: name each member of a set"),
        b"INCLUDE" => Some(b"includes are not part of this language: a domain is one file"),
        b"ELSEIF" | b"ELSIF" | b"ELIF" => Some(ELSE_IF),
        _ => None,
    }
}

// Whether a word begins lines of schedules or scripts.
fn begins_line(name: &Name) -> bool {
    matches!(
        name.as_bytes(),
        b"REQUEST" | b"START" | b"GO" | b"ANSWER" | b"FAULT" | b"KILL" | b"DEVICE"
    )
}

// Whether two colons are at the place, behind a name.
fn is_double_colon(trail: &Trail) -> bool {
    matches!(trail.found.kind, TokenKind::Colon)
        && matches!(trail.after.kind, TokenKind::Colon)
        && trail.found.end == trail.after.at
}

// Whether an int with a minus is directly behind a word.
fn is_cut_name(text: &[u8], trail: &Trail) -> bool {
    matches!(trail.found.kind, TokenKind::Int)
        && trail.found.bytes(text).first().copied() == Some(b'-')
        && trail.found.at == trail.last.end
        && trail
            .last
            .bytes(text)
            .last()
            .copied()
            .is_some_and(is_word_byte)
}

// Whether a word may have this byte.
fn is_word_byte(byte: u8) -> bool {
    byte.is_ascii_alphanumeric() || byte == b'_'
}

// What is said about the word at the place, if it is of another language.
fn word_said(text: &[u8], trail: &Trail) -> Option<&'static [u8]> {
    match name_of(trail.found.bytes(text)) {
        Some(name) if matches!(trail.found.kind, TokenKind::Name) => other_word(&name),
        _ => None,
    }
}

// Whether the text begins as a schedule does.
fn is_schedule(text: &[u8], trail: &Trail) -> bool {
    let is_first = matches!(trail.last.kind, TokenKind::Stray);
    match name_of(trail.found.bytes(text)) {
        Some(name) => is_first && begins_line(&name),
        None => false,
    }
}

/// Says what is left out of the language, if there is such a thing at the place. Whether there is.
pub(crate) fn tell_left_out<W: Sink>(out: &mut Teller<'_, '_, W>, trail: &Trail) -> bool {
    let text = out.text;
    if is_schedule(text, trail) {
        out.say(SCHEDULE);
        return true;
    }
    let said = if is_double_colon(trail) {
        Some(SEVERAL)
    } else if is_cut_name(text, trail) {
        Some(MINUS)
    } else {
        word_said(text, trail)
    };
    match said {
        Some(words) => {
            out.say(words);
            out.say(DOMAINS);
            true
        }
        None => false,
    }
}
