//! Why bytes are no token: which rule of tokens they break. (docs/LANGUAGE.md, "Tokens".)

use crate::pieces::{from, part};
use crate::words::tell_marked;
use sml_text::{LONGEST_NAME, LONGEST_STRING, Sink};
use sml_writer::Out;

/// Writes why there is no token in a line at a place.
pub(crate) fn tell_no_token<W: Sink>(out: &mut Out<'_, W>, line: &[u8], place: usize) {
    match from(line, place) {
        [b'"', string @ ..] => tell_string(out, string),
        [b'\'', ..] => out.say(b"strings stand in `\"`"),
        [b'#', ..] => out.say(b"a comment begins with `!`"),
        [b'@', ..] => out.say(b"sessions are @1 to @8"),
        [b'.', ..] if follows_digit(line, place) => out.say(NO_POINT),
        [b'-', digits @ ..] => tell_minus(out, digits),
        [b'0'..=b'9', ..] => tell_int(out, from(line, place)),
        [b'a'..=b'z' | b'A'..=b'Z', ..] => {
            tell_limit(out, b"a word has at most ", LONGEST_NAME);
        }
        [byte, ..] => tell_stray(out, *byte),
        [] => out.say(b"the line ends here"),
    }
}

const NO_POINT: &[u8] = b"there are only ints and strings: a number has no `.`";

const NO_MINUS: &[u8] = b"a name has letters, digits and `_`; `-` begins an int";

const GLUED: &[u8] = b"a letter or `_` stands directly behind the digits of an int";

const TOO_LARGE: &[u8] = b"an int is from -9223372036854775808 to 9223372036854775807";

// Writes a limit in bytes.
fn tell_limit<W: Sink>(out: &mut Out<'_, W>, words: &[u8], limit: usize) {
    out.say(words);
    out.number(limit as u64);
    out.say(b" bytes");
}

// Whether there is a digit right before a place.
fn follows_digit(line: &[u8], place: usize) -> bool {
    match part(line, place.saturating_sub(1), place) {
        [b] => b.is_ascii_digit(),
        _ => false,
    }
}

// Writes why bytes behind a quote are no string.
fn tell_string<W: Sink>(out: &mut Out<'_, W>, string: &[u8]) {
    match string.iter().position(|b| *b == b'"') {
        None => out.say(b"the string that begins here does not end on its line"),
        Some(end) if end > LONGEST_STRING => {
            tell_limit(out, b"a string has at most ", LONGEST_STRING);
        }
        Some(_) => out.say(b"a string has no tab and no other control byte"),
    }
}

// Writes why a minus with what is behind it is no int.
fn tell_minus<W: Sink>(out: &mut Out<'_, W>, digits: &[u8]) {
    match digits {
        [b'0'..=b'9', ..] => tell_int(out, digits),
        _ => out.say(NO_MINUS),
    }
}

// Writes why digits with what is behind them are no int.
fn tell_int<W: Sink>(out: &mut Out<'_, W>, digits: &[u8]) {
    let behind = digits.iter().find(|b| !b.is_ascii_digit());
    match behind {
        Some(b'a'..=b'z' | b'A'..=b'Z' | b'_') => out.say(GLUED),
        _ => out.say(TOO_LARGE),
    }
}

// Writes that no token begins with a byte.
fn tell_stray<W: Sink>(out: &mut Out<'_, W>, byte: u8) {
    match byte {
        0 => out.say(b"a NUL byte may stand only in a comment"),
        b' '..=b'~' => {
            tell_marked(out, &[byte]);
            out.say(b" may stand only in a string or a comment");
        }
        _ => out.say(b"a control byte may stand only in a comment"),
    }
}
