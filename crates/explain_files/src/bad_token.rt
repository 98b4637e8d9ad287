//! Things that are no tokens.

use crate::advice::{Advice, tell_advice};
use crate::foreign::{ForeignSign, NO_ARITHMETIC, NO_TIMES, sign_of};
use crate::left_out::{DOMAINS, MINUS, SCHEDULE};
use crate::teller::Teller;
use crate::tokens::Tokens;
use crate::trail::Trail;
use sml_text::{LONGEST_NAME, LONGEST_STRING, Sink};
use sml_tree::TokenKind;

const JOURNAL: &[u8] = b"smi-journal ";

const NO_SIGN: &[u8] = b" is no sign of this language";

const SIGNS: &[u8] = b" (: , = ( ) { } /)";

const NO_UNIT: &[u8] = b" is no int: an int is decimal, and has no unit";

// Why a string ends too early, or is too long.
enum StringFault {
    TooLong,
    /// Its line or the text ends.
    NotClosed,
    /// It has a byte that a string may not have.
    BadByte,
}

// Whether a word may have this byte.
fn is_word_byte(byte: &u8) -> bool {
    byte.is_ascii_alphanumeric() || *byte == b'_'
}

// The byte before a place.
fn byte_before(text: &[u8], offset: usize) -> Option<u8> {
    text.get(offset.checked_sub(1)?).copied()
}

/// Says which rule of tokens is broken at a place, which is that of the trail.
pub(crate) fn tell_bad_token<W: Sink>(out: &mut Teller<'_, '_, W>, trail: &Trail, offset: usize) {
    let text = out.text;
    if text.starts_with(JOURNAL) {
        out.say(b"this looks like a journal, and not like a domain: is the order FILE JOURNAL?");
        return;
    }
    let rest = text.split_at(offset.min(text.len())).1;
    let Some(first) = rest.first().copied() else {
        return;
    };
    let before = byte_before(text, offset).unwrap_or(b' ');
    match first {
        b'a'..=b'z' | b'A'..=b'Z' => tell_long_word(out, rest),
        b'0'..=b'9' => tell_int(out, trail, rest),
        b'-' => tell_minus(out, trail, rest, before),
        b'"' => tell_string(out, rest),
        _ => match sign_of(rest, trail) {
            Some(sign) => tell_sign(out, rest, sign),
            None => tell_other(out, first, before),
        },
    }
}

// A word that is too long.
fn tell_long_word<W: Sink>(out: &mut Teller<'_, '_, W>, rest: &[u8]) {
    out.say(b"a name has at most ");
    out.number(LONGEST_NAME as u64);
    out.say(b" bytes, and this word has ");
    out.number(rest.iter().take_while(|b| is_word_byte(*b)).count() as u64);
}

// An int that is too large, or a number with letters.
fn tell_int<W: Sink>(out: &mut Teller<'_, '_, W>, trail: &Trail, rest: &[u8]) {
    let digits = rest
        .iter()
        .take_while(|b| b.is_ascii_digit() || **b == b'-')
        .count();
    let behind = rest.get(digits).copied().unwrap_or(b' ');
    if is_word_byte(&behind) {
        tell_letters(out, trail, rest);
    } else {
        out.say(b"an int is from -9223372036854775808 to 9223372036854775807");
    }
}

// A number with letters: a value that is written otherwise, a time, or a name.
fn tell_letters<W: Sink>(out: &mut Teller<'_, '_, W>, trail: &Trail, rest: &[u8]) {
    let length = rest
        .iter()
        .take_while(|b| is_word_byte(*b) || **b == b'-')
        .count();
    match (trail.head.kind, trail.last.kind) {
        (_, TokenKind::Equals) => {
            out.quoted(rest.split_at(length.min(rest.len())).0);
            out.say(NO_UNIT);
        }
        (TokenKind::Wait, _) => out.say(NO_TIMES),
        _ => out.say(b"a letter or `_` stands directly behind an int: a name begins with a letter"),
    }
}

// A minus without digits, or with too many of them.
fn tell_minus<W: Sink>(out: &mut Teller<'_, '_, W>, trail: &Trail, rest: &[u8], before: u8) {
    if is_word_byte(&before) {
        out.say(MINUS);
        out.say(DOMAINS);
    } else if rest.get(1).is_some_and(|b| b.is_ascii_digit()) {
        tell_int(out, trail, rest);
    } else {
        out.say(b"digits expected behind `-`, which begins an int");
        if matches!(trail.before.kind, TokenKind::Equals) {
            tell_advice(out, Advice::Say(NO_ARITHMETIC));
        }
    }
}

// A sign of other languages.
fn tell_sign<W: Sink>(out: &mut Teller<'_, '_, W>, rest: &[u8], sign: ForeignSign) {
    out.quoted(rest.split_at(sign.length.min(rest.len())).0);
    out.say(NO_SIGN);
    tell_advice(out, Advice::Say(sign.sentence));
}

// Why what begins with a quote is not a string.
fn string_fault(rest: &[u8]) -> StringFault {
    let inside = rest.get(1..).unwrap_or(&[]);
    match inside
        .iter()
        .position(|b| !matches!(*b, b' '..=b'~') || *b == b'"')
    {
        Some(length) if inside.get(length).copied() == Some(b'"') => StringFault::TooLong,
        Some(length) => match inside.get(length).copied() {
            Some(b'\r' | b'\n') => StringFault::NotClosed,
            _ => StringFault::BadByte,
        },
        None => StringFault::NotClosed,
    }
}

// What begins as a string and is not one.
fn tell_string<W: Sink>(out: &mut Teller<'_, '_, W>, rest: &[u8]) {
    match string_fault(rest) {
        StringFault::TooLong => {
            out.say(b"a string has at most ");
            out.number(LONGEST_STRING as u64);
            out.say(b" bytes");
        }
        StringFault::NotClosed => {
            out.say(b"the string that begins here does not end on its line: `\"` is missing");
        }
        StringFault::BadByte => {
            out.say(
                b"a string has bytes from the blank to `~` alone: a tab or another control byte stands in it",
            );
        }
    }
}

// Whether the first token of a text is one of a domain's.
fn begins_as_domain(text: &[u8]) -> bool {
    match Tokens::new(text).take() {
        Some(piece) => matches!(
            piece.kind,
            TokenKind::Class | TokenKind::Object | TokenKind::ObjectSet
        ),
        None => false,
    }
}

// A byte that begins no token.
fn tell_other<W: Sink>(out: &mut Teller<'_, '_, W>, byte: u8, before: u8) {
    match byte {
        b'\'' => out.say(b"a string stands in `\"`, not in `'` (docs/LANGUAGE.md, \"Tokens\")"),
        b'@' if !begins_as_domain(out.text) => out.say(SCHEDULE),
        b'.' if before.is_ascii_digit() => {
            out.say(b"a number has no `.`: there are only int and string, and floats are left out");
            out.say(DOMAINS);
        }
        b'$' => {
            out.say(b"a name has letters, digits and `_`: names with `$` are left out");
            out.say(DOMAINS);
        }
        b'&' => {
            out.say(
                b"`&` is no sign of this language: `&VAL_OF_` is left out, and a parameter's name stands alone",
            );
            out.say(DOMAINS);
        }
        b'#' => out.say(b"a comment begins with `!`"),
        b'_' => out.say(b"a name begins with a letter"),
        b'!'..=b'~' => {
            out.quoted(&[byte]);
            out.say(NO_SIGN);
            out.say(SIGNS);
        }
        _ => {
            out.say(b"a control byte may stand in comments alone; its number is ");
            out.number(u64::from(byte));
        }
    }
}
