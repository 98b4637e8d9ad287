//! Characters that are not ASCII, and texts in another encoding.

use sml_text::Sink;
use sml_writer::Out;

// How many bytes of a text are looked at for its encoding.
const LOOKED_AT: usize = 64;

/// Whether a text looks like UTF-16: it begins with the mark of that, or every second of its first bytes is NUL.
pub fn is_utf16(text: &[u8]) -> bool {
    match text {
        [0xFF, 0xFE, ..] | [0xFE, 0xFF, ..] => true,
        _ => has_second_nuls(text.split_at(text.len().min(LOOKED_AT)).0),
    }
}

// Whether every second byte is NUL, and no other one.
fn has_second_nuls(bytes: &[u8]) -> bool {
    let mut even = 0usize;
    let mut odd = 0usize;
    for (i, b) in bytes.iter().enumerate() {
        match (*b, i % 2) {
            (0, 0) => even = even.saturating_add(1),
            (0, _) => odd = odd.saturating_add(1),
            _ => {}
        }
    }
    let half = bytes.len() / 2;
    half > 1 && ((even >= half && odd == 0) || (odd >= half && even == 0))
}

/// Writes that what begins these bytes is not ASCII, by its code point if it is a character of UTF-8. Behind that
/// stands what to write instead, or the rule where that is not known.
pub fn tell_not_ascii<W: Sink>(out: &mut Out<'_, W>, bytes: &[u8], rule: &[u8]) {
    let Some(code) = code_point(bytes) else {
        out.say(b"this byte is not ASCII: ");
        return out.say(rule);
    };
    tell_code_point(out, code);
    out.say(b" is not ASCII: ");
    match code {
        0xFF01..=0xFF5E => tell_narrow(out, code),
        _ => out.say(instead_of(code).unwrap_or(rule)),
    }
}

// What to write in place of a character that programs for letters put in.
fn instead_of(code: u32) -> Option<&'static [u8]> {
    match code {
        0xA0 | 0x2000..=0x200A | 0x202F | 0x205F | 0x3000 => Some(b"write a blank"),
        0xAB | 0xBB | 0x201C..=0x201F => Some(b"write `\"`"),
        0x2018..=0x201B => Some(b"write `'`"),
        0x2010..=0x2015 | 0x2212 => Some(b"write `-`"),
        0x2026 => Some(b"write `..`"),
        0xAD | 0x200B..=0x200F | 0x2060 | 0xFEFF => Some(b"it is not seen, and is left out"),
        _ => None,
    }
}

// What to write in place of a wide form of an ASCII character.
fn tell_narrow<W: Sink>(out: &mut Out<'_, W>, code: u32) {
    let narrow = ((code % 256) as u8).saturating_add(0x20);
    out.say(b"write `");
    out.say(&[narrow]);
    out.say(b"`");
}

// The six bits that a byte adds to a code point.
fn added(code: u32, byte: u8) -> u32 {
    code.saturating_mul(64).saturating_add(u32::from(byte % 64))
}

// The code point that begins bytes in UTF-8, if one above 0x7F does.
fn code_point(bytes: &[u8]) -> Option<u32> {
    match bytes {
        [a, b, ..] if matches!(*a, 0xC2..=0xDF) && follows(*b) => {
            Some(added(u32::from(*a % 32), *b))
        }
        [a, b, c, ..] if matches!(*a, 0xE0..=0xEF) && follows(*b) && follows(*c) => {
            Some(added(added(u32::from(*a % 16), *b), *c))
        }
        [a, b, c, d, ..]
            if matches!(*a, 0xF0..=0xF4) && follows(*b) && follows(*c) && follows(*d) => {
            Some(added(added(added(u32::from(*a % 8), *b), *c), *d))
        }
        _ => None,
    }
}

// Whether a byte goes on with a character of UTF-8.
fn follows(byte: u8) -> bool {
    matches!(byte, 0x80..=0xBF)
}

// Writes a code point with four digits at least.
fn tell_code_point<W: Sink>(out: &mut Out<'_, W>, code: u32) {
    out.say(b"U+");
    if code >= 0x100000 {
        tell_digit(out, code / 0x100000);
    }
    if code >= 0x10000 {
        tell_digit(out, code / 0x10000);
    }
    tell_digit(out, code / 0x1000);
    tell_digit(out, code / 0x100);
    tell_digit(out, code / 0x10);
    tell_digit(out, code);
}

// Writes the last digit of a number in base 16.
fn tell_digit<W: Sink>(out: &mut Out<'_, W>, number: u32) {
    let digit = match number % 16 {
        low @ 0..=9 => b'0'.saturating_add(low as u8),
        high => b'7'.saturating_add(high as u8),
    };
    out.say(&[digit]);
}
