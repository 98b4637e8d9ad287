//! A front that was cut at each byte, and one of which a byte is another.

use crate::found::{FRONT, LINES, LOG, TEXT, add_lines, found_in};
use sml_domain::Domain;
use sml_load::domain_of;
use std::alloc::Global;

// The lines before a place.
fn text_of(alloc: Global, to: usize) -> Option<Vec<u8>> {
    let mut text = Vec::new(alloc);
    add_lines(&mut text, 0, to)?;
    Some(text)
}

// Whether each beginning of a text is bad, by the line that is not whole.
fn are_bad(alloc: Global, domain: &Domain, text: &[u8]) -> Option<bool> {
    let mut number: usize = 1;
    for length in 0..text.len() {
        if found_in(alloc, domain, text.get(..length)?)? != Err(number) {
            return Some(false);
        }
        if *text.get(length)? == b'\n' {
            number = number.checked_add(1)?;
        }
    }
    Some(true)
}

// Whether each front that was cut is bad.
fn are_cuts_bad(alloc: Global) -> Option<bool> {
    let text = text_of(alloc, FRONT)?;
    let domain = domain_of(alloc, TEXT).ok()?;
    are_bad(alloc, &domain, &text)
}

#[test]
fn fronts_that_were_cut_are_bad(rt: HostRuntime) {
    assert!(rt; are_cuts_bad(rt.alloc()) == Some(true));
}

// What takes the place of a byte.
const BYTES: &[u8] = b"\n \"-09Aaz\xff";

// Whether this is told of a text in which a byte of the line of a number became this one: the front is another, and the
// log is the same; or that line is bad, or the next one, which a new line feed begins.
fn is_told(told: Result<usize, usize>, number: usize, byte: u8) -> bool {
    match told {
        Ok(length) => length == LOG,
        Err(bad) => bad == number || (byte == b'\n' && bad == number.wrapping_add(1)),
    }
}

// With how many of the bytes at a place in the line of a number a text is a front. None if another thing is told.
fn fronts_at(
    alloc: Global,
    domain: &Domain,
    text: &mut [u8],
    place: usize,
    number: usize,
) -> Option<usize> {
    let kept = *text.get(place)?;
    let mut count: usize = 0;
    for byte in BYTES {
        *text.get_mut(place)? = *byte;
        let told = found_in(alloc, domain, text)?;
        if !is_told(told, number, *byte) {
            return None;
        }
        if told.is_ok() {
            count = count.checked_add(1)?;
        }
    }
    *text.get_mut(place)? = kept;
    Some(count)
}

// How many bytes the lines before a place have.
fn length_before(to: usize) -> Option<usize> {
    let mut length: usize = 0;
    for place in 0..to {
        length = length.checked_add(LINES.get(place)?.len())?;
    }
    Some(length)
}

// With how many of the bytes at the places of the line of a number a text is a front.
fn fronts_in(alloc: Global, domain: &Domain, text: &mut [u8], number: usize) -> Option<usize> {
    let from = length_before(number.checked_sub(1)?)?;
    let to = length_before(number)?;
    let mut count: usize = 0;
    for place in from..to {
        count = count.checked_add(fronts_at(alloc, domain, text, place, number)?)?;
    }
    Some(count)
}

fn fronts_of_line(alloc: Global, number: usize) -> Option<usize> {
    let mut text = text_of(alloc, LINES.len())?;
    let domain = domain_of(alloc, TEXT).ok()?;
    fronts_in(alloc, &domain, &mut text, number)
}

// The number of a line, and with how many of the bytes at its places there is a front. Where no byte may change, that
// is 1 if it is one of them. What may change: digits of a SHA-1 (to 0, 9 or a) and of numbers (not to a 0 in front, nor
// to 0 in counts, nor past 2^64 - 1), an int's sign to a digit, what is in a string (to seven of them), NAME (to 0, 9
// or A), and the letters of KIND (to A, a or z).
const ROWS: &[(usize, usize)] = &[
    (1, 132),
    (2, 6),
    (3, 7),
    (4, 6),
    (5, 10),
    (6, 30),
    (7, 9),
    (8, 9),
    (9, 8),
    (10, 3),
    (11, 9),
    (12, 8),
    (13, 6),
    (14, 25),
    (15, 29),
    (16, 41),
    (17, 15),
    (18, 56),
    (19, 4),
    (20, 3),
    (21, 124),
    (22, 170),
];

#[test]
fn fronts_of_which_a_byte_is_another(rt: HostRuntime) {
    for (number, count) in ROWS {
        assert!(rt;
            fronts_of_line(rt.alloc(), *number) == Some(*count),
            "line {number}"
        );
    }
}
