//! The longest front: of 64 objects with 16 strings each, 32 sets that have all of them, and 64 names. (KIND alone has
//! no longest word.)

use crate::found::found_in;
use sml_domain::Domain;
use sml_load::domain_of;
use std::alloc::Global;
use std::sync::Arc;

// Lines that are alike: with what each begins, what comes then for each number but the first, with what it ends, how
// many lines there are, and how many numbers.
type Lines = (&'static [u8], &'static [u8], &'static [u8], usize, usize);

// In their text a `%` stands for the number of the line, a `#` for the number in it, and a `*` for most of a name.
const MOST: &[u8] = b"ABCDEFGHIJKLMNOPQRSTUVWXYZ_0123456789_ABCDEFGHIJKLMNOPQRSTUVW";

// How a number is written: by two of these.
const DIGITS: &[u8] = b"01234567";

const DOMAIN: &[Lines] = &[
    (
        b"class: K parameters: string P*00 = \"\"",
        b", string P*# = \"\"",
        b" state: S*00 /initial_state /dead_state\n",
        1,
        16,
    ),
    (b"object: O*% is_of_class K\n", b"", b"", 64, 1),
    (b"objectset: G*% { O*00", b", O*#", b" }\n", 32, 64),
];

const FRONT: &[Lines] = &[
    (
        b"! smirun live 2 0123456789abcdef0123456789abcdef01234567 capacity 1024\n",
        b"",
        b"",
        1,
        1,
    ),
    (b"! state O*% S*00\n", b"", b"", 64, 1),
    (
        b"! param O*% P*00=\"**** of 255 ...\"\n",
        b"! param O*% P*#=\"**** of 255 ...\"\n",
        b"",
        64,
        16,
    ),
    (b"! member G*% O*00", b" O*#", b"\n", 32, 64),
    (
        b"! started O*% 18446744073709551615\n! ended O*% 18446744073709551615\n",
        b"",
        b"",
        64,
        1,
    ),
    (
        b"! once N*% 18446744073709551615 O*00 S*00 18446744073709551615 refused UnknownObject\n",
        b"",
        b"",
        64,
        1,
    ),
];

const ENDS: &[Lines] = &[
    (b"kill O*% @8\n", b"", b"", 64, 1),
    (
        b"! after fedcba9876543210fedcba9876543210fedcba98\n",
        b"",
        b"",
        1,
        1,
    ),
];

// Adds a number.
fn add_number(text: &mut Vec<u8>, number: usize) -> Option<()> {
    text.push(*DIGITS.get(number / 8)?).ok()?;
    text.push(*DIGITS.get(number % 8)?).ok()
}

// Adds what stands for a byte of the text of lines.
fn add_byte(text: &mut Vec<u8>, byte: u8, line: usize, number: usize) -> Option<()> {
    match byte {
        b'%' => add_number(text, line),
        b'#' => add_number(text, number),
        b'*' => text.extend_from_slice(MOST).ok(),
        _ => text.push(byte).ok(),
    }
}

fn add_piece(text: &mut Vec<u8>, piece: &[u8], line: usize, number: usize) -> Option<()> {
    for byte in piece {
        add_byte(text, *byte, line, number)?;
    }
    Some(())
}

fn add_line(text: &mut Vec<u8>, lines: &Lines, line: usize) -> Option<()> {
    add_piece(text, lines.0, line, 0)?;
    for number in 1..lines.4 {
        add_piece(text, lines.1, line, number)?;
    }
    add_piece(text, lines.2, line, 0)
}

fn add_lines(text: &mut Vec<u8>, lines: &Lines) -> Option<()> {
    for line in 0..lines.3 {
        add_line(text, lines, line)?;
    }
    Some(())
}

fn add_all(text: &mut Vec<u8>, all: &[Lines]) -> Option<()> {
    for lines in all {
        add_lines(text, lines)?;
    }
    Some(())
}

// Adds the longest front, with something behind its names.
fn add_front(text: &mut Vec<u8>, more: &[u8]) -> Option<()> {
    add_all(text, FRONT)?;
    text.extend_from_slice(more).ok()?;
    add_all(text, ENDS)
}

// Its domain.
fn domain_of_front(alloc: Global) -> Option<Arc<Domain>> {
    let mut text = Vec::new(alloc);
    add_all(&mut text, DOMAIN)?;
    domain_of(alloc, &text).ok()
}

// What is read of the first bytes of such a front.
fn found(alloc: Global, more: &[u8], length: usize) -> Option<Result<usize, usize>> {
    let mut text = Vec::new(alloc);
    add_front(&mut text, more)?;
    let domain = domain_of_front(alloc)?;
    found_in(alloc, &domain, text.get(..length)?)
}

// What stands behind the names, how many bytes are read, and what is read then: that nothing follows the front, or the
// number of the first bad line. The lines have 71, 138, 396, 4,234, 96, 94, 266, 73 and 49 bytes, in their order.
const ROWS: &[(&[u8], usize, Result<usize, usize>)] = &[
    (b"", 583_800, Ok(0)),
    (b"", 583_799, Err(1378)),
    (b"! once ONE_MORE 1 - - 0 ended\n", 583_830, Err(1314)),
];

#[test]
fn the_longest_front(rt: HostRuntime) {
    for (more, length, told) in ROWS {
        assert!(rt; found(rt.alloc(), more, *length) == Some(*told), "{told:?}");
    }
}
