//! Schedules, cut at every place and with a byte changed at every place.

use crate::broken::{BYTES, breaks, changed, ends_line, line_at};
use crate::steps::{CHANGING, CONFIGURE_READY, LAMPS, PARAMETERS, Step, Told, WAITING};
use smi_core::{Core, run_schedule};
use sml_domain::Domain;
use sml_load::domain_of;
use std::alloc::{AllocError, Global};
use std::sync::Arc;
use std::test::*;

// The words at the front of lines that steps write.
const WORDS: [&[u8]; 13] = [
    b"accept ",
    b"start ",
    b"post ",
    b"wait ",
    b"seen ",
    b"end ",
    b"kill ",
    b"insert ",
    b"remove ",
    b"empty ",
    b"set ",
    b"still ",
    b"refused ",
];

/// The text of a schedule.
pub fn text_of(alloc: Global, steps: &[Step]) -> Result<Vec<u8>, AllocError> {
    let mut text = Vec::new(alloc);
    for (line, _) in steps {
        text.extend_from_slice(line)?;
    }
    Ok(text)
}

// What the lines before one write.
fn output_before(alloc: Global, steps: &[Step], line: usize) -> Result<Vec<u8>, AllocError> {
    let mut output = Vec::new(alloc);
    for (_, written) in steps.iter().take(line.saturating_sub(1)) {
        output.extend_from_slice(written)?;
    }
    Ok(output)
}

/// A core of a domain.
pub fn core_of(alloc: Global, domain: &Arc<Domain>) -> Option<Core> {
    let shared = Arc::try_clone(domain).ok()?;
    Core::new(alloc, shared, 16, 1_000_000).ok()
}

// What a new core writes for a text, which it runs to its end.
fn written(alloc: Global, domain: &Arc<Domain>, text: &[u8]) -> Option<Vec<u8>> {
    let mut core = core_of(alloc, domain)?;
    let mut reader = text;
    let mut output = Vec::new(alloc);
    let ran = run_schedule(alloc, &mut core, &mut reader, &mut output);
    drop(core);
    match ran {
        Ok(()) => Some(output),
        Err(_) => None,
    }
}

// Whether each line begins with one of the words, and the last one ends.
fn are_lines(output: &[u8]) -> bool {
    output.split_inclusive(|byte| *byte == b'\n').all(|line| line.ends_with(b"\n")
        && WORDS.iter().any(|word| line.starts_with(*word)))
}

// Whether a prefix of a schedule writes what its whole lines write, and then what its last one does.
fn is_right_cut(
    alloc: Global,
    domain: &Arc<Domain>,
    told: Told,
    text: &[u8],
    length: usize,
) -> Option<bool> {
    let output = written(alloc, domain, text.get(..length)?)?;
    let before = output_before(alloc, told.steps, line_at(text, length)).ok()?;
    Some(if ends_line(text, length) {
        output == before
    } else {
        output.starts_with(&before) && are_lines(&output)
    })
}

// Whether a schedule with another byte at a place writes what the lines before it do, and then, if the byte breaks its
// line, that this is a bad line.
fn is_right_byte(
    alloc: Global,
    domain: &Arc<Domain>,
    told: Told,
    text: &[u8],
    place: usize,
    byte: u8,
) -> Option<bool> {
    let output = written(alloc, domain, &changed(alloc, text, place, byte)?)?;
    let mut front = output_before(alloc, told.steps, line_at(text, place)).ok()?;
    if breaks(text, place, byte) {
        front.extend_from_slice(b"refused BadLine\n").ok()?;
    }
    Some(output.starts_with(&front) && are_lines(&output))
}

// Whether all is right at a place.
fn is_right_at(alloc: Global, domain: &Arc<Domain>, told: Told, text: &[u8], place: usize) -> bool {
    is_right_cut(alloc, domain, told, text, place) == Some(true)
        && BYTES.iter().all(|byte| is_right_byte(alloc, domain, told, text, place, *byte)
            == Some(true))
}

// Whether all is right at each place of a schedule, and the whole of it.
fn is_right(alloc: Global, told: Told) -> Option<bool> {
    let domain = domain_of(alloc, told.domain).ok()?;
    let text = text_of(alloc, told.steps).ok()?;
    for place in 0..text.len() {
        if !is_right_at(alloc, &domain, told, &text, place) {
            return Some(false);
        }
    }
    is_right_cut(alloc, &domain, told, &text, text.len())
}

#[test]
fn broken_schedules_write_what_stands_before_the_break(rt: HostRuntime) {
    for told in [CONFIGURE_READY, PARAMETERS, WAITING, LAMPS, CHANGING] {
        assert!(rt; is_right(rt.alloc(), told) == Some(true), "{}", told.name);
    }
}
