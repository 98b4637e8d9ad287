//! A front of which a line is left out, doubled, or exchanged with the next.

use crate::found::{FRONT, LINES, found_of};
use std::alloc::Global;

type Told = Result<usize, usize>;

// Of each line of the front, what is read where it is left out, doubled, and exchanged with the next: how long the log
// is that follows, or the number of the first bad line.
const ROWS: &[(Told, Told, Told)] = &[
    (Err(1), Err(2), Err(1)),
    (Err(2), Err(3), Err(2)),
    (Err(3), Err(4), Err(3)),
    (Err(4), Err(5), Err(4)),
    (Err(5), Err(6), Err(5)),
    (Err(6), Err(7), Err(6)),
    (Err(7), Err(8), Err(7)),
    (Err(8), Err(9), Err(8)),
    (Err(9), Err(10), Err(9)),
    (Err(10), Err(11), Err(10)),
    // Counts: of what never started or ended there is no line, and each has its place.
    (Ok(17), Err(12), Err(12)),
    (Ok(17), Err(13), Err(13)),
    (Ok(17), Err(14), Err(14)),
    (Ok(17), Err(15), Err(15)),
    // Names come in any order, each once.
    (Ok(17), Err(16), Ok(17)),
    (Ok(17), Err(17), Ok(17)),
    (Ok(17), Err(18), Ok(17)),
    (Ok(17), Err(19), Err(19)),
    // Kills: what comes after the last line of the front is the log.
    (Ok(17), Err(20), Err(20)),
    (Ok(17), Err(21), Ok(27)),
    (Err(21), Ok(66), Err(21)),
];

// Whether it is so of the line at a place.
fn is_told(alloc: Global, place: usize) -> Option<bool> {
    let row = ROWS.get(place)?;
    let line = LINES.get(place)?;
    let next = place.checked_add(1)?;
    let left_out = found_of(alloc, place, b"", b"", next)?;
    let doubled = found_of(alloc, place, line, line, next)?;
    let exchanged = found_of(alloc, place, LINES.get(next)?, line, next.checked_add(1)?)?;
    Some(left_out == row.0 && doubled == row.1 && exchanged == row.2)
}

#[test]
fn lines_left_out_doubled_and_exchanged(rt: HostRuntime) {
    for place in 0..FRONT {
        assert!(rt;
            is_told(rt.alloc(), place) == Some(true),
            "at place {place}"
        );
    }
}
