//! The text of an outset: what is written, what is read, and which line is bad.

use crate::domain_of::checked;
use smi_outset_text::{OutsetFault, add_outset, read_outset};
use std::alloc::Global;

// Two of a class with parameters, of which the name of one begins that of the other, and a device.
const TEXT: &[u8] = b"class: K
  parameters: int N = 5, string P = \"x\"
  state: OFF
    action: PUT (int T = 1)
      set N = T
      insert C in G
      move_to ON
  state: ON
    action: GO
      do GO all_in G
class: L /associated
  state: IDLE
    action: GO
object: A is_of_class K
object: AB is_of_class K
object: C is_of_class L
objectset: G { A, AB }
objectset: H { C }
";

// An outset of it, line by line, and the line that follows it in a log.
const LINES: &[&[u8]] = &[
    b"! state A ON\n",
    b"! state AB DEAD\n",
    b"! state C IDLE\n",
    b"! param A N=-7\n",
    b"! param A P=\"y z\"\n",
    b"! param AB N=0\n",
    b"! param AB P=\"\"\n",
    b"! member G C AB A\n",
    b"! member H\n",
    b"kill AB @1\n",
];

// The lines, of which one is another.
fn changed(alloc: Global, place: usize, line: &[u8]) -> Option<Vec<u8>> {
    let mut text = Vec::new(alloc);
    for (number, good) in LINES.iter().enumerate() {
        let bytes: &[u8] = if number == place { line } else { good };
        text.extend_from_slice(bytes).ok()?;
    }
    Some(text)
}

// Whether an outset is read from the front of the text, and written as it stood there.
fn is_read_again(alloc: Global, text: &[u8], rest: &[u8]) -> Option<bool> {
    let domain = checked(alloc, TEXT)?.ok()?;
    let (outset, more) = match read_outset(alloc, &domain, text) {
        Ok(read) => read,
        Err(_) => return Some(false),
    };
    let mut written = Vec::new(alloc);
    add_outset(&mut written, &domain, &outset).ok()?;
    let is_same = text.starts_with(&written);
    Some(is_same && more == rest)
}

// How many good lines stand before the first bad one.
fn good_lines(alloc: Global, text: &[u8]) -> Option<usize> {
    let domain = checked(alloc, TEXT)?.ok()?;
    match read_outset(alloc, &domain, text) {
        Err(OutsetFault::BadLine(count)) => Some(count),
        _ => None,
    }
}

const LONG: &[u8] = b"! param A N=-9223372036854775808\n";

#[test]
fn outsets_are_read_as_they_are_written(rt: HostRuntime) {
    let alloc = rt.alloc();
    for line in [LINES[3], LONG] {
        let text = changed(alloc, 3, line);
        let text = text.unwrap_or(Vec::new(alloc));
        assert!(rt; is_read_again(alloc, &text, b"kill AB @1\n") == Some(true));
    }
}

// A line that is another, and how many lines are good then.
const BAD: &[(usize, &[u8], usize)] = &[
    (0, b"! state A IDLE\n", 0),
    (0, b"! state A NONE\n", 0),
    (0, b"! state AB ON\n", 0),
    (0, b"! state a ON\n", 0),
    (0, b"! state A  ON\n", 0),
    (0, b"! state A ON \n", 0),
    (0, b"! state A ON\r\n", 0),
    (0, b"state A ON\n", 0),
    (0, b"", 0),
    (1, b"! state A ON\n", 1),
    (2, b"! state C IDLE", 2),
    (3, b"! param A N=007\n", 3),
    (3, b"! param A N=+7\n", 3),
    (3, b"! param A N=\"7\"\n", 3),
    (3, b"! param A N=9223372036854775808\n", 3),
    (3, b"! param A N=\n", 3),
    (3, b"! param A N= 7\n", 3),
    (3, b"! param A P=\"y z\"\n", 3),
    (4, b"! param A P=7\n", 4),
    (4, b"! param A P=\"\"\"\n", 4),
    (4, b"! param A P=\"y\tz\"\n", 4),
    (4, b"! param A P=\"y z\n", 4),
    (4, b"! param A P=\"\n", 4),
    (7, b"! member G C C\n", 7),
    (7, b"! member G C  A\n", 7),
    (7, b"! member G C A \n", 7),
    (7, b"! member G C, A\n", 7),
    (7, b"! member G D\n", 7),
    (8, b"! member H A\n", 8),
    (8, b"! member H \n", 8),
    (8, b"", 8),
];

#[test]
fn bad_lines_of_outsets(rt: HostRuntime) {
    let alloc = rt.alloc();
    for (place, line, count) in BAD {
        let text = changed(alloc, *place, line);
        let text = text.unwrap_or(Vec::new(alloc));
        assert!(rt; good_lines(alloc, &text) == Some(*count));
    }
}
