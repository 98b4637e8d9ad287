//! A front of a domain, line by line, and what is read of a text as a front.

use smi_log_front::{Front, FrontFault, add_front, front_suits, read_front};
use sml_domain::Domain;
use sml_load::domain_of;
use std::alloc::Global;

/// Two of a class with parameters, of which the name of one begins that of the other, and a device.
pub const TEXT: &[u8] = b"class: K
  parameters: int N = 5, string P = \"x\"
  state: OFF
    action: PUT (int T = 1)
      set N = T
      insert C in G
      move_to ON
  state: ON
class: L /associated
  state: IDLE
    action: GO
object: A is_of_class K
object: AB is_of_class K
object: C is_of_class L
objectset: G { A, AB }
objectset: H { C }
";

/// A front of it, and the first line of the log that follows. A line of the number n stands at the place n - 1.
pub const LINES: &[&[u8]] = &[
    b"! smirun live 2 0123456789abcdef0123456789abcdef01234567 capacity 16\n",
    b"! state A ON\n",
    b"! state AB DEAD\n",
    b"! state C DEAD\n",
    b"! param A N=-7\n",
    b"! param A P=\"y z\"\n",
    b"! param AB N=0\n",
    b"! param AB P=\"\"\n",
    b"! member G C AB A\n",
    b"! member H\n",
    b"! started A 12\n",
    b"! ended A 11\n",
    b"! ended AB 1\n",
    b"! started C 18446744073709551615\n",
    b"! once PANEL 7 A ON 11 ended\n",
    b"! once P_2 18446744073709551615 AB DEAD 0 killed\n",
    b"! once X 0 C IDLE 4 skipped\n",
    b"! once Y 9 - - 0 refused UnknownObject\n",
    b"kill AB @1\n",
    b"kill C @8\n",
    b"! after fedcba9876543210fedcba9876543210fedcba98\n",
    b"request @1 A PUT\n",
];

/// How many of the lines are those of the front.
pub const FRONT: usize = 21;

/// How long the line of the log is.
pub const LOG: usize = 17;

/// Adds the lines from one place up to another.
pub fn add_lines(text: &mut Vec<u8>, from: usize, to: usize) -> Option<()> {
    for place in from..to {
        text.extend_from_slice(LINES.get(place)?).ok()?;
    }
    Some(())
}

// Whether a front suits, and its text and then a log are this text. It is not so if memory is refused.
fn is_text_of(alloc: Global, domain: &Domain, front: &Front, log: &[u8], text: &[u8]) -> bool {
    let mut written = Vec::new(alloc);
    let is_added = add_front(&mut written, domain, front).is_ok();
    let is_all = is_added && written.extend_from_slice(log).is_ok();
    is_all && written.as_slice() == text && front_suits(domain, front)
}

/// What is read of a text: how long the log is that follows its front, or the number of the first bad line. None if
/// memory is refused, or if what was read is not what stands there.
pub fn found_in(alloc: Global, domain: &Domain, text: &[u8]) -> Option<Result<usize, usize>> {
    match read_front(alloc, domain, text) {
        Ok((front, log)) => {
            let is_so = is_text_of(alloc, domain, &front, log, text);
            drop(front);
            if is_so { Some(Ok(log.len())) } else { None }
        }
        Err(FrontFault::BadLine(number)) => Some(Err(number)),
        Err(FrontFault::Memory) => None,
    }
}

// Adds the lines before a place, two others, and the lines from another place on.
fn add_changed(
    text: &mut Vec<u8>,
    from: usize,
    first: &[u8],
    second: &[u8],
    to: usize,
) -> Option<()> {
    add_lines(text, 0, from)?;
    text.extend_from_slice(first).ok()?;
    text.extend_from_slice(second).ok()?;
    add_lines(text, to, LINES.len())
}

/// What is read of the lines before a place, of two others, and of the lines from another place on.
pub fn found_of(
    alloc: Global,
    from: usize,
    first: &[u8],
    second: &[u8],
    to: usize,
) -> Option<Result<usize, usize>> {
    let mut text = Vec::new(alloc);
    add_changed(&mut text, from, first, second, to)?;
    let domain = domain_of(alloc, TEXT).ok()?;
    found_in(alloc, &domain, &text)
}
