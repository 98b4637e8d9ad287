//! Fronts of domains with nothing in them, and of small ones.

use crate::found::found_in;
use sml_load::domain_of;
use std::alloc::Global;

const FIRST: &[u8] = b"! smirun live 2 0123456789abcdef0123456789abcdef01234567 capacity 1\n";

const LAST: &[u8] = b"! after fedcba9876543210fedcba9876543210fedcba98\n";

// The text of a domain, what stands between the first and the last line, and what is read then: that nothing follows
// the front, or the number of the first bad line.
const ROWS: &[(&[u8], &[u8], Result<usize, usize>)] = &[
    (b"", b"", Ok(0)),
    (b"", b"! once N 1 - - 0 refused UnknownObject\n", Ok(0)),
    (b"", b"! once N 1 X S 0 ended\n", Err(2)),
    (b"", b"! state X S\n", Err(2)),
    (b"", b"! started X 1\n", Err(2)),
    (b"", b"kill X @1\n", Err(2)),
    (b"", b"\n", Err(2)),
    (b"class: K state: S", b"", Ok(0)),
    (b"class: K state: S", b"! state K S\n", Err(2)),
    (b"objectset: G { }", b"! member G\n", Ok(0)),
    (b"objectset: G { }", b"! member G G\n", Err(2)),
    (b"objectset: G { }", b"", Err(2)),
    (
        b"class: K state: S object: X is_of_class K",
        b"! state X S\n",
        Ok(0),
    ),
    (
        b"class: K state: S object: X is_of_class K",
        b"! state X DEAD\nkill X @1\n",
        Ok(0),
    ),
    (
        b"class: K state: S object: X is_of_class K",
        b"! state X DEAD\nkill X @1\nkill X @1\n",
        Err(4),
    ),
    (
        b"class: K state: S state: GONE /dead_state object: X is_of_class K",
        b"! state X DEAD\n",
        Err(2),
    ),
    (
        b"class: K state: S state: GONE /dead_state object: X is_of_class K",
        b"! state X GONE\n! started X 1\n! once N 1 X GONE 1 killed\nkill X @7\n",
        Ok(0),
    ),
];

fn add_front(text: &mut Vec<u8>, lines: &[u8]) -> Option<()> {
    text.extend_from_slice(FIRST).ok()?;
    text.extend_from_slice(lines).ok()?;
    text.extend_from_slice(LAST).ok()
}

fn found(alloc: Global, domain: &[u8], lines: &[u8]) -> Option<Result<usize, usize>> {
    let mut text = Vec::new(alloc);
    add_front(&mut text, lines)?;
    let domain = domain_of(alloc, domain).ok()?;
    found_in(alloc, &domain, &text)
}

#[test]
fn fronts_of_small_domains(rt: HostRuntime) {
    for (domain, lines, told) in ROWS {
        let found = found(rt.alloc(), domain, lines);
        assert!(rt; found == Some(*told), "{told:?}");
    }
}
