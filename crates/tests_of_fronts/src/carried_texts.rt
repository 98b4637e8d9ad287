//! The text of what goes along from the logs before: how far it is read, and that it is written as it stood.

use crate::found::TEXT;
use smi_carried::{Carried, add_carried, carried_suits, read_carried};
use sml_domain::Domain;
use sml_load::domain_of;
use std::alloc::Global;

// A text, and how many of its bytes are left.
const ROWS: &[(&[u8], usize)] = &[
    (b"", 0),
    (b"! started A 12\n! ended A 11\n! ended C 1\n", 0),
    (b"! ended A 11\n! started A 12\n", 15),
    (b"! started AB 1\n! started A 1\n", 14),
    (b"! started A 1\n! started A 1\n", 14),
    (b"! started A 18446744073709551615\n", 0),
    (b"! started A 18446744073709551616\n", 33),
    (b"! ended C 0\n", 12),
    (b"! ended C 1", 11),
    (b"! once N 1 A ON 2 ended\n! once M 1 AB DEAD 0 killed\n", 0),
    (
        b"! once N 1 C IDLE 2 skipped\n! once M 1 - - 0 refused X\n",
        0,
    ),
    (b"! once N 1 - - 0 ended\n! once N 2 - - 0 ended\n", 23),
    (b"! once N 1 - - 0 ended\n! started A 1\n", 14),
    (b"! once N 1 - - 1 ended\n", 23),
    (b"! once N 1 C ON 2 ended\n", 24),
    (b"! once N 1 - - 0 ended", 22),
    (b"! once n 1 - - 0 ended\n", 23),
    (b"! ended C 1\nkill C @1\n! ended C 1\n", 22),
    (b"! ended C 1\n! as it was\n! ended C 1\n", 24),
];

// Whether it suits, and its text and then what is left are this text. It is not so if memory is refused.
fn is_text_of(alloc: Global, domain: &Domain, carried: &Carried, rest: &[u8], text: &[u8]) -> bool {
    let mut written = Vec::new(alloc);
    let is_added = add_carried(&mut written, domain, carried).is_ok();
    let is_all = is_added && written.extend_from_slice(rest).is_ok();
    is_all && written.as_slice() == text && carried_suits(domain, carried)
}

// How many bytes of a text are left. None if memory is refused, or if what was read is not what stands there.
fn left_of(alloc: Global, text: &[u8]) -> Option<usize> {
    let domain = domain_of(alloc, TEXT).ok()?;
    let (carried, rest) = read_carried(alloc, &domain, text).ok()?;
    if is_text_of(alloc, &domain, &carried, rest, text) {
        Some(rest.len())
    } else {
        None
    }
}

#[test]
fn what_goes_along_is_read_as_far_as_it_goes(rt: HostRuntime) {
    for (text, left) in ROWS {
        assert!(rt;
            left_of(rt.alloc(), text) == Some(*left),
            "{left} of {}",
            text.len()
        );
    }
}
