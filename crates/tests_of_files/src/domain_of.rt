//! What `check` answers for texts.

use sml_check::{CheckError, CheckKind, check};
use sml_domain::Domain;
use sml_load::laws_of_read_files;
use sml_read::read;
use std::alloc::Global;

/// What `check` answers for a text, or None if it is not read.
pub fn checked(alloc: Global, text: &[u8]) -> Option<Result<Domain, CheckError>> {
    laws_of_read_files();
    let file = read(alloc, text).ok()?;
    Some(check(alloc, &file))
}

/// Whether a text is read, and `check` answers this fault.
pub fn is_refused(alloc: Global, text: &[u8], kind: CheckKind, name: &[u8]) -> bool {
    let answer = checked(alloc, text);
    let so = match &answer {
        Some(Err(error)) => error.kind == kind && error.name.as_bytes() == name,
        _ => false,
    };
    drop(answer);
    so
}
