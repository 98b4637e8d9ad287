//! The kinds of refusals, and how they are told. (What texts are read as are rows of `tests_by_scripts`.)

use sml_read::{ReadError, ReadErrorKind};
use std::alloc::{AllocError, Global};
use std::test::Fail;

// Whether an error is told so.
fn is_told(alloc: Global, error: ReadError, told: &str) -> Result<bool, AllocError> {
    let mut text = String::new(alloc);
    write!(text, "{error}")?;
    Ok(text.as_str() == told)
}

#[test]
fn names_its_kinds(rt: HostRuntime) -> Result<(), Fail> {
    assert!(rt; ReadErrorKind::TooDeep.name() == "TooDeep");
    assert!(rt; ReadErrorKind::TooDeep.number() == 5);
    let error = ReadError {
        kind: ReadErrorKind::TooMany,
        offset: 1024,
    };
    assert!(rt; is_told(rt.alloc(), error, "TooMany at 1024")?);
    Ok(())
}
