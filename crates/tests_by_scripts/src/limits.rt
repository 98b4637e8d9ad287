//! The limits that help tells.

use crate::place::Place;
use smi_core::{LONGEST_LINE, LONGEST_SCHEDULE};
use smirun_commands::{LONGEST_JOURNAL, MAX_CAPACITY, MAX_STARTS};
use smirun_run::{LONGEST_SCRIPT, MAX_WORKERS};
use sml_read::MAX_TEXT;
use sml_text::{LONGEST_NAME, LONGEST_STRING};
use sml_tree::{
    MAX_ACTIONS, MAX_ARGUMENTS, MAX_CLASSES, MAX_IFS, MAX_MEMBERS, MAX_NAMES, MAX_OBJECTS,
    MAX_OPEN, MAX_PARAMETERS, MAX_SETS, MAX_STATES, MAX_TESTS, MAX_WAITED,
};
use std::alloc::{AllocError, Global};

// A limit, and what is behind it in a text.
type Limit = (usize, &'static str);

const OF_A_TEXT: Limit = (MAX_TEXT, "");

const OF_A_DOMAIN: &[Limit] = &[
    OF_A_TEXT,
    (LONGEST_NAME, " bytes"),
    (LONGEST_STRING, " bytes"),
    (MAX_IFS as usize, " others"),
    (MAX_OPEN as usize, " of its condition"),
    (MAX_CLASSES, " classes"),
    (MAX_OBJECTS, " objects"),
    (MAX_SETS, " sets"),
    (MAX_STATES, " states of a class"),
    (MAX_ACTIONS, " actions of a state"),
    (MAX_PARAMETERS, " parameters of a list"),
    (MAX_ARGUMENTS, " arguments of a `do`"),
    (MAX_MEMBERS, " members of a set"),
    (MAX_NAMES, " states of a list"),
    (MAX_TESTS as usize, " tests"),
    (MAX_WAITED, " names of a `wait`"),
];

// The limits of this name.
fn limits_of(name: &str) -> &'static [Limit] {
    match name {
        "domain" => OF_A_DOMAIN,
        "schedule" => &[OF_A_TEXT, (LONGEST_SCHEDULE, "")],
        "step" => &[(LONGEST_LINE, ""), (MAX_CAPACITY, ""), (MAX_STARTS, "")],
        "live" => &[(LONGEST_SCHEDULE, ""), (LONGEST_LINE, "")],
        "journal" => &[OF_A_TEXT, (LONGEST_JOURNAL, "")],
        "script" => &[(LONGEST_SCRIPT, ""), (LONGEST_LINE, "")],
        "run" => &[(MAX_WORKERS, ""), (MAX_CAPACITY, ""), (MAX_STARTS, "")],
        _ => &[OF_A_TEXT],
    }
}

// Tells a limit that the last output does not tell.
fn tell_if_untold(
    alloc: Global,
    (limit, behind): Limit,
    place: &mut Place,
) -> Result<(), AllocError> {
    let part = format!(in alloc; " {limit}{behind}")?;
    if place.has(part.as_str()) {
        Ok(())
    } else {
        place.tell_line("  untold:", part.as_str())
    }
}

/// Tells each of the limits of this name that the last output does not tell.
pub fn tell_untold(alloc: Global, name: &str, place: &mut Place) -> Result<(), AllocError> {
    for limit in limits_of(name) {
        tell_if_untold(alloc, *limit, place)?;
    }
    place.tell_line("  ", "all others are told")
}
