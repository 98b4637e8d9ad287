//! All warnings on a domain, in the order of its text.

use crate::circles::{warn_of_circles, warn_of_wait_circles};
use crate::conditions::warn_of_conditions;
use crate::declared::warn_of_class;
use crate::endings::{warn_of_endings, warn_of_unreached};
use crate::idle::warn_of_parameters;
use crate::kind::WarningKind;
use crate::survey::{Survey, survey_of};
use crate::uses::{Uses, warn_of_unused};
use crate::warning::Warning;
use sml_domain::Domain;
use std::alloc::{AllocError, Global};

// With what the comment begins that keeps a warning from being told.
const SILENCES: &[u8] = b"! lint: ";

/// The warnings on a domain, in the order of its text; those on states that no action leaves only if `all` says so.
/// A comment `! lint: KIND` on the line of one keeps it from being told.
///
/// The text is that of the domain. The time and the memory grow with its length, and the time besides with the count of
/// tests times that of the classes. The error is out of memory.
pub fn warnings_of(
    alloc: Global,
    domain: &Domain,
    text: &[u8],
    all: bool,
) -> Result<Vec<Warning>, AllocError> {
    let survey = survey_of(alloc, domain, text)?;
    let mut found = Vec::new(alloc);
    warn_of_parts(alloc, &survey, all, &mut found)?;
    warn_of_unreached(&survey, &mut found)?;
    warn_of_circles(alloc, &survey, &mut found)?;
    warn_of_wait_circles(alloc, &survey, &mut found)?;
    let mut warnings = Vec::new(alloc);
    for warning in found {
        if !is_silenced(text, warning.at, warning.kind) {
            warnings.push(warning)?;
        }
    }
    warnings.sort_unstable_by_key(|warning| (warning.at, warning.kind.number()));
    Ok(warnings)
}

// Adds the warnings on the classes, the blocks and the uses of a domain.
fn warn_of_parts(
    alloc: Global,
    survey: &Survey<'_>,
    all: bool,
    warnings: &mut Vec<Warning>,
) -> Result<(), AllocError> {
    for class in 0..survey.domain.classes().len() {
        warn_of_class(survey, class, all, warnings)?;
        warn_of_parameters(alloc, survey, class, warnings)?;
    }
    let uses = Uses::of(alloc, survey)?;
    warn_of_unused(alloc, survey, &uses, warnings)?;
    let surely = uses.sure_members(alloc, survey)?;
    for block in 0..survey.sites.len() {
        warn_of_endings(survey, block, warnings)?;
        warn_of_conditions(alloc, survey, &surely, block, warnings)?;
    }
    Ok(())
}

// Whether a comment on the line behind a byte of the text keeps a warning of a kind from being told.
fn is_silenced(text: &[u8], at: usize, kind: WarningKind) -> bool {
    let behind = text.split_at(at.min(text.len())).1;
    let line = match behind.iter().position(|byte| *byte == b'\n') {
        Some(end) => behind.split_at(end).0,
        None => behind,
    };
    let Some(begin) = line
        .windows(SILENCES.len())
        .position(|window| window == SILENCES)
    else {
        return false;
    };
    let named = line
        .split_at(begin.saturating_add(SILENCES.len()).min(line.len()))
        .1;
    named
        .split(|byte| !byte.is_ascii_alphanumeric())
        .any(|word| word == kind.name().as_bytes())
}
