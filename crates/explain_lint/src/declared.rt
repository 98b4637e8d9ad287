//! Warnings on classes and their states.

use crate::bits::Bits;
use crate::kind::WarningKind;
use crate::survey::Survey;
use crate::warning::{Detail, Warning};
use sml_domain::{Class, State};
use sml_tree::Name;
use std::alloc::AllocError;

// A state as a text declares it: its name, and where that stands.
#[derive(Clone, Copy)]
struct Declared {
    name: Name,
    at: usize,
}

// The name of the state that objects are in which were killed, unless a class marks another.
const DEAD: &[u8] = b"DEAD";

/// Whether an action of a class has an instruction. True of a class without actions, and of one whose actions devices
/// do.
pub(crate) fn has_body(survey: &Survey<'_>, class: &Class) -> bool {
    let mut actions = false;
    for row in class.states.rows() {
        for action in row.actions.rows() {
            actions = true;
            if !survey.domain.instructions(action.block).is_empty() {
                return true;
            }
        }
    }
    class.associated || !actions
}

/// Adds the warnings on a class and its states; those on states that no action leaves if `all` says so. Of a class
/// without a body it is told that alone.
pub(crate) fn warn_of_class(
    survey: &Survey<'_>,
    place: usize,
    all: bool,
    warnings: &mut Vec<Warning>,
) -> Result<(), AllocError> {
    let (Some(class), Some(marks)) = (survey.class(place), survey.marks.classes.get(place)) else {
        return Ok(());
    };
    if !has_body(survey, class) {
        warnings.push(Warning {
            kind: WarningKind::NoBody,
            name: class.name,
            at: marks.at,
            detail: Detail::Class,
        })?;
        return Ok(());
    }
    let unentered = match survey.unentered.get(place) {
        Some(unentered) => *unentered,
        None => Bits::NONE,
    };
    for (state, row) in class.states.rows().iter().enumerate() {
        let name = survey.domain.state_name(row.number);
        // The state that is added to a class without a dead one stands nowhere in the text.
        if let (Some(name), Some(marked)) = (name, marks.states.get(state)) {
            let is_entered = !unentered.has(state);
            let at = marked.at;
            let declared = Declared { name, at };
            warn_of_ways(class, row, &declared, is_entered, all, warnings)?;
            warn_of_name(survey, class, row, &declared, warnings)?;
        }
    }
    Ok(())
}

// Adds the warning on a state in which no object is ever, or which no action leaves.
fn warn_of_ways(
    class: &Class,
    row: &State,
    declared: &Declared,
    is_entered: bool,
    all: bool,
    warnings: &mut Vec<Warning>,
) -> Result<(), AllocError> {
    let kind = if !is_entered {
        WarningKind::NoWayIn
    } else if all
        && !class.associated
        && row.number != class.dead
        && row.actions.rows().is_empty()
    {
        WarningKind::NoWayOut
    } else {
        return Ok(());
    };
    warnings.push(Warning {
        kind,
        name: declared.name,
        at: declared.at,
        detail: Detail::OfClass(class.name),
    })?;
    Ok(())
}

// Adds the warning on a state that is called like the dead one where another is marked.
fn warn_of_name(
    survey: &Survey<'_>,
    class: &Class,
    row: &State,
    declared: &Declared,
    warnings: &mut Vec<Warning>,
) -> Result<(), AllocError> {
    if row.number == class.dead || declared.name.as_bytes() != DEAD {
        return Ok(());
    }
    if let Some(dead) = survey.domain.state_name(class.dead) {
        warnings.push(Warning {
            kind: WarningKind::DeadByName,
            name: declared.name,
            at: declared.at,
            detail: Detail::NotDead(dead),
        })?;
    }
    Ok(())
}
