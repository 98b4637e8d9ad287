//! Warnings on instructions: those to which no action comes, and those that end in the dead state.

use crate::kind::WarningKind;
use crate::survey::Survey;
use crate::warning::{Detail, Warning};
use sml_domain::{Instr, StateId};
use std::alloc::AllocError;

/// Adds the warnings on instructions to which no action comes: of each block that an action begins, the first one.
pub(crate) fn warn_of_unreached(
    survey: &Survey<'_>,
    warnings: &mut Vec<Warning>,
) -> Result<(), AllocError> {
    for found in &survey.unreached {
        let block = found.block.get();
        let (Some(at), Some(ended), Some(site)) = (
            survey.place(block, found.place),
            survey.place(block, found.place.saturating_sub(1)),
            survey.sites.get(block),
        ) else {
            continue;
        };
        let Some(name) = survey
            .action(site.owner)
            .and_then(|action| survey.domain.action_name(action.number))
        else {
            continue;
        };
        warnings.push(Warning {
            kind: WarningKind::Unreached,
            name,
            at,
            detail: Detail::EndedAt(ended),
        })?;
    }
    Ok(())
}

/// Adds the warnings on instructions of a block that end in the dead state of their class, which does not kill.
pub(crate) fn warn_of_endings(
    survey: &Survey<'_>,
    block: usize,
    warnings: &mut Vec<Warning>,
) -> Result<(), AllocError> {
    let (Some(instrs), Some(site)) = (survey.domain.blocks().get(block), survey.sites.get(block))
    else {
        return Ok(());
    };
    let Some(class) = survey.class(site.owner.class) else {
        return Ok(());
    };
    for (place, instr) in instrs.iter().enumerate() {
        let is_told = survey.is_reached(block, place) && end_of(instr) == Some(class.dead);
        if let (true, Some(name), Some(at)) = (
            is_told,
            survey.domain.state_name(class.dead),
            survey.place(block, place),
        ) {
            warnings.push(Warning {
                kind: WarningKind::DeadByName,
                name,
                at,
                detail: Detail::EndsDead(class.name),
            })?;
        }
    }
    Ok(())
}

// The state in which an instruction ends its action, if it does.
fn end_of(instr: &Instr) -> Option<StateId> {
    match instr {
        Instr::MoveTo(state) | Instr::Terminate(state) => Some(*state),
        _ => None,
    }
}
