//! Warnings on parameters that nothing reads.

use crate::bits::Bits;
use crate::declared::has_body;
use crate::kind::WarningKind;
use crate::survey::Survey;
use crate::warning::{Detail, Warning};
use sml_domain::{Class, Instr, Operand, Signature};
use std::alloc::{AllocError, Global};

// Which parameters the instructions of a class read: its own, and those of each action, by the place of its list.
#[derive(Drop)]
struct Read {
    own: Bits,
    given: Vec<Bits>,
}

/// Adds the warnings on the parameters of a class and of its actions that nothing reads. A device reads all of its own.
pub(crate) fn warn_of_parameters(
    alloc: Global,
    survey: &Survey<'_>,
    place: usize,
    warnings: &mut Vec<Warning>,
) -> Result<(), AllocError> {
    let (Some(class), Some(marks)) = (survey.class(place), survey.marks.classes.get(place)) else {
        return Ok(());
    };
    if class.associated || !has_body(survey, class) {
        return Ok(());
    }
    let mut read = Read {
        own: Bits::NONE,
        given: Vec::new(alloc),
    };
    read.note_class(survey, class)?;
    for (number, param) in class.params.iter().enumerate() {
        if let (false, Some(at)) = (read.own.has(number), marks.params.get(number)) {
            warnings.push(Warning {
                kind: WarningKind::NeverRead,
                name: param.name,
                at: *at,
                detail: Detail::OfClass(class.name),
            })?;
        }
    }
    for (list, signature) in class.signatures.rows().iter().enumerate() {
        let given = match read.given.get(list) {
            Some(given) => *given,
            None => Bits::NONE,
        };
        warn_of_given(survey, place, class, signature, given, warnings)?;
    }
    Ok(())
}

// Adds the warnings on the parameters of an action of which only some are read.
fn warn_of_given(
    survey: &Survey<'_>,
    place: usize,
    class: &Class,
    signature: &Signature,
    given: Bits,
    warnings: &mut Vec<Warning>,
) -> Result<(), AllocError> {
    let Some(name) = survey.domain.action_name(signature.action) else {
        return Ok(());
    };
    for (state, row) in class.states.rows().iter().enumerate() {
        let Some(action) = row
            .actions
            .rows()
            .iter()
            .position(|item| item.number == signature.action)
        else {
            continue;
        };
        let Some(marks) = survey.marks.action(place, state, action) else {
            return Ok(());
        };
        // The list is that of the first state which declares the action.
        for (number, param) in signature.params.iter().enumerate() {
            if let (false, Some(at)) = (given.has(number), marks.params.get(number)) {
                warnings.push(Warning {
                    kind: WarningKind::NeverRead,
                    name: param.name,
                    at: *at,
                    detail: Detail::OfAction(name),
                })?;
            }
        }
        return Ok(());
    }
    Ok(())
}

impl Read {
    // Notes what the actions of a class read.
    fn note_class(&mut self, survey: &Survey<'_>, class: &Class) -> Result<(), AllocError> {
        for _ in class.signatures.rows() {
            self.given.push(Bits::NONE)?;
        }
        for (block, site) in survey.sites.iter().enumerate() {
            let (Some(owner), Some(action), Some(instrs)) = (
                survey.class(site.owner.class),
                survey.action(site.owner),
                survey.domain.blocks().get(block),
            ) else {
                continue;
            };
            if owner.name != class.name {
                continue;
            }
            let list = class
                .signatures
                .rows()
                .iter()
                .position(|signature| signature.action == action.number);
            for instr in instrs {
                self.note_instr(instr, list.unwrap_or(0));
            }
        }
        Ok(())
    }

    // Notes what an instruction reads.
    fn note_instr(&mut self, instr: &Instr, list: usize) {
        match instr {
            Instr::Set { value, .. } => self.note(value, list),
            Instr::Send { args, .. } => {
                for arg in args {
                    self.note(&arg.value, list);
                }
            }
            _ => {}
        }
    }

    // Notes what is read.
    fn note(&mut self, operand: &Operand, list: usize) {
        match operand {
            Operand::Own(param) => self.own = self.own.with(param.get()),
            Operand::Given(param) => {
                if let Some(given) = self.given.get_mut(list) {
                    *given = given.with(param.get());
                }
            }
            Operand::Fixed(_) => {}
        }
    }
}
