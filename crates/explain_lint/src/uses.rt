//! What the instructions of a domain use, and warnings on what nothing uses.

use crate::bits::Bits;
use crate::kind::WarningKind;
use crate::survey::Survey;
use crate::warning::{Detail, Warning};
use sml_domain::{ActionId, Class, Cond, Instr, ObjId, SetId, State, Subject, Target};
use std::alloc::{AllocError, Global};

/// What instructions use.
#[derive(Drop)]
pub(crate) struct Uses {
    // Objects to which something is sent, which are asked, or are put into a set.
    objects: Bits,
    sets: Bits,
    // Of each action, by its number, the classes to whose objects it is sent.
    sent: Vec<Bits>,
    // Of each set, the objects that are taken out of it.
    removed: Vec<Bits>,
}

impl Uses {
    /// What all instructions of a domain use. The time grows with their count. The error is out of memory.
    pub(crate) fn of(alloc: Global, survey: &Survey<'_>) -> Result<Uses, AllocError> {
        let mut uses = Uses {
            objects: Bits::NONE,
            sets: Bits::NONE,
            sent: Vec::new(alloc),
            removed: Vec::new(alloc),
        };
        for _ in survey.domain.groups() {
            uses.removed.push(Bits::NONE)?;
        }
        for block in survey.domain.blocks() {
            for instr in block {
                uses.note(survey, instr)?;
            }
        }
        Ok(uses)
    }

    // Notes what an instruction uses.
    fn note(&mut self, survey: &Survey<'_>, instr: &Instr) -> Result<(), AllocError> {
        match instr {
            Instr::Send { target, action, .. } => {
                let classes = self.note_target(survey, *target);
                self.note_sent(action.get(), classes)?;
            }
            Instr::SendNone { set } => self.note_set(survey, *set),
            Instr::If { cond, .. } => self.note_condition(survey, cond),
            Instr::Wait(subjects) => {
                for subject in subjects {
                    self.note_subject(survey, *subject);
                }
            }
            Instr::Insert { member, set } => {
                self.objects = self.objects.with(member.get());
                self.note_set(survey, *set);
            }
            Instr::Remove { member, set } => {
                self.note_set(survey, *set);
                if let Some(removed) = self.removed.get_mut(set.get()) {
                    *removed = removed.with(member.get());
                }
            }
            Instr::Set { .. } | Instr::MoveTo(_) | Instr::Terminate(_) => {}
        }
        Ok(())
    }

    // Notes to whom something is sent, and returns their classes.
    fn note_target(&mut self, survey: &Survey<'_>, target: Target) -> Bits {
        match target {
            Target::One(o) => {
                self.objects = self.objects.with(o.get());
                survey.class_of(o)
            }
            Target::Members(set) => {
                self.note_set(survey, set);
                survey.classes_of(survey.domain.may_have(set))
            }
        }
    }

    // Notes an action that is sent to objects of classes.
    fn note_sent(&mut self, action: usize, classes: Bits) -> Result<(), AllocError> {
        for _ in self.sent.len()..action.saturating_add(1) {
            self.sent.push(Bits::NONE)?;
        }
        if let Some(sent) = self.sent.get_mut(action) {
            *sent = sent.and(classes);
        }
        Ok(())
    }

    // Notes whom a condition asks.
    fn note_condition(&mut self, survey: &Survey<'_>, cond: &Cond) {
        match cond {
            Cond::And(left, right) | Cond::Or(left, right) => {
                self.note_condition(survey, left);
                self.note_condition(survey, right);
            }
            Cond::Not(other) => self.note_condition(survey, other),
            Cond::Test { asked, .. } => self.note_subject(survey, *asked),
        }
    }

    // Notes who is asked.
    fn note_subject(&mut self, survey: &Survey<'_>, subject: Subject) {
        match subject {
            Subject::One(o) => self.objects = self.objects.with(o.get()),
            Subject::Each(set) | Subject::Any(set) => self.note_set(survey, set),
        }
    }

    // Notes a set, and all that it may come to have.
    fn note_set(&mut self, survey: &Survey<'_>, set: SetId) {
        self.sets = self.sets.with(set.get());
        self.objects = self.objects.and(survey.may_have(set));
    }

    /// Of each set, the classes of those that are always its members: they are declared, and nothing takes them out.
    pub(crate) fn sure_members(
        &self,
        alloc: Global,
        survey: &Survey<'_>,
    ) -> Result<Vec<Bits>, AllocError> {
        let mut list = Vec::new(alloc);
        for (set, removed) in self.removed.iter().enumerate() {
            let mut classes = Bits::NONE;
            for o in survey.domain.members(SetId::new(set)) {
                if !removed.has(o.get()) {
                    classes = classes.and(survey.class_of(*o));
                }
            }
            list.push(classes)?;
        }
        Ok(list)
    }

    // Whether an action is sent to objects of a class.
    fn is_sent(&self, action: usize, class: usize) -> bool {
        match self.sent.get(action) {
            Some(classes) => classes.has(class),
            None => false,
        }
    }
}

/// Adds the warnings on classes without objects, on sets, and on the objects and actions of devices, if objects without
/// a device are there: where there are none, operators alone use devices.
pub(crate) fn warn_of_unused(
    alloc: Global,
    survey: &Survey<'_>,
    uses: &Uses,
    warnings: &mut Vec<Warning>,
) -> Result<(), AllocError> {
    warn_of_sets(survey, uses, warnings)?;
    let has_commanders = has_commanders(survey);
    for (place, class) in survey.domain.classes().iter().enumerate() {
        if !survey.has_objects.has(place) {
            warn_of_idle_class(survey, place, class, warnings)?;
        } else if class.associated && has_commanders {
            warn_of_actions(alloc, survey, uses, place, warnings)?;
        }
    }
    if has_commanders {
        warn_of_devices(survey, uses, warnings)?;
    }
    Ok(())
}

// Whether an object has no device.
fn has_commanders(survey: &Survey<'_>) -> bool {
    let domain = survey.domain;
    (0..domain.objects()).any(|o| !domain.associated(ObjId::new(o)))
}

// Adds the warning on a class without objects.
fn warn_of_idle_class(
    survey: &Survey<'_>,
    place: usize,
    class: &Class,
    warnings: &mut Vec<Warning>,
) -> Result<(), AllocError> {
    if let Some(marks) = survey.marks.classes.get(place) {
        warnings.push(Warning {
            kind: WarningKind::Unused,
            name: class.name,
            at: marks.at,
            detail: Detail::Class,
        })?;
    }
    Ok(())
}

// Adds the warnings on sets that nothing names, and on those that are named and never have a member.
fn warn_of_sets(
    survey: &Survey<'_>,
    uses: &Uses,
    warnings: &mut Vec<Warning>,
) -> Result<(), AllocError> {
    for (set, group) in survey.domain.groups().iter().enumerate() {
        let (kind, detail) = if !uses.sets.has(set) {
            (WarningKind::Unused, Detail::Set)
        } else if survey.domain.may_have(SetId::new(set)).is_empty() {
            (WarningKind::Never, Detail::EmptySet)
        } else {
            continue;
        };
        if let Some(at) = survey.marks.sets.get(set) {
            warnings.push(Warning {
                kind,
                name: group.name,
                at: *at,
                detail,
            })?;
        }
    }
    Ok(())
}

// Adds the warnings on objects with devices to which nothing is sent, and which nobody asks.
fn warn_of_devices(
    survey: &Survey<'_>,
    uses: &Uses,
    warnings: &mut Vec<Warning>,
) -> Result<(), AllocError> {
    for o in 0..survey.domain.objects() {
        if uses.objects.has(o) || !survey.domain.associated(ObjId::new(o)) {
            continue;
        }
        if let (Some(name), Some(at)) = (
            survey.domain.object_name(ObjId::new(o)),
            survey.marks.objects.get(o),
        ) {
            warnings.push(Warning {
                kind: WarningKind::Unused,
                name,
                at: *at,
                detail: Detail::Object,
            })?;
        }
    }
    Ok(())
}

// Whether an action of a class of devices is a report: without parameters, and declared by each of the declared states,
// of two or more. The cost is a look-up by hash for each state up to the first that does not declare it.
fn is_report(class: &Class, declared: &[State], action: ActionId) -> bool {
    let is_bare = match class.signatures.get(action.get()) {
        Some(signature) => signature.params.is_empty(),
        None => false,
    };
    is_bare
        && declared.len() > 1
        && declared
            .iter()
            .all(|state| state.actions.get(action.get()).is_some())
}

// Adds the warnings on the actions of a class of devices that no object sends, but for its reports, if one of its
// objects is used.
fn warn_of_actions(
    alloc: Global,
    survey: &Survey<'_>,
    uses: &Uses,
    place: usize,
    warnings: &mut Vec<Warning>,
) -> Result<(), AllocError> {
    let domain = survey.domain;
    let is_used = (0..domain.objects()).any(|o| {
        uses.objects.has(o) && survey.class_of(ObjId::new(o)).has(place)
    });
    let (true, Some(class)) = (is_used, survey.class(place)) else {
        return Ok(());
    };
    let declared = survey.declared(place);
    let mut judged = Vec::new(alloc);
    for (state, row) in class.states.rows().iter().enumerate() {
        for (action, item) in row.actions.rows().iter().enumerate() {
            if uses.is_sent(item.number.get(), place) || judged.contains(&item.number) {
                continue;
            }
            judged.push(item.number)?;
            if let (false, Some(name), Some(marks)) = (
                is_report(class, declared, item.number),
                domain.action_name(item.number),
                survey.marks.action(place, state, action),
            ) {
                warnings.push(Warning {
                    kind: WarningKind::Unused,
                    name,
                    at: marks.at,
                    detail: Detail::OfClass(class.name),
                })?;
            }
        }
    }
    Ok(())
}
