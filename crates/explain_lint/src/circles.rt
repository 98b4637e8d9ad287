//! Warnings on actions that send to one another in a circle, and on objects that ask one another in a circle.

use crate::bits::Bits;
use crate::graph::{Arrow, circles_of};
use crate::kind::WarningKind;
use crate::survey::Survey;
use crate::warning::{Detail, Warning};
use sml_domain::{ActionId, ClassId, Cond, Instr, ObjId, Target};
use std::alloc::{AllocError, Global};

// The actions of all classes, numbered: of each class, the number of the first action of its list.
#[derive(Drop)]
struct Actions {
    begins: Vec<usize>,
    count: usize,
}

impl Actions {
    // The actions of a domain.
    fn of(alloc: Global, survey: &Survey<'_>) -> Result<Actions, AllocError> {
        let mut begins = Vec::new(alloc);
        let mut count: usize = 0;
        for class in survey.domain.classes() {
            begins.push(count)?;
            count = count.saturating_add(class.signatures.rows().len());
        }
        Ok(Actions { begins, count })
    }

    // The number of an action of a class, if the class declares it.
    fn number(&self, survey: &Survey<'_>, class: usize, action: ActionId) -> Option<usize> {
        let rows = survey.class(class)?.signatures.rows();
        let list = rows.iter().position(|row| row.action == action)?;
        Some(self.begins.get(class)?.saturating_add(list))
    }

    // The action of a number, and its class.
    fn action(&self, survey: &Survey<'_>, number: usize) -> Option<(ClassId, ActionId)> {
        let class = self.begins.partition_point(|begin| *begin <= number);
        let class = class.checked_sub(1)?;
        let list = number.checked_sub(*self.begins.get(class)?)?;
        let row = survey.class(class)?.signatures.rows().get(list)?;
        Some((ClassId::new(class), row.action))
    }
}

/// Adds the warnings on actions that send to one another in a circle: one for each largest group of which each leads to
/// each other, at the first action that it has in the text.
pub(crate) fn warn_of_circles(
    alloc: Global,
    survey: &Survey<'_>,
    warnings: &mut Vec<Warning>,
) -> Result<(), AllocError> {
    let actions = Actions::of(alloc, survey)?;
    let mut arrows = Vec::new(alloc);
    for block in 0..survey.sites.len() {
        add_sends(survey, &actions, block, &mut arrows)?;
    }
    arrows.sort_unstable();
    for circle in &circles_of(alloc, actions.count, &arrows)? {
        warn_of_circle(alloc, survey, &actions, circle, warnings)?;
    }
    Ok(())
}

// Adds an arrow for each class of objects to which a block sends an action.
fn add_sends(
    survey: &Survey<'_>,
    actions: &Actions,
    block: usize,
    arrows: &mut Vec<Arrow>,
) -> Result<(), AllocError> {
    let (Some(site), Some(instrs)) = (survey.sites.get(block), survey.domain.blocks().get(block))
    else {
        return Ok(());
    };
    let Some(from) = survey.action(site.owner).and_then(|action| actions.number(
        survey,
        site.owner.class,
        action.number,
    ))
    else {
        return Ok(());
    };
    for (place, instr) in instrs.iter().enumerate() {
        if let (true, Instr::Send { target, action, .. }) = (
            survey.is_reached(block, place),
            instr,
        ) {
            add_arrows(survey, actions, from, *target, *action, arrows)?;
        }
    }
    Ok(())
}

// Adds the arrows of one `do`.
fn add_arrows(
    survey: &Survey<'_>,
    actions: &Actions,
    from: usize,
    target: Target,
    action: ActionId,
    arrows: &mut Vec<Arrow>,
) -> Result<(), AllocError> {
    let classes = match target {
        Target::One(o) => survey.class_of(o),
        Target::Members(set) => survey.classes_of(survey.domain.may_have(set)),
    };
    for class in 0..survey.domain.classes().len() {
        if let (true, Some(to)) = (classes.has(class), actions.number(survey, class, action)) {
            arrows.push((from, to))?;
        }
    }
    Ok(())
}

// Adds the warning on one circle of actions.
fn warn_of_circle(
    alloc: Global,
    survey: &Survey<'_>,
    actions: &Actions,
    circle: &[usize],
    warnings: &mut Vec<Warning>,
) -> Result<(), AllocError> {
    let mut members = Vec::new(alloc);
    for number in circle {
        if let Some(member) = actions.action(survey, *number) {
            members.push(member)?;
        }
    }
    let Some((class, action)) = members.first().copied() else {
        return Ok(());
    };
    if let (Some(name), Some(at)) = (
        survey.domain.action_name(action),
        first_place(survey, class.get(), action),
    ) {
        warnings.push(Warning {
            kind: WarningKind::Circle,
            name,
            at,
            detail: Detail::Actions(members),
        })?;
    }
    Ok(())
}

// Where a class first declares an action.
fn first_place(survey: &Survey<'_>, place: usize, action: ActionId) -> Option<usize> {
    for (state, row) in survey.class(place)?.states.rows().iter().enumerate() {
        let found = row
            .actions
            .rows()
            .iter()
            .position(|item| item.number == action);
        if let Some(item) = found {
            return Some(survey.marks.action(place, state, item)?.at);
        }
    }
    None
}

/// Adds the warnings on objects whose `if`s and `wait`s ask one another in a circle, at the first object of each. The
/// actions of a class are those of all its objects, so that it is enough to know which classes ask which objects.
pub(crate) fn warn_of_wait_circles(
    alloc: Global,
    survey: &Survey<'_>,
    warnings: &mut Vec<Warning>,
) -> Result<(), AllocError> {
    let asked = asked_by_classes(alloc, survey)?;
    let mut arrows = Vec::new(alloc);
    for (class, objects) in asked.iter().enumerate() {
        for o in 0..survey.domain.objects() {
            if survey.has_objects.has(class) && objects.has(o) {
                arrows.push((class, survey.domain.class_of(ObjId::new(o)).get()))?;
            }
        }
    }
    arrows.sort_unstable();
    for circle in &circles_of(alloc, asked.len(), &arrows)? {
        warn_of_wait_circle(alloc, survey, &asked, circle, warnings)?;
    }
    Ok(())
}

// Of each class, the objects that its actions ask.
fn asked_by_classes(alloc: Global, survey: &Survey<'_>) -> Result<Vec<Bits>, AllocError> {
    let mut list = Vec::new(alloc);
    for _ in survey.domain.classes() {
        list.push(Bits::NONE)?;
    }
    for (block, site) in survey.sites.iter().enumerate() {
        let asked = asked_in(survey, block);
        if let Some(objects) = list.get_mut(site.owner.class) {
            *objects = objects.and(asked);
        }
    }
    Ok(list)
}

// The objects that a block asks.
fn asked_in(survey: &Survey<'_>, block: usize) -> Bits {
    let mut objects = Bits::NONE;
    let Some(instrs) = survey.domain.blocks().get(block) else {
        return objects;
    };
    for (place, instr) in instrs.iter().enumerate() {
        if !survey.is_reached(block, place) {
            break;
        }
        match instr {
            Instr::If { cond, .. } => objects = objects.and(asked_by(survey, cond)),
            Instr::Wait(subjects) => {
                for subject in subjects {
                    objects = objects.and(survey.asked(*subject));
                }
            }
            _ => {}
        }
    }
    objects
}

// The objects that a condition asks.
fn asked_by(survey: &Survey<'_>, cond: &Cond) -> Bits {
    match cond {
        Cond::And(left, right) | Cond::Or(left, right) => {
            asked_by(survey, left).and(asked_by(survey, right))
        }
        Cond::Not(other) => asked_by(survey, other),
        Cond::Test { asked, .. } => survey.asked(*asked),
    }
}

// Adds the warning on the objects of a circle of classes that are asked within it.
fn warn_of_wait_circle(
    alloc: Global,
    survey: &Survey<'_>,
    asked: &[Bits],
    circle: &[usize],
    warnings: &mut Vec<Warning>,
) -> Result<(), AllocError> {
    let mut within = Bits::NONE;
    for class in circle {
        if let Some(objects) = asked.get(*class) {
            within = within.and(*objects);
        }
    }
    let mut members = Vec::new(alloc);
    for o in 0..survey.domain.objects() {
        let class = survey.domain.class_of(ObjId::new(o)).get();
        if within.has(o) && circle.contains(&class) {
            members.push(ObjId::new(o))?;
        }
    }
    let Some(first) = members.first().copied() else {
        return Ok(());
    };
    if let (Some(name), Some(at)) = (
        survey.domain.object_name(first),
        survey.marks.objects.get(first.get()),
    ) {
        warnings.push(Warning {
            kind: WarningKind::WaitCircle,
            name,
            at: *at,
            detail: Detail::Objects(members),
        })?;
    }
    Ok(())
}
