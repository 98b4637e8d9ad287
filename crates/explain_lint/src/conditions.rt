//! Warnings on the tests of conditions that are always or never true.

use crate::bits::Bits;
use crate::kind::WarningKind;
use crate::survey::{Survey, places_of};
use crate::warning::{Detail, Warning};
use explain_landmarks::Tokens;
use sml_domain::{Cond, Instr, ObjId, SetId, StateId, Subject};
use sml_tree::{Name, TokenKind};
use std::alloc::{AllocError, Global};

// A test of one object, or of sets: whom it asks, the places of the states of a class for which it is true, and how
// many tests stand before it in its condition.
#[derive(Clone, Copy)]
struct Literal {
    chain: usize,
    object: ObjId,
    holds: Bits,
    test: usize,
}

// What was found of a test of a condition.
#[derive(Clone, Copy)]
struct Found {
    test: usize,
    kind: WarningKind,
    subject: Subject,
    with_others: bool,
}

// A walk over the tests of a condition. A chain has the tests that `and` alone joins, or `or` alone; where a `not`
// stands before a bracket, each is the other.
#[derive(Drop)]
struct Walk<'s, 'a> {
    survey: &'s Survey<'a>,
    // Of each set, the classes of those that are always its members.
    surely: &'s [Bits],
    // Of each chain, whether it is one of `and`.
    chains: Vec<bool>,
    literals: Vec<Literal>,
    found: Vec<Found>,
    tests: usize,
}

/// Adds the warnings on the conditions of a block. `surely` has for each set the classes of those that are always its
/// members.
pub(crate) fn warn_of_conditions(
    alloc: Global,
    survey: &Survey<'_>,
    surely: &[Bits],
    block: usize,
    warnings: &mut Vec<Warning>,
) -> Result<(), AllocError> {
    let Some(instrs) = survey.domain.blocks().get(block) else {
        return Ok(());
    };
    for (place, instr) in instrs.iter().enumerate() {
        let (true, Instr::If { cond, .. }) = (survey.is_reached(block, place), instr) else {
            continue;
        };
        if let Some(at) = survey.place(block, place) {
            warn_of_condition(alloc, survey, surely, cond, at, warnings)?;
        }
    }
    Ok(())
}

// Adds the warnings on the condition of an `if` that stands at a byte of the text.
fn warn_of_condition(
    alloc: Global,
    survey: &Survey<'_>,
    surely: &[Bits],
    cond: &Cond,
    at: usize,
    warnings: &mut Vec<Warning>,
) -> Result<(), AllocError> {
    let mut walk = Walk {
        survey,
        surely,
        chains: Vec::new(alloc),
        literals: Vec::new(alloc),
        found: Vec::new(alloc),
        tests: 0,
    };
    walk.go(cond, false, 0)?;
    walk.compare()?;
    if walk.found.is_empty() {
        return Ok(());
    }
    let places = places_of_tests(alloc, survey.text, at, walk.tests)?;
    for found in &walk.found {
        if let (Some(name), Some(at)) = (name_of(survey, found.subject), places.get(found.test)) {
            warnings.push(Warning {
                kind: found.kind,
                name,
                at: *at,
                detail: if found.with_others {
                    Detail::WithOthers
                } else {
                    Detail::OneTest
                },
            })?;
        }
    }
    Ok(())
}

// The name of whom a test asks.
fn name_of(survey: &Survey<'_>, subject: Subject) -> Option<Name> {
    match subject {
        Subject::One(o) => survey.domain.object_name(o),
        Subject::Each(set) | Subject::Any(set) => {
            Some(survey.domain.groups().get(set.get())?.name)
        }
    }
}

// Where the first tests of a condition stand that begins behind a byte of the text: the names of whom they ask.
fn places_of_tests(
    alloc: Global,
    text: &[u8],
    at: usize,
    count: usize,
) -> Result<Vec<usize>, AllocError> {
    let mut places = Vec::new(alloc);
    let rest = text.split_at(at.min(text.len())).1;
    let mut tokens = Tokens::new(rest);
    let mut name = 0;
    for _ in 0..rest.len() {
        let Some(piece) = tokens.take() else {
            return Ok(places);
        };
        match piece.kind {
            TokenKind::Name => name = piece.at,
            TokenKind::InState | TokenKind::NotInState => {
                places.push(at.saturating_add(name))?;
                if places.len() >= count {
                    return Ok(places);
                }
            }
            _ => {}
        }
    }
    Ok(places)
}

impl Walk<'_, '_> {
    // Goes through a condition that belongs to a chain. `is_turned` says whether an odd count of `not`s stands before
    // it.
    fn go(&mut self, cond: &Cond, is_turned: bool, chain: usize) -> Result<(), AllocError> {
        match cond {
            Cond::And(left, right) => {
                let chain = self.chain(!is_turned, chain)?;
                self.go(left, is_turned, chain)?;
                self.go(right, is_turned, chain)
            }
            Cond::Or(left, right) => {
                let chain = self.chain(is_turned, chain)?;
                self.go(left, is_turned, chain)?;
                self.go(right, is_turned, chain)
            }
            Cond::Not(other) => self.go(other, !is_turned, chain),
            Cond::Test {
                asked,
                negated,
                states,
            } => self.pass(*asked, *negated, states, is_turned, chain),
        }
    }

    // The chain of an `and` or an `or` within another chain: that one, if it is of the same kind, or a new one.
    fn chain(&mut self, is_and: bool, chain: usize) -> Result<usize, AllocError> {
        if self.chains.get(chain) == Some(&is_and) {
            return Ok(chain);
        }
        self.chains.push(is_and)?;
        Ok(self.chains.len().saturating_sub(1))
    }

    // Passes a test.
    fn pass(
        &mut self,
        asked: Subject,
        negated: bool,
        states: &[StateId],
        is_turned: bool,
        chain: usize,
    ) -> Result<(), AllocError> {
        let test = self.tests;
        self.tests = self.tests.saturating_add(1);
        let kind = match asked {
            Subject::One(o) => self.kind_of_object(o, negated, states),
            Subject::Each(set) => self.kind_of_each(set, negated, states),
            Subject::Any(set) => self.kind_of_any(set, negated, states),
        };
        if let Some(kind) = kind {
            self.found.push(Found {
                test,
                kind,
                subject: asked,
                with_others: false,
            })?;
            return Ok(());
        }
        if let Subject::One(object) = asked {
            let class = class_number(self.survey, object);
            let holds = self.holds(class, negated != is_turned, states);
            self.literals.push(Literal {
                chain,
                object,
                holds,
                test,
            })?;
        }
        Ok(())
    }

    // The places of the states of a class in which its objects may be and for which a test is true.
    fn holds(&self, class: usize, negated: bool, states: &[StateId]) -> Bits {
        let possible = self.survey.possible(class);
        let among = match self.survey.class(class) {
            Some(row) => places_of(row, states),
            None => Bits::NONE,
        };
        if negated {
            possible.without(among)
        } else {
            possible.common(among)
        }
    }

    // Whether a test of objects of a class is always or never true.
    fn kind_of_class(
        &self,
        class: usize,
        negated: bool,
        states: &[StateId],
    ) -> Option<WarningKind> {
        let holds = self.holds(class, negated, states);
        if holds == Bits::NONE {
            Some(WarningKind::Never)
        } else if holds == self.survey.possible(class) {
            Some(WarningKind::Always)
        } else {
            None
        }
    }

    // Whether a test of an object is.
    fn kind_of_object(&self, o: ObjId, negated: bool, states: &[StateId]) -> Option<WarningKind> {
        self.kind_of_class(class_number(self.survey, o), negated, states)
    }

    // Whether a test of each member of a set is: always if it is for all that the set may come to have, and never if
    // it never is for one that is always a member. Of a set that never has a member something else is told.
    fn kind_of_each(&self, set: SetId, negated: bool, states: &[StateId]) -> Option<WarningKind> {
        let may = self.survey.classes_of(self.survey.domain.may_have(set));
        if may == Bits::NONE {
            return None;
        }
        if self.have_kind(may, WarningKind::Always, negated, states) == may {
            return Some(WarningKind::Always);
        }
        let never = self.have_kind(self.sure(set), WarningKind::Never, negated, states);
        (never != Bits::NONE).then_some(WarningKind::Never)
    }

    // Whether a test of any member of a set is: never if it never is for any that the set may come to have, and always
    // if it is for one that is always a member.
    fn kind_of_any(&self, set: SetId, negated: bool, states: &[StateId]) -> Option<WarningKind> {
        let may = self.survey.classes_of(self.survey.domain.may_have(set));
        if may == Bits::NONE {
            return None;
        }
        if self.have_kind(may, WarningKind::Never, negated, states) == may {
            return Some(WarningKind::Never);
        }
        let always = self.have_kind(self.sure(set), WarningKind::Always, negated, states);
        (always != Bits::NONE).then_some(WarningKind::Always)
    }

    // Those of some classes for whose objects a test is always, or never, true.
    fn have_kind(
        &self,
        classes: Bits,
        kind: WarningKind,
        negated: bool,
        states: &[StateId],
    ) -> Bits {
        let mut found = Bits::NONE;
        for class in 0..self.survey.domain.classes().len() {
            if classes.has(class) && self.kind_of_class(class, negated, states) == Some(kind) {
                found = found.with(class);
            }
        }
        found
    }

    // The classes of those that are always members of a set.
    fn sure(&self, set: SetId) -> Bits {
        match self.surely.get(set.get()) {
            Some(classes) => *classes,
            None => Bits::NONE,
        }
    }

    // Compares the tests of each object in a chain.
    fn compare(&mut self) -> Result<(), AllocError> {
        for last in 0..self.literals.len() {
            let Some(literal) = self.literals.get(last) else {
                return Ok(());
            };
            let literal = *literal;
            let (test, subject) = (literal.test, Subject::One(literal.object));
            if let Some(kind) = self.kind_with_others(literal, last) {
                self.found.push(Found {
                    test,
                    kind,
                    subject,
                    with_others: true,
                })?;
            }
        }
        Ok(())
    }

    // Whether a test makes its chain always or never true, together with those of the same object before it.
    fn kind_with_others(&self, literal: Literal, last: usize) -> Option<WarningKind> {
        let possible = self
            .survey
            .possible(class_number(self.survey, literal.object));
        let (mut each, mut any) = (possible, Bits::NONE);
        for other in self.literals.iter().take(last) {
            if other.chain == literal.chain && other.object == literal.object {
                each = each.common(other.holds);
                any = any.and(other.holds);
            }
        }
        let is_and = self.chains.get(literal.chain) == Some(&true);
        if is_and && each != Bits::NONE && each.common(literal.holds) == Bits::NONE {
            Some(WarningKind::Never)
        } else if !is_and && any != possible && any.and(literal.holds) == possible {
            Some(WarningKind::Always)
        } else {
            None
        }
    }
}

// The number of an object's class.
fn class_number(survey: &Survey<'_>, o: ObjId) -> usize {
    if survey.domain.has(o) {
        survey.domain.class_of(o).get()
    } else {
        0
    }
}
