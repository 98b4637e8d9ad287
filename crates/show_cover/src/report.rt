//! The text of what was exercised: what never was in front, and behind it all counts.

use crate::coverage::{ClassCounts, Coverage, StateCounts};
use crate::lines::{
    Thing, tell_if, tell_never, tell_never_at, tell_send, tell_started, tell_state, tell_wait,
};
use crate::spots::Spots;
use crate::walk::InstructionWalk;
use explain_landmarks::{ActionMarks, ClassMarks, Landmarks, StateMarks, landmarks_of};
use explain_places::Position;
use smi_interp::Place;
use sml_domain::{Action, Class, Domain, Instr, State, Target};
use sml_writer::Out;
use std::alloc::{AllocError, Global};

/// The lines of what was exercised. (docs/FORMATS.md, "What was exercised".)
#[derive(Drop)]
pub struct CoverText {
    /// A line for each thing that never was.
    pub never: Vec<u8>,
    /// The lines of all counts.
    pub counts: Vec<u8>,
}

// What the lines are made of, and the lines.
#[derive(Drop)]
struct Report<'a, 'w> {
    alloc: Global,
    domain: &'a Domain,
    coverage: &'a Coverage,
    spots: Spots<'a>,
    never: Out<'w, Vec<u8>>,
    counts: Out<'w, Vec<u8>>,
}

/// The lines of a coverage of a domain, of which this is the text. Classes without objects have no lines.
///
/// The cost is the length of the text, and that of the lines. The error is out of memory.
pub fn cover_text(
    alloc: Global,
    domain: &Domain,
    text: &[u8],
    coverage: &Coverage,
) -> Result<CoverText, AllocError> {
    let marks = landmarks_of(alloc, text)?;
    let mut never = Vec::new(alloc);
    let mut counts = Vec::new(alloc);
    let mut report = Report {
        alloc,
        domain,
        coverage,
        spots: Spots::new(text),
        never: Out::new(&mut never),
        counts: Out::new(&mut counts),
    };
    report.tell_classes(&marks)?;
    if report.never.failed || report.counts.failed {
        Err(AllocError)
    } else {
        Ok(CoverText { never, counts })
    }
}

impl<'a> Report<'a, '_> {
    // All classes that have objects.
    fn tell_classes(&mut self, marks: &Landmarks) -> Result<(), AllocError> {
        let domain = self.domain;
        let coverage = self.coverage;
        for (number, class) in domain.classes().iter().enumerate() {
            if let Some(counts) = coverage.class(number) {
                if counts.has_objects {
                    self.tell_class(class, counts, marks.classes.get(number))?;
                }
            }
        }
        Ok(())
    }

    // The states of a class.
    fn tell_class(
        &mut self,
        class: &'a Class,
        counts: &ClassCounts,
        marks: Option<&ClassMarks>,
    ) -> Result<(), AllocError> {
        for (place, state) in class.states.rows().iter().enumerate() {
            if let Some(counts) = counts.states.get(place) {
                // An added dead state has no place in the text, and no actions.
                let marks = match marks {
                    Some(marks) => marks.states.get(place),
                    None => None,
                };
                self.tell_state(class, state, counts, marks)?;
            }
        }
        Ok(())
    }

    // A state, with its actions. Objects begin in the initial state, so that it is never one that was not exercised.
    fn tell_state(
        &mut self,
        class: &'a Class,
        state: &State,
        counts: &StateCounts,
        marks: Option<&StateMarks>,
    ) -> Result<(), AllocError> {
        let begins = state.number.get() == class.initial.get();
        let thing = Thing {
            domain: self.domain,
            class,
            state: state.number,
            action: None,
        };
        self.note_never(counts.entered == 0 && !begins, b"never entered", &thing);
        tell_state(&mut self.counts, &thing, counts);
        self.tell_actions(&thing, state.actions.rows(), counts, marks)
    }

    // The actions of a state.
    fn tell_actions(
        &mut self,
        of_state: &Thing<'_>,
        actions: &[Action],
        counts: &StateCounts,
        marks: Option<&StateMarks>,
    ) -> Result<(), AllocError> {
        for (place, action) in actions.iter().enumerate() {
            let thing = Thing {
                action: Some(action.number),
                ..*of_state
            };
            let started = counts.started.get(place).copied().unwrap_or(0);
            let marks = match marks {
                Some(marks) => marks.actions.get(place),
                None => None,
            };
            self.tell_action(&thing, action, started, marks)?;
        }
        Ok(())
    }

    // A line of what never was, where that is so.
    fn note_never(&mut self, is_so: bool, word: &[u8], thing: &Thing<'_>) {
        if is_so {
            tell_never(&mut self.never, word, thing);
        }
    }

    // The same of an instruction.
    fn note_never_at(&mut self, is_so: bool, word: &[u8], thing: &Thing<'_>, spot: Position) {
        if is_so {
            tell_never_at(&mut self.never, word, thing, spot);
        }
    }

    // An action, with its instructions.
    fn tell_action(
        &mut self,
        thing: &Thing<'_>,
        action: &Action,
        started: u64,
        marks: Option<&ActionMarks>,
    ) -> Result<(), AllocError> {
        self.note_never(started == 0, b"never started", thing);
        tell_started(&mut self.counts, thing, started);
        let Some(marks) = marks else {
            return Ok(());
        };
        let domain = self.domain;
        let mut walk = InstructionWalk::new(self.alloc, domain, action.block)?;
        for offset in &marks.instructions {
            if let Some(place) = walk.next(domain)? {
                let spot = self.spots.place_of(*offset);
                self.tell_instruction(thing, place, spot);
            }
        }
        Ok(())
    }

    // An instruction, if its kind is counted.
    fn tell_instruction(&mut self, thing: &Thing<'_>, place: Place, spot: Position) {
        match self.domain.instruction(place.block, place.index) {
            Some(Instr::If { .. }) => self.tell_if(thing, place, spot),
            Some(Instr::Send { target, .. }) => {
                self.tell_send(thing, place, spot, may_send(self.domain, *target));
            }
            Some(Instr::SendNone { .. }) => self.tell_send(thing, place, spot, false),
            Some(Instr::Wait(_)) => {
                let tally = self.coverage.tally(place);
                tell_wait(&mut self.counts, thing, spot, &tally);
            }
            _ => {}
        }
    }

    // An `if`.
    fn tell_if(&mut self, thing: &Thing<'_>, place: Place, spot: Position) {
        let tally = self.coverage.tally(place);
        self.note_never_at(tally.yes == 0, b"never true", thing, spot);
        self.note_never_at(tally.no == 0, b"never false", thing, spot);
        tell_if(&mut self.counts, thing, spot, &tally);
    }

    // A `do`, which may ever send to someone or not.
    fn tell_send(&mut self, thing: &Thing<'_>, place: Place, spot: Position, may_send: bool) {
        let tally = self.coverage.tally(place);
        self.note_never_at(may_send && tally.sent == 0, b"never sent", thing, spot);
        tell_send(&mut self.counts, thing, spot, &tally);
    }
}

// Whether there is anyone to whom a `do` may send: an object, or one that a set may come to have.
fn may_send(domain: &Domain, target: Target) -> bool {
    match target {
        Target::One(_) => true,
        Target::Members(set) => domain.may_have(set).len() > 0,
    }
}
