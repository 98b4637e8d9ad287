//! What is known of a domain before it is judged.
ghost use Rattle.std.specs.Prelude.{◌≡◌, length};
ghost use Rattle.smi_reach.specs.Ways.{AreWays};

use crate::bits::Bits;
use crate::sites::{Owner, Site, sites_of};
use explain_landmarks::{Landmarks, landmarks_of};
use smi_reach::{Reach, Unreached, Way, reach_of, unentered_of, unreached_of, ways_of};
use sml_domain::{Action, BlockId, Class, ClassId, Domain, ObjId, SetId, State, StateId, Subject};
use std::alloc::{AllocError, Global};

/// A domain and its text, with what warnings are found by.
#[derive(Drop)]
pub(crate) struct Survey<'a> {
    pub domain: &'a Domain,
    pub text: &'a [u8],
    pub marks: Landmarks,
    pub sites: Vec<Site>,
    pub reach: Reach,
    /// The first instructions to which no action comes.
    pub unreached: Vec<Unreached>,
    /// Of each class, the places of the states in which no object is ever.
    pub unentered: Vec<Bits>,
    /// Of each class, whether it has an object.
    pub has_objects: Bits,
}

impl<'a> Survey<'a> {
    /// The class of a number, or None if no class has it.
    pub(crate) fn class(&self, class: usize) -> Option<&Class> {
        self.domain.classes().get(class)
    }

    /// The states of a class that its text declares: all but an added dead one, which is the last.
    pub(crate) fn declared(&self, class: usize) -> &[State] {
        let (Some(row), Some(marks)) = (self.class(class), self.marks.classes.get(class)) else {
            return &[];
        };
        let states = row.states.rows();
        states.split_at(marks.states.len().min(states.len())).0
    }

    /// The action whose block it is.
    pub(crate) fn action(&self, owner: Owner) -> Option<&Action> {
        let class = self.class(owner.class)?;
        let row = class.states.rows().get(owner.state)?;
        row.actions.rows().get(owner.action)
    }

    /// Whether an action comes to an instruction.
    pub(crate) fn is_reached(&self, block: usize, place: usize) -> bool {
        block < self.reach.begun.len()
            && block < self.reach.passed.len()
            && self.reach.reaches(BlockId::new(block), place)
    }

    /// Where an instruction stands in the text.
    pub(crate) fn place(&self, block: usize, place: usize) -> Option<usize> {
        Some(*self.sites.get(block)?.instructions.get(place)?)
    }

    /// The places of the states in which an object of a class may be, that of one that was killed among them.
    pub(crate) fn possible(&self, class: usize) -> Bits {
        let mut possible = Bits::NONE;
        if let (Some(row), Some(unentered)) = (self.class(class), self.unentered.get(class)) {
            for place in 0..row.states.rows().len() {
                possible = possible.with(place);
            }
            possible = possible.without(*unentered);
        }
        possible
    }

    /// The classes of objects.
    pub(crate) fn classes_of(&self, objects: &[ObjId]) -> Bits {
        let mut classes = Bits::NONE;
        for o in objects {
            classes = classes.and(self.class_of(*o));
        }
        classes
    }

    /// The class of an object.
    pub(crate) fn class_of(&self, o: ObjId) -> Bits {
        if self.domain.has(o) {
            Bits::one(self.domain.class_of(o).get())
        } else {
            Bits::NONE
        }
    }

    /// The objects that are asked, where sets have all that they may come to have.
    pub(crate) fn asked(&self, subject: Subject) -> Bits {
        match subject {
            Subject::One(o) => Bits::one(o.get()),
            Subject::Each(set) | Subject::Any(set) => self.may_have(set),
        }
    }

    /// The objects that a set may come to have.
    pub(crate) fn may_have(&self, set: SetId) -> Bits {
        let mut objects = Bits::NONE;
        for o in self.domain.may_have(set) {
            objects = objects.with(o.get());
        }
        objects
    }
}

/// The places in a class of those of its states that are among these.
pub(crate) fn places_of(class: &Class, states: &[StateId]) -> Bits {
    let mut places = Bits::NONE;
    for (place, row) in class.states.rows().iter().enumerate() {
        if states.contains(&row.number) {
            places = places.with(place);
        }
    }
    places
}

// Of each class, the places of the states in which no object is ever.
fn unentered_places(alloc: Global, domain: &Domain, ways: &[Way]) -> Result<Vec<Bits>, AllocError>
    requires known { AreWays domain.now ways.now }
    requires count { length ways.now ≡ length domain.now.blocks }
{
    let mut list = Vec::new(alloc);
    let classes = domain.classes();
    for number in 0..classes.len() {
        let states = unentered_of(alloc, domain, ways, ClassId::new(number))?;
        list.push(places_of(&classes[number], &states))?;
    }
    Ok(list)
}

// Of which classes there are objects.
fn classes_with_objects(domain: &Domain) -> Bits {
    let mut classes = Bits::NONE;
    for o in 0..domain.objects() {
        classes = classes.with(domain.class_of(ObjId::new(o)).get());
    }
    classes
}

/// Surveys a domain by its text. The time and the memory grow with the length of the text. The error is out of memory.
pub(crate) fn survey_of<'a>(
    alloc: Global,
    domain: &'a Domain,
    text: &'a [u8],
) -> Result<Survey<'a>, AllocError> {
    let ways = ways_of(alloc, domain)?;
    let reach = reach_of(alloc, domain, &ways)?;
    let unreached = unreached_of(alloc, domain, &reach)?;
    let unentered = unentered_places(alloc, domain, &ways)?;
    let marks = landmarks_of(alloc, text)?;
    let sites = sites_of(alloc, domain, &marks)?;
    Ok(Survey {
        domain,
        text,
        marks,
        sites,
        reach,
        unreached,
        unentered,
        has_objects: classes_with_objects(domain),
    })
}
