//! What is counted, by classes, states and actions, and by instructions.

use smi_audit::Past;
use smi_interp::Place;
use sml_domain::{Class, Domain, Instr, ObjId, State};
use std::alloc::{AllocError, Global};

/// How often an instruction was performed, by what came of it. What its kind does not have stays 0.
#[derive(Clone, Copy, Default)]
pub(crate) struct Tally {
    /// How often the condition of an `if` was true.
    pub yes: u64,
    /// How often it was false.
    pub no: u64,
    /// How many requests a `do` has sent, with those that were refused.
    pub sent: u64,
    /// How many of them were refused since a mailbox was full.
    pub full: u64,
    /// How many were refused since their object was killed.
    pub dead: u64,
    /// How often the set of a `do` had no members.
    pub empty: u64,
    /// How often a `wait` has read its objects.
    pub seen: u64,
}

/// How often a state was entered, and what was started in it.
#[derive(Drop)]
pub(crate) struct StateCounts {
    pub entered: u64,
    /// By its actions, in the order of the text.
    pub started: Vec<u64>,
    /// How many requests of actions were started in it that it does not declare.
    pub skipped: u64,
}

/// The counts of a class.
#[derive(Drop)]
pub(crate) struct ClassCounts {
    /// Whether an object is of the class.
    pub has_objects: bool,
    /// By its states, in their order.
    pub states: Vec<StateCounts>,
}

/// How often journals of one domain have exercised each of its states, actions and instructions.
///
/// It is of the size of the domain, however many entries are counted. A count that would pass 64 bits stays there.
#[derive(Drop)]
pub struct Coverage {
    // The class of each object. (A journal may be of the domain that begins as an outset says, in which each object has
    // a class of its own, with the states and actions of this one.)
    class_of: Vec<usize>,
    classes: Vec<ClassCounts>,
    // By blocks and the places in them.
    blocks: Vec<Vec<Tally>>,
}

// Nothing is counted of a state.
fn uncounted_state(alloc: Global, state: &State) -> Result<StateCounts, AllocError> {
    let mut started = Vec::new(alloc);
    for _ in 0..state.actions.rows().len() {
        started.push(0)?;
    }
    Ok(StateCounts {
        entered: 0,
        started,
        skipped: 0,
    })
}

// Nothing is counted of a class.
fn uncounted_class(alloc: Global, class: &Class) -> Result<ClassCounts, AllocError> {
    let mut states = Vec::new(alloc);
    for state in class.states.rows() {
        states.push(uncounted_state(alloc, state)?)?;
    }
    Ok(ClassCounts {
        has_objects: false,
        states,
    })
}

// The class of each object.
fn classes_of(alloc: Global, domain: &Domain) -> Result<Vec<usize>, AllocError> {
    let mut classes = Vec::new(alloc);
    for o in 0..domain.objects() {
        classes.push(domain.class_of(ObjId::new(o)).get())?;
    }
    Ok(classes)
}

// Nothing is counted of any class.
fn uncounted_classes(
    alloc: Global,
    domain: &Domain,
    class_of: &[usize],
) -> Result<Vec<ClassCounts>, AllocError> {
    let mut classes = Vec::new(alloc);
    for class in domain.classes() {
        classes.push(uncounted_class(alloc, class)?)?;
    }
    for number in class_of {
        if let Some(class) = classes.get_mut(*number) {
            class.has_objects = true;
        }
    }
    Ok(classes)
}

// Nothing is counted of a block.
fn uncounted_block(alloc: Global, block: &[Instr]) -> Result<Vec<Tally>, AllocError> {
    let mut tallies = Vec::new(alloc);
    for _ in block {
        tallies.push(Tally::default())?;
    }
    Ok(tallies)
}

// Nothing is counted of any block.
fn uncounted_blocks(alloc: Global, domain: &Domain) -> Result<Vec<Vec<Tally>>, AllocError> {
    let mut blocks = Vec::new(alloc);
    for block in domain.blocks() {
        blocks.push(uncounted_block(alloc, block)?)?;
    }
    Ok(blocks)
}

impl Coverage {
    /// Nothing is counted. The cost is the size of the domain.
    pub fn new(alloc: Global, domain: &Domain) -> Result<Coverage, AllocError> {
        let class_of = classes_of(alloc, domain)?;
        let classes = uncounted_classes(alloc, domain, &class_of)?;
        let blocks = uncounted_blocks(alloc, domain)?;
        Ok(Coverage {
            class_of,
            classes,
            blocks,
        })
    }

    // The counts of the class with a number.
    pub(crate) fn class(&self, class: usize) -> Option<&ClassCounts> {
        self.classes.get(class)
    }

    // How often the instruction at a place was performed.
    pub(crate) fn tally(&self, place: Place) -> Tally {
        match self.blocks.get(place.block.get()) {
            Some(block) => match block.get(place.index) {
                Some(tally) => *tally,
                None => Tally::default(),
            },
            None => Tally::default(),
        }
    }

    // The counts of the state of an object that has this place in its class.
    pub(crate) fn state_of(&mut self, o: ObjId, state: usize) -> Option<&mut StateCounts> {
        let number = *self.class_of.get(o.get())?;
        let class = self.classes.get_mut(number)?;
        class.states.get_mut(state)
    }

    // The tally of the instruction by which the open action of an object goes on.
    pub(crate) fn tally_of(&mut self, past: &Past, o: ObjId) -> Option<&mut Tally> {
        if !past.books().domain().has(o) {
            return None;
        }
        let place = past.place(o)?;
        let block = self.blocks.get_mut(place.block.get())?;
        block.get_mut(place.index)
    }
}
