//! What the entries of a run left so far.

use smi_journal::{ActionEnd, Entry};
use sml_domain::{Domain, ObjId, StateId};
use std::alloc::{AllocError, Global};

/// The state of each object, and the place of the entry that opened what is open there.
#[derive(Drop)]
pub(crate) struct Walk {
    states: Vec<StateId>,
    opened: Vec<Option<usize>>,
}

impl Walk {
    // Before the first entry.
    pub(crate) fn new(alloc: Global, domain: &Domain) -> Result<Walk, AllocError> {
        let count = domain.objects();
        let mut states = Vec::with_capacity(alloc, count)?;
        let mut opened = Vec::with_capacity(alloc, count)?;
        for o in 0..count {
            states.push(domain.initial(ObjId::new(o)))?;
            opened.push(None)?;
        }
        Ok(Walk { states, opened })
    }

    // The state of an object.
    pub(crate) fn state(&self, o: ObjId) -> Option<StateId> {
        match self.states.get(o.get()) {
            Some(state) => Some(*state),
            None => None,
        }
    }

    // The place of the entry that opened what is open at an object.
    pub(crate) fn opened(&self, o: ObjId) -> Option<usize> {
        match self.opened.get(o.get()) {
            Some(opened) => *opened,
            None => None,
        }
    }

    // Notes what is open at an object now.
    fn open(&mut self, o: ObjId, opened: Option<usize>) {
        if o.get() < self.opened.len() {
            self.opened[o.get()] = opened;
        }
    }

    // Notes the state of an object.
    fn leave(&mut self, o: ObjId, end: ActionEnd) {
        if let ActionEnd::State(state) = end {
            if o.get() < self.states.len() {
                self.states[o.get()] = state;
            }
        }
    }

    // Takes the next entry, which is at this place.
    pub(crate) fn enter(&mut self, entry: &Entry, place: usize) {
        match entry {
            Entry::Start { object, .. } => self.open(*object, Some(place)),
            Entry::End { object, result } => {
                self.open(*object, None);
                self.leave(*object, *result);
            }
            Entry::Kill { object, .. } => self.open(*object, None),
            _ => {}
        }
    }
}
