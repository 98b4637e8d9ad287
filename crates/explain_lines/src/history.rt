//! What the lines of a schedule did so far, as far as refusals rest on it.

use smi_journal::{ActionEnd, Cause, Entry, Verdict};
use smi_world::{Answer, Step, StepError};
use sml_domain::{ActionId, Domain, ObjId};
use std::alloc::{AllocError, Global};

/// The kill of an object.
#[derive(Clone, Copy)]
pub(crate) struct Kill {
    /// The line that killed it.
    pub(crate) line: usize,
    pub(crate) cause: Cause,
}

/// How far an action has come.
#[derive(Clone, Copy, Eq, PartialEq)]
pub(crate) enum Stage {
    Open,
    Ended,
    Skipped,
}

/// The last action of an object.
#[derive(Clone, Copy)]
pub(crate) struct Last {
    pub(crate) action: ActionId,
    pub(crate) stage: Stage,
    /// The line that brought it to this stage.
    pub(crate) line: usize,
}

/// What was done at an object.
#[derive(Clone, Copy)]
pub(crate) struct Past {
    /// How many requests were accepted, of all senders.
    pub(crate) accepted: usize,
    /// How many of them were started.
    pub(crate) started: usize,
    pub(crate) last: Option<Last>,
    pub(crate) killed: Option<Kill>,
}

impl Past {
    /// How many requests wait.
    pub(crate) fn waiting(&self) -> usize {
        self.accepted.saturating_sub(self.started)
    }
}

// What was done at an object where nothing was done.
const NOTHING: Past = Past {
    accepted: 0,
    started: 0,
    last: None,
    killed: None,
};

/// What the lines of a schedule did so far: for each object how many requests were accepted and started, and which
/// lines started its last action and killed it.
#[derive(Drop)]
pub struct History {
    objects: Vec<Past>,
    starts: usize,
}

impl History {
    /// Nothing was done yet. Takes memory for each object of the domain.
    pub fn new(alloc: Global, domain: &Domain) -> Result<History, AllocError> {
        let mut objects = Vec::new(alloc);
        for _ in 0..domain.objects() {
            objects.push(NOTHING)?;
        }
        Ok(History { objects, starts: 0 })
    }

    /// Notes what a line did, by the answer to its step and the entries that the step added to the journal. Lines count
    /// from 1. A refused step does nothing. The cost is the count of the entries, and of a request that of the objects.
    pub fn note(
        &mut self,
        line: usize,
        domain: &Domain,
        step: &Step,
        answer: &Result<Answer, StepError>,
        added: &[Entry],
    ) {
        if let (Ok(Answer::Accepted { .. }), Step::Request { object, .. }) = (answer, step) {
            if let Some(o) = domain.object(object) {
                self.accept(o);
            }
        }
        for entry in added {
            self.add(line, entry);
        }
    }

    // Notes that a request was accepted.
    fn accept(&mut self, o: ObjId) {
        if let Some(past) = self.objects.get_mut(o.get()) {
            past.accepted = past.accepted.saturating_add(1);
        }
    }

    // Notes that an action was started.
    fn start(&mut self, o: ObjId, last: Last) {
        self.starts = self.starts.saturating_add(1);
        if let Some(past) = self.objects.get_mut(o.get()) {
            past.started = past.started.saturating_add(1);
            past.last = Some(last);
        }
    }

    // Notes that the open action was ended.
    fn end(&mut self, o: ObjId, stage: Stage, line: usize) {
        if let Some(past) = self.objects.get_mut(o.get()) {
            if let Some(Last { action, .. }) = past.last {
                past.last = Some(Last {
                    action,
                    stage,
                    line,
                });
            }
        }
    }

    // Notes that an object was killed.
    fn kill(&mut self, o: ObjId, kill: Kill) {
        if let Some(past) = self.objects.get_mut(o.get()) {
            past.killed = Some(kill);
        }
    }

    // Notes an entry of the journal.
    fn add(&mut self, line: usize, entry: &Entry) {
        match entry {
            Entry::Start { object, action, .. } => {
                let action = *action;
                let stage = Stage::Open;
                self.start(
                    *object,
                    Last {
                        action,
                        stage,
                        line,
                    },
                );
            }
            Entry::Post {
                target,
                verdict: Verdict::Accepted(_),
                ..
            } => self.accept(*target),
            Entry::End { object, result } => self.end(*object, stage_of(*result), line),
            Entry::Kill { object, cause } => {
                let cause = *cause;
                self.kill(*object, Kill { line, cause });
            }
            Entry::Post { .. } | Entry::Wait { .. } | Entry::Seen { .. } => {}
            Entry::Insert { .. } | Entry::Remove { .. } | Entry::NoMember { .. } => {}
        }
    }

    /// How many requests wait at an object: they were accepted and not started.
    pub fn waiting(&self, o: ObjId) -> usize {
        self.past(o).waiting()
    }

    /// The action that is open at an object, if one is: it was started, and has not ended, and the object was not
    /// killed since.
    pub fn opened(&self, o: ObjId) -> Option<ActionId> {
        match self.past(o) {
            Past {
                killed: None,
                last: Some(
                    Last {
                        action,
                        stage: Stage::Open,
                        ..
                    },
                ),
                ..
            } => Some(action),
            _ => None,
        }
    }

    /// How many actions were started.
    pub(crate) fn starts(&self) -> usize {
        self.starts
    }

    /// What was done at an object.
    pub(crate) fn past(&self, o: ObjId) -> Past {
        match self.objects.get(o.get()) {
            Some(past) => *past,
            None => NOTHING,
        }
    }
}

// The stage of an action that ended.
fn stage_of(end: ActionEnd) -> Stage {
    match end {
        ActionEnd::State(_) => Stage::Ended,
        ActionEnd::Skipped => Stage::Skipped,
    }
}
