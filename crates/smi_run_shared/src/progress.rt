//! How far a run is.

use crate::shared::Shared;
use smi_journal_entries::{Entry, Verdict};
use smi_mail::MailNames;
use sml_domain::ObjId;
use std::sync::Wait;

/// How far a run is.
#[derive(Clone, Copy, Debug, Eq, PartialEq)]
pub struct Progress {
    /// How many requests were started. One that was skipped counts.
    pub starts: u64,
    /// How many requests were accepted and not started. Those that wait at a killed object count.
    pub waiting: u64,
    /// How many objects have an open action.
    pub open: u64,
}

/// How far the journal of a run was counted, and what there was: with it each call counts only what is new.
#[derive(Clone, Copy)]
pub struct Tally {
    entries: usize,
    starts: u64,
    posts: u64,
}

impl Tally {
    /// The tally of a run of which nothing was counted. It is for one run only.
    pub fn new() -> Tally {
        Tally {
            entries: 0,
            starts: 0,
            posts: 0,
        }
    }

    // Counts an entry, if it is a start or an accepted post of an object.
    fn add(&mut self, entry: &Entry) {
        match entry {
            Entry::Start { .. } => self.starts = self.starts.saturating_add(1),
            Entry::Post {
                verdict: Verdict::Accepted(_),
                ..
            } => self.posts = self.posts.saturating_add(1),
            _ => {}
        }
    }

    // Counts what is new in a journal.
    fn add_new(&mut self, journal: &[Entry]) {
        let Some(new) = journal.get(self.entries..) else {
            return;
        };
        for entry in new {
            self.add(entry);
        }
        self.entries = journal.len();
    }
}

impl<R: Wait + Copy + Send, K: MailNames> Shared<R, K> {
    // How many objects have an open action.
    fn open(&self) -> u64 {
        let mut count = 0u64;
        for o in 0..self.board.domain().objects() {
            if self.board.is_open(ObjId::new(o)) {
                count = count.saturating_add(1);
            }
        }
        count
    }

    /// How far the run is. No contract says what the counts are: that is only tested.
    ///
    /// The cost is the count of the objects, and of the entries that came since the last call with the same tally.
    pub fn progress(&self, tally: &mut Tally) -> Progress {
        tally.add_new(self.board.journal());
        let accepted = self.posts.saturating_add(tally.posts);
        Progress {
            starts: tally.starts,
            waiting: accepted.saturating_sub(tally.starts),
            open: self.open(),
        }
    }
}
