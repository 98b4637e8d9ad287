//! A journal: a list of entries, with room kept for some more.
ghost use Rattle.std.specs.Prelude.{◌≡◌, ◌<◌, ◌+◌, ◌-◌, ◌≤◌, ◌++◌, ◌∷◌, [], OnOk, OnErr, length};
ghost use Rattle.smi_journal_entries.specs.Journals.{most_entries};

use crate::entry::Entry;
use std::alloc::{AllocError, Global};
use std::marker::Model;

/// The format of a journal's text. Only the second has entries of sets that change, and of sets that have no member to
/// send to.
#[derive(Clone, Copy, Eq, PartialEq)]
pub enum Format {
    /// `smi-journal 1`
    One,
    /// `smi-journal 2`
    Two,
}

/// Entries, and for how many more room is kept. The place of an entry counts from 0.
#[derive(Drop)]
pub struct Journal {
    entries: Vec<Entry>,
    held: usize,
}

impl Model for Journal {
    ghost use Rattle.std.specs.Prelude.{◌≤◌, ◌+◌, vec_len, vec_capacity};
    ghost use Rattle.smi_journal_entries.specs.Journals.{JournalView};

    ghost Value = { JournalView };

    ghost view = { λ j. record { entries = j.entries.items; held = j.held } };

    ghost invariant = { λ j. vec_len j.entries + j.held ≤ vec_capacity j.entries };
}

impl Journal {
    /// Makes a journal without entries, with no room kept.
    pub fn new(alloc: Global) -> Journal
        ensures { result ≡ record { entries = []; held = 0 } }
    {
        Journal {
            entries: Vec::new(alloc),
            held: 0,
        }
    }

    /// Returns the entries in order.
    pub fn entries(&self) -> &[Entry]
        ensures { result.now ≡ self.now.entries }
    {
        &self.entries
    }

    /// Returns how many entries there are.
    pub fn len(&self) -> usize
        ensures is { result ≡ length self.now.entries }
        ensures room { result + self.now.held ≤ most_entries }
    {
        self.entries.len()
    }

    /// Returns for how many more entries room is kept.
    pub fn held(&self) -> usize
        ensures { result ≡ self.now.held }
    {
        self.held
    }

    /// Keeps room for `more` entries, beside the room that is kept already: so a start keeps room for the
    /// entry that will close its action. An error is out of memory. The cost is constant on average.
    pub fn hold(&mut self, more: usize) -> Result<(), AllocError>
        ensures ok { OnOk result (self.new ≡ record self.old { held = self.old.held + more }) }
        ensures err { OnErr result (self.new ≡ self.old) }
    {
        let Some(held) = self.held.checked_add(more) else {
            return Err(AllocError);
        };
        self.entries.reserve(held)?;
        self.held = held;
        Ok(())
    }

    /// Adds an entry for which room was kept, and returns its place. Allocates nothing, and the cost is
    /// constant.
    pub fn add_held(&mut self, entry: Entry) -> usize
        requires { 0 < self.old.held }
        ensures new { self.new ≡ record { entries = self.old.entries ++ entry ∷ []; held = self.old.held - 1 } }
        ensures place { result ≡ length self.old.entries }
    {
        let place = self.entries.len();
        self.entries.push_reserved(entry);
        self.held -= 1;
        place
    }
}
