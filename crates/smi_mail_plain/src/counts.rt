//! Counts by sender.
ghost use Rattle.std.specs.Prelude.{◌≡◌, ◌<◌, ◌+◌, IfOk, length, true};
ghost use Rattle.smi_journal_entries.specs.declared.entry.Sender.{Sender};
ghost use Rattle.smi_journal_entries.specs.Requests.{same_sender};
ghost use Rattle.smi_mail_plain.specs.Counts.{count_of, most_count, one_where};
ghost use Rattle.smi_mail_plain.specs.Mails.{is_known};

use smi_journal_entries::Sender;
use std::alloc::{AllocError, Global};
use std::marker::Model;

// Sessions have the numbers 1 to 8.
const SESSION_PLACES: usize = 9;

/// A count for each session and for each object of a domain.
#[derive(Drop)]
pub(crate) struct Counts {
    of_sessions: Vec<u64>,
    of_objects: Vec<u64>,
}

impl Model for Counts {
    ghost use Rattle.std.specs.Prelude.{◌≡◌, length};
    ghost use Rattle.smi_mail_plain.specs.Counts.{CountsView, session_places};

    ghost Value = { CountsView };

    ghost view = { λ c. record { of_sessions = c.of_sessions.items; of_objects = c.of_objects.items } };

    ghost invariant = { λ c. length c.of_sessions.items ≡ session_places };
}

impl Counts {
    // Nothing was counted yet, of any session or of any of `objects` objects.
    pub(crate) fn new(alloc: Global, objects: usize) -> Result<Counts, AllocError>
        ensures objects { IfOk result (λ c. length c.of_objects ≡ objects) }
        ensures none { IfOk result (λ c. (s : Sender) → count_of c s ≡ 0) }
    {
        Ok(Counts {
            of_sessions: vec![in alloc; 0; SESSION_PLACES]?,
            of_objects: vec![in alloc; 0; objects]?,
        })
    }

    // The count of a sender.
    pub(crate) fn of(&self, sender: &Sender) -> u64
        requires { is_known (length self.now.of_objects) sender.now ≡ true }
        ensures { result ≡ count_of self.now sender.now }
    {
        match sender {
            Sender::Operator(session) => self.of_sessions[session.get() as usize],
            Sender::Object(object) => self.of_objects[object.get()],
        }
    }

    // Counts one more of a sender.
    pub(crate) fn add(&mut self, sender: &Sender)
        requires known { is_known (length self.old.of_objects) sender.now ≡ true }
        requires few { count_of self.old sender.now < most_count }
        ensures objects { length self.new.of_objects ≡ length self.old.of_objects }
        ensures counts { (s : Sender) →
            count_of self.new s ≡ count_of self.old s + one_where (same_sender s sender.now) }
    {
        match sender {
            Sender::Operator(session) => self.of_sessions[session.get() as usize] += 1,
            Sender::Object(object) => self.of_objects[object.get()] += 1,
        }
    }
}
