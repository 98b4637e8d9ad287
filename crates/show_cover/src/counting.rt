//! Counting what the entries of journals exercise.
ghost use Rattle.std.specs.Prelude.{◌≡◌, ◌<◌, IfSome, length};
ghost use Rattle.smi_journal.specs.HasText.{HasNames};

use crate::coverage::Coverage;
use smi_audit::Past;
use smi_interp::{Place, is_true};
use smi_journal::{
    ActionEnd, Entry, Format, LineReader, Reading, Verdict, behind_header, laws_of_names,
};
use sml_domain::{ActionId, Domain, Instr, ObjId, StateId};
use std::alloc::Global;
use std::sync::Arc;

// One more.
fn count_one(count: &mut u64) {
    *count = count.saturating_add(1);
}

// The place of a state among those of an object's class.
fn state_place(domain: &Domain, o: ObjId, state: StateId) -> Option<usize>
    requires { o < length domain.now.objects }
{
    let class = domain.classes().get(domain.class_of(o).get())?;
    class
        .states
        .rows()
        .iter()
        .position(|row| row.number.get() == state.get())
}

// The place of an action among those of a state of an object's class, if the state declares it.
fn action_place(domain: &Domain, o: ObjId, state: usize, action: ActionId) -> Option<usize>
    requires { o < length domain.now.objects }
{
    let class = domain.classes().get(domain.class_of(o).get())?;
    let state = class.states.rows().get(state)?;
    state
        .actions
        .rows()
        .iter()
        .position(|row| row.number.get() == action.get())
}

// Whether the condition of the `if` at a place is true over readings, or None if no `if` is there.
fn truth_at(past: &Past, place: Place, readings: &[Reading]) -> Option<bool> {
    let books = past.books();
    let domain = books.domain();
    match domain.instruction(place.block, place.index) {
        Some(Instr::If { cond, .. }) => Some(is_true(domain, books.sets(), cond, readings)),
        _ => None,
    }
}

impl Coverage {
    // An object takes a request of an action.
    fn count_start(&mut self, past: &Past, o: ObjId, action: ActionId) {
        let domain = past.books().domain();
        if !domain.has(o) {
            return;
        }
        let Some(state) = state_place(domain, o, past.books().state(o)) else {
            return;
        };
        let action = action_place(domain, o, state, action);
        let Some(counts) = self.state_of(o, state) else {
            return;
        };
        match action {
            Some(action) => {
                if let Some(count) = counts.started.get_mut(action) {
                    count_one(count);
                }
            }
            None => count_one(&mut counts.skipped),
        }
    }

    // An object enters a state.
    fn count_state(&mut self, domain: &Domain, o: ObjId, state: StateId) {
        if !domain.has(o) {
            return;
        }
        let Some(place) = state_place(domain, o, state) else {
            return;
        };
        if let Some(counts) = self.state_of(o, place) {
            count_one(&mut counts.entered);
        }
    }

    // The open action of an object sends a request.
    fn count_post(&mut self, past: &Past, o: ObjId, verdict: &Verdict) {
        let Some(tally) = self.tally_of(past, o) else {
            return;
        };
        count_one(&mut tally.sent);
        match verdict {
            Verdict::Accepted(_) => {}
            Verdict::Full => count_one(&mut tally.full),
            Verdict::Dead => count_one(&mut tally.dead),
        }
    }

    // The open action of an object finds a set without members to send to.
    fn count_empty(&mut self, past: &Past, o: ObjId) {
        if let Some(tally) = self.tally_of(past, o) {
            count_one(&mut tally.empty);
        }
    }

    // The `if` or the `wait` of the open action of an object reads its objects.
    fn count_seen(&mut self, past: &Past, o: ObjId, readings: &[Reading]) {
        if !past.books().domain().has(o) {
            return;
        }
        let Some(place) = past.place(o) else {
            return;
        };
        let truth = truth_at(past, place, readings);
        let Some(tally) = self.tally_of(past, o) else {
            return;
        };
        match truth {
            Some(true) => count_one(&mut tally.yes),
            Some(false) => count_one(&mut tally.no),
            None => count_one(&mut tally.seen),
        }
    }

    /// Counts an entry that may follow those of a past. The cost is that of the entry, and at an `if` of its condition;
    /// at a start or an end also the count of the states of a class and of the actions of one.
    pub fn count(&mut self, past: &Past, entry: &Entry) {
        let domain = past.books().domain();
        match entry {
            Entry::Start { object, action, .. } => self.count_start(past, *object, *action),
            Entry::Post {
                sender,
                verdict,
                ..
            } => self.count_post(past, *sender, verdict),
            Entry::Seen { object, readings } => self.count_seen(past, *object, readings.list()),
            Entry::NoMember { object, .. } => self.count_empty(past, *object),
            Entry::End {
                object,
                result: ActionEnd::State(state),
            } => self.count_state(domain, *object, *state),
            Entry::Kill { object, .. } => {
                if domain.has(*object) {
                    self.count_state(domain, *object, domain.dead(*object));
                }
            }
            Entry::End { .. } | Entry::Wait { .. } | Entry::Insert { .. } | Entry::Remove { .. } =>
                {}
        }
    }

    /// Counts the entries of the text of a legal journal of the domain, line by line, so that none of them is held.
    /// False if the bytes are not the text of a legal journal, or memory runs out: `audit` says which. Then the counts
    /// are of no use any more.
    ///
    /// The cost is that of `Past::of_text`, and that of counting.
    pub fn count_journal(&mut self, alloc: Global, domain: &Arc<Domain>, bytes: &[u8]) -> bool {
        let Some((format, lines)) = behind_header(bytes) else {
            return false;
        };
        let Ok(shared) = Arc::try_clone(domain) else {
            return false;
        };
        let Ok(past) = Past::new(alloc, format, shared) else {
            return false;
        };
        laws_of_names(domain);
        self.count_lines(alloc, format, domain, past, lines)
    }

    // Counts the entries of lines behind a past.
    fn count_lines(
        &mut self,
        alloc: Global,
        format: Format,
        domain: &Domain,
        past: Past,
        lines: &[u8],
    ) -> bool
        requires names { HasNames domain.now }
        requires of { past.books.domain ≡ domain.now }
    {
        let mut reader = LineReader::new(alloc);
        let mut past = past;
        let mut rest = lines;
        while rest.len() > 0 {
            let Some((next, more)) = self.count_line(alloc, format, domain, &mut reader, past, rest)
            else {
                return false;
            };
            past = next;
            rest = more;
        }
        true
    }

    // Counts and enters the entry whose line is in front. Returns the past with it, and what is behind the line.
    fn count_line<'a>(
        &mut self,
        alloc: Global,
        format: Format,
        domain: &Domain,
        reader: &mut LineReader,
        past: Past,
        rest: &'a [u8],
    ) -> Option<(Past, &'a [u8])>
        requires names { HasNames domain.now }
        requires of { past.books.domain ≡ domain.now }
        ensures of { IfSome result (λ x. x.0.books.domain ≡ domain.now) }
        ensures less { IfSome result (λ x. length x.1.now < length rest.now) }
    {
        let Ok(Some((entry, more))) = reader.next_entry(alloc, domain, format, rest) else {
            return None;
        };
        self.count(&past, &entry);
        match past.enter(&entry) {
            Ok(next) => Some((next, more)),
            Err(_) => None,
        }
    }
}
