//! The look-ups of a ledger beside walks over its journal.
ghost use Rattle.std.specs.Prelude.{◌<◌, length};

use crate::journal_walks;
use smi_journal::{Entry, Letter, MoveReply, Sender, SessionId};
use smi_ledger::Ledger;
use sml_domain::{ObjId, SetId, same_values};

// Whether a letter is what an entry starts.
fn is_started_by(letter: &Letter, entry: &Entry) -> bool {
    match entry {
        Entry::Start {
            sender,
            number,
            action,
            args,
            ..
        } => {
            letter.sender == *sender
                && letter.number == *number
                && letter.action == *action
                && same_values(letter.args.values(), args.values())
        }
        _ => false,
    }
}

// Whether what is open is what an entry of the journal starts, where one does.
fn is_opened_at(opened: Option<&Letter>, entries: &[Entry], place: Option<usize>) -> bool {
    match (opened, place) {
        (None, None) => true,
        (Some(letter), Some(place)) => match entries.get(place) {
            Some(entry) => is_started_by(letter, entry),
            None => false,
        },
        _ => false,
    }
}

// Whether an answer is what an entry tells.
fn is_told_by(answer: &MoveReply, entry: &Entry) -> bool {
    match (answer, entry) {
        (MoveReply::Told(told, _), Entry::Post { verdict, .. }) => told == verdict,
        (MoveReply::Read(read, _), Entry::Seen { readings, .. }) => read.list() == readings.list(),
        (MoveReply::Nobody(_), Entry::NoMember { .. }) => true,
        (MoveReply::Changed, Entry::Insert { .. }) => true,
        (MoveReply::Changed, Entry::Remove { .. }) => true,
        _ => false,
    }
}

// Whether an entry is one of an object that tells an answer.
fn tells(entry: &Entry, o: ObjId) -> bool {
    match entry {
        Entry::Post { sender, .. } => *sender == o,
        Entry::Seen { object, .. } => *object == o,
        Entry::NoMember { object, .. } => *object == o,
        Entry::Insert { object, .. } => *object == o,
        Entry::Remove { object, .. } => *object == o,
        _ => false,
    }
}

// Whether answers are those that an object was given since its action was opened.
fn are_told(answers: &[MoveReply], entries: &[Entry], o: ObjId) -> bool {
    let Some(opening) = journal_walks::opening(entries, o) else {
        return answers.is_empty();
    };
    let mut told = 0usize;
    for entry in entries.iter().skip(opening) {
        if tells(entry, o) {
            match answers.get(told) {
                Some(answer) if is_told_by(answer, entry) => {}
                _ => return false,
            }
            told = told.saturating_add(1);
        }
    }
    answers.len() == told
}

// Whether what is known of an object alone is what the journal says.
fn is_as_walked_at(ledger: &Ledger, o: ObjId) -> bool
    requires { o < length ledger.now.domain.objects }
{
    let entries = ledger.journal();
    let opening = journal_walks::opening(entries, o);
    ledger.state(o) == journal_walks::state(ledger.domain(), entries, o)
        && is_opened_at(ledger.opened(o), entries, opening)
        && ledger.is_open(o) == opening.is_some()
        && are_told(ledger.answers(o), entries, o)
        && ledger.waits(o) == journal_walks::waits(entries, o)
        && ledger.killed(o) == journal_walks::killed(entries, o)
}

// Whether the starts of each session at an object are counted as the journal says.
fn counts_sessions(ledger: &Ledger, o: ObjId) -> bool
    requires { o < length ledger.now.domain.objects }
{
    for number in 1..=8u8 {
        let Some(session) = SessionId::new(number) else {
            return false;
        };
        let sender = Sender::Operator(session);
        if ledger.started(&sender, o) != journal_walks::started(ledger.journal(), &sender, o) {
            return false;
        }
    }
    true
}

// Whether what is known of two objects is what the journal says.
fn is_as_walked_between(ledger: &Ledger, a: ObjId, o: ObjId) -> bool
    requires sender { a < length ledger.now.domain.objects }
    requires within { o < length ledger.now.domain.objects }
{
    let entries = ledger.journal();
    let sender = Sender::Object(a);
    ledger.started(&sender, o) == journal_walks::started(entries, &sender, o)
        && ledger.posted(a, o) == journal_walks::posted(entries, a, o)
        && ledger.is_clear(a, o) == journal_walks::is_clear(entries, a, o)
}

// Whether what is known of an object with each other is what the journal says.
fn is_as_walked_with_each(ledger: &Ledger, o: ObjId) -> bool
    requires { o < length ledger.now.domain.objects }
{
    let objects = ledger.domain().objects();
    for a in 0..objects {
        if !is_as_walked_between(ledger, ObjId::new(a), o) {
            return false;
        }
    }
    true
}

// Whether an object is a member of each set where the journal says so.
fn is_in_as_walked(ledger: &Ledger, o: ObjId) -> bool {
    for place in 0..ledger.domain().groups().len() {
        let set = SetId::new(place);
        let walked = journal_walks::is_member(ledger.domain(), ledger.journal(), set, o);
        if ledger.members(set).contains(&o) != walked {
            return false;
        }
    }
    true
}

/// Whether each look-up answers what a walk over the journal finds.
pub fn is_as_walked(ledger: &Ledger) -> bool {
    let objects = ledger.domain().objects();
    for place in 0..objects {
        let o = ObjId::new(place);
        if !is_as_walked_at(ledger, o)
            || !counts_sessions(ledger, o)
            || !is_as_walked_with_each(ledger, o)
            || !is_in_as_walked(ledger, o)
        {
            return false;
        }
    }
    ledger.starts() == journal_walks::starts(ledger.journal())
}
