//! The explanation of a line.
ghost use Rattle.std.specs.Prelude.{◌+◌, ◌<◌, ◌^◌, All, IfSome, length};
ghost use Rattle.std.specs.Arc.{arc_value};
ghost use Rattle.smi_journal.specs.HasText.{HasText};

use crate::earlier::{Earlier, is_fault_without_device, last, owner, post_of};
use crate::next::{Next, next_of};
use crate::placing::{DomainText, tell_instruction};
use crate::sentence::{first_busy, first_misread, tell_sentence};
use show_names::tell_lines;
use smi_audit::{Judgement, Past, PastError, Rule};
use smi_journal::{Entry, Format, Sender, Verdict};
use sml_domain::{Domain, ObjId};
use sml_text::Sink;
use sml_writer::Out;
use std::alloc::{AllocError, Global};
use std::sync::Arc;

// Writes the line of a journal that has the entry of a place, with its number in front.
fn tell_numbered<W: Sink>(out: &mut Out<'_, W>, domain: &Domain, entries: &[Entry], place: usize) {
    if place < entries.len() {
        out.say(b"line ");
        out.number((place as u64).saturating_add(2));
        out.say(b": ");
        tell_lines(out, domain, &entries[place..place + 1]);
    }
}

// What an object sent to another and has not ended: what is open there, or else the first post not started.
fn busy_since(past: &Past, entries: &[Entry], o: ObjId, busy: ObjId) -> Option<usize> {
    let books = past.books();
    if !books.domain().has(o) || !books.domain().has(busy) {
        return None;
    }
    if books.is_open(busy) {
        return last(entries, Earlier::Start(busy));
    }
    let started = books.started(&Sender::Object(o), busy);
    post_of(entries, o, busy, started as u64)
}

// The earlier entry that a number follows.
fn counted_from(entries: &[Entry], entry: &Entry) -> Option<usize> {
    match entry {
        Entry::Start { object, sender, .. } => last(entries, Earlier::StartOf(*sender, *object)),
        Entry::Post { sender, target, .. } => last(entries, Earlier::Post(*sender, *target)),
        _ => None,
    }
}

// The earlier entry of a request that was sent under the number of a start.
fn sent_as(entries: &[Entry], entry: &Entry) -> Option<usize> {
    match entry {
        Entry::Start {
            object,
            sender: Sender::Object(a),
            number,
            ..
        } => post_of(entries, *a, *object, *number),
        _ => None,
    }
}

// The earlier kill of the target of a post.
fn target_killed(entries: &[Entry], entry: &Entry) -> Option<usize> {
    match entry {
        Entry::Post {
            target,
            verdict: Verdict::Accepted(_) | Verdict::Full,
            ..
        } => last(entries, Earlier::Kill(*target)),
        _ => None,
    }
}

// The earlier entry for which an object that was read is busy, or which gave it another state.
fn read_against(past: &Past, entries: &[Entry], entry: &Entry, is_busy: bool) -> Option<usize> {
    let Entry::Seen { object, readings } = entry else {
        return None;
    };
    if is_busy {
        let busy = first_busy(past, *object, readings.list())?;
        busy_since(past, entries, *object, busy)
    } else {
        let misread = first_misread(past, readings.list())?;
        last(entries, Earlier::State(misread))
    }
}

// The earlier entry behind which nothing is open at the object of an entry.
fn closed_by(past: &Past, entries: &[Entry], entry: &Entry) -> Option<usize> {
    let books = past.books();
    if is_fault_without_device(books.domain(), entry) {
        None
    } else {
        last(entries, Earlier::Closed(owner(entry)))
    }
}

// The object whose action continues in place of an entry: its own, or the one whose posts it splits.
fn continues(past: &Past, entry: &Entry, rule: Rule) -> Option<ObjId> {
    match rule {
        Rule::Meaning => Some(owner(entry)),
        Rule::Split => past.books().last(),
        _ => None,
    }
}

// What that action does next.
fn next_in_place(
    alloc: Global,
    past: &Past,
    entry: &Entry,
    rule: Rule,
) -> Result<Option<Next>, AllocError> {
    match continues(past, entry, rule) {
        Some(o) => next_of(alloc, past, o),
        None => Ok(None),
    }
}

// The earlier entry that an entry contradicts which breaks a rule.
fn rests_on(past: &Past, entries: &[Entry], entry: &Entry, rule: Rule) -> Option<usize> {
    let o = owner(entry);
    match rule {
        // The last post of the send is right before.
        Rule::Split => entries.len().checked_sub(1),
        Rule::Killed => last(entries, Earlier::Kill(o)),
        Rule::Open | Rule::Meaning | Rule::Clear | Rule::NotAState => {
            last(entries, Earlier::Start(o))
        }
        Rule::Number => counted_from(entries, entry),
        Rule::NotSent => sent_as(entries, entry),
        Rule::BadRequest => None,
        Rule::NotOpen => closed_by(past, entries, entry),
        Rule::Dead => target_killed(entries, entry),
        Rule::Busy => read_against(past, entries, entry, true),
        Rule::Reading => read_against(past, entries, entry, false),
    }
}

// The place of the entry in a line of a journal. The first line is the header.
fn place_of(line: u64, entries: &[Entry]) -> Option<usize>
    ensures { IfSome result (λ place. place < length entries.now) }
{
    let place = line.checked_sub(2)? as usize;
    if place < entries.len() {
        Some(place)
    } else {
        None
    }
}

/// Explains why a line of a journal is not legal. Writes its text, one sentence, if the text of the domain is there the
/// place of the instruction that the sentence is about, and the earlier line that this rests on, if there is one. The
/// judgement is that of these entries as a journal of the format. Nothing is written if it is legal, if the line has no
/// entry, or if a line before it is not legal.
///
/// It is text for people, and no part of a format. What is written is not promised, and only tests hold it. The
/// time and the memory are those of judging the entries before the line, and of reading the text.
pub fn explain<W: Sink>(
    alloc: Global,
    format: Format,
    domain: Arc<Domain>,
    text: Option<DomainText<'_>>,
    entries: &[Entry],
    judgement: Judgement,
    out: &mut Out<'_, W>,
) -> Result<(), AllocError>
    requires texts { All (HasText (arc_value domain)) entries.now }
    requires few { length entries.now + 2 < 2 ^ 64 }
{
    let Judgement::Illegal { line, rule } = judgement else {
        return Ok(());
    };
    let Some(place) = place_of(line, entries) else {
        return Ok(());
    };
    let (before, rest) = entries.split_at(place);
    let past = match Past::of(alloc, format, domain, before) {
        Ok(past) => past,
        Err(PastError::Illegal { .. }) => return Ok(()),
        Err(PastError::Memory) => return Err(AllocError),
    };
    let entry = &rest[0];
    let next = next_in_place(alloc, &past, entry, rule)?;
    tell_numbered(out, past.books().domain(), entries, place);
    tell_sentence(out, &past, entry, rule, &next);
    out.say(b".\n");
    if let Some(text) = &text {
        if let Some(o) = continues(&past, entry, rule) {
            tell_instruction(alloc, text, &past, o, out)?;
        }
    }
    if let Some(earlier) = rests_on(&past, before, entry, rule) {
        tell_numbered(out, past.books().domain(), entries, earlier);
    }
    Ok(())
}
