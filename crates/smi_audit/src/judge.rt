//! What is kept while a journal is judged.
ghost use Rattle.std.specs.Prelude.{◌≡◌, ◌<◌, ◌↔◌, ℕ, [], All, IfOk, IsTrue, Some, length, slice_get, true};
ghost use Rattle.std.specs.Arc.{arc_value};
ghost use Rattle.std.specs.List.{list_all};
ghost use Rattle.sml_domain.specs.Truth as truth;
ghost use Rattle.smi_journal_entries.specs.declared.entry.Sender.TheVariants.{Object};
ghost use Rattle.smi_journal_entries.specs.declared.journal.Format.{Format};
ghost use Rattle.smi_journal_entries.specs.Words as says;
ghost use Rattle.smi_meaning.specs.EntryLaws.{are_clear};
ghost use Rattle.smi_meaning.specs.Legal.{is_clear_for};
ghost use Rattle.smi_audit_rules.specs.Rules as rules;
ghost use Rattle.smi_audit.specs.Judges.{JudgeIsKept};
ghost use Rattle.smi_audit.specs.Tracks.{AreTracked, IsReadingOf};

use crate::track::Track;
use smi_journal::{Args, Format, Members, Reading, Verdict, laws_of_members};
use smi_ledger::Books;
use sml_domain::{ActionId, Domain, ObjId, same_values};
use std::alloc::{AllocError, Global};
use std::sync::Arc;

/// The books of the journal so far, a track of each object, and the format in which it is judged.
#[derive(Drop)]
pub(crate) struct Judge {
    pub(crate) format: Format,
    pub(crate) domain: Arc<Domain>,
    pub(crate) books: Books,
    pub(crate) tracks: Vec<Track>,
    // The declared members of sets.
    pub(crate) declared: Members,
    pub(crate) alloc: Global,
}

// The track of each object of a domain, before its first entry.
fn first_tracks(alloc: Global, domain: &Domain) -> Result<Vec<Track>, AllocError>
    ensures { IfOk result (λ tracks. (format : Format) → AreTracked format domain.now [] tracks.items) }
{
    let objects = domain.objects();
    let mut tracks = Vec::new(alloc);
    for o in 0..objects {
        let track = Track::new(alloc, domain.class_parameters(ObjId::new(o)), objects)?;
        tracks.push(track)?;
    }
    Ok(tracks)
}

// Whether objects are all clear for another.
pub(crate) fn all_clear(books: &Books, o: ObjId, objects: &[ObjId]) -> bool
    requires within { o < length books.now.domain.objects }
    requires there { All (λ x. x < length books.now.domain.objects) objects.now }
    ensures { result ≡ are_clear books.now.journal o objects.now }
{
    for object in objects {
        if !books.is_clear(o, *object) {
            return false;
        }
    }
    true
}

// Whether the objects that were read are all clear for another.
pub(crate) fn read_clear(books: &Books, o: ObjId, readings: &[Reading]) -> bool
    requires within { o < length books.now.domain.objects }
    requires there { All (IsReadingOf (length books.now.domain.objects)) readings.now }
    ensures { result ≡ list_all (is_clear_for books.now.journal o) readings.now }
{
    for reading in readings {
        if !books.is_clear(o, reading.object) {
            return false;
        }
    }
    true
}

// Whether the states that were read are those of the objects now.
pub(crate) fn are_states(books: &Books, readings: &[Reading]) -> bool
    requires { All (IsReadingOf (length books.now.domain.objects)) readings.now }
    ensures { IsTrue result ↔ All (rules.IsStateNow books.now.domain books.now.journal) readings.now }
{
    for reading in readings {
        if reading.state.get() != books.state(reading.object).get() {
            return false;
        }
    }
    true
}

impl Judge {
    // The judge of a journal of which nothing was read.
    pub(crate) fn new(
        alloc: Global,
        format: Format,
        domain: Arc<Domain>,
    ) -> Result<Judge, AllocError>
        ensures kept { IfOk result JudgeIsKept }
        ensures format { IfOk result (λ j. j.format ≡ format) }
        ensures journal { IfOk result (λ j. j.books.journal ≡ []) }
        ensures domain { IfOk result (λ j. j.books.domain ≡ arc_value domain) }
    {
        let tracks = first_tracks(alloc, &domain)?;
        let books = Books::new(alloc, Arc::try_clone(&domain)?)?;
        laws_of_members();
        let declared = books.sets().share()?;
        Ok(Judge {
            format,
            domain,
            books,
            tracks,
            declared,
            alloc,
        })
    }

    // Whether an object is killed.
    pub(crate) fn is_killed(&self, o: ObjId) -> bool
        requires { o < length self.now.books.domain.objects }
        ensures { result ≡ says.is_killed o self.now.books.journal }
    {
        self.books.killed(o).is_some()
    }

    // Whether a post is answered `Dead` exactly if its target is killed.
    pub(crate) fn tells_the_dead(&self, target: ObjId, verdict: &Verdict) -> bool
        requires { target < length self.now.books.domain.objects }
        ensures { IsTrue result ↔ rules.TellsTheDead (says.is_killed target self.now.books.journal) verdict.now }
    {
        match verdict {
            Verdict::Accepted(_) | Verdict::Full => !self.is_killed(target),
            Verdict::Dead => self.is_killed(target),
        }
    }

    // Whether a post of an object has the next number, if it was accepted.
    pub(crate) fn has_number(&self, o: ObjId, target: ObjId, verdict: &Verdict) -> bool
        requires within { o < length self.now.books.domain.objects }
        requires target { target < length self.now.books.domain.objects }
        ensures { IsTrue result
            ↔ rules.VerdictHasNumber (length (says.posts_between o target self.now.books.journal)) verdict.now }
    {
        match verdict {
            Verdict::Accepted(number) => *number == self.books.posted(o, target) as u64,
            Verdict::Full | Verdict::Dead => true,
        }
    }

    // Whether an object posted this to another under this number.
    pub(crate) fn is_posted(
        &self,
        a: ObjId,
        o: ObjId,
        number: u64,
        action: ActionId,
        args: &Args,
    ) -> bool
        requires kept { JudgeIsKept self.now }
        requires sender { a < length self.now.books.domain.objects }
        requires within { o < length self.now.books.domain.objects }
        ensures { IsTrue result ↔ (slice_get (says.posts_between a o self.now.books.journal) number
            ≡ Some (record { sender = Object a; action = action; args = args.now })) }
    {
        match self.tracks[a.get()].call(o, number) {
            Some(call) => {
                call.action.get() == action.get() && same_values(call.args.values(), args.values())
            }
            None => false,
        }
    }
}
