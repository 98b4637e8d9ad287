//! The lines of how all stands that tell what a manager keeps of what it did. (docs/FORMATS.md, "A live manager".)
ghost use Rattle.std.specs.Prelude.{◌≡◌, ◌<◌, drop, length, slice_get};
ghost use Rattle.smi_journal.specs.CallText.{spaced, state_name_text};
ghost use Rattle.sml_writer.specs.Tells.{Tells};
ghost use Rattle.smirun_live.specs.Standing as text;

use show_names::{tell_number, tell_object, tell_session};
use smi_core::Core;
use smi_journal_entries::Sender;
use smi_live_carried::OverLogs;
use smi_request_fates::{Came, Counts, Fate, Stands, Watched};
use sml_domain::{Domain, ObjId, StateId};
use sml_text::Sink;
use sml_writer::Out;

// A count of an object, unless it is 0.
fn tell_count<W: Sink>(out: &mut Out<'_, W>, domain: &Domain, o: ObjId, word: &[u8], count: u64)
    ensures { Tells W.contents W.has_refused out.old out.new (text.count_line domain.now o word.now count) }
{
    if count > 0 {
        out.say(word);
        tell_object(out, domain, o);
        tell_number(out, count);
        out.say(b"\n");
    }
}

// How often an object started and ended.
fn tell_counts_of<W: Sink>(out: &mut Out<'_, W>, domain: &Domain, o: ObjId, counts: Option<Counts>)
    ensures { Tells W.contents W.has_refused out.old out.new (text.counts_lines domain.now o counts) }
{
    if let Some(counts) = counts {
        tell_count(out, domain, o, b"started", counts.started);
        tell_count(out, domain, o, b"ended", counts.ended);
    }
}

// How often each object started and ended.
fn tell_counts<W: Sink>(out: &mut Out<'_, W>, domain: &Domain, accounts: &OverLogs<'_>)
    ensures { Tells W.contents W.has_refused out.old out.new
        (text.all_counts_lines domain.now accounts.now.fates.counts) }
{
    for o in 0..domain.objects() {
        let o = ObjId::new(o);
        tell_counts_of(out, domain, o, accounts.counts(o));
    }
}

// The name of a state with a blank before it, or only the blank if no state has the number.
fn tell_state<W: Sink>(out: &mut Out<'_, W>, domain: &Domain, state: StateId)
    ensures { Tells W.contents W.has_refused out.old out.new (spaced (state_name_text domain.now state)) }
{
    out.say(b" ");
    if let Some(name) = domain.state_name(state) {
        out.say(name.as_bytes());
    }
}

// An object, its state and its version.
fn tell_stood<W: Sink>(out: &mut Out<'_, W>, domain: &Domain, o: ObjId, at: Option<Stands>)
    ensures { Tells W.contents W.has_refused out.old out.new (text.stood_text domain.now o at) }
{
    match at {
        Some(at) => {
            tell_object(out, domain, o);
            tell_state(out, domain, at.state);
            tell_number(out, at.ended);
        }
        None => out.say(b" - - 0"),
    }
}

// The session of a request, with its number there; those of an object's are not told.
fn tell_asker<W: Sink>(out: &mut Out<'_, W>, sender: Sender, number: u64)
    ensures { Tells W.contents W.has_refused out.old out.new (text.asker_text sender number) }
{
    match sender {
        Sender::Operator(session) => {
            tell_session(out, session);
            tell_number(out, number);
        }
        Sender::Object(_) => {}
    }
}

// A request is not over, as this word says.
fn tell_under_way<W: Sink>(out: &mut Out<'_, W>, watched: &Watched, word: &[u8])
    ensures { Tells W.contents W.has_refused out.old out.new (text.under_way_text watched.now word.now) }
{
    out.say(word);
    tell_asker(out, watched.sender, watched.number);
    out.say(b"\n");
}

// What became of an accepted request, whose object stands so now.
fn tell_fate<W: Sink>(
    out: &mut Out<'_, W>,
    domain: &Domain,
    watched: &Watched,
    now: Option<Stands>,
    fate: Fate,
)
    ensures { Tells W.contents W.has_refused out.old out.new (text.fate_text domain.now watched.now now fate) }
{
    let o = watched.object;
    match fate {
        Fate::Waits => {
            tell_stood(out, domain, o, now);
            tell_under_way(out, watched, b" waits");
        }
        Fate::Open => {
            tell_stood(out, domain, o, now);
            tell_under_way(out, watched, b" open");
        }
        Fate::Ended(at) => {
            tell_stood(out, domain, o, Some(at));
            out.say(b" ended\n");
        }
        Fate::Skipped(at) => {
            tell_stood(out, domain, o, Some(at));
            out.say(b" skipped\n");
        }
        Fate::Killed(at) => {
            tell_stood(out, domain, o, Some(at));
            out.say(b" killed\n");
        }
    }
}

// What stands after the word `past`.
fn after_past(answer: &[u8]) -> &[u8]
    ensures { result.now ≡ drop 4 answer.now }
{
    if answer.len() >= 4 {
        answer.split_at(4).1
    } else {
        &[]
    }
}

// What became of a request, whose object stands so now; of a refused one what was told of it, and of one that a log
// before had what became of it there.
fn tell_came<W: Sink>(
    out: &mut Out<'_, W>,
    domain: &Domain,
    watched: &Watched,
    now: Option<Stands>,
    answer: &[u8],
)
    ensures { Tells W.contents W.has_refused out.old out.new
        (text.came_text domain.now watched.now now answer.now watched.now.came) }
{
    match watched.came {
        Came::Accepted(fate) => tell_fate(out, domain, watched, now, fate),
        Came::Refused(at) => {
            tell_stood(out, domain, watched.object, at);
            out.say(b" ");
            out.say(answer);
        }
        Came::Past(at) => {
            tell_stood(out, domain, watched.object, at);
            out.say(after_past(answer));
        }
    }
}

// The last request of the name at a place.
fn tell_once<W: Sink>(out: &mut Out<'_, W>, domain: &Domain, accounts: &OverLogs<'_>, place: usize)
    requires { place < length accounts.now.told }
    ensures { Tells W.contents W.has_refused out.old out.new (text.once_line domain.now accounts.now.fates.counts
        (slice_get accounts.now.told place) (slice_get accounts.now.fates.watched place)) }
{
    let known = accounts.told().at(place);
    if let Some(watched) = accounts.watched(place) {
        out.say(b"once ");
        out.say(known.name);
        tell_number(out, known.number);
        let now = accounts.stands(watched.object);
        tell_came(out, domain, &watched, now, known.answer);
    }
}

// The last request of each name.
fn tell_each_once<W: Sink>(out: &mut Out<'_, W>, domain: &Domain, accounts: &OverLogs<'_>)
    ensures { Tells W.contents W.has_refused out.old out.new (text.all_once_lines domain.now accounts.now) }
{
    for place in 0..accounts.told().names() {
        tell_once(out, domain, accounts, place);
    }
}

/// Writes how often each object started and ended, what became of the last request of each of those who ask for
/// requests that are made once, by all logs; and last how many entries the journal of this one has. The cost is that of
/// the lines.
pub(crate) fn tell_accounts<W: Sink>(out: &mut Out<'_, W>, core: &Core, accounts: &OverLogs<'_>)
    ensures { Tells W.contents W.has_refused out.old out.new
        (text.accounts_text core.now.setup.domain core.now.world.journal accounts.now) }
{
    tell_counts(out, core.domain(), accounts);
    tell_each_once(out, core.domain(), accounts);
    out.say(b"stands");
    tell_number(out, core.journal().len() as u64);
    out.say(b"\n");
}
