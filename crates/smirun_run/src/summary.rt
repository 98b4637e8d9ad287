//! The summary of a run. (docs/FORMATS.md, "Summary".) Each function that tells lines writes them unless a write before
//! them failed.
ghost use Rattle.std.specs.Prelude.{◌≡◌, ◌<◌, ◌+◌, IfOk, flat_map, length};
ghost use Rattle.std.specs.List.{range_with_len};
ghost use Rattle.sml_writer.specs.Tells.{Tells};
ghost use Rattle.smi_journal_entries.specs.declared.entry.Sender.TheVariants.{Object, Operator};
ghost use Rattle.smi_journal.specs.CallText.{spaced, state_name_text};
ghost use Rattle.smi_journal.specs.EntryText.{sender_text};
ghost use Rattle.smirun_run.specs.Summary as says;

use show_names::{tell_number, tell_object, tell_session};
use smi_journal::{Sender, SessionId};
use smi_mail::{MAX_SESSIONS, MailNames};
use smi_run::{Report, ServeEnd};
use sml_domain::{Domain, ObjId, StateId};
use sml_text::Sink;
use sml_writer::Out;
use std::alloc::{AllocError, Global};

// What is counted for each sender and object.
#[derive(Clone, Copy)]
enum Group {
    Accepted,
    Left,
}

impl Group {
    fn word(self) -> &'static [u8]
        ensures { result.now ≡ says.group_word self }
    {
        match self {
            Group::Accepted => b"accepted",
            Group::Left => b"left",
        }
    }

    // How many requests of a sender there are at an object.
    fn count<D: Drop, K: MailNames>(self, report: &Report<D, K>, sender: &Sender, o: ObjId) -> usize
        requires sender { says.IsCounted K.names.domain sender.now }
        requires target { o < length K.names.domain.objects }
        ensures { result ≡ says.summed report.now self sender.now o }
    {
        match self {
            Group::Accepted => accepted(report, sender, o),
            Group::Left => report.left_count(sender, o),
        }
    }
}

// How many requests of a sender were accepted at an object.
fn accepted<D: Drop, K: MailNames>(report: &Report<D, K>, sender: &Sender, o: ObjId) -> usize
    requires sender { says.IsCounted K.names.domain sender.now }
    requires target { o < length K.names.domain.objects }
    ensures { result ≡ says.summed report.now Group.Accepted sender.now o }
{
    match sender {
        Sender::Operator(session) => report.accepted(*session, o).len(),
        Sender::Object(a) => report.posted(*a, o),
    }
}

// The line of the end.
fn tell_end<W: Sink>(out: &mut Out<'_, W>, end: ServeEnd)
    ensures { Tells W.contents W.has_refused out.old out.new (says.ending_line end) }
{
    match end {
        ServeEnd::Quiet => out.say(b"end Quiet\n"),
        ServeEnd::Limit => out.say(b"end Limit\n"),
        ServeEnd::Memory => out.say(b"end Memory\n"),
    }
}

// The name of a state, with a blank before it.
fn tell_state<W: Sink>(out: &mut Out<'_, W>, domain: &Domain, s: StateId)
    ensures { Tells W.contents W.has_refused out.old out.new
        (spaced (state_name_text domain.now s)) }
{
    out.say(b" ");
    if let Some(name) = domain.state_name(s) {
        out.say(name.as_bytes());
    }
}

// The line of an object's state.
fn tell_standing<D: Drop, K: MailNames, W: Sink>(
    out: &mut Out<'_, W>,
    report: &Report<D, K>,
    o: ObjId,
)
    requires { o < length K.names.domain.objects }
    ensures { Tells W.contents W.has_refused out.old out.new
        (says.standing_line K.names.domain report.now.journal o) }
{
    let domain = report.domain();
    out.say(b"state");
    tell_object(out, domain, o);
    tell_state(out, domain, report.state(o));
    out.say(b"\n");
}

// The lines of all objects' states.
fn tell_states<D: Drop, K: MailNames, W: Sink>(out: &mut Out<'_, W>, report: &Report<D, K>)
    ensures { Tells W.contents W.has_refused out.old out.new
        (says.object_lines K.names.domain (says.standing_line K.names.domain report.now.journal)) }
{
    for o in 0..report.domain().objects() {
        tell_standing(out, report, ObjId::new(o));
    }
}

// The line of an object, if its action is open.
fn tell_stalled<D: Drop, K: MailNames, W: Sink>(
    out: &mut Out<'_, W>,
    report: &Report<D, K>,
    o: ObjId,
)
    requires { o < length K.names.domain.objects }
    ensures { Tells W.contents W.has_refused out.old out.new
        (says.stalled_line K.names.domain report.now.journal o) }
{
    if report.is_stalled(o) {
        out.say(b"stalled");
        tell_object(out, report.domain(), o);
        out.say(b"\n");
    }
}

// The lines of all objects whose action is open.
fn tell_all_stalled<D: Drop, K: MailNames, W: Sink>(out: &mut Out<'_, W>, report: &Report<D, K>)
    ensures { Tells W.contents W.has_refused out.old out.new
        (says.object_lines K.names.domain (says.stalled_line K.names.domain report.now.journal)) }
{
    for o in 0..report.domain().objects() {
        tell_stalled(out, report, ObjId::new(o));
    }
}

// A session or an object, with a blank before it.
fn tell_sender<W: Sink>(out: &mut Out<'_, W>, domain: &Domain, sender: &Sender)
    ensures { Tells W.contents W.has_refused out.old out.new
        (spaced (sender_text domain.now sender.now)) }
{
    match sender {
        Sender::Operator(session) => tell_session(out, *session),
        Sender::Object(a) => tell_object(out, domain, *a),
    }
}

// The line of a group for a sender and an object, unless there is nothing to count.
fn tell_summed<D: Drop, K: MailNames, W: Sink>(
    out: &mut Out<'_, W>,
    report: &Report<D, K>,
    group: Group,
    sender: &Sender,
    o: ObjId,
)
    requires sender { says.IsCounted K.names.domain sender.now }
    requires target { o < length K.names.domain.objects }
    ensures { Tells W.contents W.has_refused out.old out.new
        (says.summed_line K.names.domain report.now group sender.now o) }
{
    let count = group.count(report, sender, o);
    if count == 0 {
        return;
    }
    let domain = report.domain();
    out.say(group.word());
    tell_sender(out, domain, sender);
    tell_object(out, domain, o);
    tell_number(out, count as u64);
    out.say(b"\n");
}

// The lines of a group for a sender.
fn tell_sent<D: Drop, K: MailNames, W: Sink>(
    out: &mut Out<'_, W>,
    report: &Report<D, K>,
    group: Group,
    sender: &Sender,
)
    requires { says.IsCounted K.names.domain sender.now }
    ensures { Tells W.contents W.has_refused out.old out.new
        (says.sender_lines K.names.domain report.now group sender.now) }
{
    for o in 0..report.domain().objects() {
        tell_summed(out, report, group, sender, ObjId::new(o));
    }
}

// The session at a place, the first at 0.
fn session_at(place: usize) -> SessionId
    requires { place < MAX_SESSIONS }
    ensures { result ≡ place + 1 }
{
    match SessionId::new(place as u8 + 1) {
        Some(session) => session,
        None => unreachable!(),
    }
}

// The lines of a group for all sessions.
fn tell_sessions<D: Drop, K: MailNames, W: Sink>(
    out: &mut Out<'_, W>,
    report: &Report<D, K>,
    group: Group,
)
    ensures { Tells W.contents W.has_refused out.old out.new
        (flat_map (λ k. says.sender_lines K.names.domain report.now group (Operator (k + 1)))
        (range_with_len 0 MAX_SESSIONS)) }
{
    for place in 0..MAX_SESSIONS {
        tell_sent(out, report, group, &Sender::Operator(session_at(place)));
    }
}

// The lines of a group for all objects.
fn tell_objects<D: Drop, K: MailNames, W: Sink>(
    out: &mut Out<'_, W>,
    report: &Report<D, K>,
    group: Group,
)
    ensures { Tells W.contents W.has_refused out.old out.new
        (says.object_lines K.names.domain (λ a. says.sender_lines K.names.domain report.now group (Object a))) }
{
    for a in 0..report.domain().objects() {
        tell_sent(out, report, group, &Sender::Object(ObjId::new(a)));
    }
}

// The lines of a group.
fn tell_group<D: Drop, K: MailNames, W: Sink>(
    out: &mut Out<'_, W>,
    report: &Report<D, K>,
    group: Group,
)
    ensures { Tells W.contents W.has_refused out.old out.new
        (says.group_lines K.names.domain report.now group) }
{
    tell_sessions(out, report, group);
    tell_objects(out, report, group);
}

// Writes the line of a session's refused lines, unless no line was refused.
fn tell_refused<W: Sink>(out: &mut Out<'_, W>, refused: &[u64], place: usize)
    requires { place < length refused.now }
    ensures { Tells W.contents W.has_refused out.old out.new
        (says.refused_line refused.now place) }
{
    let count = refused[place];
    if count == 0 {
        return;
    }
    out.say(b"refused @");
    out.number(place as u64 + 1);
    tell_number(out, count);
    out.say(b"\n");
}

// The lines of all sessions' refused lines.
fn tell_all_refused<W: Sink>(out: &mut Out<'_, W>, refused: &[u64])
    ensures { Tells W.contents W.has_refused out.old out.new
        (flat_map (says.refused_line refused.now) (range_with_len 0 (length refused.now))) }
{
    for place in 0..refused.len() {
        tell_refused(out, refused, place);
    }
}

// All lines in their order.
fn tell_all<D: Drop, K: MailNames, W: Sink>(
    out: &mut Out<'_, W>,
    report: &Report<D, K>,
    end: ServeEnd,
    refused: &[u64],
)
    ensures { Tells W.contents W.has_refused out.old out.new
        (says.summary_text K.names.domain report.now end refused.now) }
{
    tell_end(out, end);
    tell_states(out, report);
    tell_all_stalled(out, report);
    tell_group(out, report, Group::Accepted);
    tell_group(out, report, Group::Left);
    tell_all_refused(out, refused);
}

/// The text of the summary of a run: its end, each object's state, the objects that are stalled, how many requests of
/// each sender were accepted and are left at each object, and how many lines of each session were refused.
///
/// The cost is the square of the count of objects, and for what is left at an object that count once more for each
/// request. The error is out of memory for the text, which has one line at most for each of these.
pub fn summary_of<D: Drop, K: MailNames>(
    alloc: Global,
    report: &Report<D, K>,
    end: ServeEnd,
    refused: &[u64],
) -> Result<Vec<u8>, AllocError>
    ensures { IfOk result (λ text. text.items ≡ says.summary_text K.names.domain report.now end refused.now) }
{
    let mut text = Vec::new(alloc);
    let mut out = Out::new(&mut text);
    tell_all(&mut out, report, end, refused);
    if out.failed {
        Err(AllocError)
    } else {
        Ok(text)
    }
}
