//! The explanation of the first fault of a line of a journal.

use crate::arguments::{kind_word, tell_call};
use crate::declared::{
    tell_no_action, tell_no_object, tell_no_set, tell_no_state, tell_undeclared,
};
use crate::entry_fault::{EntryCause, EntryFault, Wanted};
use crate::entry_lines::ENTRY_WORDS;
use crate::pieces::name_at;
use crate::verb::offer_word;
use crate::words::{tell_marked, tell_name};
use explain_places::Nearest;
use sml_domain::{ActionId, Domain, ObjId, Param};
use sml_text::Sink;
use sml_writer::Out;

const RETURNED: &[u8] =
    b"the line ends with a carriage return: those of a journal end with a line feed alone";

const LATER: &[u8] =
    b"the lines `insert`, `remove` and `empty` are of journals that begin with `smi-journal 2`";

/// Writes the sentence of a fault, without its end.
pub(crate) fn tell_entry_fault<W: Sink>(
    out: &mut Out<'_, W>,
    domain: &Domain,
    line: &[u8],
    fault: &EntryFault,
) {
    match fault.cause {
        EntryCause::NoFeed => out.say(b"a line feed has to end the line"),
        EntryCause::Returned => out.say(RETURNED),
        EntryCause::Empty => out.say(b"an empty line is no entry"),
        EntryCause::NoWord => tell_no_word(out, line, fault.at),
        EntryCause::UpperWord => out.say(b"the first word of an entry stands in lower case"),
        EntryCause::LaterWord => out.say(LATER),
        EntryCause::NoPreposition => out.say(
            b"the name of a set expected: entries have no `in` and no `from`",
        ),
        EntryCause::Blank => out.say(b"one blank stands between words, and none at the end"),
        EntryCause::Expected(wanted) => tell_wanted(out, wanted),
        EntryCause::NoSession => out.say(b"sessions are @1 to @8"),
        EntryCause::Arguments(o, action) => tell_arguments(out, domain, o, action),
        EntryCause::TooMuch => out.say(b"nothing more expected in the line"),
        EntryCause::LowerName
        | EntryCause::UnknownObject
        | EntryCause::UnknownAction
        | EntryCause::UnknownState
        | EntryCause::UnknownSet
        | EntryCause::Undeclared(_) => tell_of_name(out, domain, line, fault),
    }
}

// Writes which words begin entries.
fn tell_no_word<W: Sink>(out: &mut Out<'_, W>, line: &[u8], at: usize) {
    out.say(b"an entry begins with start, post, wait, seen, end, kill, insert, remove or empty");
    let Some(name) = name_at(line, at) else {
        return;
    };
    let mut nearest = Nearest::new(&name);
    for word in &ENTRY_WORDS {
        offer_word(&mut nearest, word);
    }
    if let Some(found) = nearest.found() {
        out.say(b"; did you mean ");
        tell_lower(out, found.as_bytes());
        out.say(b"?");
    }
}

// Writes a word in lower case, in marks.
fn tell_lower<W: Sink>(out: &mut Out<'_, W>, word: &[u8]) {
    out.say(b"`");
    for b in word {
        out.say(&[b.to_ascii_lowercase()]);
    }
    out.say(b"`");
}

// Writes what was expected.
fn tell_wanted<W: Sink>(out: &mut Out<'_, W>, wanted: Wanted) {
    let words: &[u8] = match wanted {
        Wanted::Object => b"the name of an object",
        Wanted::Sender => b"a session `@1` to `@8` or the name of an object",
        Wanted::Number => b"a number without needless zeros",
        Wanted::Verdict => b"a number without needless zeros, or `refused full` or `refused dead`",
        Wanted::FullOrDead => b"`full` or `dead`",
        Wanted::Action => b"the name of an action",
        Wanted::State => b"the name of a state",
        Wanted::Reading => b"a reading `OBJECT=STATE`",
        Wanted::End => b"the name of a state, or `skipped`,",
        Wanted::Cause => b"a session `@1` to `@8`, or `fault`,",
        Wanted::Set => b"the name of a set",
    };
    out.say(words);
    out.say(b" expected");
}

// Writes how the arguments of an action are spelled.
fn tell_arguments<W: Sink>(out: &mut Out<'_, W>, domain: &Domain, o: ObjId, action: ActionId) {
    out.say(b"the arguments of ");
    tell_call(out, domain, o, action);
    out.say(b" are spelled ");
    let mut before: &[u8] = b"(";
    if let Some(params) = domain.parameters(o, action) {
        for param in params {
            out.say(before);
            tell_spelled(out, param);
            before = b", ";
        }
    }
    out.say(b")");
}

// Writes the name of a parameter and its kind.
fn tell_spelled<W: Sink>(out: &mut Out<'_, W>, param: &Param) {
    tell_name(out, &param.name);
    out.say(b" = ");
    out.say(kind_word(param.kind));
}

// Writes what is wrong with a name.
fn tell_of_name<W: Sink>(out: &mut Out<'_, W>, domain: &Domain, line: &[u8], fault: &EntryFault) {
    let Some(name) = name_at(line, fault.at) else {
        return;
    };
    match fault.cause {
        EntryCause::UnknownObject => tell_no_object(out, domain, &name),
        EntryCause::UnknownAction => tell_no_action(out, domain, &name),
        EntryCause::UnknownState => tell_no_state(out, domain, &name),
        EntryCause::UnknownSet => tell_no_set(out, domain, &name),
        EntryCause::Undeclared(o) => tell_undeclared(out, domain, o, &name),
        _ => {
            out.say(b"names stand in upper case: ");
            tell_marked(out, name.as_bytes());
        }
    }
}
