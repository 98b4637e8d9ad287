//! The words that lines begin with.

use crate::bad_line::LineKind;
use crate::foreign::advice_on;
use crate::pieces::{name_at, name_of};
use crate::words::tell_marked;
use explain_places::Nearest;
use sml_text::Sink;
use sml_tree::Name;
use sml_writer::Out;

/// The first word of a line.
#[derive(Clone, Copy, Eq, PartialEq)]
pub(crate) enum Verb {
    Request,
    Start,
    Go,
    Answer,
    Fault,
    Kill,
    Device,
}

// All verbs, those of scripts alone last.
const VERBS: [Verb; 7] = [
    Verb::Request,
    Verb::Start,
    Verb::Go,
    Verb::Answer,
    Verb::Fault,
    Verb::Kill,
    Verb::Device,
];

impl Verb {
    // The word in upper case.
    fn upper_word(self) -> &'static [u8] {
        match self {
            Verb::Request => b"REQUEST",
            Verb::Start => b"START",
            Verb::Go => b"GO",
            Verb::Answer => b"ANSWER",
            Verb::Fault => b"FAULT",
            Verb::Kill => b"KILL",
            Verb::Device => b"DEVICE",
        }
    }

    /// The word as it is usually written.
    pub(crate) fn word(self) -> &'static [u8] {
        match self {
            Verb::Request => b"request",
            Verb::Start => b"start",
            Verb::Go => b"go",
            Verb::Answer => b"answer",
            Verb::Fault => b"fault",
            Verb::Kill => b"kill",
            Verb::Device => b"device",
        }
    }

    /// The form of its lines.
    pub(crate) fn form(self) -> &'static [u8] {
        match self {
            Verb::Request => b"request @S OBJECT ACTION (NAME = value, ..)",
            Verb::Start => b"start OBJECT",
            Verb::Go => b"go OBJECT",
            Verb::Answer => b"answer OBJECT STATE",
            Verb::Fault => b"fault OBJECT",
            Verb::Kill => b"kill OBJECT @S",
            Verb::Device => b"device OBJECT ACTION STATE",
        }
    }

    /// Whether lines of a kind may begin with it.
    pub(crate) fn is_of(self, kind: LineKind) -> bool {
        match self {
            Verb::Request | Verb::Kill => true,
            Verb::Start | Verb::Go | Verb::Answer | Verb::Fault => {
                matches!(kind, LineKind::Schedule)
            }
            Verb::Device => matches!(kind, LineKind::Script),
        }
    }
}

// The verb of a name.
fn verb_of(name: &Name) -> Option<Verb> {
    VERBS
        .iter()
        .find(|verb| name.as_bytes() == verb.upper_word())
        .copied()
}

/// The verb that is in a line at a place.
pub(crate) fn verb_at(line: &[u8], place: usize) -> Option<Verb> {
    let name = name_at(line, place)?;
    verb_of(&name)
}

// The verb of a kind of lines that is nearest in spelling to a name.
fn nearest_verb(kind: LineKind, name: &Name) -> Option<Verb> {
    let mut nearest = Nearest::new(name);
    for verb in &VERBS {
        if verb.is_of(kind) {
            offer_word(&mut nearest, verb.word());
        }
    }
    let found = nearest.found()?;
    verb_of(&found)
}

/// Offers a word as a name.
pub(crate) fn offer_word(nearest: &mut Nearest, word: &[u8]) {
    if let Some(name) = name_of(word) {
        nearest.offer(&name);
    }
}

/// Writes which verbs there are, and which may have been meant by the word at a place.
pub(crate) fn tell_verbs<W: Sink>(out: &mut Out<'_, W>, kind: LineKind, line: &[u8], place: usize) {
    let verbs: &[u8] = match kind {
        LineKind::Schedule => b"request, start, go, answer, fault or kill",
        LineKind::Script => b"request, kill or device",
    };
    out.say(b"a line begins with ");
    out.say(verbs);
    if let Some(name) = name_at(line, place) {
        tell_meant(out, kind, &name);
    }
}

// Writes what to write in place of a word that other programs have, or which verb may have been meant.
fn tell_meant<W: Sink>(out: &mut Out<'_, W>, kind: LineKind, name: &Name) {
    if let Some(advice) = advice_on(kind, name.as_bytes()) {
        return out.say(advice);
    }
    if let Some(verb) = nearest_verb(kind, name) {
        out.say(b"; did you mean ");
        tell_marked(out, verb.word());
        out.say(b"?");
    }
}
