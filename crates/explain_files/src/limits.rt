//! Limits that a text goes beyond.

use crate::teller::Teller;
use crate::trail::Trail;
use sml_text::Sink;
use sml_tree::{
    MAX_ACTIONS, MAX_ARGUMENTS, MAX_CLASSES, MAX_IFS, MAX_MEMBERS, MAX_NAMES, MAX_OBJECTS,
    MAX_OPEN, MAX_PARAMETERS, MAX_SETS, MAX_STATES, MAX_TESTS, MAX_WAITED, TokenKind,
};

/// Says which limit the item at the place is beyond.
pub(crate) fn tell_too_many<W: Sink>(out: &mut Teller<'_, '_, W>, trail: &Trail) {
    let (whole, limit, parts): (&[u8], usize, &[u8]) = match trail.found.kind {
        TokenKind::Class => (b"a file", MAX_CLASSES, b" classes"),
        TokenKind::Object => (b"a file", MAX_OBJECTS, b" objects"),
        TokenKind::ObjectSet => (b"a file", MAX_SETS, b" sets"),
        TokenKind::State => (b"a class", MAX_STATES, b" states"),
        TokenKind::Action => (b"a state", MAX_ACTIONS, b" actions"),
        TokenKind::IntKind | TokenKind::StringKind => {
            (b"a list of parameters", MAX_PARAMETERS, b" parameters")
        }
        _ => in_list(trail),
    };
    out.say(whole);
    out.say(b" has at most ");
    out.number(limit as u64);
    out.say(parts);
}

// What has too many names, how many it may have, and of what.
fn in_list(trail: &Trail) -> (&'static [u8], usize, &'static [u8]) {
    match (trail.head.kind, trail.last.kind) {
        (TokenKind::Do, _) => (b"a `do`", MAX_ARGUMENTS, b" arguments"),
        (TokenKind::Wait, _) => (b"a `wait`", MAX_WAITED, b" names"),
        (TokenKind::ObjectSet, _) => (b"a set", MAX_MEMBERS, b" members"),
        (_, TokenKind::Comma) => (b"a list of states", MAX_NAMES, b" names"),
        _ => (b"a condition", MAX_TESTS as usize, b" tests"),
    }
}

/// Says what is nested too deeply at the place.
pub(crate) fn tell_too_deep<W: Sink>(out: &mut Teller<'_, '_, W>, trail: &Trail) {
    if matches!(trail.found.kind, TokenKind::If) {
        out.say(b"an `if` stands inside at most ");
        out.number(u64::from(MAX_IFS));
        out.say(b" others");
        if let Some(open) = trail.ifs.as_slice().first() {
            out.say(b"; the outermost is that of ");
            out.spot(open.at);
        }
    } else {
        out.say(b"a `not` or a bracket of a condition stands inside at most ");
        out.number(u64::from(MAX_OPEN));
        out.say(b" others that are open");
    }
}
