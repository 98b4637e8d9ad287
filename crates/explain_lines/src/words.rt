//! Words and lists of names in a sentence.

use explain_places::Nearest;
use sml_text::{LONGEST_NAME, Sink};
use sml_tree::Name;
use sml_writer::Out;

// How many names a list tells.
const LISTED: usize = 16;

/// Writes a name.
pub(crate) fn tell_name<W: Sink>(out: &mut Out<'_, W>, name: &Name) {
    out.say(name.as_bytes());
}

/// Writes bytes of a line in marks: at most as many as the longest name has. A byte that no terminal shows is written
/// as a question mark.
pub(crate) fn tell_marked<W: Sink>(out: &mut Out<'_, W>, bytes: &[u8]) {
    out.say(b"`");
    for b in bytes.iter().take(LONGEST_NAME) {
        let shown = match *b {
            b' '..=b'~' => *b,
            _ => b'?',
        };
        out.say(&[shown]);
    }
    if bytes.len() > LONGEST_NAME {
        out.say(b"..");
    }
    out.say(b"`");
}

/// Writes a number, and a noun behind it, which has an `s` unless the number is 1.
pub(crate) fn tell_count<W: Sink>(out: &mut Out<'_, W>, count: usize, noun: &[u8]) {
    out.number(count as u64);
    out.say(b" ");
    out.say(noun);
    if count != 1 {
        out.say(b"s");
    }
}

/// Writes which name may have been meant, if one was near.
pub(crate) fn tell_meant<W: Sink>(out: &mut Out<'_, W>, nearest: &Nearest) {
    if let Some(name) = nearest.found() {
        out.say(b"; did you mean ");
        tell_name(out, &name);
        out.say(b"?");
    }
}

/// A list of names in brackets, of which `count` are written. Nothing is written of an empty list.
#[derive(Drop)]
pub(crate) struct NameList {
    count: usize,
}

impl NameList {
    // No name is written yet.
    pub(crate) fn new() -> NameList {
        NameList { count: 0 }
    }

    // Writes one more name, or once that there are more.
    pub(crate) fn add<W: Sink>(&mut self, out: &mut Out<'_, W>, name: &Name) {
        if self.count < LISTED {
            let before: &[u8] = if self.count == 0 { b" (" } else { b", " };
            out.say(before);
            tell_name(out, name);
        } else if self.count == LISTED {
            out.say(b", ..");
        }
        self.count = self.count.saturating_add(1);
    }

    // Ends the list.
    pub(crate) fn end<W: Sink>(&self, out: &mut Out<'_, W>) {
        if self.count > 0 {
            out.say(b")");
        }
    }
}
