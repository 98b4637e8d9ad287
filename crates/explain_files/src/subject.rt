//! What sentences are about, and parts that several have.

use crate::directory::Directory;
use crate::spots::Spots;
use crate::teller::Teller;
use crate::tokens::Tokens;
use explain_places::Nearest;
use sml_text::Sink;
use sml_tree::Name;

/// What sentences are about: the file by its names, and where those are in the text.
#[derive(Clone, Copy)]
pub(crate) struct Subject<'s> {
    pub directory: &'s Directory<'s>,
    pub spots: &'s Spots,
}

/// A name between words.
pub(crate) fn tell_of<W: Sink>(
    out: &mut Teller<'_, '_, W>,
    before: &[u8],
    name: &Name,
    behind: &[u8],
) {
    out.say(before);
    out.name(name);
    out.say(behind);
}

/// The name that may have been meant.
pub(crate) fn tell_nearest<W: Sink>(out: &mut Teller<'_, '_, W>, nearest: &Nearest) {
    if let Some(name) = nearest.found() {
        tell_of(out, b"; did you mean ", &name, b"?");
    }
}

/// The name of the class at a place.
pub(crate) fn tell_class_name<W: Sink>(
    out: &mut Teller<'_, '_, W>,
    subject: Subject<'_>,
    class: usize,
) {
    if let Some(class) = subject.directory.class_at(class) {
        out.say(b"class ");
        out.name(&class.name);
    }
}

/// The name that is at a place of the text.
pub(crate) fn tell_called<W: Sink>(out: &mut Teller<'_, '_, W>, call: usize) {
    let text = out.text;
    let rest = text.split_at(call.min(text.len())).1;
    if let Some(piece) = Tokens::new(rest).take() {
        for b in piece.bytes(rest) {
            out.say(&[b.to_ascii_uppercase()]);
        }
    }
}

/// A comma, before each name of a list except the first.
pub(crate) fn tell_comma<W: Sink>(out: &mut Teller<'_, '_, W>, before: usize) {
    if before > 0 {
        out.say(b", ");
    }
}
