//! What to write in place of something that is no part of the language.

use crate::teller::Teller;
use crate::tokens::Piece;
use sml_text::Sink;
use sml_tree::TokenKind;

/// What to write instead.
#[derive(Clone, Copy)]
pub(crate) enum Advice {
    /// The words of the language that say it.
    Write(&'static [u8]),
    /// A sentence.
    Say(&'static [u8]),
    /// These states in braces.
    States(Piece, Piece),
    /// This value with a name before it.
    Argument(Piece),
    /// A `do` with this action, and this object or `all_in`.
    Do(Piece, Piece),
    /// A `set` of this parameter.
    Set(Piece),
    /// `all_in` or `any_in` before this set.
    Of(&'static [u8], Piece),
}

/// Writes behind a sentence what to write instead.
pub(crate) fn tell_advice<W: Sink>(out: &mut Teller<'_, '_, W>, advice: Advice) {
    match advice {
        Advice::Write(words) => tell_meant(out, words, None, b""),
        Advice::Say(sentence) => {
            out.say(b": ");
            out.say(sentence);
        }
        Advice::States(first, second) => tell_states(out, first, second),
        Advice::Argument(value) => {
            out.say(b": arguments have names, as in `(NAME = ");
            out.piece(value);
            out.say(b")`");
        }
        Advice::Do(action, object) => tell_do(out, action, object),
        Advice::Set(name) => tell_meant(out, b"set", Some(name), b" = .."),
        Advice::Of(word, set) => tell_meant(out, word, Some(set), b""),
    }
}

// What may have been meant: words, a piece of the text, and more words.
fn tell_meant<W: Sink>(
    out: &mut Teller<'_, '_, W>,
    words: &[u8],
    piece: Option<Piece>,
    behind: &[u8],
) {
    out.say(b"; did you mean `");
    out.say(words);
    if let Some(piece) = piece {
        out.say(b" ");
        out.piece(piece);
    }
    out.say(behind);
    out.say(b"`?");
}

// Two states as a list.
fn tell_states<W: Sink>(out: &mut Teller<'_, '_, W>, first: Piece, second: Piece) {
    out.say(b": a list of states stands in braces, as in `{ ");
    out.piece(first);
    out.say(b", ");
    out.piece(second);
    out.say(b" }`");
}

// A `do` of an action at an object, or at a set that is not told.
fn tell_do<W: Sink>(out: &mut Teller<'_, '_, W>, action: Piece, object: Piece) {
    out.say(b"; did you mean `do ");
    out.piece(action);
    out.say(b" ");
    out.piece(object);
    if matches!(object.kind, TokenKind::AllIn) {
        out.say(b" ..");
    }
    out.say(b"`?");
}
