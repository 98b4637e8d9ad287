//! Tokens of a text, and the names that words are.

pub(crate) use explain_landmarks::{Piece, Tokens};
use sml_read::Reader;
use sml_text::LONGEST_NAME;
use sml_tree::Name;

/// Whether two tokens stand on one line, the second behind the first.
pub(crate) fn on_one_line(text: &[u8], first: Piece, second: Piece) -> bool {
    match text.get(first.end..second.at) {
        Some(between) => !between.iter().any(|b| *b == b'\n'),
        None => false,
    }
}

/// The name that a word is, or None if it is reserved or no word.
pub(crate) fn name_of(word: &[u8]) -> Option<Name> {
    if word.len() > LONGEST_NAME {
        return None;
    }
    Reader::new(word).named().ok()
}
