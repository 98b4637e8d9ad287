//! The parts of a sentence.

use crate::tokens::Piece;
use explain_places::{place_of, tell_place, tell_quoted, tell_spot};
use sml_text::Sink;
use sml_tree::Name;
use sml_writer::Out;

// How many bytes of a token are shown.
const SHOWN: usize = 64;

/// Writes sentences about a text.
#[derive(Drop)]
pub(crate) struct Teller<'t, 'w, W: Sink> {
    pub file: &'t str,
    pub text: &'t [u8],
    pub out: &'t mut Out<'w, W>,
}

impl<W: Sink> Teller<'_, '_, W> {
    /// Writes words as they are.
    pub(crate) fn say(&mut self, words: &[u8]) {
        self.out.say(words);
    }

    /// Writes a number.
    pub(crate) fn number(&mut self, number: u64) {
        self.out.number(number);
    }

    /// Writes a name.
    pub(crate) fn name(&mut self, name: &Name) {
        self.say(name.as_bytes());
    }

    /// Writes the word that a name spells, in small letters.
    pub(crate) fn word(&mut self, name: &Name) {
        for b in name.as_bytes() {
            self.say(&[b.to_ascii_lowercase()]);
        }
    }

    /// Writes bytes of the text between marks, a long piece cut short.
    pub(crate) fn quoted(&mut self, bytes: &[u8]) {
        self.say(b"`");
        self.say(bytes.split_at(bytes.len().min(SHOWN)).0);
        if bytes.len() > SHOWN {
            self.say(b"..");
        }
        self.say(b"`");
    }

    /// Writes a token of the text, a long one cut short.
    pub(crate) fn piece(&mut self, piece: Piece) {
        let text = self.text;
        let bytes = piece.bytes(text);
        self.say(bytes.split_at(bytes.len().min(SHOWN)).0);
        if bytes.len() > SHOWN {
            self.say(b"..");
        }
    }

    /// Writes the line and the column of a place.
    pub(crate) fn spot(&mut self, offset: usize) {
        tell_spot(&mut *self.out, place_of(self.text, offset));
    }

    /// Writes the file and the place in front of a sentence.
    pub(crate) fn begin(&mut self, offset: usize) {
        tell_place(&mut *self.out, self.file, place_of(self.text, offset));
    }

    /// Ends a sentence, and shows the line of the place below it.
    pub(crate) fn end(&mut self, offset: usize) {
        self.say(b"\n");
        tell_quoted(&mut *self.out, self.text, offset);
    }
}
