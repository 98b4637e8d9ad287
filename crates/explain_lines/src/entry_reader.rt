//! A line of a journal that is read up to its first fault.

use crate::entry_fault::{EntryCause, EntryFault, Wanted};
use crate::form::{Form, Piece};
use crate::pieces::{from, name_of, part, piece_at};
use sml_domain::{ActionId, Domain, ObjId, Param};
use sml_tree::Name;

/// The text from the beginning of a line on. Lines count from 1. The cost is the length of what is before it.
pub(crate) fn text_from(text: &[u8], number: usize) -> &[u8] {
    let mut before = number.saturating_sub(1);
    for (at, b) in text.iter().enumerate() {
        if before == 0 {
            return from(text, at);
        }
        if *b == b'\n' {
            before = before.saturating_sub(1);
        }
    }
    &[]
}

/// A line of a text, without its line feed.
pub(crate) fn line_of(text: &[u8], number: usize) -> &[u8] {
    let rest = text_from(text, number);
    part(rest, 0, length_before(rest, b'\n'))
}

// How many bytes are before the first such byte, or how many there are.
fn length_before(bytes: &[u8], byte: u8) -> usize {
    match bytes.iter().position(|b| *b == byte) {
        Some(at) => at,
        None => bytes.len(),
    }
}

/// A word, and the place of its first byte.
#[derive(Clone, Copy)]
pub(crate) struct Word<'a> {
    pub(crate) at: usize,
    pub(crate) bytes: &'a [u8],
}

/// A line of a journal, how far it was read, and the fault that was found.
#[derive(Drop)]
pub(crate) struct EntryReader<'a> {
    line: &'a [u8],
    // the place behind what was read
    place: usize,
    fault: Option<EntryFault>,
}

impl<'a> EntryReader<'a> {
    // Nothing is read yet.
    pub(crate) fn new(line: &'a [u8]) -> EntryReader<'a> {
        EntryReader {
            line,
            place: 0,
            fault: None,
        }
    }

    // The fault that was found.
    pub(crate) fn fault(&self) -> Option<EntryFault> {
        self.fault
    }

    // Keeps a fault.
    pub(crate) fn fail(&mut self, at: usize, cause: EntryCause) {
        self.fault = Some(EntryFault { at, cause });
    }

    // Whether all is read.
    pub(crate) fn is_at_end(&self) -> bool {
        self.place >= self.line.len()
    }

    // Reads the word that begins at a place.
    fn word_at(&mut self, at: usize) -> Word<'a> {
        let rest = from(self.line, at);
        let length = length_before(rest, b' ');
        self.place = at.saturating_add(length);
        Word {
            at,
            bytes: part(rest, 0, length),
        }
    }

    // Reads the first word.
    pub(crate) fn first(&mut self) -> Word<'a> {
        self.word_at(0)
    }

    // Reads the word behind the next blank.
    pub(crate) fn word(&mut self, wanted: Wanted) -> Option<Word<'a>> {
        if self.is_at_end() {
            self.fail(self.place, EntryCause::Expected(wanted));
            return None;
        }
        let word = self.word_at(self.place.saturating_add(1));
        if word.bytes.is_empty() {
            self.fail(word.at, EntryCause::Blank);
            return None;
        }
        Some(word)
    }

    // The name that a word spells.
    fn name(&mut self, word: &Word, wanted: Wanted) -> Option<Name> {
        let Some(name) = name_of(word.bytes) else {
            self.fail(word.at, EntryCause::Expected(wanted));
            return None;
        };
        if name.as_bytes() != word.bytes {
            self.fail(word.at, EntryCause::LowerName);
            return None;
        }
        Some(name)
    }

    // The object whose name a word is.
    pub(crate) fn object_in(
        &mut self,
        domain: &Domain,
        word: &Word,
        wanted: Wanted,
    ) -> Option<ObjId> {
        let name = self.name(word, wanted)?;
        let found = domain.object(&name);
        if found.is_none() {
            self.fail(word.at, EntryCause::UnknownObject);
        }
        found
    }

    // Reads the name of an object.
    pub(crate) fn object(&mut self, domain: &Domain) -> Option<ObjId> {
        let word = self.word(Wanted::Object)?;
        self.object_in(domain, &word, Wanted::Object)
    }

    // Reads the name of a set.
    pub(crate) fn set(&mut self, domain: &Domain) -> Option<()> {
        let word = self.word(Wanted::Set)?;
        if let b"in" | b"from" = word.bytes {
            self.fail(word.at, EntryCause::NoPreposition);
            return None;
        }
        let name = self.name(&word, Wanted::Set)?;
        if domain.set(&name).is_none() {
            self.fail(word.at, EntryCause::UnknownSet);
            return None;
        }
        Some(())
    }

    // Looks a state up.
    pub(crate) fn state_in(&mut self, domain: &Domain, word: &Word, wanted: Wanted) -> Option<()> {
        let name = self.name(word, wanted)?;
        if domain.state(&name).is_none() {
            self.fail(word.at, EntryCause::UnknownState);
            return None;
        }
        Some(())
    }

    // Looks at a session.
    pub(crate) fn session_in(&mut self, word: &Word) -> Option<()> {
        match word.bytes {
            [b'@', b'1'..=b'8'] => Some(()),
            _ => {
                self.fail(word.at, EntryCause::NoSession);
                None
            }
        }
    }

    // Reads an action of an object, with its arguments.
    pub(crate) fn call(&mut self, domain: &Domain, o: ObjId) -> Option<()> {
        let word = self.word(Wanted::Action)?;
        let name = self.name(&word, Wanted::Action)?;
        let Some(action) = domain.action(&name) else {
            self.fail(word.at, EntryCause::UnknownAction);
            return None;
        };
        match domain.parameters(o, action) {
            Some([]) => self.end(),
            Some(params) => self.arguments(params, o, action),
            None if self.is_at_end() => Some(()),
            None => {
                self.fail(word.at, EntryCause::Undeclared(o));
                None
            }
        }
    }

    // Reads the arguments of an action, and the end of the line.
    fn arguments(&mut self, params: &[Param], o: ObjId, action: ActionId) -> Option<()> {
        if !self.skip_arguments(params) {
            self.fail(self.place, EntryCause::Arguments(o, action));
            return None;
        }
        self.end()
    }

    // Goes behind arguments, or up to the first byte that differs from them, and tells which.
    fn skip_arguments(&mut self, params: &[Param]) -> bool {
        let mut before: &[u8] = b" (";
        for param in params {
            if !self.skip(before) || !self.skip(param.name.as_bytes()) {
                return false;
            }
            if !self.skip(b" = ") || !self.skip_value() {
                return false;
            }
            before = b", ";
        }
        self.skip(b")")
    }

    // Goes behind these bytes, or up to the first that differs, and tells which.
    fn skip(&mut self, bytes: &[u8]) -> bool {
        for b in bytes {
            match from(self.line, self.place) {
                [next, ..] if *next == *b => self.place = self.place.saturating_add(1),
                _ => return false,
            }
        }
        true
    }

    // Goes behind an int or a string as journals spell it. False if there is no such value.
    fn skip_value(&mut self) -> bool {
        let Piece::Token(token) = piece_at(self.line, self.place) else {
            return false;
        };
        if token.form != Form::Value || token.at != self.place {
            return false;
        }
        if !is_spelled(part(self.line, token.at, token.end)) {
            return false;
        }
        self.place = token.end;
        true
    }

    // Reads the end of the line.
    pub(crate) fn end(&mut self) -> Option<()> {
        if self.is_at_end() {
            return Some(());
        }
        let at = match from(self.line, self.place) {
            [b' ', _, ..] => self.place.saturating_add(1),
            _ => self.place,
        };
        self.fail(at, EntryCause::TooMuch);
        None
    }
}

// Whether a value has no needless zero and no needless minus.
fn is_spelled(value: &[u8]) -> bool {
    match value {
        [b'0', _, ..] | [b'-', b'0', ..] => false,
        _ => true,
    }
}

/// Whether bytes are a number of 64 bits without needless zeros.
pub(crate) fn is_number(bytes: &[u8]) -> bool {
    if let [b'0', _, ..] = bytes {
        return false;
    }
    let mut number: u64 = 0;
    for b in bytes {
        let digit = match *b {
            b'0'..=b'9' => u64::from(b.saturating_sub(b'0')),
            _ => return false,
        };
        number = match number
            .checked_mul(10)
            .and_then(|tens| tens.checked_add(digit))
        {
            Some(next) => next,
            None => return false,
        };
    }
    !bytes.is_empty()
}
