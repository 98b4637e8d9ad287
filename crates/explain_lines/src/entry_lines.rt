//! The first fault of a line of a journal.

use crate::entry_fault::{EntryCause, EntryFault, Wanted};
use crate::entry_reader::{EntryReader, Word, is_number};
use crate::pieces::{from, part};
use smi_journal::Format;
use sml_domain::Domain;

/// The first fault of a line of a journal in a format, or None if it is an entry.
pub(crate) fn fault_in_entry(domain: &Domain, format: Format, line: &[u8]) -> Option<EntryFault> {
    let mut reader = EntryReader::new(line);
    match line {
        [] => reader.fail(0, EntryCause::Empty),
        [.., b'\r'] => reader.fail(line.len().saturating_sub(1), EntryCause::Returned),
        _ => {
            let _ = read_entry(&mut reader, domain, format, line.len());
        }
    }
    reader.fault()
}

// Reads an entry, in a line of this length.
fn read_entry(
    reader: &mut EntryReader,
    domain: &Domain,
    format: Format,
    length: usize,
) -> Option<()> {
    let word = reader.first();
    match word.bytes {
        b"start" => read_start(reader, domain),
        b"post" => read_post(reader, domain),
        b"wait" => {
            reader.object(domain)?;
            reader.end()
        }
        b"seen" => read_seen(reader, domain, length),
        b"end" => read_end(reader, domain),
        b"kill" => read_kill(reader, domain),
        b"insert" | b"remove" | b"empty" => read_of_sets(reader, domain, format, &word),
        _ => {
            reader.fail(word.at, wrong_word(word.bytes));
            None
        }
    }
}

// Reads what is behind the word of an entry that only the second format has.
fn read_of_sets(
    reader: &mut EntryReader,
    domain: &Domain,
    format: Format,
    word: &Word,
) -> Option<()> {
    if format == Format::One {
        reader.fail(word.at, EntryCause::LaterWord);
        return None;
    }
    reader.object(domain)?;
    if word.bytes != b"empty".as_slice() {
        reader.object(domain)?;
    }
    reader.set(domain)?;
    reader.end()
}

/// The words that begin entries.
pub(crate) const ENTRY_WORDS: [&[u8]; 9] = [
    b"start", b"post", b"wait", b"seen", b"end", b"kill", b"insert", b"remove", b"empty",
];

// Why a word begins no entry.
fn wrong_word(bytes: &[u8]) -> EntryCause {
    if ENTRY_WORDS.iter().any(|word| is_in_other_case(bytes, word)) {
        EntryCause::UpperWord
    } else {
        EntryCause::NoWord
    }
}

// Whether bytes are a word, which is in lower case, up to the case of letters.
fn is_in_other_case(bytes: &[u8], word: &[u8]) -> bool {
    bytes.len() == word.len()
        && bytes
            .iter()
            .zip(word)
            .all(|(b, letter)| b.to_ascii_lowercase() == *letter)
}

// Reads what is behind `start`.
fn read_start(reader: &mut EntryReader, domain: &Domain) -> Option<()> {
    let object = reader.object(domain)?;
    let sender = reader.word(Wanted::Sender)?;
    read_sender(reader, domain, &sender)?;
    let number = reader.word(Wanted::Number)?;
    if !is_number(number.bytes) {
        reader.fail(number.at, EntryCause::Expected(Wanted::Number));
        return None;
    }
    reader.call(domain, object)
}

// Looks at a sender.
fn read_sender(reader: &mut EntryReader, domain: &Domain, word: &Word) -> Option<()> {
    match word.bytes {
        [b'@', ..] => reader.session_in(word),
        _ => {
            reader.object_in(domain, word, Wanted::Sender)?;
            Some(())
        }
    }
}

// Reads what is behind `post`.
fn read_post(reader: &mut EntryReader, domain: &Domain) -> Option<()> {
    reader.object(domain)?;
    let target = reader.object(domain)?;
    let verdict = reader.word(Wanted::Verdict)?;
    read_verdict(reader, &verdict)?;
    reader.call(domain, target)
}

// Looks at a verdict. `refused` has one more word.
fn read_verdict(reader: &mut EntryReader, word: &Word) -> Option<()> {
    if word.bytes == b"refused".as_slice() {
        let why = reader.word(Wanted::FullOrDead)?;
        return match why.bytes {
            b"full" | b"dead" => Some(()),
            _ => {
                reader.fail(why.at, EntryCause::Expected(Wanted::FullOrDead));
                None
            }
        };
    }
    if is_number(word.bytes) {
        return Some(());
    }
    reader.fail(word.at, EntryCause::Expected(Wanted::Verdict));
    None
}

// Reads what is behind `seen`: an object, and readings up to the end of the line.
fn read_seen(reader: &mut EntryReader, domain: &Domain, length: usize) -> Option<()> {
    reader.object(domain)?;
    for _ in 0..length {
        if reader.is_at_end() {
            return Some(());
        }
        let word = reader.word(Wanted::Reading)?;
        read_reading(reader, domain, &word)?;
    }
    Some(())
}

// Looks at a reading.
fn read_reading(reader: &mut EntryReader, domain: &Domain, word: &Word) -> Option<()> {
    let Some(equals) = word.bytes.iter().position(|b| *b == b'=') else {
        reader.fail(word.at, EntryCause::Expected(Wanted::Reading));
        return None;
    };
    let object = Word {
        at: word.at,
        bytes: part(word.bytes, 0, equals),
    };
    let behind = equals.saturating_add(1);
    let state = Word {
        at: word.at.saturating_add(behind),
        bytes: from(word.bytes, behind),
    };
    reader.object_in(domain, &object, Wanted::Reading)?;
    reader.state_in(domain, &state, Wanted::State)
}

// Reads what is behind `end`.
fn read_end(reader: &mut EntryReader, domain: &Domain) -> Option<()> {
    reader.object(domain)?;
    let word = reader.word(Wanted::End)?;
    if word.bytes != b"skipped".as_slice() {
        reader.state_in(domain, &word, Wanted::End)?;
    }
    reader.end()
}

// Reads what is behind `kill`.
fn read_kill(reader: &mut EntryReader, domain: &Domain) -> Option<()> {
    reader.object(domain)?;
    let word = reader.word(Wanted::Cause)?;
    match word.bytes {
        b"fault" => {}
        [b'@', ..] => reader.session_in(&word)?,
        _ => {
            reader.fail(word.at, EntryCause::Expected(Wanted::Cause));
            return None;
        }
    }
    reader.end()
}
