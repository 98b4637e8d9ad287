//! The words of a line, cut off one by one.

use itoa::Buffer;
use std::alloc::AllocError;

/// Why a line is not told by a form.
#[derive(Clone, Copy, Drop)]
pub(crate) enum Stop {
    Memory,
    /// The line has another form.
    Misfit,
}

impl From<AllocError> for Stop {
    fn from(_: AllocError) -> Self {
        Stop::Memory
    }
}

/// What is behind a front.
pub(crate) fn behind<'a>(rest: &'a str, front: &str) -> Result<&'a str, Stop> {
    match rest.strip_prefix(front) {
        Some(rest) => Ok(rest),
        None => Err(Stop::Misfit),
    }
}

// What is before a place, and what is from there on.
fn cut(text: &str, at: Option<usize>) -> (&str, &str) {
    match at {
        Some(at) => text.split_at_checked(at).unwrap_or((text, "")),
        None => (text, ""),
    }
}

/// What is before the first byte of a mark, and what is from there on.
pub(crate) fn cut_before(text: &str, mark: char) -> (&str, &str) {
    cut(text, text.find(mark))
}

/// The name at the front of a text, and what is behind it.
pub(crate) fn cut_name(text: &str) -> (&str, &str) {
    cut(
        text,
        text.find(|c: char| !c.is_ascii_alphanumeric() && c != '_'),
    )
}

// The digits and signs at the front of a text, and what is behind them.
fn cut_digits(text: &str) -> (&str, &str) {
    cut(text, text.find(|c: char| !c.is_ascii_digit() && c != '-'))
}

/// The word that stands behind a blank, and what is behind it.
pub(crate) fn next_word(rest: &str) -> Result<(&str, &str), Stop> {
    match cut_before(behind(rest, " ")?, ' ') {
        ("", _) => Err(Stop::Misfit),
        (word, rest) => Ok((word, rest)),
    }
}

/// The int at the front of a text, and what is behind it. It is the text of an int as the program writes it.
pub(crate) fn next_int(text: &str) -> Result<(i64, &str), Stop> {
    let (digits, rest) = cut_digits(text);
    match digits.parse::<i64>() {
        Ok(n) if Buffer::new().format(n) == digits => Ok((n, rest)),
        _ => Err(Stop::Misfit),
    }
}

/// The number that a word is.
pub(crate) fn count_of(word: &str) -> Result<u64, Stop> {
    match word.parse::<u64>() {
        Ok(n) if Buffer::new().format(n) == word => Ok(n),
        _ => Err(Stop::Misfit),
    }
}
