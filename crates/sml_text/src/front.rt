//! What is at the front of a text.

ghost use Rattle.std.specs.Prelude.{◌≡◌, ◌≤◌, ◌<◌, ◌+◌, ◌^◌, MatchOption, IfSome, length};
ghost use Rattle.sml_text.specs.Bytes.{is_blank as blank, is_word_byte as word_byte, is_letter as letter, is_digit as digit, is_string_byte as string_byte, no_line_feed};
ghost use Rattle.sml_text.specs.Tokens.{Each, digits_value, int_value, IsLong};
ghost use Rattle.sml_text.specs.Front.{front_size, front_stands, IsFront};
ghost use Rattle.sml_text.specs.Scan.{span, front, word_front, int_front, string_front, session_front, sign_front, passes_first, is_quote};

use crate::limits::{LONGEST_NAME, LONGEST_STRING};
use crate::source::{Sign, Source};

/// What is at the front of a text.
#[derive(Clone, Copy, PartialEq, Eq)]
pub enum Front {
    /// The text is at its end.
    End,
    /// A blank or a comment, and how many bytes it has.
    Skip(usize),
    /// A word, and how many bytes it has.
    Word(usize),
    /// An int of `length` bytes, with its minus and leading zeros.
    Int { value: i64, length: usize },
    /// A string, and how many bytes are between its quotes.
    Str(usize),
    Sign(Sign),
    /// A session, from 1 to 8.
    Session(u8),
    /// Not a blank, a comment or a token.
    Bad,
}

impl Front {
    // Whether something is there: neither the end nor bytes that are not a token.
    pub(crate) fn stands(self) -> bool
        ensures { result ≡ front_stands self }
    {
        !matches!(self, Front::End | Front::Bad)
    }

    // How many bytes of the text it takes: 0 at the end and for `Bad`.
    pub(crate) fn size(self) -> usize
        requires { front_size self < 2 ^ 64 }
        ensures { result ≡ front_size self }
    {
        match self {
            Front::End | Front::Bad => 0,
            Front::Skip(length) | Front::Word(length) | Front::Int { length, .. } => length,
            Front::Str(length) => length + 2,
            Front::Sign(_) => 1,
            Front::Session(_) => 2,
        }
    }
}

fn is_blank(c: u8) -> bool
    ensures { result ≡ blank c }
{
    matches!(c, b' ' | b'\t' | b'\r' | b'\n')
}

fn is_letter(c: u8) -> bool
    ensures { result ≡ letter c }
{
    c.is_ascii_alphabetic()
}

fn is_digit(c: u8) -> bool
    ensures { result ≡ digit c }
{
    c.is_ascii_digit()
}

fn is_word_byte(c: u8) -> bool
    ensures { result ≡ word_byte c }
{
    is_letter(c) || is_digit(c) || c == b'_'
}

fn is_string_byte(c: u8) -> bool
    ensures { result ≡ string_byte c }
{
    matches!(c, b' '..=b'~') && c != b'"'
}

// Counts the bytes of a word in front.
fn word_length(text: &[u8]) -> usize
    ensures length { result ≤ length text.now }
    ensures span { result ≡ span word_byte text.now }
{
    text.iter().take_while(|c| is_word_byte(**c)).count()
}

// Counts the digits in front.
fn digits_length(text: &[u8]) -> usize
    ensures length { result ≤ length text.now }
    ensures span { result ≡ span digit text.now }
{
    text.iter().take_while(|c| is_digit(**c)).count()
}

// Counts the bytes before the end of the line.
fn line_length(text: &[u8]) -> usize
    ensures length { result ≤ length text.now }
    ensures span { result ≡ span no_line_feed text.now }
{
    text.iter().take_while(|c| **c != b'\n').count()
}

// Counts the bytes of a string in front.
fn string_length(text: &[u8]) -> usize
    ensures length { result ≤ length text.now }
    ensures span { result ≡ span string_byte text.now }
{
    text.iter().take_while(|c| is_string_byte(**c)).count()
}

// Reads a word whose first letter is just before this text.
fn word_at(rest: &[u8]) -> Front
    ensures { result ≡ word_front rest.now }
{
    let length = word_length(rest) + 1;
    if length <= LONGEST_NAME {
        Front::Word(length)
    } else {
        Front::Bad
    }
}

// Returns the number that digits spell, if it fits. Leading zeros cost a step each and nothing else.
fn number(digits: &[u8]) -> Option<u64>
    requires { Each digit digits.now }
    ensures { MatchOption result (2 ^ 64 ≤ digits_value digits.now) (λ n. n ≡ digits_value digits.now) }
{
    let mut number: u64 = 0;
    for c in digits {
        number = number.checked_mul(10)?.checked_add(u64::from(*c - b'0'))?;
    }
    Some(number)
}

// Returns the int of these digits, if it has 64 bits.
fn int(minus: bool, digits: &[u8]) -> Option<i64>
    requires { Each digit digits.now }
    ensures { MatchOption result (IsLong (int_value minus digits.now) → ⊥) (λ n. (n ≡ int_value minus digits.now)
        × IsLong n) }
{
    let number = i128::from(number(digits)?);
    i64::try_from(if minus { -number } else { number }).ok()
}

// Whether a text begins with a byte of a word.
fn begins_word(text: &[u8]) -> bool
    ensures { result ≡ passes_first word_byte text.now }
{
    matches!(text, [c, ..] if is_word_byte(*c))
}

// Whether a text begins with a quote.
fn begins_quote(text: &[u8]) -> bool
    ensures { result ≡ passes_first is_quote text.now }
{
    matches!(text, [b'"', ..])
}

// Reads an int whose digits begin this text, behind a minus or not.
fn int_at(minus: bool, text: &[u8]) -> Front
    ensures { result ≡ int_front minus text.now }
{
    let length = digits_length(text);
    let (digits, rest) = text.split_at(length);
    if length == 0 || begins_word(rest) {
        return Front::Bad;
    }
    match int(minus, digits) {
        Some(value) => Front::Int {
            value,
            length: length + usize::from(minus),
        },
        None => Front::Bad,
    }
}

// Reads a string whose opening quote is just before this text. Looks at one byte past the limit at most.
fn string_at(rest: &[u8]) -> Front
    ensures { result ≡ string_front rest.now }
{
    let length = string_length(&rest[..rest.len().min(LONGEST_STRING + 1)]);
    if length <= LONGEST_STRING && begins_quote(rest.split_at(length).1) {
        Front::Str(length)
    } else {
        Front::Bad
    }
}

// Reads a session whose `@` is just before this text.
fn session_at(source: Source, rest: &[u8]) -> Front
    ensures { result ≡ session_front source rest.now }
{
    match (source, rest) {
        (Source::Line, [c @ b'1'..=b'8', ..]) => Front::Session(c - b'0'),
        _ => Front::Bad,
    }
}

// Returns a sign.
fn sign_at(c: u8) -> Front
    ensures { result ≡ sign_front c }
{
    match c {
        b':' => Front::Sign(Sign::Colon),
        b',' => Front::Sign(Sign::Comma),
        b'=' => Front::Sign(Sign::Equals),
        b'(' => Front::Sign(Sign::OpenBracket),
        b')' => Front::Sign(Sign::CloseBracket),
        b'{' => Front::Sign(Sign::OpenBrace),
        b'}' => Front::Sign(Sign::CloseBrace),
        b'/' => Front::Sign(Sign::Slash),
        _ => Front::Bad,
    }
}

// Returns what is in front, by the first byte. Inlined, since its callers take the answer apart at once.
#[inline(always)]
fn scan(source: Source, text: &[u8]) -> Front
    ensures { result ≡ front source text.now }
{
    let [c, rest @ ..] = text else {
        return Front::End;
    };
    match *c {
        c if is_blank(c) => Front::Skip(1),
        b'!' => Front::Skip(line_length(rest) + 1),
        c if is_letter(c) => word_at(rest),
        c if is_digit(c) => int_at(false, text),
        b'-' => int_at(true, rest),
        b'"' => string_at(rest),
        b'@' => session_at(source, rest),
        c => sign_at(c),
    }
}

/// Returns what is at the front of a text. A comment is skipped in one go, without its line feed; a
/// session is looked for in lines alone. (docs/LANGUAGE.md, "Tokens".)
///
/// The time grows with the length of a comment, a word or an int; of a string no more than 256 bytes
/// are looked at. No memory is allocated.
#[inline(always)]
pub fn front_at(source: Source, text: &[u8]) -> Front
    ensures { IsFront source text.now result }
{
    scan(source, text)
}
