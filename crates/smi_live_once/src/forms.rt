//! How a request that is made once is asked for, marked and answered.
ghost use Rattle.std.specs.Prelude.{◌≡◌, ◌++◌, ◌∷◌, ℕ, List, IfNone, IfSome, OnOk, codes, false, true};
ghost use Rattle.std.specs.List.{list_all};
ghost use Rattle.sml_text.specs.Decimal.{decimal_text};
ghost use Rattle.smi_live_once.specs.Carrying.{past_text};
ghost use Rattle.smi_live_once.specs.Forms.{IsAsked, IsMarked, IsUnmarked, is_once_byte, is_once_name, is_outside_byte, is_barred_line, marked_text, told_text};

use crate::blanks::{split_first, split_last};
use crate::numbers::number_in;
use itoa::Buffer;
use sml_text::LONGEST_NAME;
use std::alloc::AllocError;

/// What is asked for once: under which name and number, and the line of the request.
#[derive(Clone, Copy)]
pub struct Asked<'a> {
    pub name: &'a [u8],
    pub number: u64,
    pub request: &'a [u8],
}

/// Whose request a line of a log is, and its number.
#[derive(Clone, Copy)]
pub struct Mark<'a> {
    pub name: &'a [u8],
    pub number: u64,
}

// Whether a byte may be in a name.
fn is_name_byte(c: u8) -> bool
    ensures { result ≡ is_once_byte c }
{
    c.is_ascii_uppercase() || c.is_ascii_digit() || c == b'_'
}

// Whether each byte may be in a name.
fn has_name_bytes(name: &[u8]) -> bool
    ensures { result ≡ list_all is_once_byte name.now }
{
    name.iter().all(|c| is_name_byte(*c))
}

/// Whether bytes are a name of those who ask. The cost is their count.
pub fn is_name(name: &[u8]) -> bool
    ensures { result ≡ is_once_name name.now }
{
    1 <= name.len() && (name.len() <= LONGEST_NAME && has_name_bytes(name))
}

// Whether a text is the word.
#[tactic(auto, using(crate::proofs::Decimals::not_same, crate::proofs::Decimals::is_same_text))]
fn is_once(word: &[u8]) -> bool
    ensures yes { result ≡ true → word.now ≡ codes "once" }
    ensures no { result ≡ false → word.now ≡ codes "once" → ⊥ }
{
    word == b"once".as_slice()
}

// Whether a text ends as one does that stands before the name of a mark.
#[tactic(auto, using(crate::proofs::Reading::ends_once, crate::proofs::Reading::not_ends_once))]
fn is_before_name(text: &[u8]) -> bool
    ensures yes { result ≡ true → (request : List ℕ) × (text.now ≡ request ++ codes " ! once") }
    ensures no { result ≡ false → (request : List ℕ) → text.now ≡ request ++ codes " ! once" → ⊥ }
{
    text.ends_with(b" ! once".as_slice())
}

/// What a line asks for once, if it is of the form `once NAME NUMBER REQUEST`, to the byte. What stands there as the
/// request is not read.
#[tactic(auto, using(crate::proofs::Reading::asked_is, crate::proofs::Reading::not_line, crate::proofs::Reading::not_word, crate::proofs::Reading::not_behind, crate::proofs::Reading::not_name, crate::proofs::Reading::not_number, crate::proofs::Reading::not_digits))]
pub fn read_asked(line: &[u8]) -> Option<Asked<'_>>
    ensures some { IfSome result (λ a. IsAsked line.now a.name.now a.number a.request.now) }
    ensures none { IfNone result ((name : List ℕ) (number : ℕ) (request : List ℕ)
        → IsAsked line.now name number request → ⊥) }
{
    let Some((word, behind)) = split_first(line) else {
        return None;
    };
    if !is_once(word) {
        return None;
    }
    let Some((name, behind)) = split_first(behind) else {
        return None;
    };
    if !is_name(name) {
        return None;
    }
    let Some((digits, request)) = split_first(behind) else {
        return None;
    };
    match number_in(digits) {
        Some(number) => Some(Asked {
            name,
            number,
            request,
        }),
        None => None,
    }
}

/// The mark that a line of a log ends with.
#[tactic(auto, using(crate::proofs::Reading::mark_of, crate::proofs::Reading::no_mark, crate::proofs::Reading::no_mark_front, crate::proofs::Reading::no_mark_word, crate::proofs::Reading::no_mark_name, crate::proofs::Reading::no_mark_number))]
pub fn read_mark(line: &[u8]) -> Option<Mark<'_>>
    ensures some { IfSome result (λ m. IsMarked line.now m.name.now m.number) }
    ensures none { IfNone result (IsUnmarked line.now) }
{
    let Some((front, digits)) = split_last(line) else {
        return None;
    };
    let Some((front, name)) = split_last(front) else {
        return None;
    };
    if !is_before_name(front) {
        return None;
    }
    if !is_name(name) {
        return None;
    }
    match number_in(digits) {
        Some(number) => Some(Mark { name, number }),
        None => None,
    }
}

// Whether a byte may stand in a line from outside.
fn may_come(c: u8) -> bool
    ensures { result ≡ is_outside_byte c }
{
    c >= b' ' || c == b'\t' || c == b'\r'
}

// Whether each byte may stand in a line from outside.
fn have_come(line: &[u8]) -> bool
    ensures { result ≡ list_all is_outside_byte line.now }
{
    line.iter().all(|c| may_come(*c))
}

/// Whether a line is one that no line from outside may be: it begins as the first line of a log does, or holds a byte
/// below a blank other than a tab and a carriage return. The cost is the length of the line.
pub fn is_reserved_line(line: &[u8]) -> bool
    ensures { result ≡ is_barred_line line.now }
{
    line.starts_with(b"! smirun live ".as_slice()) || !have_come(line)
}

// Adds a blank, a name, a blank and a number to a text.
fn add_name(text: &mut Vec<u8>, name: &[u8], number: u64) -> Result<(), AllocError>
    ensures { OnOk result (text.new.items ≡ text.old.items ++ 32 ∷ (name.now ++ 32 ∷ decimal_text number)) }
{
    let mut buffer = Buffer::new();
    text.extend_from_slice(b" ")?;
    text.extend_from_slice(name)?;
    text.extend_from_slice(b" ")?;
    text.extend_from_slice(buffer.format(number).as_bytes())?;
    Ok(())
}

/// Adds the mark of a name and a number to the line of a request. The error is out of memory.
pub fn add_mark(line: &mut Vec<u8>, name: &[u8], number: u64) -> Result<(), AllocError>
    ensures { OnOk result (line.new.items ≡ marked_text line.old.items name.now number) }
{
    line.extend_from_slice(b" ! once")?;
    add_name(line, name, number)
}

/// Adds to a text how an answer is told. The error is out of memory.
pub fn add_answer(
    text: &mut Vec<u8>,
    name: &[u8],
    number: u64,
    answer: &[u8],
) -> Result<(), AllocError>
    ensures { OnOk result (text.new.items ≡ text.old.items ++ told_text name.now number answer.now) }
{
    text.extend_from_slice(b"once")?;
    add_name(text, name, number)?;
    text.extend_from_slice(b" ")?;
    text.extend_from_slice(answer)?;
    Ok(())
}

/// Adds to a text what is told of a request that a log before had: what became of it. The error is out of memory.
pub fn add_past(text: &mut Vec<u8>, what: &[u8]) -> Result<(), AllocError>
    ensures { OnOk result (text.new.items ≡ text.old.items ++ past_text what.now) }
{
    text.extend_from_slice(b"past ")?;
    text.extend_from_slice(what)?;
    text.push(b'\n')?;
    Ok(())
}
