//! Values, read from their text.
ghost use Rattle.std.specs.Prelude.{◌≡◌, ◌≢◌, ℤ, ℕ, IfNone, IfOk, IfSome, List, MatchOption, false, true};
ghost use Rattle.sml_domain.specs.Texts.{IsText};
ghost use Rattle.sml_text.specs.Decimal.{int_text};
ghost use Rattle.sml_text.specs.Tokens.{IsLong};
ghost use Rattle.smi_outset_text.specs.Reading.{ReadsValue, quoted};

use crate::pieces::{before, behind};
use itoa::Buffer;
use sml_domain::{Text, TextError, Value};
use sml_tree::Kind;
use std::alloc::{AllocError, Global};
use std::str;

// Whether a text is the decimal text of an int.
#[tactic(auto, using(crate::proofs::Fronts::not_same, crate::proofs::Fronts::is_same))]
fn is_text_of(text: &[u8], int: i64) -> bool
    ensures yes { result ≡ true → text.now ≡ int_text int }
    ensures no { result ≡ false → text.now ≢ int_text int }
{
    let mut buffer = Buffer::new();
    text == buffer.format(int).as_bytes()
}

// The int whose decimal text it is.
#[tactic(auto, using(crate::proofs::Spelled::no_utf8, crate::proofs::Spelled::unparsed, crate::proofs::Spelled::other_int))]
fn int_in(text: &[u8]) -> Option<i64>
    ensures some { IfSome result (λ n. text.now ≡ int_text n) }
    ensures none { IfNone result ((n : ℤ) → IsLong n → text.now ≢ int_text n) }
{
    let Ok(digits) = str::from_utf8(text) else {
        return None;
    };
    let Ok(int) = digits.parse::<i64>() else {
        return None;
    };
    if is_text_of(text, int) {
        Some(int)
    } else {
        None
    }
}

// What is between the quotes of a string.
#[tactic(auto, using(crate::proofs::Spelled::not_quoted, crate::proofs::Spelled::not_closed, crate::proofs::Spelled::is_quoted))]
fn between_quotes(text: &[u8]) -> Option<&[u8]>
    ensures some { IfSome result (λ bytes. text.now ≡ quoted bytes.now) }
    ensures none { IfNone result ((bytes : List ℕ) → text.now ≢ quoted bytes) }
{
    match behind(text, b"\"") {
        Some(more) => before(more, b"\""),
        None => None,
    }
}

// The string whose text it is, with its quotes.
fn string_in(alloc: Global, text: &[u8]) -> Result<Option<Text>, AllocError>
    ensures { IfOk result (λ r. MatchOption r ((bytes : List ℕ) → IsText bytes → text.now ≢ quoted bytes)
        (λ t. text.now ≡ quoted t)) }
{
    let Some(bytes) = between_quotes(text) else {
        return Ok(None);
    };
    match Text::new(alloc, bytes) {
        Ok(string) => Ok(Some(string)),
        Err(TextError::BadText) => Ok(None),
        Err(TextError::Memory) => Err(AllocError),
    }
}

/// The value of a kind whose text it is. The error is out of memory.
#[tactic(auto, using(crate::proofs::Spelled::no_int, crate::proofs::Spelled::no_string))]
pub(crate) fn value_in(alloc: Global, kind: Kind, text: &[u8]) -> Result<Option<Value>, AllocError>
    ensures { IfOk result (ReadsValue kind text.now) }
{
    match kind {
        Kind::Int => Ok(int_in(text).map(Value::Int)),
        Kind::Str => match string_in(alloc, text)? {
            Some(string) => Ok(Some(Value::Text(string))),
            None => Ok(None),
        },
    }
}
