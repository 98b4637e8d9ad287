//! The arguments of a request, as a line has them.
ghost use Rattle.std.specs.Prelude.{◌≡◌, ◌≤◌, ◌<◌, ◌^◌, ◌+◌, List, Option, Some, None, IfOk, IfSome, IsTrue, OnErr};
ghost use Rattle.std.specs.Prelude.{length, option_map};
ghost use Rattle.sml_text.specs.Stream.{tokens_from, bad_from};
ghost use Rattle.sml_text.specs.Views.{lexeme_of, IsLexeme};
ghost use Rattle.sml_text.specs.declared.source.Source.TheVariants as source;
ghost use Rattle.sml_domain.specs.Texts.{IsText};
ghost use Rattle.sml_domain.specs.Completing.{Passed as Given};
ghost use Rattle.smi_lines.specs.Line as spec;
ghost use Rattle.smi_lines.specs.Line.{lexemes, whole};

use smi_journal::Passed;
use smi_world::Arguments;
use sml_domain::{Text, TextError, Value};
use sml_text::{Lexeme, Sign, Source, is_end, next_token};
use sml_tree::{MAX_ARGUMENTS, Name, is_reserved};
use std::alloc::{AllocError, Global};

/// The name that a token is: a word that is not reserved.
pub fn name_in(lexeme: &Lexeme) -> Option<Name>
    requires { IsLexeme lexeme.now }
    ensures { result ≡ spec.name_in (lexeme_of lexeme.now) }
{
    match lexeme {
        Lexeme::Word(word) => {
            let name = Name::from_word(word);
            if is_reserved(name.as_bytes()) {
                None
            } else {
                Some(name)
            }
        }
        Lexeme::Int(_) | Lexeme::Str(_) | Lexeme::Sign(_) | Lexeme::Session(_) => None,
    }
}

// The text of a string.
fn text_of(alloc: Global, bytes: &[u8]) -> Result<Text, AllocError>
    requires { IsText bytes.now }
    ensures { IfOk result (λ t. t ≡ bytes.now) }
{
    match Text::new(alloc, bytes) {
        Ok(text) => Ok(text),
        Err(TextError::Memory) => Err(AllocError),
        Err(TextError::BadText) => unreachable!(),
    }
}

// The value that a token is.
fn value_in(alloc: Global, lexeme: &Lexeme) -> Result<Option<Value>, AllocError>
    requires { IsLexeme lexeme.now }
    ensures { IfOk result (λ v. v ≡ spec.value_of_token (lexeme_of lexeme.now)) }
{
    match lexeme {
        Lexeme::Int(n) => Ok(Some(Value::Int(*n))),
        Lexeme::Str(bytes) => Ok(Some(Value::Text(text_of(alloc, bytes)?))),
        Lexeme::Word(_) | Lexeme::Sign(_) | Lexeme::Session(_) => Ok(None),
    }
}

// The sign that a token is.
fn sign_in(lexeme: &Lexeme) -> Option<Sign>
    ensures { result ≡ spec.sign_in (lexeme_of lexeme.now) }
{
    match lexeme {
        Lexeme::Sign(sign) => Some(*sign),
        Lexeme::Word(_) | Lexeme::Int(_) | Lexeme::Str(_) | Lexeme::Session(_) => None,
    }
}

// A name, an equals sign and a value.
fn passed_as(
    alloc: Global,
    name: &Lexeme,
    equals: &Lexeme,
    value: &Lexeme,
) -> Result<Option<Passed>, AllocError>
    requires name { IsLexeme name.now }
    requires value { IsLexeme value.now }
    ensures { IfOk result (λ x. x ≡ spec.passed_by_tokens (spec.name_in (lexeme_of name.now))
        (spec.sign_in (lexeme_of equals.now)) (spec.value_of_token (lexeme_of value.now))) }
{
    let Some(name) = name_in(name) else {
        return Ok(None);
    };
    let Some(Sign::Equals) = sign_in(equals) else {
        return Ok(None);
    };
    match value_in(alloc, value)? {
        Some(value) => Ok(Some(Passed { name, value })),
        None => Ok(None),
    }
}

// An argument, whether it is the last, and what is behind it.
#[derive(Drop)]
struct Next<'a> {
    passed: Passed,
    is_last: bool,
    rest: &'a [u8],
    at: usize,
}

// The argument at the front of the rest of a line, with the comma or the bracket behind it.
fn next_argument(alloc: Global, rest: &[u8], at: usize) -> Result<Option<Next>, AllocError>
    requires { at + length rest.now < 2 ^ 63 }
    ensures none { IfOk result (λ r. r ≡ None →
        whole spec.arguments_in (tokens_from source.Line at rest.now) (bad_from source.Line at rest.now) ≡ None) }
    ensures some { IfOk result (λ r. IfSome r (λ x.
        spec.arguments_in (lexemes (tokens_from source.Line at rest.now))
        ≡ spec.with_passed (Some x.passed) (spec.unless_last x.is_last
        (spec.arguments_in (lexemes (tokens_from source.Line x.at x.rest.now)))))) }
    ensures bad { IfOk result (λ r. IfSome r (λ x.
        bad_from source.Line at rest.now ≡ bad_from source.Line x.at x.rest.now)) }
    ensures last { IfOk result (λ r. IfSome r (λ x.
        IsTrue x.is_last → bad_from source.Line x.at x.rest.now ≡ None)) }
    ensures within { IfOk result (λ r. IfSome r (λ x.
        (x.at + length x.rest.now ≡ at + length rest.now) × (length x.rest.now < length rest.now))) }
{
    let Some((name, rest, at)) = next_token(Source::Line, rest, at) else {
        return Ok(None);
    };
    let Some((equals, rest, at)) = next_token(Source::Line, rest, at) else {
        return Ok(None);
    };
    let Some((value, rest, at)) = next_token(Source::Line, rest, at) else {
        return Ok(None);
    };
    let Some((sign, rest, at)) = next_token(Source::Line, rest, at) else {
        return Ok(None);
    };
    let Some(passed) = passed_as(alloc, &name.lexeme, &equals.lexeme, &value.lexeme)? else {
        return Ok(None);
    };
    Ok(followed(passed, &sign.lexeme, rest, at))
}

// An argument with what is behind it: a bracket and nothing, or a comma and more.
fn followed<'a>(passed: Passed, sign: &Lexeme, rest: &'a [u8], at: usize) -> Option<Next<'a>>
    requires { at + length rest.now < 2 ^ 63 }
    ensures none { result ≡ None → (more : Option (List Given)) →
        whole (λ words. spec.behind_argument (spec.sign_in (lexeme_of sign.now)) words more)
        (tokens_from source.Line at rest.now) (bad_from source.Line at rest.now) ≡ None }
    ensures some { IfSome result (λ x. (more : Option (List Given)) →
        spec.behind_argument (spec.sign_in (lexeme_of sign.now)) (lexemes (tokens_from source.Line at rest.now)) more
        ≡ spec.unless_last x.is_last more) }
    ensures last { IfSome result (λ x. IsTrue x.is_last → bad_from source.Line at rest.now ≡ None) }
    ensures same { IfSome result (λ x. (x.passed ≡ passed) × (x.rest.now ≡ rest.now) × (x.at ≡ at)) }
{
    match sign_in(sign) {
        Some(Sign::Comma) => Some(Next {
            passed,
            is_last: false,
            rest,
            at,
        }),
        Some(Sign::CloseBracket) if is_end(Source::Line, rest) => Some(Next {
            passed,
            is_last: true,
            rest,
            at,
        }),
        _ => None,
    }
}

// The arguments behind an opening bracket, up to the bracket that closes them and ends the line.
fn arguments_in(alloc: Global, rest: &[u8], at: usize) -> Result<Option<Vec<Passed>>, AllocError>
    requires { at + length rest.now < 2 ^ 63 }
    ensures { IfOk result (λ r.
        option_map (λ l. l.items) r
        ≡ whole spec.arguments_in (tokens_from source.Line at rest.now) (bad_from source.Line at rest.now)) }
{
    let mut list = Vec::new(alloc);
    let mut rest = rest;
    let mut at = at;
    'more: loop {
        let Some(next) = next_argument(alloc, rest, at)? else {
            return Ok(None);
        };
        let Next {
            passed,
            is_last,
            rest: behind,
            at: place,
        } = next;
        list.push(passed)?;
        if is_last {
            return Ok(Some(list));
        }
        rest = behind;
        at = place;
    }
}

/// Reads what is behind the action of a request: nothing, or arguments in brackets, of which there are no
/// more than a line may have.
pub fn passed_in(alloc: Global, rest: &[u8], at: usize) -> Result<Option<Arguments>, AllocError>
    requires { at + length rest.now < 2 ^ 63 }
    ensures passed { IfOk result (λ r.
        r ≡ whole spec.passed_in (tokens_from source.Line at rest.now) (bad_from source.Line at rest.now)) }
    ensures memory { OnErr result (1 ≤ length (lexemes (tokens_from source.Line at rest.now))) }
{
    if is_end(Source::Line, rest) {
        return Ok(Some(Arguments::new(Vec::new(alloc))));
    }
    let Some((bracket, rest, at)) = next_token(Source::Line, rest, at) else {
        return Ok(None);
    };
    let Some(Sign::OpenBracket) = sign_in(&bracket.lexeme) else {
        return Ok(None);
    };
    match arguments_in(alloc, rest, at)? {
        Some(list) if list.len() <= MAX_ARGUMENTS => Ok(Some(Arguments::new(list))),
        _ => Ok(None),
    }
}
