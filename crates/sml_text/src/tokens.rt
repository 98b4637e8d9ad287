//! The tokens of a text, one after another.

ghost use Rattle.std.specs.Prelude.{◌≡◌, ◌↔◌, ◌<◌, ◌+◌, ◌-◌, ◌^◌, ◌∷◌, [], ℕ, List, MatchOption, IfSome, IsTrue, length, drop, Some, None};
ghost use Rattle.sml_text.specs.Tokens.{Token as Told, TokensOf, BadTokenOf};
ghost use Rattle.sml_text.specs.Front.{front_what};
ghost use Rattle.sml_text.specs.Stream.{tokens_from, bad_from, TextEnds};
ghost use Rattle.sml_text.specs.Views.{lexeme_of, token_of, StandsAt, IsLexeme, FrontFits};

use crate::front::{Front, front_at};
use crate::source::{Sign, Source};

/// What a token is.
#[derive(Clone, Copy, PartialEq, Eq)]
pub enum Lexeme<'a> {
    /// A word as the text has it. Two words are the same if they agree in upper case.
    Word(&'a [u8]),
    Int(i64),
    /// The bytes between the quotes.
    Str(&'a [u8]),
    Sign(Sign),
    /// From 1 to 8.
    Session(u8),
}

/// A token, and the place of its first byte.
#[derive(Clone, Copy, PartialEq, Eq)]
pub struct Token<'a> {
    pub lexeme: Lexeme<'a>,
    pub at: usize,
}

// Returns what is at the front of a text as a lexeme.
fn lexeme_at(front: Front, text: &[u8]) -> Option<Lexeme>
    requires { FrontFits front text.now }
    ensures same { MatchOption result (front_what front text.now ≡ None)
        (λ lexeme. front_what front text.now ≡ Some (lexeme_of lexeme)) }
    ensures fits { IfSome result IsLexeme }
{
    match front {
        Front::End | Front::Bad | Front::Skip(_) => None,
        Front::Word(length) => Some(Lexeme::Word(text.split_at(length).0)),
        Front::Int { value, .. } => Some(Lexeme::Int(value)),
        Front::Str(length) => Some(Lexeme::Str(text.split_at(1).1.split_at(length).0)),
        Front::Sign(sign) => Some(Lexeme::Sign(sign)),
        Front::Session(session) => Some(Lexeme::Session(session)),
    }
}

/// Returns the next token of a text whose first byte is at the place `at`, with the text directly behind
/// the token and its place. Returns None at the end of the text and at the first thing that is not a token.
///
/// The place and the length of the text may be 2^63 - 1 bytes together at most, so that no place is
/// too large to be counted. The time grows with the bytes up to the end of the token. No memory is allocated.
#[tactic(auto, using(crate::proofs::Streams::stands_there))]
pub fn next_token(source: Source, text: &[u8], at: usize) -> Option<(Token, &[u8], usize)>
    requires { at + length text.now < 2 ^ 63 }
    ensures next { MatchOption result (tokens_from source at text.now ≡ [])
        (λ x. tokens_from source at text.now ≡ token_of x.0 ∷ tokens_from source x.2 x.1.now) }
    ensures bad { IfSome result (λ x. bad_from source at text.now ≡ bad_from source x.2 x.1.now) }
    ensures token { IfSome result (λ x. StandsAt source at text.now x.0 x.2) }
    ensures within { IfSome result (λ x.
        (x.2 + length x.1.now ≡ at + length text.now) × (length x.1.now < length text.now)) }
    ensures behind { IfSome result (λ x. x.1.now ≡ drop (x.2 - at) text.now) }
    ensures fits { IfSome result (λ x. IsLexeme x.0.lexeme) }
{
    let mut rest = text;
    let mut at = at;
    'skip: loop {
        let front = front_at(source, rest);
        if !front.stands() {
            return None;
        }
        let size = front.size();
        let after = rest.split_at(size).1;
        if let Some(lexeme) = lexeme_at(front, rest) {
            return Some((Token { lexeme, at }, after, at + size));
        }
        rest = after;
        at += size;
    }
}

/// Whether nothing but blanks and comments is left: no token, and nothing else.
///
/// The time grows with the bytes up to the first thing that is neither a blank nor a comment. No memory
/// is allocated.
pub fn is_end(source: Source, text: &[u8]) -> bool
    ensures { (at : ℕ) → IsTrue result ↔ TextEnds source at text.now }
{
    let mut rest = text;
    'skip: loop {
        match front_at(source, rest) {
            Front::Skip(size) => rest = rest.split_at(size).1,
            Front::End => return true,
            _ => return false,
        }
    }
}

/// Returns the place of the first thing of a text that is not a blank, a comment or a token, or None
/// if there is no such thing.
///
/// The time grows with the length of the text. No memory is allocated.
pub fn first_bad(source: Source, text: &[u8]) -> Option<usize>
    ensures { MatchOption result ((ts : List Told) × TokensOf source text.now ts)
        (λ bad. BadTokenOf source text.now bad) }
{
    let mut rest = text;
    let mut at = 0;
    'things: loop {
        let front = front_at(source, rest);
        if !front.stands() {
            return if rest.is_empty() { None } else { Some(at) };
        }
        let size = front.size();
        rest = rest.split_at(size).1;
        at += size;
    }
}
