//! What is in a line, one piece after another.
ghost use Rattle.std.specs.Prelude.{◌≤◌, length};
ghost use Rattle.sml_text.specs.Views.{IsLexeme};
ghost use Rattle.smi_lines.specs.declared.line.TheConstants.{LONGEST_LINE};

use crate::form::{Form, Piece, Token};
use smi_lines::LONGEST_LINE;
use sml_text::{Lexeme, Source, first_bad, next_token};
use sml_tree::{Name, is_reserved};

/// The bytes from a place up to another, or no bytes if the places are not of the line.
pub(crate) fn part(line: &[u8], at: usize, end: usize) -> &[u8] {
    if at <= end && end <= line.len() {
        &line[at..end]
    } else {
        &[]
    }
}

/// The bytes from a place on, or no bytes if the place is not of the line.
pub(crate) fn from(line: &[u8], at: usize) -> &[u8] {
    if at <= line.len() {
        line.split_at(at).1
    } else {
        &[]
    }
}

// The bytes that are looked at: those that a line may have.
fn looked_at(bytes: &[u8]) -> &[u8]
    ensures { length result.now ≤ LONGEST_LINE }
{
    &bytes[..bytes.len().min(LONGEST_LINE)]
}

// The name that a token spells, if it is a word.
fn word_in(lexeme: &Lexeme) -> Option<Name>
    requires { IsLexeme lexeme.now }
{
    match lexeme {
        Lexeme::Word(word) => Some(Name::from_word(word)),
        Lexeme::Int(_) | Lexeme::Str(_) | Lexeme::Sign(_) | Lexeme::Session(_) => None,
    }
}

// What a token is.
fn form_of(lexeme: &Lexeme) -> Form
    requires { IsLexeme lexeme.now }
{
    match lexeme {
        Lexeme::Word(word) => {
            if is_reserved(Name::from_word(word).as_bytes()) {
                Form::Reserved
            } else {
                Form::Name
            }
        }
        Lexeme::Int(_) | Lexeme::Str(_) => Form::Value,
        Lexeme::Sign(sign) => Form::Sign(*sign),
        Lexeme::Session(_) => Form::Session,
    }
}

/// What is in a line from a place on, behind blanks and comments. No more than the bytes that a line may have
/// are looked at. The cost is the length of what is passed over, and once that of the line if no token follows.
pub(crate) fn piece_at(line: &[u8], place: usize) -> Piece {
    let rest = looked_at(from(line, place));
    match next_token(Source::Line, rest, 0) {
        Some((token, behind, _)) => Piece::Token(Token {
            form: form_of(&token.lexeme),
            at: place.saturating_add(token.at),
            end: place.saturating_add(rest.len().saturating_sub(behind.len())),
        }),
        None => match first_bad(Source::Line, rest) {
            Some(bad) => Piece::Bad(place.saturating_add(bad)),
            None => Piece::End,
        },
    }
}

/// The name that the next word from a place on spells, reserved or not.
pub(crate) fn name_at(line: &[u8], place: usize) -> Option<Name> {
    let (token, _, _) = next_token(Source::Line, looked_at(from(line, place)), 0)?;
    word_in(&token.lexeme)
}

/// The name that these bytes spell, all of them, reserved or not.
pub(crate) fn name_of(bytes: &[u8]) -> Option<Name> {
    match piece_at(bytes, 0) {
        Piece::Token(token) if token.at == 0 && token.end == bytes.len() => name_at(bytes, 0),
        _ => None,
    }
}

/// The token of a line that has `before` tokens before it.
pub(crate) fn token_at(line: &[u8], before: usize) -> Option<Token> {
    let mut place = 0;
    for _ in 0..before {
        match piece_at(line, place) {
            Piece::Token(token) => place = token.end,
            Piece::Bad(_) | Piece::End => return None,
        }
    }
    match piece_at(line, place) {
        Piece::Token(token) => Some(token),
        Piece::Bad(_) | Piece::End => None,
    }
}
