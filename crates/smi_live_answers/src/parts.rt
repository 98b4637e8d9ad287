//! The words of an answer that name its start, and the line without them.
ghost use Rattle.std.specs.Prelude.{◌≡◌, ℕ, IfNone, IfOk, IfSome};
ghost use Rattle.sml_text.specs.Stream.{bad_from, tokens_from};
ghost use Rattle.sml_text.specs.Views.{IsLexeme, lexeme_of};
ghost use Rattle.sml_text.specs.declared.source.Source.TheVariants as source;
ghost use Rattle.smi_live_answers.specs.EndWords.{comment_of};
ghost use Rattle.smi_live_answers.specs.Naming.{HasStartWords, answer_front, sender_by, sender_of_word, with_comment};

use crate::words::{split_comment, split_end_word, without_blanks};
use smi_journal_entries::SessionId;
use smi_lines::name_in;
use smi_live_once::number_in;
use sml_text::{Lexeme, Source, is_end, next_token};
use sml_tree::Name;
use std::alloc::{AllocError, Global};

/// Who sent the request of a start, as the line of the start tells it: a session, or an object by its name.
#[derive(Clone, Copy)]
pub enum SenderName {
    Session(SessionId),
    Object(Name),
}

// The parts of a line whose last words before its comment are a sender and a number.
#[derive(Clone, Copy)]
pub(crate) struct StartParts<'a> {
    pub(crate) front: &'a [u8],
    pub(crate) sender: SenderName,
    pub(crate) number: u64,
    pub(crate) comment: &'a [u8],
}

// The sender that a token is.
fn sender_in(lexeme: &Lexeme) -> Option<SenderName>
    requires { IsLexeme lexeme.now }
    ensures { result ≡ sender_by (lexeme_of lexeme.now) }
{
    match lexeme {
        Lexeme::Session(number) => Some(SenderName::Session(SessionId::new(*number)?)),
        Lexeme::Word(_) => Some(SenderName::Object(name_in(lexeme)?)),
        Lexeme::Int(_) | Lexeme::Str(_) | Lexeme::Sign(_) => None,
    }
}

// The sender that a word is.
fn read_sender(word: &[u8]) -> Option<SenderName>
    ensures { result ≡ sender_of_word word.now }
{
    let (token, rest, _) = next_token(Source::Line, word, 0)?;
    if !is_end(Source::Line, rest) {
        return None;
    }
    sender_in(&token.lexeme)
}

/// The parts of a line whose last words before its comment are a sender and a number. The cost is the length of the
/// line.
pub(crate) fn read_parts(line: &[u8]) -> Option<StartParts<'_>>
    ensures words { IfSome result (λ p. HasStartWords line.now p.sender p.number) }
    ensures front { IfSome result (λ p. p.front.now ≡ answer_front line.now) }
    ensures comment { IfSome result (λ p. p.comment.now ≡ comment_of line.now) }
    ensures none { IfNone result ((s : SenderName) (n : ℕ) → HasStartWords line.now s n → ⊥) }
{
    let (body, comment) = split_comment(line);
    let (before, digits) = split_end_word(body);
    let number = number_in(digits)?;
    let (front, word) = split_end_word(before);
    let sender = read_sender(word)?;
    Some(StartParts {
        front: without_blanks(front),
        sender,
        number,
        comment,
    })
}

/// The line without its sender and its number: what stands before them, and its comment after a blank. The error is out
/// of memory.
pub(crate) fn plain_line(alloc: Global, front: &[u8], comment: &[u8]) -> Result<Vec<u8>, AllocError>
    ensures { IfOk result (λ line. line.items ≡ with_comment front.now comment.now) }
{
    let mut line = Vec::from_slice(alloc, front)?;
    if !comment.is_empty() {
        line.extend_from_slice(b" ")?;
        line.extend_from_slice(comment)?;
    }
    Ok(line)
}
