//! Comments of other languages, and those that were not meant to be one.

use crate::teller::Teller;
use crate::tokens::{Tokens, name_of};
use crate::trail::Trail;
use sml_text::Sink;
use sml_tree::TokenKind;

/// A comment that is the cause of a fault behind it, with the place where it begins.
#[derive(Clone, Copy)]
pub(crate) enum Remark {
    /// It begins as in another language.
    Foreign(usize),
    /// It begins with the sign `!=`.
    Unequal(usize),
    /// It begins with a `!` that was to be a `not`.
    Not(usize),
}

impl Remark {
    /// Where it begins.
    pub(crate) fn at(self) -> usize {
        match self {
            Remark::Foreign(at) | Remark::Unequal(at) | Remark::Not(at) => at,
        }
    }
}

/// The comment that is the cause of the fault at a place of the text, if there is one.
pub(crate) fn remark_at(text: &[u8], trail: &Trail, offset: usize) -> Option<Remark> {
    if let Some(at) = trail.slashes {
        return Some(Remark::Foreign(at));
    }
    let is_behind_slash = matches!(trail.last.kind, TokenKind::Slash) && trail.last.end == offset;
    let at = if is_behind_slash {
        trail.last.at
    } else {
        offset
    };
    match text.get(at..) {
        Some([b'/', b'/' | b'*', ..]) => Some(Remark::Foreign(at)),
        Some([b'-', b'-', ..]) if !is_in_word(text, at) => Some(Remark::Foreign(at)),
        _ => comment_of_condition(text, trail, offset),
    }
}

// Whether the byte before a place is one of a word.
fn is_in_word(text: &[u8], at: usize) -> bool {
    let before = text.split_at(at.min(text.len())).0;
    match before.last() {
        Some(byte) => byte.is_ascii_alphanumeric() || *byte == b'_',
        None => false,
    }
}

// The comment that begins where a condition should go on, if a sign of another language begins it.
fn comment_of_condition(text: &[u8], trail: &Trail, offset: usize) -> Option<Remark> {
    if !matches!(trail.head.kind, TokenKind::If) {
        return None;
    }
    let between = text.get(trail.last.end..offset)?;
    let first = between.iter().position(|b| *b != b' ')?;
    let at = trail.last.end.saturating_add(first);
    match (trail.last.kind, between.get(first..)?) {
        (TokenKind::Name, [b'!', b'=', ..]) if trail.takes_test() => Some(Remark::Unequal(at)),
        (
            TokenKind::OpenBracket | TokenKind::And | TokenKind::Or,
            [b'!', b'(' | b'A'..=b'Z' | b'a'..=b'z', ..],
        ) => Some(Remark::Not(at)),
        _ => None,
    }
}

/// Says which comment is the cause of a fault, and what to write instead.
pub(crate) fn tell_remark<W: Sink>(out: &mut Teller<'_, '_, W>, trail: &Trail, remark: Remark) {
    match remark {
        Remark::Foreign(_) => out.say(b"a comment begins with `!`"),
        Remark::Not(_) => out.say(b"`!` begins a comment here: write `not`"),
        Remark::Unequal(at) => tell_unequal(out, trail, at),
    }
}

// The test that was meant with `!=`, with its state if one is behind that.
fn tell_unequal<W: Sink>(out: &mut Teller<'_, '_, W>, trail: &Trail, at: usize) {
    let text = out.text;
    let behind = text.get(at.saturating_add(2)..).unwrap_or(&[]);
    out.say(b"`!` begins a comment here: write `");
    out.piece(trail.last);
    out.say(b" not_in_state ");
    match Tokens::new(behind).take() {
        Some(piece) if name_of(piece.bytes(behind)).is_some() => out.say(piece.bytes(behind)),
        _ => out.say(b".."),
    }
    out.say(b"`");
}
