//! Why a text is no file.

use crate::bad_token::tell_bad_token;
use crate::comments::{Remark, remark_at, tell_remark};
use crate::limits::{tell_too_deep, tell_too_many};
use crate::teller::Teller;
use crate::trail::Trail;
use crate::unexpected::tell_unexpected;
use explain_places::{is_utf16, tell_not_ascii};
use sml_read::{MAX_TEXT, ReadError, ReadErrorKind};
use sml_text::Sink;
use sml_writer::Out;
use std::alloc::{AllocError, Global};

const MARK: &[u8] = b"\xEF\xBB\xBF";

const ASCII_ALONE: &[u8] = b"only ASCII may stand in a domain, in comments too";

const UTF16: &[u8] = b"this looks like UTF-16: save it as ASCII";

const MERGE: &[u8] = b"this looks like a mark of a merge: keep one of the two versions";

/// Explains why a text was refused: the place, one sentence, and the line with a caret below it. Nothing is written
/// for Memory. The error is that of `read` at this text; for another error something else is written.
///
/// It is text for people, and no part of a format: what is written is not promised, and only tests hold it. The time
/// grows with the length of the text up to the place, and the memory with what is open there.
pub fn explain_read<W: Sink>(
    alloc: Global,
    file: &str,
    text: &[u8],
    error: &ReadError,
    out: &mut Out<'_, W>,
) -> Result<(), AllocError> {
    let mut out = Teller { file, text, out };
    match error.kind {
        ReadErrorKind::TooLong | ReadErrorKind::NotAscii => {
            tell_plain(&mut out, error);
            Ok(())
        }
        ReadErrorKind::BadToken
        | ReadErrorKind::Unexpected
        | ReadErrorKind::TooDeep
        | ReadErrorKind::TooMany => tell_placed(alloc, &mut out, error),
        ReadErrorKind::Memory => Ok(()),
    }
}

// A refusal that needs no look at what is before it.
fn tell_plain<W: Sink>(out: &mut Teller<'_, '_, W>, error: &ReadError) {
    out.begin(error.offset);
    match error.kind {
        ReadErrorKind::TooLong => {
            out.say(b"the text has more than ");
            out.number(MAX_TEXT as u64);
            out.say(b" bytes, which is the most that a domain may have");
        }
        _ => tell_byte(out, error.offset),
    }
    out.end(error.offset);
}

// A byte that is not ASCII.
fn tell_byte<W: Sink>(out: &mut Teller<'_, '_, W>, offset: usize) {
    let text = out.text;
    if is_utf16(text) {
        return out.say(UTF16);
    }
    if offset == 0 && text.starts_with(MARK) {
        return out.say(b"the file begins with a byte order mark: save it without one");
    }
    let bytes = text.split_at(offset.min(text.len())).1;
    tell_not_ascii(&mut *out.out, bytes, ASCII_ALONE);
}

// A refusal that follows from what is before it.
fn tell_placed<W: Sink>(
    alloc: Global,
    out: &mut Teller<'_, '_, W>,
    error: &ReadError,
) -> Result<(), AllocError> {
    let mut trail = Trail::new(alloc);
    let followed = trail.follow(out.text, error.offset);
    if followed.is_ok() {
        match remark_of(out.text, &trail, error) {
            Some(remark) => {
                out.begin(remark.at());
                tell_remark(out, &trail, remark);
                out.end(remark.at());
            }
            None => {
                out.begin(error.offset);
                tell_cause(out, &trail, error);
                out.end(error.offset);
            }
        }
    }
    drop(trail);
    followed
}

// The comment that is the cause of a refusal.
fn remark_of(text: &[u8], trail: &Trail, error: &ReadError) -> Option<Remark> {
    match error.kind {
        ReadErrorKind::BadToken | ReadErrorKind::Unexpected => {
            remark_at(text, trail, error.offset)
        }
        _ => None,
    }
}

// Says why there is a refusal at the place of a trail.
fn tell_cause<W: Sink>(out: &mut Teller<'_, '_, W>, trail: &Trail, error: &ReadError) {
    match error.kind {
        ReadErrorKind::TooDeep => tell_too_deep(out, trail),
        ReadErrorKind::TooMany => tell_too_many(out, trail),
        _ if is_mark_of_merge(out.text, error.offset) => out.say(MERGE),
        ReadErrorKind::BadToken if is_utf16(out.text) => out.say(UTF16),
        ReadErrorKind::BadToken => tell_bad_token(out, trail, error.offset),
        _ => tell_unexpected(out, trail),
    }
}

// Whether a line begins at a place with what a merge of two versions writes between them.
fn is_mark_of_merge(text: &[u8], offset: usize) -> bool {
    let (before, rest) = text.split_at(offset.min(text.len()));
    matches!(before.last(), None | Some(b'\n'))
        && (rest.starts_with(b"<<<<<<<")
            || rest.starts_with(b"=======")
            || rest.starts_with(b">>>>>>>")
            || rest.starts_with(b"|||||||"))
}
