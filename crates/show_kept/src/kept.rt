//! The canonical text with what it leaves out.

use crate::lines::Lines;
use crate::pieces::Pieces;
use sml_writer::Out;
use std::alloc::{AllocError, Global};

/// The canonical text of a domain with the comments of its text, and a blank line wherever the text has one or more
/// between two lines. None is added, so that a text with neither has exactly its canonical text, and the kept text of
/// a kept text is the same one.
///
/// A comment behind the last token of a canonical line stands behind that line if it stood on the line of that token.
/// Each other comment has a line of its own in front of the line of the next token that both texts have. Blanks at
/// the end of a comment are left out.
///
/// `canonical` must be the canonical text of `text`. The error is out of memory. The time grows with the length of both
/// texts.
pub fn kept_text(alloc: Global, text: &[u8], canonical: &[u8]) -> Result<Vec<u8>, AllocError> {
    let mut kept = Vec::new(alloc);
    let mut out = Out::new(&mut kept);
    let mut pieces = Pieces::new(text);
    let mut lines = Lines::new(canonical);
    for _ in 0..text.len() {
        let Some((lead, piece)) = pieces.take() else {
            break;
        };
        lines.add(&mut out, lead, piece);
    }
    lines.end(&mut out);
    if out.failed {
        Err(AllocError)
    } else {
        Ok(kept)
    }
}
