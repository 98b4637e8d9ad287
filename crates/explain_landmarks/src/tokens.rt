//! The tokens of a text, with their kinds and their ends.
ghost use Rattle.std.specs.Prelude.{◌<◌, ◌+◌, ◌^◌, length};

use sml_read::Held;
use sml_text::{Source, next_token};
use sml_tree::TokenKind;

/// A token: its kind, the place of its first byte and the place behind its last.
#[derive(Clone, Copy)]
pub struct Piece {
    pub kind: TokenKind,
    pub at: usize,
    pub end: usize,
}

impl Piece {
    /// The piece that is used if there is no token.
    pub fn none() -> Piece {
        Piece {
            kind: TokenKind::Stray,
            at: 0,
            end: 0,
        }
    }

    /// The bytes of the token in its text.
    pub fn bytes(self, text: &[u8]) -> &[u8] {
        match text.get(self.at..self.end) {
            Some(bytes) => bytes,
            None => &[],
        }
    }
}

/// The remaining tokens of a text, up to the first error.
#[derive(Clone, Copy)]
pub struct Tokens<'a> {
    rest: &'a [u8],
    at: usize,
    slash: bool,
    ghost fits: { at + length rest.now < 2 ^ 63 },
}

impl<'a> Tokens<'a> {
    /// All tokens of a text.
    pub fn new(text: &'a [u8]) -> Tokens<'a> {
        Tokens {
            rest: text,
            at: 0,
            slash: false,
        }
    }

    /// The next token, or None at the end and at the first error. The cost is that of the bytes passed over.
    pub fn take(&mut self) -> Option<Piece> {
        match next_token(Source::Domain, self.rest, self.at) {
            None => None,
            Some((token, rest, behind)) => {
                let held = Held::new(self.slash, token);
                let piece = Piece {
                    kind: held.kind(),
                    at: held.at(),
                    end: behind,
                };
                *self = Tokens {
                    rest,
                    at: behind,
                    slash: matches!(piece.kind, TokenKind::Slash),
                };
                Some(piece)
            }
        }
    }
}
