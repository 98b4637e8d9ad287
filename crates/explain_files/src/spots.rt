//! Where the names of a text are.

use crate::tokens::{Piece, Tokens};
use sml_tree::TokenKind;
use std::alloc::{AllocError, Global};

/// Where the names of a text are, in their order, which is that in which its tree has them.
#[derive(Drop)]
pub(crate) struct Spots {
    names: Vec<usize>,
    items: Vec<usize>,
}

impl Spots {
    /// The spots of a text without names.
    pub(crate) fn new(alloc: Global) -> Spots {
        Spots {
            names: Vec::new(alloc),
            items: Vec::new(alloc),
        }
    }

    /// Notes the names of a text. The time and the memory grow with its length.
    pub(crate) fn fill(&mut self, text: &[u8]) -> Result<(), AllocError> {
        let mut tokens = Tokens::new(text);
        let mut begins_item = false;
        for _ in 0..text.len() {
            let Some(piece) = tokens.take() else {
                break;
            };
            self.note(piece, begins_item)?;
            begins_item = match piece.kind {
                TokenKind::Colon => begins_item,
                kind => is_item(kind),
            };
        }
        Ok(())
    }

    // Notes a token, if it is a name.
    fn note(&mut self, piece: Piece, begins_item: bool) -> Result<(), AllocError> {
        if !matches!(piece.kind, TokenKind::Name) {
            return Ok(());
        }
        self.names.push(piece.at)?;
        if begins_item {
            self.items.push(piece.at)?;
        }
        Ok(())
    }

    /// Where the name is that has `before` names before it.
    pub(crate) fn name(&self, before: usize) -> usize {
        self.names.get(before).copied().unwrap_or(0)
    }

    /// Where the name of the item is that has `before` items before it.
    pub(crate) fn item(&self, before: usize) -> usize {
        self.items.get(before).copied().unwrap_or(0)
    }
}

// Whether a word begins an item.
fn is_item(kind: TokenKind) -> bool {
    matches!(
        kind,
        TokenKind::Class | TokenKind::Object | TokenKind::ObjectSet
    )
}
