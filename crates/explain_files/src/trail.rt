//! What is in front of a place of a text.

use crate::tokens::{Piece, Tokens};
use sml_tree::TokenKind;
use std::alloc::{AllocError, Global};

/// An `if` that is open.
#[derive(Clone, Copy)]
pub(crate) struct OpenIf {
    pub at: usize,
    /// Whether its `else` is before the place.
    pub has_else: bool,
    /// The `if` that is directly behind its `else`.
    pub else_if: Option<usize>,
}

/// What is in front of a place of a text.
#[derive(Drop)]
pub(crate) struct Trail {
    /// The last word that begins a part of the grammar.
    pub head: Piece,
    /// The last token but one.
    pub before: Piece,
    /// The last token.
    pub last: Piece,
    /// The `if`s that are open, the outermost first.
    pub ifs: Vec<OpenIf>,
    /// The brackets and braces that are open, the outermost first.
    pub signs: Vec<Piece>,
    /// The token at the place; at the end of the text, an empty piece.
    pub found: Piece,
    /// The token behind it.
    pub after: Piece,
    /// The last name of a state in the condition that the place is in.
    pub state: Option<Piece>,
    /// Where two slashes are.
    pub slashes: Option<usize>,
}

// Whether a word begins a part of the grammar.
fn is_head(kind: TokenKind) -> bool {
    matches!(
        kind,
        TokenKind::Class
            | TokenKind::Object
            | TokenKind::ObjectSet
            | TokenKind::State
            | TokenKind::Action
            | TokenKind::Parameters
            | TokenKind::Do
            | TokenKind::If
            | TokenKind::Then
            | TokenKind::Else
            | TokenKind::Endif
            | TokenKind::Set
            | TokenKind::MoveTo
            | TokenKind::TerminateAction
            | TokenKind::Wait
            | TokenKind::Insert
            | TokenKind::Remove
    )
}

impl Trail {
    /// Before the first token of a text.
    pub(crate) fn new(alloc: Global) -> Trail {
        Trail {
            head: Piece::none(),
            before: Piece::none(),
            last: Piece::none(),
            ifs: Vec::new(alloc),
            signs: Vec::new(alloc),
            found: Piece::none(),
            after: Piece::none(),
            state: None,
            slashes: None,
        }
    }

    /// Goes over the tokens of a text up to a place.
    pub(crate) fn follow(&mut self, text: &[u8], offset: usize) -> Result<(), AllocError> {
        let mut tokens = Tokens::new(text);
        for _ in 0..text.len() {
            let Some(piece) = tokens.take() else {
                break;
            };
            if piece.at >= offset {
                self.found = piece;
                self.after = tokens.take().unwrap_or(Piece::none());
                break;
            }
            self.pass(piece)?;
        }
        Ok(())
    }

    // Goes over one token.
    fn pass(&mut self, piece: Piece) -> Result<(), AllocError> {
        match piece.kind {
            TokenKind::If => self.open_if(piece)?,
            TokenKind::Else => self.note_else()?,
            TokenKind::OpenBracket | TokenKind::OpenBrace => self.signs.push(piece)?,
            TokenKind::Endif => {
                let _ = self.ifs.pop();
            }
            TokenKind::CloseBracket | TokenKind::CloseBrace => {
                let _ = self.signs.pop();
            }
            _ => {}
        }
        if is_head(piece.kind) && !matches!(self.last.kind, TokenKind::Slash) {
            self.head = piece;
            self.state = None;
        }
        self.note_pair(piece);
        self.before = self.last;
        self.last = piece;
        Ok(())
    }

    // Notes what a token is together with the one before it.
    fn note_pair(&mut self, piece: Piece) {
        match (self.last.kind, piece.kind) {
            (TokenKind::InState | TokenKind::NotInState, TokenKind::Name) => {
                self.state = Some(piece);
            }
            (TokenKind::Slash, TokenKind::Slash)
                if self.last.end == piece.at && self.slashes.is_none() => {
                self.slashes = Some(self.last.at);
            }
            _ => {}
        }
    }

    // Opens an `if`. If it is directly behind an `else`, notes it in the `if` of that `else`.
    fn open_if(&mut self, piece: Piece) -> Result<(), AllocError> {
        if matches!(self.last.kind, TokenKind::Else) {
            if let Some(open) = self.ifs.pop() {
                self.ifs.push(OpenIf {
                    else_if: Some(piece.at),
                    ..open
                })?;
            }
        }
        self.ifs.push(OpenIf {
            at: piece.at,
            has_else: false,
            else_if: None,
        })?;
        Ok(())
    }

    // Notes the `else` of the innermost `if`.
    fn note_else(&mut self) -> Result<(), AllocError> {
        if let Some(open) = self.ifs.pop() {
            self.ifs.push(OpenIf {
                has_else: true,
                ..open
            })?;
        }
        Ok(())
    }

    /// The innermost `if` that is open.
    pub(crate) fn open_if_there(&self) -> Option<OpenIf> {
        self.ifs.as_slice().last().copied()
    }

    /// The innermost bracket or brace that is open.
    pub(crate) fn open_sign(&self) -> Option<Piece> {
        self.signs.as_slice().last().copied()
    }

    /// Whether an instruction could be at the place.
    pub(crate) fn takes_instruction(&self) -> bool {
        let last = self.last.kind;
        let before = self.before.kind;
        let is_outside = self.signs.is_empty();
        match self.head.kind {
            TokenKind::Then | TokenKind::Else | TokenKind::Endif => true,
            TokenKind::Action => {
                is_outside && matches!(last, TokenKind::Name | TokenKind::CloseBracket)
            }
            TokenKind::Do => {
                is_outside && matches!(last, TokenKind::Name) && !matches!(before, TokenKind::Do)
            }
            TokenKind::Set => matches!(before, TokenKind::Equals),
            TokenKind::MoveTo => matches!(last, TokenKind::Name),
            TokenKind::TerminateAction => matches!(last, TokenKind::Name),
            TokenKind::Wait => matches!(last, TokenKind::CloseBracket),
            TokenKind::Insert => matches!(before, TokenKind::In),
            TokenKind::Remove => matches!(before, TokenKind::From),
            _ => false,
        }
    }

    /// Whether a test of a condition could go on at the place, behind the name of an object or a set.
    pub(crate) fn takes_test(&self) -> bool {
        matches!(self.head.kind, TokenKind::If)
            && matches!(self.last.kind, TokenKind::Name)
            && !matches!(
                self.before.kind,
                TokenKind::InState | TokenKind::NotInState | TokenKind::OpenBrace | TokenKind::Comma
            )
    }

    /// Whether the place is the end of the text.
    pub(crate) fn ends(&self) -> bool {
        matches!(self.found.kind, TokenKind::Stray)
    }
}
