//! What a token of a line is, as far as explanations ask.

use sml_text::Sign;

/// What a token is.
#[derive(Clone, Copy, Eq, PartialEq)]
pub(crate) enum Form {
    /// A word that is not reserved.
    Name,
    Reserved,
    /// An int or a string.
    Value,
    Sign(Sign),
    Session,
}

/// A token: the places of its first byte and of the one behind it.
#[derive(Clone, Copy)]
pub(crate) struct Token {
    pub(crate) form: Form,
    pub(crate) at: usize,
    pub(crate) end: usize,
}

/// What is next in a line.
#[derive(Clone, Copy)]
pub(crate) enum Piece {
    Token(Token),
    /// Something that is no token, at this place.
    Bad(usize),
    End,
}
