//! A token that the reader holds.
ghost use Rattle.std.specs.Prelude.{◌≡◌};
ghost use Rattle.sml_text.specs.Views.{lexeme_of, token_of, IsLexeme};
ghost use Rattle.sml_tree.specs.Piece.{piece_kind as kind', sign_kind as sign', piece_of, int_of, bytes_of};
ghost use Rattle.sml_tree.specs.Word.{upper};
ghost use Rattle.sml_tree.specs.Grammar.{name};
ghost use Rattle.sml_tree.specs.declared.token_kind.TokenKind.TheVariants as kinds;

use sml_text::{Lexeme, Sign, Token};
use sml_tree::{Name, TokenKind, word_kind};
use std::marker::Model;

/// A token and its kind.
#[derive(Drop)]
pub struct Held<'a> {
    kind: TokenKind,
    token: Token<'a>,
}

impl<'a> Model for Held<'a> {
    ghost use Rattle.sml_text.specs.Views.{lexeme_of};
    ghost use Rattle.sml_tree.specs.Piece.{Piece};
    ghost use Rattle.sml_read_parts.specs.Held.{IsHeld};

    ghost Value = { Piece };

    ghost view = { λ h. record { kind = h.kind; lexeme = lexeme_of h.token.lexeme; at = h.token.at } };

    ghost invariant = { λ h. IsHeld h.kind h.token };
}

impl<'a> Held<'a> {
    /// Makes a token, behind a slash or not.
    pub fn new(slash: bool, token: Token<'a>) -> Self
        requires { IsLexeme token.lexeme }
        ensures { result ≡ piece_of slash (token_of token.entry) }
    {
        Held {
            kind: kind_of(slash, token.lexeme),
            token,
        }
    }
}

impl Held<'_> {
    /// Returns the kind of the token.
    pub fn kind(&self) -> TokenKind
        ensures { result ≡ self.now.kind }
    {
        self.kind
    }

    /// Returns the byte of the text where the token begins.
    pub fn at(&self) -> usize
        ensures { result ≡ self.now.at }
    {
        self.token.at
    }

    /// Returns the number that the token is.
    pub fn int(&self) -> i64
        requires { self.now.kind ≡ kinds.Int }
        ensures { result ≡ int_of self.now.lexeme }
    {
        match self.token.lexeme {
            Lexeme::Int(n) => n,
            _ => unreachable!(),
        }
    }

    /// Returns the bytes of the string that the token is.
    pub fn bytes(&self) -> &[u8]
        requires { self.now.kind ≡ kinds.Str }
        ensures { result.now ≡ bytes_of self.now.lexeme }
    {
        match self.token.lexeme {
            Lexeme::Str(bytes) => bytes,
            _ => unreachable!(),
        }
    }

    /// Returns the name that the token is.
    #[tactic(auto, using(crate::proofs::Naming::name_word))]
    pub fn name(&self) -> Name
        requires { self.now.kind ≡ kinds.Name }
        ensures { result ≡ name self.now }
    {
        match self.token.lexeme {
            Lexeme::Word(word) => Name::from_word(word),
            _ => unreachable!(),
        }
    }
}

// Returns the kind of a sign.
fn sign_kind(sign: Sign) -> TokenKind
    ensures { result ≡ sign' sign }
{
    match sign {
        Sign::Colon => TokenKind::Colon,
        Sign::Comma => TokenKind::Comma,
        Sign::Equals => TokenKind::Equals,
        Sign::OpenBracket => TokenKind::OpenBracket,
        Sign::CloseBracket => TokenKind::CloseBracket,
        Sign::OpenBrace => TokenKind::OpenBrace,
        Sign::CloseBrace => TokenKind::CloseBrace,
        Sign::Slash => TokenKind::Slash,
    }
}

// Returns the kind of a token, behind a slash or not.
#[tactic(auto, using(crate::proofs::Naming::name_word))]
fn kind_of(slash: bool, lexeme: Lexeme) -> TokenKind
    requires { IsLexeme lexeme }
    ensures { result ≡ kind' slash (lexeme_of lexeme.entry) }
{
    match lexeme {
        Lexeme::Word(word) => word_kind(slash, word),
        Lexeme::Int(_) => TokenKind::Int,
        Lexeme::Str(_) => TokenKind::Str,
        Lexeme::Sign(sign) => sign_kind(sign),
        Lexeme::Session(_) => TokenKind::Stray,
    }
}
