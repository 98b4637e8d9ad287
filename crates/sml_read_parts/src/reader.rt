//! The tokens that are left, one at a time.
ghost use Rattle.std.specs.Prelude.{◌≡◌, ◌≤◌, ◌+◌, ◌^◌, List, [], ◌∷◌, length, Option, IsSome, slice_get, false, Err, IfOk, IfErr};
ghost use Rattle.sml_tree.specs.Piece.{Piece};
ghost use Rattle.sml_read_parts.specs.Left.{left, led};
ghost use Rattle.sml_read_parts.specs.Reads.{ReadsToken, SeesTokenKind, Refusal, IfFault};
ghost use Rattle.sml_read_parts.specs.Stands.{TokenStands, Skips, Closes, ClosesAs, TokenIsTaken, ReadsLimited};
ghost use Rattle.sml_tree.specs.declared.token_kind.TokenKind.TheVariants as kinds;

use crate::fault::{Fault, Stop};
use crate::held::Held;
use crate::same_kind::same_kind;
use sml_text::{Lexeme, Sign, Source, next_token};
use sml_tree::{Name, TokenKind};
use std::marker::Model;

// The next token, and what is left behind it.
#[derive(Drop)]
struct Next<'a> {
    head: Option<Held<'a>>,
    text: &'a [u8],
    at: usize,
    slash: bool,
}

// Returns the next token of a text that begins at `at`, behind a slash or not.
fn next_held(text: &[u8], at: usize, slash: bool) -> Next<'_>
    requires { at + length text.now ≤ 2 ^ 20 }
    ensures left { left slash at text.now ≡ led result.head (left result.slash result.at result.text.now) }
    ensures within { result.at + length result.text.now ≤ 2 ^ 20 }
{
    match next_token(Source::Domain, text, at) {
        None => Next {
            head: None,
            text,
            at,
            slash,
        },
        Some((token, rest, after)) => Next {
            head: Some(Held::new(slash, token)),
            text: rest,
            at: after,
            slash: matches!(token.lexeme, Lexeme::Sign(Sign::Slash)),
        },
    }
}

/// The tokens that are left, the first of them held.
#[derive(Drop)]
pub struct Reader<'a> {
    head: Option<Held<'a>>,
    text: &'a [u8],
    at: usize,
    slash: bool,
}

impl<'a> Model for Reader<'a> {
    ghost use Rattle.std.specs.Prelude.{◌≤◌, ◌+◌, ◌^◌, List, length};
    ghost use Rattle.sml_tree.specs.Piece.{Piece};
    ghost use Rattle.sml_read_parts.specs.Left.{left, led};

    ghost Value = { List Piece };

    ghost view = { λ r. led r.head (left r.slash r.at r.text.now) };

    ghost invariant = { λ r. r.at + length r.text.now ≤ 2 ^ 20 };
}

impl<'a> Reader<'a> {
    /// Makes the reader of a whole text, before its first token.
    pub fn new(text: &'a [u8]) -> Self
        requires { length text.now ≤ 2 ^ 20 }
        ensures { result ≡ left false 0 text.now }
    {
        let next = next_held(text, 0, false);
        Reader {
            head: next.head,
            text: next.text,
            at: next.at,
            slash: next.slash,
        }
    }

    /// Takes the next token, which must be there.
    pub fn take(&mut self) -> Held<'a>
        requires { IsSome (slice_get self.old 0) }
        ensures { self.old ≡ result ∷ self.new }
    {
        let next = next_held(self.text, self.at, self.slash);
        self.text = next.text;
        self.at = next.at;
        self.slash = next.slash;
        match std::mem::replace(&mut self.head, next.head) {
            Some(held) => held,
            None => unreachable!(),
        }
    }

    /// Takes a token of this kind.
    pub fn expect(&mut self, kind: TokenKind) -> Result<Held<'a>, Stop>
        ensures { ReadsToken kind self.old self.new result }
    {
        if self.stands(kind) {
            return Ok(self.take());
        }
        Err(self.refusal())
    }
}

impl Reader<'_> {
    /// Returns the kind of the next token.
    pub fn peek(&self) -> Option<TokenKind>
        ensures { SeesTokenKind self.now result }
    {
        match &self.head {
            None => None,
            Some(held) => Some(held.kind()),
        }
    }

    /// Whether a token of this kind is in front.
    pub fn stands(&self, kind: TokenKind) -> bool
        ensures { TokenStands kind self.now result }
    {
        match &self.head {
            None => false,
            Some(held) => same_kind(kind, held.kind()),
        }
    }

    /// Takes the next token if it is of this kind, and says whether it was.
    pub fn skip(&mut self, kind: TokenKind) -> bool
        ensures { Skips kind self.old self.new result }
    {
        if !self.stands(kind) {
            return false;
        }
        self.take();
        true
    }

    /// Passes on what was read, if a token of this kind is behind it.
    pub fn closed<T: Drop>(&mut self, kind: TokenKind, inner: T) -> Result<T, Stop>
        ensures { Closes kind self.old self.new inner result }
    {
        self.expect(kind)?;
        Ok(inner)
    }

    /// Passes on what was read, if anything was and a token of this kind is behind it.
    pub fn ended<T: Drop>(&mut self, kind: TokenKind, read: Result<T, Stop>) -> Result<T, Stop>
        ensures { ClosesAs kind self.old self.new (λ x. x) read result }
    {
        match read {
            Ok(inner) => self.closed(kind, inner),
            Err(stop) => Err(stop),
        }
    }

    /// Takes a token of this kind and drops it, so that the caller holds no token.
    pub fn sign(&mut self, kind: TokenKind) -> Result<(), Stop>
        ensures read { IfOk result (λ x. TokenIsTaken kind self.old self.new) }
        ensures none { IfErr result (λ e. ReadsToken kind self.old self.new (Err e)) }
    {
        self.expect(kind)?;
        Ok(())
    }

    /// Reads the name in front, so that the caller holds no token.
    pub fn named(&mut self) -> Result<Name, Stop>
        ensures read { ReadsLimited 1 0 self.old self.new result }
        ensures none { IfErr result (λ e. ReadsToken kinds.Name self.old self.new (Err e)) }
    {
        Ok(self.expect(TokenKind::Name)?.name())
    }

    /// Returns the fault of a next token that may not be there, or of the end of the tokens.
    pub fn refusal(&self) -> Stop
        ensures { IfFault result (Refusal self.now) }
    {
        match &self.head {
            None => Stop::Fault(Fault::Ends),
            Some(held) => Stop::Fault(Fault::Unexpected(held.at())),
        }
    }
}
