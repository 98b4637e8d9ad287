//! The kinds of tokens.

/// What a token of a domain text is: a reserved word, a word that counts only behind a slash, a
/// sign, or something else. (docs/LANGUAGE.md, "Tokens".)
#[derive(Clone, Copy)]
pub enum TokenKind {
    Class,
    Object,
    ObjectSet,
    IsOfClass,
    State,
    Action,
    Parameters,
    IntKind,
    StringKind,
    Do,
    If,
    Then,
    Else,
    Endif,
    Set,
    MoveTo,
    TerminateAction,
    InState,
    NotInState,
    AllIn,
    AnyIn,
    And,
    Or,
    Not,
    Wait,
    Insert,
    Remove,
    In,
    From,
    /// `ASSOCIATED` behind a slash.
    Associated,
    /// `INITIAL_STATE` behind a slash.
    InitialState,
    /// `DEAD_STATE` behind a slash.
    DeadState,
    Colon,
    Comma,
    Equals,
    OpenBracket,
    CloseBracket,
    OpenBrace,
    CloseBrace,
    Slash,
    Name,
    Int,
    Str,
    /// A token that no file has.
    Stray,
}
