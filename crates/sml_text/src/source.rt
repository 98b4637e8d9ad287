//! Where bytes come from, and the signs that are in them.

/// What a text is: the text of a domain, or a line of a schedule or script, in which a session is a
/// token too. (docs/LANGUAGE.md, "Tokens"; docs/FORMATS.md, "Schedules".)
#[derive(Clone, Copy, PartialEq, Eq)]
pub enum Source {
    Domain,
    Line,
}

/// A sign.
#[derive(Clone, Copy, PartialEq, Eq)]
pub enum Sign {
    Colon,
    Comma,
    Equals,
    OpenBracket,
    CloseBracket,
    OpenBrace,
    CloseBrace,
    Slash,
}
