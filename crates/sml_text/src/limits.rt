//! The limits of a token, as docs/LANGUAGE.md has them.

/// Bytes of a word, and so of a name.
pub const LONGEST_NAME: usize = 64;

/// Bytes of a string, without its quotes.
pub const LONGEST_STRING: usize = 255;
