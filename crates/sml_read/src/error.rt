//! Why a text is refused.
ghost use Rattle.std.specs.Prelude.{◌≡◌, Some};
ghost use Rattle.sml_read.specs.Refusal.{read_kind_number, read_kind_name, read_error_text};

use std::error::Error;
use std::fmt;

/// Why a text is refused. (docs/LANGUAGE.md, "Refusals".)
#[derive(Clone, Copy, Debug, PartialEq, Eq)]
pub enum ReadErrorKind {
    /// The text has more than 1,048,576 bytes.
    TooLong,
    /// The text has a byte above 0x7F.
    NotAscii,
    /// Something is not a blank, a comment or a token.
    BadToken,
    /// No file of the grammar continues with this token, or the text ends too early.
    Unexpected,
    /// An `if`, a `not` or a bracket is inside too many others.
    TooDeep,
    /// An item is one too many.
    TooMany,
    /// Out of memory.
    Memory,
}

/// A refusal, and the byte of the text that it is about, counted from 0. `Memory` has the offset 0.
#[derive(Clone, Copy, Debug, PartialEq, Eq)]
pub struct ReadError {
    pub kind: ReadErrorKind,
    pub offset: usize,
}

impl ReadErrorKind {
    /// Returns the kind's number, from 1 to 7.
    pub fn number(self) -> u8
        ensures { result ≡ read_kind_number self }
    {
        match self {
            ReadErrorKind::TooLong => 1,
            ReadErrorKind::NotAscii => 2,
            ReadErrorKind::BadToken => 3,
            ReadErrorKind::Unexpected => 4,
            ReadErrorKind::TooDeep => 5,
            ReadErrorKind::TooMany => 6,
            ReadErrorKind::Memory => 7,
        }
    }

    /// Returns the kind's name, as `TooLong`.
    pub fn name(self) -> &'static str
        ensures { result.now ≡ read_kind_name self }
    {
        match self {
            ReadErrorKind::TooLong => "TooLong",
            ReadErrorKind::NotAscii => "NotAscii",
            ReadErrorKind::BadToken => "BadToken",
            ReadErrorKind::Unexpected => "Unexpected",
            ReadErrorKind::TooDeep => "TooDeep",
            ReadErrorKind::TooMany => "TooMany",
            ReadErrorKind::Memory => "Memory",
        }
    }
}

impl fmt::Display for ReadErrorKind {
    ghost output = { λ kind. Some (read_kind_name kind) };

    fn fmt<W: fmt::Write>(&self, f: &mut fmt::Formatter<W>) -> fmt::Result {
        f.write_str(self.name())
    }
}

impl fmt::Display for ReadError {
    ghost output = { λ error. Some (read_error_text error) };

    fn fmt<W: fmt::Write>(&self, f: &mut fmt::Formatter<W>) -> fmt::Result {
        write!(f, "{} at {}", self.kind, self.offset)
    }
}

impl Error for ReadErrorKind {}

impl Error for ReadError {}
