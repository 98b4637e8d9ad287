//! Exit statuses. (docs/FORMATS.md, "Fault lines and exit statuses".)

/// A command did what it was asked.
pub const DONE: u8 = 0;

/// An input was refused, or there was a fault of input or output.
pub const REFUSED: u8 = 1;

/// The command line is wrong.
pub const WRONG_WORDS: u8 = 2;

/// Out of memory.
pub const NO_MEMORY: u8 = 3;

/// A journal is not legal.
pub const ILLEGAL: u8 = 4;
