//! The bytes of files that are read whole, and those of standard input.

use sml_read::MAX_TEXT;
use std::alloc::Global;
use std::fs::Files;
use std::io::Read;
use std::{fs, io};

/// The word of a command line that names standard input in place of a file.
pub const STANDARD_INPUT: &str = "-";

// One byte more than a domain text may have, so that a text which is too long is seen to be so, and
// no more of it is read.
const MOST_READ: u64 = MAX_TEXT as u64 + 1;

/// The text of a domain file, or a prefix of one that is too long.
pub fn load_text<R: Files + AllocGlobal, I: Read>(
    rt: &R,
    input: &mut I,
    file: &str,
) -> io::Result<Vec<u8>> {
    load_prefix(rt, input, file, MOST_READ)
}

/// Returns at most the first `most` bytes of a file, or of the input if the file is named `-`.
pub fn load_prefix<R: Files + AllocGlobal, I: Read>(
    rt: &R,
    input: &mut I,
    file: &str,
    most: u64,
) -> io::Result<Vec<u8>> {
    if file == STANDARD_INPUT {
        return read_prefix(rt.alloc(), input, most);
    }
    match fs::open(rt, file) {
        Ok(mut opened) => read_prefix(rt.alloc(), &mut opened, most),
        Err(error) => Err(error),
    }
}

// The first bytes of what is read.
fn read_prefix<I: Read>(heap: Global, input: &mut I, most: u64) -> io::Result<Vec<u8>> {
    let mut bytes = Vec::new(heap);
    match input.take(most).read_to_end(&mut bytes) {
        Ok(_) => Ok(bytes),
        Err(error) => Err(error),
    }
}
