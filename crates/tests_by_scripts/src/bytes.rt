//! Bytes of scripts that are no printable ASCII: each is written as `\xnn`, by its two hexadecimal digits.

use std::alloc::{AllocError, Global};
use std::io::ErrorKind;
use std::{io, str};

// What is before the two digits of a byte.
const ESCAPE: &str = "\\x";

/// Adds bytes to a text, where each that is no printable ASCII is written with its number.
pub fn escape(text: &mut Vec<u8>, bytes: &[u8]) -> Result<(), AllocError> {
    for byte in bytes {
        if (b' '..=b'~').contains(byte) {
            text.push(*byte)?;
        } else {
            let mut digits = [0u8; 2];
            let _encoded = hex::encode_to_slice([*byte], &mut digits);
            text.extend_from_slice(ESCAPE.as_bytes())?;
            text.extend_from_slice(&digits)?;
        }
    }
    Ok(())
}

// The byte whose number a text begins with, and what follows it.
fn byte_in_front(text: &str) -> Option<(u8, &str)> {
    let (digits, rest) = text.split_at_checked(2)?;
    let mut byte = [0u8; 1];
    match hex::decode_to_slice(digits, &mut byte) {
        Ok(()) => Some((byte[0], rest)),
        Err(_) => None,
    }
}

// Adds the bytes that a line of a script stands for.
fn add_unescaped(bytes: &mut Vec<u8>, line: &str) -> Result<(), AllocError> {
    for (place, part) in line.split(ESCAPE).enumerate() {
        match byte_in_front(part) {
            Some((byte, rest)) if place > 0 => {
                bytes.push(byte)?;
                bytes.extend_from_slice(rest.as_bytes())?;
            }
            _ => {
                if place > 0 {
                    bytes.extend_from_slice(ESCAPE.as_bytes())?;
                }
                bytes.extend_from_slice(part.as_bytes())?;
            }
        }
    }
    Ok(())
}

fn text_of(alloc: Global, bytes: &[u8]) -> io::Result<String> {
    match str::from_utf8(bytes) {
        Ok(text) => Ok(String::from_str(alloc, text)?),
        Err(_) => Err(io::Error::from(ErrorKind::InvalidData)),
    }
}

/// A line of a script with the bytes that it stands for.
pub fn unescape(alloc: Global, line: &str) -> io::Result<String> {
    let mut bytes = Vec::new(alloc);
    match add_unescaped(&mut bytes, line) {
        Ok(()) => text_of(alloc, bytes.as_slice()),
        Err(error) => Err(io::Error::from(error)),
    }
}
