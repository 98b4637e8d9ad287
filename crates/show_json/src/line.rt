//! A line of text as a line of JSON.

use crate::forms::{Form, JsonKind, forms_of};
use crate::parts::tell_part;
use crate::words::{Stop, cut_before};
use json::Writer;
use std::alloc::{AllocError, Global};
use std::str;

// For how many bytes the text of an object has room when it is begun.
const ROOM: usize = 128;

// Writes the fields of all parts of a form, which are all that is left of a line.
fn tell_parts(json: &mut Writer, form: &Form, rest: &str) -> Result<(), Stop> {
    let mut rest = rest;
    for part in form.parts {
        rest = tell_part(json, *part, rest)?;
    }
    if rest.is_empty() {
        Ok(())
    } else {
        Err(Stop::Misfit)
    }
}

// The object of a line of this form, by what is behind its first word.
fn object_by(alloc: Global, form: &Form, rest: &str) -> Result<Vec<u8>, Stop> {
    let mut json = Writer::new(Vec::with_capacity(alloc, ROOM)?);
    json.begin_object()?;
    json.key("line")?;
    json.string(form.word)?;
    tell_parts(&mut json, form, rest)?;
    json.end_object()?;
    Ok(json.into_inner())
}

// The object of a line, by the first form that it fits, if it fits any.
fn object_of(alloc: Global, text: &str, of: JsonKind) -> Result<Option<Vec<u8>>, AllocError> {
    let (word, rest) = cut_before(text, ' ');
    let (own, shared) = forms_of(of);
    for form in own.iter().chain(shared) {
        if form.word == word {
            match object_by(alloc, form, rest) {
                Ok(json) => return Ok(Some(json)),
                Err(Stop::Memory) => return Err(AllocError),
                Err(Stop::Misfit) => {}
            }
        }
    }
    Ok(None)
}

// Bytes as a text, in which each byte is the character of its number.
fn text_of(alloc: Global, line: &[u8]) -> Result<String, AllocError> {
    let mut text = String::new(alloc);
    for byte in line {
        text.push(char::from(*byte))?;
    }
    Ok(text)
}

// The object of a line that has no form: it has the whole line.
fn whole_line(alloc: Global, line: &[u8]) -> Result<Vec<u8>, AllocError> {
    let text = text_of(alloc, line)?;
    let mut json = Writer::new(Vec::new(alloc));
    json.begin_object()?;
    json.key("text")?;
    json.string(text.as_str())?;
    json.end_object()?;
    Ok(json.into_inner())
}

/// One line of what a command writes as one line of JSON, both without a line feed. (docs/FORMATS.md, "JSON lines".)
///
/// A line that has none of the forms of this kind is `{"text":"LINE"}`, where a byte above 0x7F is the character of its
/// number. The time and the memory grow with the length of the line.
pub fn json_line(alloc: Global, line: &[u8], of: JsonKind) -> Result<Vec<u8>, AllocError> {
    let found = match str::from_utf8(line) {
        Ok(text) => object_of(alloc, text, of)?,
        Err(_) => None,
    };
    match found {
        Some(json) => Ok(json),
        None => whole_line(alloc, line),
    }
}
