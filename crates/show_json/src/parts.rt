//! The parts of a line, each with the fields that it gives.

use crate::forms::Part;
use crate::lists::{Entry, Item, tell_bracketed, tell_words};
use crate::words::{Stop, behind, count_of, cut_before, next_int, next_word};
use json::Writer;

/// Writes the field of a value, and gives what is behind the value.
pub(crate) fn tell_value<'a>(json: &mut Writer, rest: &'a str) -> Result<&'a str, Stop> {
    json.key("value")?;
    if let Some(text) = rest.strip_prefix('"') {
        let (text, rest) = cut_before(text, '"');
        json.string(text)?;
        return behind(rest, "\"");
    }
    let (n, rest) = next_int(rest)?;
    json.i64(n)?;
    Ok(rest)
}

// Writes the next word as a field.
fn tell_word<'a>(json: &mut Writer, field: &str, rest: &'a str) -> Result<&'a str, Stop> {
    let (word, rest) = next_word(rest)?;
    json.key(field)?;
    json.string(word)?;
    Ok(rest)
}

// Writes the next word, which is a number, as a field.
fn tell_count<'a>(json: &mut Writer, field: &str, rest: &'a str) -> Result<&'a str, Stop> {
    let (word, rest) = next_word(rest)?;
    let count = count_of(word)?;
    json.key(field)?;
    json.u64(count)?;
    Ok(rest)
}

// What is behind this word, which is the next.
fn behind_word<'a>(rest: &'a str, wanted: &str) -> Result<&'a str, Stop> {
    match next_word(rest)? {
        (word, rest) if word == wanted => Ok(rest),
        _ => Err(Stop::Misfit),
    }
}

// Writes a field that says whether its word is the next, and gives what is behind that.
fn tell_may_be<'a>(json: &mut Writer, field: &str, rest: &'a str) -> Result<&'a str, Stop> {
    let found = behind_word(rest, field);
    json.key(field)?;
    json.boolean(found.is_ok())?;
    Ok(found.unwrap_or(rest))
}

// Writes that a word stands there.
fn tell_mark<'a>(json: &mut Writer, field: &str, rest: &'a str) -> Result<&'a str, Stop> {
    let rest = behind_word(rest, field)?;
    json.key(field)?;
    json.boolean(true)?;
    Ok(rest)
}

// Writes a name and the value that it has.
fn tell_setting<'a>(json: &mut Writer, rest: &'a str) -> Result<&'a str, Stop> {
    let (name, rest) = cut_before(behind(rest, " ")?, '=');
    json.key("name")?;
    json.string(name)?;
    tell_value(json, behind(rest, "=")?)
}

/// Writes the fields of a part, and gives what is behind it.
pub(crate) fn tell_part<'a>(json: &mut Writer, part: Part, rest: &'a str) -> Result<&'a str, Stop> {
    match part {
        Part::Word(field) => tell_word(json, field, rest),
        Part::Count(field) => tell_count(json, field, rest),
        Part::Only(word) => behind_word(rest, word),
        Part::Mark(field) => tell_mark(json, field, rest),
        Part::MayBe(field) => tell_may_be(json, field, rest),
        Part::Value => tell_value(json, behind(rest, " ")?),
        Part::Setting => tell_setting(json, rest),
        Part::Words(field) => tell_words(json, field, Entry::Name, rest),
        Part::Readings => tell_words(json, "read", Entry::Reading, rest),
        Part::Arguments => tell_bracketed(json, "args", Item::Argument, rest),
        Part::Parameters => tell_bracketed(json, "parameters", Item::Parameter, rest),
    }
}
