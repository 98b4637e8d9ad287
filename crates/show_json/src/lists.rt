//! Lists in lines: arguments, parameters, readings, names.

use crate::parts::tell_value;
use crate::words::{Stop, behind, cut_before, cut_name, next_word};
use json::Writer;

/// What a list in brackets has.
#[derive(Clone, Copy)]
pub(crate) enum Item {
    /// `NAME = VALUE`
    Argument,
    /// `KIND NAME`, and a default behind ` = ` where there is one.
    Parameter,
}

/// What a list of words has.
#[derive(Clone, Copy)]
pub(crate) enum Entry {
    /// `NAME`
    Name,
    /// `OBJECT=STATE`
    Reading,
}

// Writes the fields of an argument, and gives what is behind it.
fn tell_argument<'a>(json: &mut Writer, rest: &'a str) -> Result<&'a str, Stop> {
    let (name, rest) = cut_name(rest);
    json.key("name")?;
    json.string(name)?;
    tell_value(json, behind(rest, " = ")?)
}

// Writes the fields of a parameter, and gives what is behind it.
fn tell_parameter<'a>(json: &mut Writer, rest: &'a str) -> Result<&'a str, Stop> {
    let (kind, rest) = cut_before(rest, ' ');
    let (name, rest) = cut_name(behind(rest, " ")?);
    json.key("kind")?;
    json.string(kind)?;
    json.key("name")?;
    json.string(name)?;
    match rest.strip_prefix(" = ") {
        Some(value) => tell_value(json, value),
        None => Ok(rest),
    }
}

// Writes an item as an object, and gives what is behind it.
fn tell_item<'a>(json: &mut Writer, item: Item, rest: &'a str) -> Result<&'a str, Stop> {
    json.begin_object()?;
    let rest = match item {
        Item::Argument => tell_argument(json, rest)?,
        Item::Parameter => tell_parameter(json, rest)?,
    };
    json.end_object()?;
    Ok(rest)
}

// Writes the items up to the closing bracket, and gives what is behind that.
fn tell_items<'a>(json: &mut Writer, item: Item, list: &'a str) -> Result<&'a str, Stop> {
    let mut rest = list;
    for _ in 0..list.len() {
        rest = tell_item(json, item, rest)?;
        match rest.strip_prefix(", ") {
            Some(more) => rest = more,
            None => return behind(rest, ")"),
        }
    }
    Err(Stop::Misfit)
}

/// Writes a list that stands in brackets, or the empty one where nothing stands, and gives what is behind it.
pub(crate) fn tell_bracketed<'a>(
    json: &mut Writer,
    field: &str,
    item: Item,
    rest: &'a str,
) -> Result<&'a str, Stop> {
    json.key(field)?;
    json.begin_array()?;
    let rest = match rest.strip_prefix(" (") {
        Some(list) => tell_items(json, item, list)?,
        None => rest,
    };
    json.end_array()?;
    Ok(rest)
}

// Writes the reading of an object.
fn tell_reading(json: &mut Writer, word: &str) -> Result<(), Stop> {
    let Some((object, state)) = word.split_once('=') else {
        return Err(Stop::Misfit);
    };
    json.begin_object()?;
    json.key("object")?;
    json.string(object)?;
    json.key("state")?;
    json.string(state)?;
    json.end_object()?;
    Ok(())
}

// Writes an entry of a list of words.
fn tell_entry(json: &mut Writer, entry: Entry, word: &str) -> Result<(), Stop> {
    match entry {
        Entry::Name => Ok(json.string(word)?),
        Entry::Reading => tell_reading(json, word),
    }
}

/// Writes all words that are left as a list.
pub(crate) fn tell_words<'a>(
    json: &mut Writer,
    field: &str,
    entry: Entry,
    list: &'a str,
) -> Result<&'a str, Stop> {
    json.key(field)?;
    json.begin_array()?;
    let mut rest = list;
    for _ in 0..list.len() {
        if rest.is_empty() {
            break;
        }
        let (word, more) = next_word(rest)?;
        tell_entry(json, entry, word)?;
        rest = more;
    }
    json.end_array()?;
    Ok(rest)
}
