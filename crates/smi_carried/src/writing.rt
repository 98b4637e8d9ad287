//! The text of what goes along, added to a text. The cost of each function is the length of what it adds.
ghost use Rattle.std.specs.Prelude.{◌≡◌, ◌++◌, OnOk};
ghost use Rattle.sml_text.specs.Decimal.{decimal_text};
ghost use Rattle.smi_journal.specs.CallText.{name_or_nothing, spaced};
ghost use Rattle.smi_carried.specs.CarriedText.{carried_object_text, carried_count_line, carried_counts_at, carried_counts_lines, carried_counts_text, carried_names_text, carried_once_line, carried_text, carried_place_text};

use crate::carried::{Carried, CarriedCounts, CarriedOnce, CarriedPlace};
use itoa::Buffer;
use sml_domain::{Domain, ObjId};
use sml_tree::Name;
use std::alloc::AllocError;

// Adds a word with a blank before it.
fn add_bytes(text: &mut Vec<u8>, word: &[u8]) -> Result<(), AllocError>
    ensures { OnOk result (text.new.items ≡ text.old.items ++ spaced word.now) }
{
    text.push(b' ')?;
    text.extend_from_slice(word)
}

// Adds a name with a blank before it.
fn add_word(text: &mut Vec<u8>, name: Option<Name>) -> Result<(), AllocError>
    ensures { OnOk result (text.new.items ≡ text.old.items ++ spaced (name_or_nothing name)) }
{
    text.push(b' ')?;
    match name {
        Some(name) => text.extend_from_slice(name.as_bytes()),
        None => Ok(()),
    }
}

// Adds a number with a blank before it.
fn add_number(text: &mut Vec<u8>, number: u64) -> Result<(), AllocError>
    ensures { OnOk result (text.new.items ≡ text.old.items ++ spaced (decimal_text number)) }
{
    let mut buffer = Buffer::new();
    text.push(b' ')?;
    text.extend_from_slice(buffer.format(number).as_bytes())
}

// Adds a keyword, and then the name of an object.
fn add_object(
    text: &mut Vec<u8>,
    keyword: &[u8],
    domain: &Domain,
    o: ObjId,
) -> Result<(), AllocError>
    ensures { OnOk result (text.new.items ≡ text.old.items ++ carried_object_text keyword.now domain.now o) }
{
    text.extend_from_slice(keyword)?;
    add_word(text, domain.object_name(o))
}

// Adds the line of a count of an object, unless it is 0.
fn add_count(
    text: &mut Vec<u8>,
    keyword: &[u8],
    domain: &Domain,
    o: ObjId,
    count: u64,
) -> Result<(), AllocError>
    ensures { OnOk result (text.new.items ≡ text.old.items ++ carried_count_line keyword.now domain.now o count) }
{
    if count == 0 {
        return Ok(());
    }
    add_object(text, keyword, domain, o)?;
    add_number(text, count)?;
    text.push(b'\n')?;
    Ok(())
}

// Adds the lines of how often an object started and ended.
fn add_counts_of(
    text: &mut Vec<u8>,
    domain: &Domain,
    o: ObjId,
    counts: &CarriedCounts,
) -> Result<(), AllocError>
    ensures { OnOk result (text.new.items ≡ text.old.items ++ carried_counts_lines domain.now o counts.now) }
{
    add_count(text, b"! started", domain, o, counts.started)?;
    add_count(text, b"! ended", domain, o, counts.ended)
}

// Adds those of the object at a place, if there are any.
fn add_counts_at(
    text: &mut Vec<u8>,
    domain: &Domain,
    counts: &[CarriedCounts],
    o: usize,
) -> Result<(), AllocError>
    ensures { OnOk result (text.new.items ≡ text.old.items ++ carried_counts_at domain.now counts.now o) }
{
    match counts.get(o) {
        Some(these) => add_counts_of(text, domain, ObjId::new(o), these),
        None => Ok(()),
    }
}

// Adds those of all objects.
fn add_counts(
    text: &mut Vec<u8>,
    domain: &Domain,
    counts: &[CarriedCounts],
) -> Result<(), AllocError>
    ensures { OnOk result (text.new.items ≡ text.old.items ++ carried_counts_text domain.now counts.now) }
{
    for o in 0..counts.len() {
        add_counts_at(text, domain, counts, o)?;
    }
    Ok(())
}

// Adds an object, its state and its version.
fn add_place(
    text: &mut Vec<u8>,
    domain: &Domain,
    place: &Option<CarriedPlace>,
) -> Result<(), AllocError>
    ensures { OnOk result (text.new.items ≡ text.old.items ++ carried_place_text domain.now place.now) }
{
    match place {
        Some(place) => {
            add_word(text, domain.object_name(place.object))?;
            add_word(text, domain.state_name(place.state))?;
            add_number(text, place.version)
        }
        None => text.extend_from_slice(b" - - 0"),
    }
}

// Adds the line of the last request of a name.
fn add_once(text: &mut Vec<u8>, domain: &Domain, once: &CarriedOnce) -> Result<(), AllocError>
    ensures { OnOk result (text.new.items ≡ text.old.items ++ carried_once_line domain.now once.now) }
{
    text.extend_from_slice(b"! once")?;
    add_bytes(text, &once.name)?;
    add_number(text, once.number)?;
    add_place(text, domain, &once.place)?;
    add_bytes(text, &once.what)?;
    text.push(b'\n')?;
    Ok(())
}

// Adds those of all names.
#[tactic(auto, using(crate::proofs::Numbered::flat_more))]
fn add_names(text: &mut Vec<u8>, domain: &Domain, names: &[CarriedOnce]) -> Result<(), AllocError>
    ensures { OnOk result (text.new.items ≡ text.old.items ++ carried_names_text domain.now names.now) }
{
    for once in names {
        add_once(text, domain, once)?;
    }
    Ok(())
}

/// Adds the lines of what goes along to a text: they follow those of the outset. The cost is their length. The error is
/// out of memory.
pub fn add_carried(text: &mut Vec<u8>, domain: &Domain, carried: &Carried) -> Result<(), AllocError>
    ensures { OnOk result (text.new.items ≡ text.old.items ++ carried_text domain.now carried.now) }
{
    add_counts(text, domain, &carried.counts)?;
    add_names(text, domain, &carried.names)
}
