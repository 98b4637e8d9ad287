//! What may go along.
ghost use Rattle.std.specs.Prelude.{◌↔◌, ◌≡◌, IsTrue};
ghost use Rattle.std.specs.List.{list_all, list_any};
ghost use Rattle.smi_live_once.specs.Tables.{same_bytes};
ghost use Rattle.smi_carried.specs.Suits as spec;
ghost use Rattle.smi_carried.specs.Suits.{CarriedSuits};

use crate::carried::{Carried, CarriedOnce, CarriedPlace};
use smi_live_once::{MOST_NAMES, is_name};
use sml_domain::Domain;

// Whether a byte is a letter.
fn is_what_letter(c: u8) -> bool
    ensures { result ≡ spec.is_what_letter c }
{
    c.is_ascii_uppercase() || c.is_ascii_lowercase()
}

// Whether each byte is a letter.
fn are_letters(word: &[u8]) -> bool
    ensures { result ≡ list_all spec.is_what_letter word.now }
{
    word.iter().all(|c| is_what_letter(*c))
}

/// Whether two texts are one.
pub(crate) fn is_same(text: &[u8], word: &[u8]) -> bool
    ensures { result ≡ same_bytes text.now word.now }
{
    text == word
}

// Whether it is `refused` and a word.
fn is_refusal(what: &[u8]) -> bool
    ensures { result ≡ spec.is_refusal what.now }
{
    what.starts_with(b"refused ".as_slice()) && (what.len() >= 9 && are_letters(what.split_at(8).1))
}

/// Whether it may have become of a request.
pub(crate) fn is_what(what: &[u8]) -> bool
    ensures { result ≡ spec.is_what what.now }
{
    is_same(what, b"ended")
        || (is_same(what, b"skipped") || (is_same(what, b"killed") || is_refusal(what)))
}

// Whether the state is one of the object's, if there is a place.
fn place_suits(domain: &Domain, place: &Option<CarriedPlace>) -> bool
    ensures { result ≡ spec.place_suits domain.now place.now }
{
    match place {
        Some(place) => domain.is_state(place.object, place.state),
        None => true,
    }
}

// Whether the last request of a name may go along.
fn once_suits(domain: &Domain, once: &CarriedOnce) -> bool
    ensures { result ≡ spec.once_suits domain.now once.now }
{
    is_name(&once.name) && (place_suits(domain, &once.place) && is_what(&once.what))
}

// Whether each may go along.
fn all_suit(domain: &Domain, names: &[CarriedOnce]) -> bool
    ensures { result ≡ list_all (spec.once_suits domain.now) names.now }
{
    names.iter().all(|once| once_suits(domain, once))
}

// Whether it is that of a name.
fn is_once_of(name: &[u8], once: &CarriedOnce) -> bool
    ensures { result ≡ spec.is_once_of name.now once.now }
{
    is_same(&once.name, name)
}

// Whether one of these is that of a name.
fn is_there(name: &[u8], names: &[CarriedOnce]) -> bool
    ensures { result ≡ list_any (spec.is_once_of name.now) names.now }
{
    names.iter().any(|once| is_once_of(name, once))
}

/// Whether none of these is that of a name.
pub(crate) fn has_none(name: &[u8], names: &[CarriedOnce]) -> bool
    ensures { result ≡ spec.has_none name.now names.now }
{
    !is_there(name, names)
}

// Whether no name is there twice.
fn are_named_once(names: &[CarriedOnce]) -> bool
    ensures { result ≡ spec.are_named_once names.now }
{
    match names.split_first() {
        Some((first, rest)) => has_none(&first.name, rest) && are_named_once(rest),
        None => true,
    }
}

/// Whether it may go along into a log of the domain. The cost is the square of the count of names.
pub fn carried_suits(domain: &Domain, carried: &Carried) -> bool
    ensures { IsTrue result ↔ CarriedSuits domain.now carried.now }
{
    carried.counts.len() == domain.objects()
        && carried.names.len() <= MOST_NAMES
        && all_suit(domain, &carried.names)
        && are_named_once(&carried.names)
}
