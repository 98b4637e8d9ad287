//! The last requests of names, read from the lines in front of a text.
ghost use Rattle.std.specs.Prelude.{◌≡◌, ◌≢◌, ◌++◌, ◌∷◌, ℕ, IfNone, IfOk, IfSome, List, true};
ghost use Rattle.smi_journal.specs.HasText.{HasNames};
ghost use Rattle.smi_live_once.specs.Forms.{is_once_name};
ghost use Rattle.smi_carried.specs.CarriedText.{carried_names_text};
ghost use Rattle.smi_carried.specs.Onces.{NextOnceIsRead, NoNextOnce, NoOnceIsRead, OnceIsRead, OncesAreMost, OncesMayGo, once_of_parts};
ghost use Rattle.smi_carried.specs.Suits as spec;

use crate::carried::{CarriedOnce, CarriedPlace};
use crate::pieces::{after, cut, next_number};
use crate::placing::next_place;
use crate::suiting::{has_none, is_what};
use smi_live_once::{MOST_NAMES, is_name};
use sml_domain::Domain;
use std::alloc::{AllocError, Global};

// What the line of a last request says; its texts stand in the line.
#[derive(Clone, Copy)]
struct OnceWords<'a> {
    name: &'a [u8],
    number: u64,
    place: Option<CarriedPlace>,
    what: &'a [u8],
}

// The name in front with a blank after it, and what comes after that.
fn next_name(text: &[u8]) -> Option<(&[u8], &[u8])>
    ensures some { IfSome result (λ x. (is_once_name x.0.now ≡ true) × (text.now ≡ x.0.now ++ 32 ∷ x.1.now)) }
    ensures none { IfNone result ((name more : List ℕ) → is_once_name name ≡ true → text.now ≢ name ++ 32 ∷ more) }
{
    let Some((name, more)) = cut(text, b' ') else {
        return None;
    };
    if is_name(name) {
        Some((name, more))
    } else {
        None
    }
}

// What became of a request, up to the end of the line, and what comes after that.
fn next_what(text: &[u8]) -> Option<(&[u8], &[u8])>
    ensures some { IfSome result (λ x. (spec.is_what x.0.now ≡ true) × (text.now ≡ x.0.now ++ 10 ∷ x.1.now)) }
    ensures none { IfNone result ((what more : List ℕ) → spec.is_what what ≡ true → text.now ≢ what ++ 10 ∷ more) }
{
    let Some((what, more)) = cut(text, b'\n') else {
        return None;
    };
    if is_what(what) {
        Some((what, more))
    } else {
        None
    }
}

// What the line of a last request in front says, and what comes after it.
fn next_words<'a>(text: &'a [u8], domain: &Domain) -> Option<(OnceWords<'a>, &'a [u8])>
    requires { HasNames domain.now }
    ensures some { IfSome result (λ x. OnceIsRead domain.now text.now
        (once_of_parts x.0.name.now x.0.number x.0.place x.0.what.now) x.1.now) }
    ensures none { IfNone result (NoOnceIsRead domain.now text.now) }
{
    // The domain is sound.
    domain.objects();
    let Some(names) = after(text, b"! once ") else {
        return None;
    };
    let Some((name, numbers)) = next_name(names) else {
        return None;
    };
    let Some((number, places)) = next_number(numbers, b' ') else {
        return None;
    };
    let Some((place, whats)) = next_place(places, domain) else {
        return None;
    };
    let Some((what, more)) = next_what(whats) else {
        return None;
    };
    let words = OnceWords {
        name,
        number,
        place,
        what,
    };
    Some((words, more))
}

// What the line in front says of a name, if it may stand after these, and what comes after it.
fn next_new<'a>(
    text: &'a [u8],
    domain: &Domain,
    before: &[CarriedOnce],
) -> Option<(OnceWords<'a>, &'a [u8])>
    requires { HasNames domain.now }
    ensures some { IfSome result (λ x. NextOnceIsRead domain.now before.now text.now
        (once_of_parts x.0.name.now x.0.number x.0.place x.0.what.now) x.1.now) }
    ensures none { IfNone result (NoNextOnce domain.now before.now text.now) }
{
    // The domain is sound.
    domain.objects();
    if before.len() >= MOST_NAMES {
        return None;
    }
    let Some(next) = next_words(text, domain) else {
        return None;
    };
    if has_none(next.0.name, before) {
        Some(next)
    } else {
        None
    }
}

// The last request that a line says. The error is out of memory.
fn once_of(alloc: Global, words: &OnceWords<'_>) -> Result<CarriedOnce, AllocError>
    ensures { IfOk result (λ x. x
        ≡ once_of_parts words.now.name.now words.now.number words.now.place words.now.what.now) }
{
    let name = Vec::from_slice(alloc, words.name)?;
    let what = Vec::from_slice(alloc, words.what)?;
    Ok(CarriedOnce {
        name,
        number: words.number,
        place: words.place,
        what,
    })
}

/// The last requests of names by the lines in front, and what comes after them. The error is out of memory.
pub(crate) fn read_names<'a>(
    alloc: Global,
    domain: &Domain,
    text: &'a [u8],
) -> Result<(Vec<CarriedOnce>, &'a [u8]), AllocError>
    requires { HasNames domain.now }
    ensures may { IfOk result (λ x. OncesMayGo domain.now x.0.items) }
    ensures whole { IfOk result (λ x. text.now ≡ carried_names_text domain.now x.0.items ++ x.1.now) }
    ensures most { IfOk result (λ x. OncesAreMost domain.now text.now x.1.now) }
{
    // The domain is sound.
    domain.objects();
    let mut names = Vec::new(alloc);
    let mut rest = text;
    while let Some(next) = next_new(rest, domain, &names) {
        let once = once_of(alloc, &next.0)?;
        names.push(once)?;
        rest = next.1;
    }
    Ok((names, rest))
}
