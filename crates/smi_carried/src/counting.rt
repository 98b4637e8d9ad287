//! Counts, read from the lines in front of a text.
ghost use Rattle.std.specs.Prelude.{◌≡◌, ◌++◌, All, IfNone, IfOk, IfSome, codes, length, option_map};
ghost use Rattle.smi_journal.specs.HasText.{HasNames};
ghost use Rattle.smi_carried.specs.CarriedText.{carried_counts_text, carried_object_text};
ghost use Rattle.smi_carried.specs.Counts.{CountIsRead, CountsAreAll, CountsAreHeld, NoCountIsRead, ReadsCount, ReadsCounts};
ghost use Rattle.smi_carried.specs.Pieces.{ComesAfter};

use crate::carried::CarriedCounts;
use crate::pieces::{after, after_object, next_number};
use sml_domain::{Domain, ObjId};
use std::alloc::{AllocError, Global};

// What comes after a keyword, the name of an object and a blank.
#[tactic(auto, using(crate::proofs::Cuts::after_both, crate::proofs::Cuts::after_none))]
fn after_name_of<'a>(text: &'a [u8], keyword: &[u8], domain: &Domain, o: ObjId) -> Option<&'a [u8]>
    ensures { ComesAfter text.now (carried_object_text keyword.now domain.now o ++ codes " ")
        (option_map (λ more. more.now) result) }
{
    match after_object(text, keyword, domain, o) {
        Some(more) => after(more, b" "),
        None => None,
    }
}

// The count of an object whose line is in front, and what comes after it.
#[tactic(auto, using(crate::proofs::Counts::count_read))]
fn count_in_front<'a>(
    text: &'a [u8],
    keyword: &[u8],
    domain: &Domain,
    o: ObjId,
) -> Option<(u64, &'a [u8])>
    ensures some { IfSome result (λ x. CountIsRead keyword.now domain.now o text.now x.0 x.1.now) }
    ensures none { IfNone result (NoCountIsRead keyword.now domain.now o text.now) }
{
    let digits = after_name_of(text, keyword, domain, o)?;
    let (count, more) = next_number(digits, b'\n')?;
    if count > 0 { Some((count, more)) } else { None }
}

// The count of an object by the line in front, and what comes after it; 0 where there is no such line.
fn next_count<'a>(text: &'a [u8], keyword: &[u8], domain: &Domain, o: ObjId) -> (u64, &'a [u8])
    ensures { ReadsCount keyword.now domain.now o text.now result.0 result.1.now }
{
    match count_in_front(text, keyword, domain, o) {
        Some(read) => read,
        None => (0, text),
    }
}

// How often an object started and ended by the lines in front, and what comes after them.
fn next_counts<'a>(text: &'a [u8], domain: &Domain, o: ObjId) -> (CarriedCounts, &'a [u8])
    ensures { ReadsCounts domain.now o text.now result.0 result.1.now }
{
    let first = next_count(text, b"! started", domain, o);
    let second = next_count(first.1, b"! ended", domain, o);
    let counts = CarriedCounts {
        started: first.0,
        ended: second.0,
    };
    (counts, second.1)
}

/// The counts of all objects by the lines in front, and what comes after them. The error is out of memory.
pub(crate) fn read_counts<'a>(
    alloc: Global,
    domain: &Domain,
    text: &'a [u8],
) -> Result<(Vec<CarriedCounts>, &'a [u8]), AllocError>
    requires { HasNames domain.now }
    ensures count { IfOk result (λ x. length x.0.items ≡ length domain.now.objects) }
    ensures held { IfOk result (λ x. All CountsAreHeld x.0.items) }
    ensures whole { IfOk result (λ x. text.now ≡ carried_counts_text domain.now x.0.items ++ x.1.now) }
    ensures all { IfOk result (λ x. CountsAreAll domain.now text.now x.0.items x.1.now) }
{
    let objects = domain.objects();
    let mut counts = Vec::new(alloc);
    let mut rest = text;
    for o in 0..objects {
        let next = next_counts(rest, domain, ObjId::new(o));
        counts.push(next.0)?;
        rest = next.1;
    }
    Ok((counts, rest))
}
