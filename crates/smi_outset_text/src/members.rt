//! The lines of members.
ghost use Rattle.std.specs.Prelude.{◌≡◌, ◌≢◌, ◌++◌, ◌∷◌, ◌↔◌, ℕ, IfErr, IfOk, IsTrue, List, drop, false, length, option_map, true};
ghost use Rattle.smi_journal.specs.HasText.{HasNames};
ghost use Rattle.sml_outset.specs.Suits.{AllMembersSuit};
ghost use Rattle.smi_outset_text.specs.OutsetText.{numbered, outset_members_front, outset_members_line};
ghost use Rattle.smi_outset_text.specs.Lines.{BeginsWithLines, members_lines};
ghost use Rattle.smi_outset_text.specs.Reading.{EndsWord, FaultIsIn, FollowsFront, MemberFollows, MemberIsFound, ReadsMembers, ReadsWords};

use crate::fault::OutsetFault;
use crate::part::Part;
use crate::pieces::{behind, behind_word, set_name};
use smi_journal::laws_of_names;
use sml_domain::{Domain, ObjId, SetId};
use sml_outset::{SetMembers, members_suit};
use std::alloc::{AllocError, Global};

// Whether a word ends before this text: a blank or a line feed is in front.
fn ends_word(text: &[u8]) -> bool
    ensures { IsTrue result ↔ EndsWord text.now }
{
    match text.first() {
        Some(byte) => *byte == b' ' || *byte == b'\n',
        None => false,
    }
}

// Whether a line ends before this text: a line feed is in front.
fn ends_line(text: &[u8]) -> bool
    ensures yes { result ≡ true → text.now ≡ 10 ∷ drop 1 text.now }
    ensures no { result ≡ false → (more : List ℕ) → text.now ≢ 10 ∷ more }
{
    match text.first() {
        Some(byte) => *byte == b'\n',
        None => false,
    }
}

// What follows the name of an object with a blank before it, where the word ends there.
fn behind_member<'a>(text: &'a [u8], domain: &Domain, o: ObjId) -> Option<&'a [u8]>
    ensures { MemberFollows domain.now text.now o (option_map (λ more. more.now) result) }
{
    let more = behind_word(text, domain.object_name(o))?;
    if ends_word(more) { Some(more) } else { None }
}

// The object among these whose name is in front, and what follows it.
fn member_among<'a>(text: &'a [u8], domain: &Domain, objects: &[ObjId]) -> Option<(ObjId, &'a [u8])>
    ensures { MemberIsFound domain.now text.now objects.now (option_map (λ x. (x.0, x.1.now)) result) }
{
    for o in objects {
        if let Some(more) = behind_member(text, domain, *o) {
            return Some((*o, more));
        }
    }
    None
}

// The objects that a set may have whose names are in front, up to a line feed, and what follows that.
fn members_in<'a>(
    alloc: Global,
    text: &'a [u8],
    domain: &Domain,
    set: SetId,
) -> Result<Option<(Vec<ObjId>, &'a [u8])>, AllocError>
    requires { HasNames domain.now }
    ensures { IfOk result (λ r. ReadsWords domain.now set text.now (option_map (λ x. (x.0.items, x.1.now)) r)) }
{
    // The domain is sound.
    domain.objects();
    let may = domain.may_have(set);
    let mut members = Vec::new(alloc);
    let mut rest = text;
    while !ends_line(rest) {
        let next = match member_among(rest, domain, may) {
            None => return Ok(None),
            Some(next) => next,
        };
        members.push(next.0)?;
        rest = next.1;
    }
    Ok(Some((members, rest.split_at(1).1)))
}

// What follows the line of the members of a set up to the first.
fn behind_set<'a>(text: &'a [u8], domain: &Domain, set: SetId) -> Option<&'a [u8]>
    ensures { FollowsFront text.now (outset_members_front domain.now set) (option_map (λ more. more.now) result) }
{
    match behind(text, b"! member") {
        Some(more) => behind_word(more, set_name(domain, set)),
        None => None,
    }
}

// The members of a set whose line is in front, and what follows it. The error is out of memory.
fn next_members<'a>(
    alloc: Global,
    text: &'a [u8],
    domain: &Domain,
    set: SetId,
) -> Result<Option<(SetMembers, &'a [u8])>, AllocError>
    requires { HasNames domain.now }
    ensures { IfOk result (λ r. ReadsMembers domain.now set text.now (option_map (λ x. (x.0, x.1.now)) r)) }
{
    let Some(more) = behind_set(text, domain, set) else {
        return Ok(None);
    };
    let read = members_in(alloc, more, domain, set)?;
    let words = match read {
        None => return Ok(None),
        Some(words) => words,
    };
    if members_suit(domain, set, &words.0) {
        Ok(Some((SetMembers { objects: words.0 }, words.1)))
    } else {
        Ok(None)
    }
}

/// The members of all sets whose lines are in front, in order.
pub(crate) fn read_members<'a>(
    alloc: Global,
    text: &'a [u8],
    domain: &Domain,
) -> Result<Part<'a, Vec<SetMembers>>, OutsetFault>
    ensures count { IfOk result (λ x. length x.found.items ≡ length domain.now.groups) }
    ensures suit { IfOk result (λ x. AllMembersSuit domain.now x.found.items) }
    ensures whole { IfOk result (λ x. text.now
        ≡ numbered (outset_members_line domain.now) 0 x.found.items ++ x.rest.now) }
    ensures lines { IfOk result (λ x. BeginsWithLines domain.now (members_lines domain.now) text.now x.rest.now) }
    ensures fault { IfErr result (FaultIsIn domain.now (members_lines domain.now) text.now) }
{
    laws_of_names(domain);
    let sets = domain.groups().len();
    let mut found = Vec::new(alloc);
    let mut rest = text;
    for set in 0..sets {
        let Ok(read) = next_members(alloc, rest, domain, SetId::new(set)) else {
            return Err(OutsetFault::Memory);
        };
        let next = match read {
            None => return Err(OutsetFault::BadLine(set)),
            Some(next) => next,
        };
        let Ok(()) = found.push(next.0) else {
            return Err(OutsetFault::Memory);
        };
        rest = next.1;
    }
    Ok(Part {
        found,
        lines: sets,
        rest,
    })
}
