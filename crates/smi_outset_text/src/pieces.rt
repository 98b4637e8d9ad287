//! Pieces of a line. No function here takes memory, and each costs at most the length of what it looks at.
ghost use Rattle.std.specs.Prelude.{◌≡◌, ◌<◌, ◌≤◌, ◌++◌, ◌∷◌, IfNone, IfSome, length, option_map, slice_get, take};
ghost use Rattle.std.specs.List.{slice_index_or};
ghost use Rattle.sml_text.specs.Bytes.{no_line_feed};
ghost use Rattle.sml_text.specs.Tokens.{Each};
ghost use Rattle.sml_domain.specs.Sound.{name_of_group};
ghost use Rattle.smi_journal.specs.CallText.{name_or_nothing, spaced};
ghost use Rattle.smi_outset_text.specs.OutsetText.{keyed_object};
ghost use Rattle.smi_outset_text.specs.Reading.{FollowsFront, Precedes};

use sml_domain::{Domain, ObjId, SetId};
use sml_tree::Name;

/// What follows a text that stands in front of another.
pub(crate) fn behind<'a>(text: &'a [u8], front: &[u8]) -> Option<&'a [u8]>
    ensures { FollowsFront text.now front.now (option_map (λ more. more.now) result) }
{
    text.strip_prefix(front)
}

/// What stands before a text that ends another.
pub(crate) fn before<'a>(text: &'a [u8], end: &[u8]) -> Option<&'a [u8]>
    ensures { Precedes text.now end.now (option_map (λ front. front.now) result) }
{
    text.strip_suffix(end)
}

/// The name of a set.
pub(crate) fn set_name(domain: &Domain, set: SetId) -> Option<Name>
    ensures { result ≡ option_map name_of_group (slice_get domain.now.groups set) }
{
    Some(domain.groups().get(set.get())?.name)
}

// What follows a name, which may be none.
fn behind_name<'a>(text: &'a [u8], name: Option<Name>) -> Option<&'a [u8]>
    ensures { FollowsFront text.now (name_or_nothing name) (option_map (λ more. more.now) result) }
{
    match name {
        Some(name) => behind(text, name.as_bytes()),
        None => Some(text),
    }
}

/// What follows a name with a blank before it.
#[tactic(auto, using(crate::proofs::Fronts::follows_both, crate::proofs::Fronts::follows_none))]
pub(crate) fn behind_word<'a>(text: &'a [u8], name: Option<Name>) -> Option<&'a [u8]>
    ensures { FollowsFront text.now (spaced (name_or_nothing name)) (option_map (λ more. more.now) result) }
{
    match behind(text, b" ") {
        Some(more) => behind_name(more, name),
        None => None,
    }
}

/// What follows a keyword and the name of an object.
#[tactic(auto, using(crate::proofs::Fronts::follows_both, crate::proofs::Fronts::follows_none))]
pub(crate) fn behind_object<'a>(
    text: &'a [u8],
    keyword: &[u8],
    domain: &Domain,
    o: ObjId,
) -> Option<&'a [u8]>
    ensures { FollowsFront text.now (keyed_object keyword.now domain.now o)
        (option_map (λ more. more.now) result) }
{
    match behind(text, keyword) {
        Some(more) => behind_word(more, domain.object_name(o)),
        None => None,
    }
}

/// What follows a name with a blank before it, and an end of it.
#[tactic(auto, using(crate::proofs::Fronts::follows_both, crate::proofs::Fronts::follows_none))]
pub(crate) fn behind_last<'a>(text: &'a [u8], name: Option<Name>, end: &[u8]) -> Option<&'a [u8]>
    ensures { FollowsFront text.now (spaced (name_or_nothing name) ++ end.now) (option_map (λ more. more.now) result) }
{
    match behind_word(text, name) {
        Some(more) => behind(more, end),
        None => None,
    }
}

// How many bytes are before the first line feed; all if there is no line feed.
fn bytes_before_feed(text: &[u8]) -> usize
    ensures within { result ≤ length text.now }
    ensures before { Each no_line_feed (take result text.now) }
    ensures feed { result < length text.now → slice_index_or text.now result 0 ≡ 10 }
{
    let mut count = 0;
    while count < text.len() && text[count] != b'\n' {
        count += 1;
    }
    count
}

/// The line in front, without its line feed, and what follows it.
#[tactic(auto, using(crate::proofs::Fronts::line_at, crate::proofs::Fronts::no_line))]
pub(crate) fn split_line(text: &[u8]) -> Option<(&[u8], &[u8])>
    ensures some { IfSome result (λ x. (text.now ≡ x.0.now ++ 10 ∷ x.1.now) × Each no_line_feed x.0.now) }
    ensures none { IfNone result (Each no_line_feed text.now) }
{
    let count = bytes_before_feed(text);
    if count < text.len() {
        return Some((text.split_at(count).0, text.split_at(count + 1).1));
    }
    None
}
