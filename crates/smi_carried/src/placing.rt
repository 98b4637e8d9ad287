//! Places, read from their words in front of a text.
ghost use Rattle.std.specs.Prelude.{◌≡◌, ◌≢◌, ◌<◌, ◌^◌, ℕ, IfNone, IfSome, List, None, Option, Some, codes, false, length, true};
ghost use Rattle.std.specs.List.{list_all};
ghost use Rattle.sml_tree.specs.Word as word;
ghost use Rattle.sml_domain.specs.Lookups.{is_state_of};
ghost use Rattle.smi_journal.specs.CallText.{object_name_text, state_name_text};
ghost use Rattle.smi_journal.specs.HasText.{HasNames, IsNameText};
ghost use Rattle.smi_carried.specs.declared.carried.CarriedPlace.{CarriedPlace as Place};
ghost use Rattle.smi_carried.specs.Places.{IsPlaceOf, PlaceIsRead};

use crate::carried::CarriedPlace;
use crate::pieces::{cut, next_number};
use crate::suiting::is_same;
use sml_domain::{Domain, ObjId, StateId};
use sml_text::LONGEST_NAME;
use sml_tree::Name;

// Whether a byte may be in the name of an object or a state.
fn is_name_byte(b: u8) -> bool
    ensures { result ≡ word.is_name_byte b }
{
    b.is_ascii_alphabetic() || b.is_ascii_digit() || b == b'_'
}

// Whether each byte may be in such a name.
fn are_name_bytes(bytes: &[u8]) -> bool
    ensures { result ≡ list_all word.is_name_byte bytes.now }
{
    bytes.iter().all(|b| is_name_byte(*b))
}

// Whether bytes begin with a letter, and may all be in such a name.
fn is_name_text(bytes: &[u8]) -> bool
    ensures { result ≡ word.is_name_text bytes.now }
{
    match bytes {
        [] => false,
        [first, rest @ ..] => first.is_ascii_alphabetic() && are_name_bytes(rest),
    }
}

// Whether bytes are a word that is no longer than a name.
fn is_name_word(bytes: &[u8]) -> bool
    ensures { result ≡ word.is_name_word bytes.now }
{
    is_name_text(bytes) && bytes.len() <= LONGEST_NAME
}

// The name that bytes are, as it is written.
#[tactic(auto, using(crate::proofs::Places::name_tests))]
fn name_in(bytes: &[u8]) -> Option<Name>
    ensures some { IfSome result (λ name. name ≡ bytes.now) }
    ensures none { IfNone result (IsNameText bytes.now → ⊥) }
{
    if !is_name_word(bytes) {
        return None;
    }
    let name = Name::from_word(bytes);
    if is_same(name.as_bytes(), bytes) {
        Some(name)
    } else {
        None
    }
}

// The object with a name.
fn object_in(domain: &Domain, bytes: &[u8]) -> Option<ObjId>
    requires { HasNames domain.now }
    ensures some { IfSome result (λ o. (o < length domain.now.objects) × (object_name_text domain.now o ≡ bytes.now)) }
    ensures none { IfNone result ((o : ℕ) → o < length domain.now.objects
        → object_name_text domain.now o ≢ bytes.now) }
{
    // The domain is sound.
    domain.objects();
    let Some(name) = name_in(bytes) else {
        return None;
    };
    match domain.object(&name) {
        Some(o) => Some(o),
        None => None,
    }
}

// The state of an object with a name.
fn state_in(domain: &Domain, o: ObjId, bytes: &[u8]) -> Option<StateId>
    requires { HasNames domain.now }
    ensures some { IfSome result (λ s. (is_state_of domain.now o s ≡ true)
        × (state_name_text domain.now s ≡ bytes.now)) }
    ensures held { IfSome result (λ s. s < 2 ^ 64) }
    ensures none { IfNone result ((s : ℕ) → is_state_of domain.now o s ≡ true → s < 2 ^ 64
        → state_name_text domain.now s ≢ bytes.now) }
{
    // The domain is sound.
    domain.objects();
    let Some(name) = name_in(bytes) else {
        return None;
    };
    let Some(s) = domain.state(&name) else {
        return None;
    };
    // A number that is kept has 64 bits.
    let _number = s.get();
    if domain.is_state(o, s) { Some(s) } else { None }
}

// The place with an object and a state of these names, and a version.
fn place_of(domain: &Domain, object: &[u8], state: &[u8], version: u64) -> Option<CarriedPlace>
    requires { HasNames domain.now }
    ensures some { IfSome result (λ p. IsPlaceOf domain.now object.now state.now version (Some p)) }
    ensures none { IfNone result ((p : Place) → IsPlaceOf domain.now object.now state.now version (Some p) → ⊥) }
{
    // The domain is sound.
    domain.objects();
    let Some(o) = object_in(domain, object) else {
        return None;
    };
    let Some(s) = state_in(domain, o, state) else {
        return None;
    };
    Some(CarriedPlace {
        object: o,
        state: s,
        version,
    })
}

// Whether these are the words where there is no place.
#[tactic(auto, using(smi_live_once::proofs::Decimals::not_same, smi_live_once::proofs::Decimals::is_same_text))]
fn is_nowhere(object: &[u8], state: &[u8], version: u64) -> bool
    ensures yes { result ≡ true → (object.now ≡ codes "-") × (state.now ≡ codes "-") × (version ≡ 0) }
    ensures no { result ≡ false → object.now ≡ codes "-" → state.now ≡ codes "-" → version ≡ 0 → ⊥ }
{
    is_same(object, b"-") && is_same(state, b"-") && version == 0
}

// What place these words are, which may be none.
fn place_in(
    domain: &Domain,
    object: &[u8],
    state: &[u8],
    version: u64,
) -> Option<Option<CarriedPlace>>
    requires { HasNames domain.now }
    ensures some { IfSome result (λ p. IsPlaceOf domain.now object.now state.now version p) }
    ensures none { IfNone result ((p : Option Place) → IsPlaceOf domain.now object.now state.now version p → ⊥) }
{
    if is_nowhere(object, state, version) {
        return Some(None);
    }
    match place_of(domain, object, state, version) {
        Some(place) => Some(Some(place)),
        None => None,
    }
}

/// The place whose words are in front, a blank after each, and what comes after them. It may be none.
pub(crate) fn next_place<'a>(
    text: &'a [u8],
    domain: &Domain,
) -> Option<(Option<CarriedPlace>, &'a [u8])>
    requires { HasNames domain.now }
    ensures some { IfSome result (λ x. PlaceIsRead domain.now text.now x.0 x.1.now) }
    ensures none { IfNone result ((p : Option Place) (more : List ℕ) → PlaceIsRead domain.now text.now p more → ⊥) }
{
    // The domain is sound.
    domain.objects();
    let Some((object, states)) = cut(text, b' ') else {
        return None;
    };
    let Some((state, versions)) = cut(states, b' ') else {
        return None;
    };
    let Some((version, more)) = next_number(versions, b' ') else {
        return None;
    };
    match place_in(domain, object, state, version) {
        Some(place) => Some((place, more)),
        None => None,
    }
}
