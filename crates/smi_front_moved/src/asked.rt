//! Which objects and names are asked for.
ghost use Rattle.std.specs.Prelude.{◌≡◌, ◌<◌, IfSome, is_some, length};
ghost use Rattle.std.specs.List.{list_all, list_any};
ghost use Rattle.sml_tree.specs.Word as word;
ghost use Rattle.smi_carried.specs.Suits as suits;
ghost use Rattle.smi_front_moved.specs.AskedOf as spec;
ghost use Rattle.smi_front_moved.specs.Moving as moves;

use smi_carried::CarriedOnce;
use smi_log_front::FrontKill;
use sml_domain::{Domain, ObjId};
use sml_text::LONGEST_NAME;
use sml_tree::Name;

// Whether a byte may be in the name of an object.
fn is_name_byte(b: u8) -> bool
    ensures { result ≡ word.is_name_byte b }
{
    b.is_ascii_alphabetic() || b.is_ascii_digit() || b == b'_'
}

// Whether each byte may be in such a name.
fn are_name_bytes(bytes: &[u8]) -> bool
    ensures { result ≡ list_all word.is_name_byte bytes.now }
{
    bytes.iter().all(|b| is_name_byte(*b))
}

// Whether bytes begin with a letter, and may all be in such a name.
fn is_name_text(bytes: &[u8]) -> bool
    ensures { result ≡ word.is_name_text bytes.now }
{
    match bytes {
        [] => false,
        [first, rest @ ..] => first.is_ascii_alphabetic() && are_name_bytes(rest),
    }
}

// Whether bytes are a word that is no longer than a name.
fn is_name_word(bytes: &[u8]) -> bool
    ensures { result ≡ word.is_name_word bytes.now }
{
    is_name_text(bytes) && bytes.len() <= LONGEST_NAME
}

// The object with the name that a word is, in any case of letters.
fn object_called(domain: &Domain, asked: &[u8]) -> Option<ObjId>
    ensures is { result ≡ spec.object_called domain.now asked.now }
    ensures within { IfSome result (λ o. o < length domain.now.objects) }
{
    if is_name_word(asked) {
        domain.object(&Name::from_word(asked))
    } else {
        None
    }
}

// Whether a kill is that of an object.
fn is_kill_at(o: ObjId, kill: &FrontKill) -> bool
    ensures { result ≡ moves.is_kill_at o kill.now }
{
    kill.object == o
}

// Whether one of these kills is that of an object.
fn has_kill_at(kills: &[FrontKill], o: ObjId) -> bool
    ensures { result ≡ list_any (moves.is_kill_at o) kills.now }
{
    kills.iter().any(|kill| is_kill_at(o, kill))
}

// Whether an object is killed again by these.
#[tactic(auto, using(crate::proofs::Telling::any_is_found))]
fn is_killed(kills: &[FrontKill], o: ObjId) -> bool
    ensures { result ≡ is_some (moves.front_killer kills.now o) }
{
    has_kill_at(kills, o)
}

/// The dead object with the name that a word is, in any case of letters, by the kills of a front. None if it is the
/// name of no object, or of one that is not dead. The cost is a look-up by hash, and the count of kills.
pub fn dead_called(domain: &Domain, kills: &[FrontKill], asked: &[u8]) -> Option<ObjId>
    ensures is { result ≡ spec.dead_called domain.now kills.now asked.now }
    ensures within { IfSome result (λ o. o < length domain.now.objects) }
{
    let Some(o) = object_called(domain, asked) else {
        return None;
    };
    if is_killed(kills, o) { Some(o) } else { None }
}

// Whether it is that of a name.
fn is_once_of(name: &[u8], once: &CarriedOnce) -> bool
    ensures { result ≡ suits.is_once_of name.now once.now }
{
    once.name.as_slice() == name
}

/// The place of a name among the last requests of a front. None if it is not known. The cost is the count of names.
pub fn place_of_name(names: &[CarriedOnce], asked: &[u8]) -> Option<usize>
    ensures is { result ≡ spec.place_of_name names.now asked.now }
    ensures within { IfSome result (λ k. k < length names.now) }
{
    names.iter().position(|once| is_once_of(asked, once))
}
