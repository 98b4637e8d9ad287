//! What goes from a domain to another one.
ghost use Rattle.std.specs.Prelude.{◌≡◌, ◌<◌, IfSome, false, get_or, length, option_map, slice_get};
ghost use Rattle.smi_front_moved.specs.Moving as spec;

use crate::others::{object_as, set_as};
use smi_carried::{CarriedCounts, CarriedOnce};
use smi_log_front::{Front, FrontKill};
use sml_domain::{Domain, ObjId, SetId};
use sml_outset::{SetMembers, Stand};
use std::marker::Model;

/// The front of a log, and where it goes.
#[derive(Drop)]
pub struct Moving<'a> {
    /// The domain of the log, as its text declares it.
    pub old: &'a Domain,
    /// The domain in which it goes on, as its text declares it.
    pub new: &'a Domain,
    /// How the log would go on in its own domain.
    pub front: &'a Front,
    /// Which objects of the old domain begin as declared, by their numbers. Past its end none does.
    pub anew: &'a [bool],
    /// Which names of the front do not go along, by their places. Past its end each goes.
    pub forgotten: &'a [bool],
}

impl<'a> Model for Moving<'a> {
    ghost use Rattle.std.specs.Coded.{codes};
    ghost use Rattle.sml_domain.specs.Codes.{formula_code};
    ghost use Rattle.smi_front_moved.specs.Moving.{MovingView};

    ghost Value = { MovingView };

    ghost coded = { Prim.hlevel (codes, formula_code) };

    ghost view = { λ m. record {
      old = m.old.now;
      new = m.new.now;
      front = m.front.now;
      anew = m.anew.now;
      forgotten = m.forgotten.now;
    } };
}

/// How the objects of the old domain stand.
pub(crate) fn stands_before<'a>(moving: &Moving<'a>) -> &'a [Stand]
    ensures { result.now ≡ moving.now.front.outset.stands }
{
    let front = moving.front;
    &front.outset.stands
}

/// The members of the sets of the old domain.
pub(crate) fn sets_before<'a>(moving: &Moving<'a>) -> &'a [SetMembers]
    ensures { result.now ≡ moving.now.front.outset.members }
{
    let front = moving.front;
    &front.outset.members
}

/// The counts of the objects of the old domain.
pub(crate) fn counts_before<'a>(moving: &Moving<'a>) -> &'a [CarriedCounts]
    ensures { result.now ≡ moving.now.front.carried.counts }
{
    let front = moving.front;
    &front.carried.counts
}

/// The last requests of the names of the front.
pub(crate) fn names_before<'a>(moving: &Moving<'a>) -> &'a [CarriedOnce]
    ensures { result.now ≡ moving.now.front.carried.names }
{
    let front = moving.front;
    &front.carried.names
}

/// The kills of the front.
pub(crate) fn kills_before<'a>(moving: &Moving<'a>) -> &'a [FrontKill]
    ensures { result.now ≡ moving.now.front.kills }
{
    let front = moving.front;
    &front.kills
}

/// How an object of the old domain stands.
pub(crate) fn stand_before<'a>(moving: &Moving<'a>, p: ObjId) -> Option<&'a Stand>
    ensures { option_map (λ x. x.now) result ≡ slice_get moving.now.front.outset.stands p }
{
    stands_before(moving).get(p.get())
}

/// The last request of the name at a place.
pub(crate) fn name_before<'a>(moving: &Moving<'a>, place: usize) -> Option<&'a CarriedOnce>
    ensures { option_map (λ x. x.now) result ≡ slice_get moving.now.front.carried.names place }
{
    names_before(moving).get(place)
}

// Whether something is marked at a place.
pub(crate) fn is_marked(marks: &[bool], place: usize) -> bool
    ensures { result ≡ get_or marks.now place false }
{
    match marks.get(place) {
        Some(mark) => *mark,
        None => false,
    }
}

/// The object of the old domain that an object of the new one was.
pub(crate) fn was_object(moving: &Moving<'_>, o: ObjId) -> Option<ObjId>
    ensures is { result ≡ spec.was_object moving.now o }
    ensures within { IfSome result (λ p. p < length moving.now.old.objects) }
{
    object_as(moving.new, moving.old, o)
}

/// The object of the new domain that an object of the old one is.
pub(crate) fn is_object_now(moving: &Moving<'_>, p: ObjId) -> Option<ObjId>
    ensures is { result ≡ spec.is_object_now moving.now p }
    ensures here { IfSome result (λ o. p < length moving.now.old.objects) }
    ensures within { IfSome result (λ o. o < length moving.now.new.objects) }
{
    object_as(moving.old, moving.new, p)
}

/// The set of the old domain that a set of the new one was. The cost is the count of sets.
pub(crate) fn was_set(moving: &Moving<'_>, set: SetId) -> Option<SetId>
    ensures { result ≡ spec.was_set moving.now set }
{
    set_as(moving.new, moving.old, set)
}

/// The object of the old domain that goes on as an object of the new one: none that begins anew.
pub(crate) fn goes_on_from(moving: &Moving<'_>, o: ObjId) -> Option<ObjId>
    ensures is { result ≡ spec.goes_on_from moving.now o }
    ensures within { IfSome result (λ p. p < length moving.now.old.objects) }
{
    let Some(p) = was_object(moving, o) else {
        return None;
    };
    if is_marked(moving.anew, p.get()) {
        None
    } else {
        Some(p)
    }
}
