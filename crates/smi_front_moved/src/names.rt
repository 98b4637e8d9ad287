//! The last requests of names, in the new domain.
ghost use Rattle.std.specs.Prelude.{◌≡◌, ◌++◌, IfOk, OnOk};
ghost use Rattle.std.specs.Option.{option_and_then, option_to_list};
ghost use Rattle.smi_front_moved.specs.CarriedMoved as spec;

use crate::moving::{Moving, is_marked, is_object_now, name_before, names_before};
use crate::others::state_as;
use smi_carried::{CarriedOnce, CarriedPlace};
use sml_domain::ObjId;
use std::alloc::{AllocError, Global};

// A place at an object of the new domain, if that has the state.
fn place_on(moving: &Moving<'_>, place: &CarriedPlace, o: ObjId) -> Option<CarriedPlace>
    ensures { result ≡ spec.place_on moving.now place.now o }
{
    match state_as(moving.old, moving.new, o, place.state) {
        Some(state) => Some(CarriedPlace {
            object: o,
            state,
            version: place.version,
        }),
        None => None,
    }
}

// A place in the new domain, if that has the object and the state.
fn place_moved(moving: &Moving<'_>, place: &CarriedPlace) -> Option<CarriedPlace>
    ensures { result ≡ spec.place_moved moving.now place.now }
{
    match is_object_now(moving, place.object) {
        Some(o) => place_on(moving, place, o),
        None => None,
    }
}

// The place of a request in the new domain, if it had one.
fn place_if(moving: &Moving<'_>, place: &Option<CarriedPlace>) -> Option<CarriedPlace>
    ensures { result ≡ option_and_then (spec.place_moved moving.now) place.now }
{
    match place {
        Some(place) => place_moved(moving, place),
        None => None,
    }
}

// The last request of a name.
fn once_moved(
    alloc: Global,
    moving: &Moving<'_>,
    once: &CarriedOnce,
) -> Result<CarriedOnce, AllocError>
    ensures { IfOk result (λ x. x ≡ spec.once_moved moving.now once.now) }
{
    let name = Vec::from_slice(alloc, &once.name)?;
    let what = Vec::from_slice(alloc, &once.what)?;
    Ok(CarriedOnce {
        name,
        number: once.number,
        place: place_if(moving, &once.place),
        what,
    })
}

// Adds the last request of the name at a place to others, unless it is forgotten.
fn add_name(
    names: &mut Vec<CarriedOnce>,
    alloc: Global,
    moving: &Moving<'_>,
    place: usize,
) -> Result<(), AllocError>
    ensures { OnOk result (names.new.items ≡ names.old.items ++ option_to_list (spec.name_moved moving.now place)) }
{
    if is_marked(moving.forgotten, place) {
        return Ok(());
    }
    match name_before(moving, place) {
        Some(once) => {
            let once = once_moved(alloc, moving, once)?;
            names.push(once)?;
        }
        None => {}
    }
    Ok(())
}

/// The last requests of the names that are not forgotten, in their order. The cost is two look-ups by hash for each.
/// The error is out of memory.
pub(crate) fn names_moved(
    alloc: Global,
    moving: &Moving<'_>,
) -> Result<Vec<CarriedOnce>, AllocError>
    ensures { IfOk result (λ v. v.items ≡ spec.names_moved moving.now) }
{
    let mut names = Vec::new(alloc);
    for place in 0..names_before(moving).len() {
        add_name(&mut names, alloc, moving, place)?;
    }
    Ok(names)
}
