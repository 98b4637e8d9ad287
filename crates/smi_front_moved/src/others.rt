//! What the names of a domain mean in another one.
ghost use Rattle.std.specs.Prelude.{◌≡◌, ◌<◌, IfSome, length, option_map, slice_get};
ghost use Rattle.std.specs.Option.{option_and_then};
ghost use Rattle.sml_domain.specs.Lookups.{state_named};
ghost use Rattle.sml_domain.specs.Sound.{name_of_group};
ghost use Rattle.smi_front_moved.specs.Others as spec;

use sml_domain::{Domain, ObjId, SetId, StateId};
use sml_tree::Name;

/// The object of another domain that has the name of an object. The cost is that of a look-up by hash.
pub(crate) fn object_as(from: &Domain, to: &Domain, o: ObjId) -> Option<ObjId>
    ensures is { result ≡ spec.object_as from.now to.now o }
    ensures here { IfSome result (λ x. o < length from.now.objects) }
    ensures within { IfSome result (λ x. x < length to.now.objects) }
{
    match from.object_name(o) {
        Some(name) => to.object(&name),
        None => None,
    }
}

/// The name of a set.
pub(crate) fn name_of_set(domain: &Domain, set: SetId) -> Option<Name>
    ensures { result ≡ option_map name_of_group (slice_get domain.now.groups set) }
{
    match domain.groups().get(set.get()) {
        Some(group) => Some(group.name),
        None => None,
    }
}

/// The set of another domain that has the name of a set. The cost is the count of sets.
pub(crate) fn set_as(from: &Domain, to: &Domain, set: SetId) -> Option<SetId>
    ensures { result ≡ spec.set_as from.now to.now set }
{
    match name_of_set(from, set) {
        Some(name) => to.set(&name),
        None => None,
    }
}

// The state of a domain that has the name of a state of another one.
fn state_named_as(from: &Domain, to: &Domain, s: StateId) -> Option<StateId>
    ensures { result ≡ option_and_then (state_named to.now) (slice_get from.now.states s) }
{
    match from.state_name(s) {
        Some(name) => to.state(&name),
        None => None,
    }
}

/// The state of an object of another domain that has the name of a state. The cost is that of two look-ups by hash.
pub(crate) fn state_as(from: &Domain, to: &Domain, o: ObjId, s: StateId) -> Option<StateId>
    ensures { result ≡ spec.state_as from.now to.now o s }
{
    let Some(state) = state_named_as(from, to, s) else {
        return None;
    };
    if to.is_state(o, state) {
        Some(state)
    } else {
        None
    }
}

/// The state in which an object begins as it is declared.
pub(crate) fn declared_state(domain: &Domain, o: ObjId) -> StateId
    requires { o < length domain.now.objects }
    ensures { result ≡ spec.declared_state domain.now o }
{
    domain.initial(o)
}

/// The state of an object that is dead.
pub(crate) fn declared_dead(domain: &Domain, o: ObjId) -> StateId
    requires { o < length domain.now.objects }
    ensures { result ≡ spec.declared_dead domain.now o }
{
    domain.dead(o)
}
