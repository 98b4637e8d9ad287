//! Whether a domain may begin as an outset says.
ghost use Rattle.std.specs.Prelude.{◌↔◌, ◌≡◌, All, IsTrue, length};
ghost use Rattle.std.specs.List.{Contains};
ghost use Rattle.sml_domain.specs.Sound.{ClassParamFits, EachOnce};
ghost use Rattle.sml_outset.specs.Suits.{AllMembersSuit, MembersSuit, ParamSuits, ParamsSuit, StandSuits, StandsSuit, Suits};

use crate::outset::{Outset, SetMembers, Stand};
use sml_domain::{Domain, ObjId, Param, SetId};

// Whether a parameter has a value, of its kind.
fn has_value(param: &Param) -> bool
    ensures { IsTrue result ↔ ClassParamFits param.now }
{
    match &param.value {
        Some(value) => value.kind() == param.kind,
        None => false,
    }
}

// Whether a parameter has the name and the kind of another, and a value of the kind.
fn param_suits(param: &Param, given: &Param) -> bool
    ensures { IsTrue result ↔ ParamSuits param.now given.now }
{
    given.name == param.name && given.kind == param.kind && has_value(given)
}

// Whether parameters are those of a class, with values of their kinds.
fn params_suit(params: &[Param], given: &[Param]) -> bool
    ensures { IsTrue result ↔ ParamsSuit params.now given.now }
{
    if given.len() != params.len() {
        return false;
    }
    for i in 0..params.len() {
        if !param_suits(&params[i], &given[i]) {
            return false;
        }
    }
    true
}

// Whether an object may stand so.
fn stand_suits(domain: &Domain, o: ObjId, stand: &Stand) -> bool
    ensures { IsTrue result ↔ StandSuits domain.now o stand.now }
{
    domain.is_state(o, stand.state) && params_suit(domain.class_parameters(o), &stand.params)
}

// Whether no object is there twice.
fn each_once(objects: &[ObjId]) -> bool
    ensures { IsTrue result ↔ EachOnce objects.now }
{
    match objects.split_first() {
        Some((first, rest)) => !rest.contains(first) && each_once(rest),
        None => true,
    }
}

// Whether an object is among some.
fn is_among(object: ObjId, some: &[ObjId]) -> bool
    ensures { IsTrue result ↔ Contains some.now object }
{
    some.contains(&object)
}

// Whether all these are among some objects.
fn are_among(objects: &[ObjId], some: &[ObjId]) -> bool
    ensures { IsTrue result ↔ All (Contains some.now) objects.now }
{
    for object in objects {
        if !is_among(*object, some) {
            return false;
        }
    }
    true
}

/// Whether a set may have these members, each once. The cost is their count, times that of those that it may have.
pub fn members_suit(domain: &Domain, set: SetId, members: &[ObjId]) -> bool
    ensures { IsTrue result ↔ MembersSuit domain.now set members.now }
{
    are_among(members, domain.may_have(set)) && each_once(members)
}

// Whether all objects may stand so.
fn stands_suit(domain: &Domain, stands: &[Stand]) -> bool
    requires { length stands.now ≡ length domain.now.objects }
    ensures { IsTrue result ↔ StandsSuit domain.now stands.now }
{
    for o in 0..stands.len() {
        if !stand_suits(domain, ObjId::new(o), &stands[o]) {
            return false;
        }
    }
    true
}

// Whether all sets may have these members.
fn all_members_suit(domain: &Domain, members: &[SetMembers]) -> bool
    requires { length members.now ≡ length domain.now.groups }
    ensures { IsTrue result ↔ AllMembersSuit domain.now members.now }
{
    for set in 0..members.len() {
        let these = &members[set];
        if !members_suit(domain, SetId::new(set), &these.objects) {
            return false;
        }
    }
    true
}

/// Whether a domain may begin as the outset says.
pub fn suits(domain: &Domain, outset: &Outset) -> bool
    ensures { IsTrue result ↔ Suits domain.now outset.now }
{
    outset.stands.len() == domain.objects()
        && outset.members.len() == domain.groups().len()
        && stands_suit(domain, &outset.stands)
        && all_members_suit(domain, &outset.members)
}
