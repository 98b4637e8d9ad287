//! How all stands where a log begins.

use sml_domain::{ObjId, Param, StateId};
use std::marker::Model;

/// How an object stands: its state, and its parameters with their values.
#[derive(Drop)]
pub struct Stand {
    pub state: StateId,
    pub params: Vec<Param>,
}

impl Model for Stand {
    ghost use Rattle.sml_outset.specs.Outset as plain;

    ghost Value = { plain.Stand };

    ghost view = { λ s. record { state = s.state; params = s.params.items } };
}

/// The members of a set.
#[derive(Drop)]
pub struct SetMembers {
    pub objects: Vec<ObjId>,
}

impl Model for SetMembers {
    ghost use Rattle.std.specs.Prelude.{List, ℕ};

    ghost Value = { List ℕ };

    ghost view = { λ m. m.objects.items };
}

/// How all objects and sets stand, in the order of their numbers.
#[derive(Drop)]
pub struct Outset {
    pub stands: Vec<Stand>,
    pub members: Vec<SetMembers>,
}

impl Model for Outset {
    ghost use Rattle.sml_outset.specs.Outset as plain;

    ghost Value = { plain.Outset };

    ghost view = { λ x. record { stands = x.stands.items; members = x.members.items } };
}
