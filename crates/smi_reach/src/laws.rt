//! What no legal journal shows, as contracts of functions that do nothing.
ghost use Rattle.smi_reach.specs.Places.{MovesLeadToThem};
ghost use Rattle.smi_reach.specs.States.{ObjectsAreInThem, EndsNameThem, ReadingsNameThem};

/// An object whose actions no device does is in one of the states in which it may be, or is killed. No end of an action
/// and no reading in a legal journal names another state, but for the dead one of an object that is killed.
pub fn laws_of_states()
    ensures objects { ObjectsAreInThem }
    ensures ends { EndsNameThem }
    ensures readings { ReadingsNameThem }
{}

/// What is left of an action begins at a place to which an action of its block comes, whatever moves it made: no entry
/// shows an instruction at another place.
pub fn laws_of_places()
    ensures { MovesLeadToThem }
{}
