//! What holds of domains that begin as an outset says, as contracts of a function that does nothing.
ghost use Rattle.sml_outset.specs.Laws.{SameObjectNames, StandingIsSound, StandingStands};

/// Rows that stand as an outset says make a sound domain, which begins so, and is otherwise as before.
pub fn laws_of_standing()
    ensures names { SameObjectNames }
    ensures sound { StandingIsSound }
    ensures stands { StandingStands }
{}
