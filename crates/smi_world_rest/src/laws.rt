//! That own steps end, as contracts of functions that do nothing.
ghost use Rattle.smi_world_rest.specs.OwnSteps.{OwnStepsCount, OwnStepsEnd, MovesAreFew};

/// A manager that makes all starts and gos by itself comes to rest, with any requests, answers, faults and
/// kills in between.
pub fn own_steps_end()
    ensures count { OwnStepsCount }
    ensures end { OwnStepsEnd }
{}

/// No action begins with more moves than `most_moves` of its domain, so own steps end in every domain.
pub fn moves_are_few()
    ensures { MovesAreFew }
{}
