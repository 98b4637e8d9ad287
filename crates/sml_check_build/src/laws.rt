//! What the definition of a file's domain comes to, as contracts of functions that do nothing.
ghost use Rattle.sml_check_build.specs.Laws.{FilesHaveOneDomain, StatesHaveNumbers, ActionsHaveNumbers, NumbersAreOneToOne, AddedDeadIsLast, TruthIsKept, ConditionsArePlaced};

/// Two domains of one file are the same: every look-up returns the same.
pub fn one_domain()
    ensures { FilesHaveOneDomain }
{}

/// In a domain of a file the states and actions that some class has are those with numbers, no two with the
/// same, and a state `DEAD` that is only added has the last.
pub fn laws_of_numbers()
    ensures states { StatesHaveNumbers }
    ensures actions { ActionsHaveNumbers }
    ensures apart { NumbersAreOneToOne }
    ensures dead { AddedDeadIsLast }
{}

/// A test over a set that never has members may name a state that no class declares. The condition of the domain
/// leaves that state out. It is true of the same readings as the condition of the file, as long as the sets have
/// their declared members.
pub fn laws_of_conditions()
    ensures truth { TruthIsKept }
    ensures placed { ConditionsArePlaced }
{}
