//! What the definitions of faults come to, as contracts of functions that do nothing.
ghost use Rattle.sml_check_faults.specs.PairLaws.{NoPairs, OnlyPairs};
ghost use Rattle.sml_check_faults.specs.Laws.{OfWellFormed, ObjectsHaveClasses, MembersAreObjects, TargetsAreDeclared, TestsAreDeclared, ChangesAreDeclared, TargetsHaveActions, ArgumentsAreComplete, ArgumentsAreParams, ClassesHaveStates, OneIsInitial, OneIsDead, AssociatedAreEmpty, TestsAskOthers, ParamsAgree, SameParams};
ghost use Rattle.sml_check_faults.specs.ValueLaws.{EndsAreStates, TestsNameStates, FileArgumentsHaveKinds, FileArgumentsFit, SetsFit, ClassDefaultsFit, ActionDefaultsFit};
ghost use Rattle.sml_check_faults.specs.Sound.{FileIsSound, SoundIsWellFormed};

/// A file is without `Duplicate` exactly if no two things that are looked up in one place have one name.
pub fn different_names()
    ensures differ { NoPairs }
    ensures suffices { OnlyPairs }
{}

/// Each name of a class, an object or a set in a well-formed file is declared.
pub fn declared_names()
    ensures classes { OfWellFormed ObjectsHaveClasses }
    ensures members { OfWellFormed MembersAreObjects }
    ensures targets { OfWellFormed TargetsAreDeclared }
    ensures tests { OfWellFormed TestsAreDeclared }
    ensures changes { OfWellFormed ChangesAreDeclared }
{}

/// A `do` of a well-formed file asks for an action that each of its targets has, with arguments that are
/// its parameters and leave none without a value.
pub fn complete_requests()
    ensures actions { OfWellFormed TargetsHaveActions }
    ensures complete { OfWellFormed ArgumentsAreComplete }
    ensures params { OfWellFormed ArgumentsAreParams }
{}

/// In a well-formed file a class has a state, at most one that is marked as initial and at most one as
/// dead. Its actions of one name have the same parameters, its conditions and `wait`s name objects of
/// other classes, and an associated class has no instructions.
pub fn sound_classes()
    ensures states { OfWellFormed ClassesHaveStates }
    ensures initial { OfWellFormed OneIsInitial }
    ensures dead { OfWellFormed OneIsDead }
    ensures associated { OfWellFormed AssociatedAreEmpty }
    ensures tests { OfWellFormed TestsAskOthers }
    ensures params { OfWellFormed ParamsAgree }
{}

/// In a well-formed file an action ends in a state of its class, a test names states that what it asks
/// can be in, and each value has the kind of the parameter that it is for.
pub fn fitting_values()
    ensures ends { OfWellFormed EndsAreStates }
    ensures tests { OfWellFormed TestsNameStates }
    ensures kinds { OfWellFormed FileArgumentsHaveKinds }
    ensures arguments { OfWellFormed FileArgumentsFit }
    ensures sets { OfWellFormed SetsFit }
    ensures class_defaults { OfWellFormed ClassDefaultsFit }
    ensures action_defaults { OfWellFormed ActionDefaultsFit }
{}

/// The comparison of lists of parameters finds those that are the same.
pub fn comparison_of_params()
    ensures { SameParams }
{}

/// A file is well-formed exactly if it keeps the rules of all the laws above.
pub fn rules_of_files()
    ensures sound { OfWellFormed FileIsSound }
    ensures suffices { SoundIsWellFormed }
{}
