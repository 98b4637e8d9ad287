//! What holds of parameters and of legal journals, as contracts of functions that do nothing.
ghost use Rattle.smi_meaning.specs.Example.{ExampleIsLegal};
ghost use Rattle.smi_meaning.specs.LegalLaws.{ShownIsOne, DoneOnce, ParamsAreOne, ParamsMore, ParamsAreThere, LegalMore, LegalFront, NothingStartsDead, StateIsKnown, LegalFits, NextIsLegal, LegalIsNext, WholeIsDone, DoneIsWhole, ShowsOne, DoneOrShows, MembersAreFew, OldMembersStay, WithinIsOne, WithinIsLast, OneIsWithin, WholeIsOut};

/// After a legal journal every object has one list of parameters.
pub fn laws_of_params()
    ensures one_meaning { ShownIsOne }
    ensures one_end { DoneOnce }
    ensures one { ParamsAreOne }
    ensures more { ParamsMore }
    ensures there { ParamsAreThere }
{}

/// Legal journals grow by entries that may follow, and nothing starts after a kill.
pub fn laws_of_legal_journals()
    ensures more { LegalMore }
    ensures front { LegalFront }
    ensures killed { NothingStartsDead }
    ensures states { StateIsKnown }
    ensures values { LegalFits }
    ensures members { MembersAreFew }
{}

/// A journal of the first format is judged as it was before sets could change: its sets keep their declared members.
/// (`MayFollow` allows no entry of a change in it, and `KeepsWhole` asks nothing of its fan-outs.)
pub fn laws_of_old_journals()
    ensures { OldMembersStay }
{}

/// What an action may do next may be added to the journal that shows what it did.
pub fn laws_of_next_entries()
    ensures next { NextIsLegal }
    ensures is_next { LegalIsNext }
    ensures done { WholeIsDone }
    ensures is_whole { DoneIsWhole }
    ensures shows { ShowsOne }
    ensures ends { DoneOrShows }
{}

/// In the second format at most one fan-out has some of its posts in a legal journal and some not, and it has one
/// next request.
pub fn laws_of_fan_outs()
    ensures next { WithinIsOne }
    ensures last { WithinIsLast }
    ensures one { OneIsWithin }
    ensures whole { WholeIsOut }
{}

/// The definitions are not vacuous. In an example supplies are switched on, are killed and fail; a
/// counter takes what to hold, and sends it to two takers with different parameters. It has all kinds
/// of entry, of verdict and of end.
pub fn an_example()
    ensures { ExampleIsLegal }
{}
