//! Laws of journals and of arguments, as contracts of functions that do nothing.
ghost use Rattle.smi_journal_entries.specs.Laws.{OneMore, CompleteFits, FittingIsGood, BeginDeclared, BeginOf, ChangesAreOf};

use sml_domain::laws_of_completing;

/// What one more entry does to each word of a journal.
pub fn laws_of_entries()
    ensures more { (journal : _) (entry : _) → OneMore journal entry }
{}

/// Completed arguments are values of the parameters, in order and each of its kind. The arguments
/// of a request that a program of a domain makes, no two of one name, can be completed.
pub fn laws_of_arguments()
    ensures fits { CompleteFits }
    ensures good { FittingIsGood }
{
    laws_of_completing();
}

/// Sets begin with their declared members, and have objects of their domain at all times, none of them twice.
pub fn laws_of_members()
    ensures declared { BeginDeclared }
    ensures begin { BeginOf }
    ensures changes { ChangesAreOf }
{}
