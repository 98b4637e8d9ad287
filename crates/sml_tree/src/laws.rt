//! The laws of the grammar.

ghost use Rattle.sml_tree.specs.Laws.{FewBrackets, NamesAreNotReserved, SameConditions, SameMarks, WithinLimits};

/// What holds of the texts of every file, of every condition and of the marks of states, and which words are names.
/// It does nothing when called.
pub fn laws_of_grammar()
    ensures conditions { SameConditions }
    ensures marks { SameMarks }
    ensures names { NamesAreNotReserved }
    ensures limits { WithinLimits }
    ensures brackets { FewBrackets }
{}
