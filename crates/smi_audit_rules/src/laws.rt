//! What holds of the rules, as contracts of functions that do nothing.
ghost use Rattle.smi_audit_rules.specs.Laws.{KeptIsLegal, BrokenIsIllegal, OneIsFirst, KeptOrBroken, LegalIsUnbroken, OnePlace, LegalOrBroken};

/// An entry may follow a journal exactly if it keeps all its rules. Otherwise exactly one rule is the
/// first that it breaks.
pub fn laws_of_entries()
    ensures kept { KeptIsLegal }
    ensures broken { BrokenIsIllegal }
    ensures one { OneIsFirst }
    ensures some { KeptOrBroken }
{}

/// A journal is either legal, or has exactly one first illegal line and exactly one first rule that is broken
/// there.
pub fn laws_of_journals()
    ensures legal { LegalIsUnbroken }
    ensures one { OnePlace }
    ensures some { LegalOrBroken }
{}
