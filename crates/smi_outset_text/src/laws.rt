//! What holds of the texts of outsets, as contracts of a function that does nothing.
ghost use Rattle.smi_outset_text.specs.Laws.{NoneIsBad, OneOutset};

/// No line is bad of an outset that suits its domain, and a text is that of one outset. So an outset that was added to
/// a text is read from it again.
pub fn laws_of_outset_texts()
    ensures good { NoneIsBad }
    ensures one { OneOutset }
{}
