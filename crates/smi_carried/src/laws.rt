//! What holds of the texts of what goes along, as the contract of a function that does nothing.
ghost use Rattle.smi_carried.specs.Reading.{OneCarried};

/// A text is that of one that suits the domain. So what was added to a text is what is read from it again. This does
/// nothing when called.
pub fn laws_of_carried()
    ensures { OneCarried }
{}
