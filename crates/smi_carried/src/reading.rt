//! What goes along, read from the lines in front of a text.
ghost use Rattle.std.specs.Prelude.{◌≡◌, ◌++◌, IfOk};
ghost use Rattle.smi_carried.specs.CarriedText.{carried_text};
ghost use Rattle.smi_carried.specs.Reading.{CarriedIsHeld, IsLongest};
ghost use Rattle.smi_carried.specs.Suits.{CarriedSuits};

use crate::carried::Carried;
use crate::counting::read_counts;
use crate::onces::read_names;
use smi_journal::laws_of_names;
use sml_domain::Domain;
use std::alloc::{AllocError, Global};

/// Reads what goes along by the lines in front of a text, as far as each line is one that may stand there, and returns
/// it and what comes after them. What was added to a text by `add_carried` is read again where no line follows that may
/// stand there too.
///
/// The cost is at most the length of the text, once the names of the domain's objects, and for each last request the
/// count of those before it. The error is out of memory.
pub fn read_carried<'a>(
    alloc: Global,
    domain: &Domain,
    text: &'a [u8],
) -> Result<(Carried, &'a [u8]), AllocError>
    ensures suits { IfOk result (λ x. CarriedSuits domain.now x.0) }
    ensures held { IfOk result (λ x. CarriedIsHeld x.0) }
    ensures whole { IfOk result (λ x. text.now ≡ carried_text domain.now x.0 ++ x.1.now) }
    ensures most { IfOk result (λ x. IsLongest domain.now text.now x.0) }
{
    laws_of_names(domain);
    let Ok(counts) = read_counts(alloc, domain, text) else {
        return Err(AllocError);
    };
    let Ok(names) = read_names(alloc, domain, counts.1) else {
        return Err(AllocError);
    };
    let carried = Carried {
        counts: counts.0,
        names: names.0,
    };
    Ok((carried, names.1))
}
