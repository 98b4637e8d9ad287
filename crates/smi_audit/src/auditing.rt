//! Judging the text of a journal.
ghost use Rattle.std.specs.Prelude.{◌≡◌, ◌<◌, ◌+◌, ◌^◌, All, Err, IfErr, IfOk, IsTrue, length};
ghost use Rattle.std.specs.Arc.{arc_value};
ghost use Rattle.smi_journal.specs.HasText.{HasTextIn};
ghost use Rattle.smi_journal.specs.ReadJournal.{IsRefused, NoHeader};
ghost use Rattle.smi_audit.specs.Audit.{IsJudged, Judges};
ghost use Rattle.smi_audit.specs.declared.judgement.Judgement.TheVariants.{Legal};

use crate::judgement::Judgement;
use crate::past::{Past, PastError};
use smi_journal::{Entry, Format, JournalError, read_journal};
use sml_domain::Domain;
use std::alloc::{AllocError, Global};
use std::sync::Arc;

// Judges entries that have a text in a format.
fn judged(
    alloc: Global,
    format: Format,
    domain: Arc<Domain>,
    entries: &[Entry],
) -> Result<Judgement, AllocError>
    requires texts { All (HasTextIn format (arc_value domain)) entries.now }
    requires few { length entries.now + 2 < 2 ^ 64 }
    ensures { IfOk result (IsJudged format (arc_value domain) entries.now) }
{
    match Past::of(alloc, format, domain, entries) {
        Ok(_) => Ok(Judgement::Legal),
        Err(PastError::Illegal { line, rule }) => Ok(Judgement::Illegal { line, rule }),
        Err(PastError::Memory) => Err(AllocError),
    }
}

/// Judges the text of a journal of a domain: whether each entry may follow those before it, or else which
/// is the first that may not, and the first rule that it breaks. (docs/FORMATS.md, "What a journal is
/// judged by".) The first line names the format, and the rules are those of that format. A journal is judged line by
/// line. If a line is not an entry or may not be there, the whole text is read again before it is judged, since a later
/// line that is not an entry is reported first.
///
/// The time grows with the length of the text and with what the journal's actions do, and the memory
/// with the length of the text: of a legal journal each entry is held once, in its books. The square of the count of
/// objects is spent once, and once more if the journal is not found legal.
///
/// # Errors
///
/// Those of `read_journal`. `Memory` may come also while the journal is judged.
///
/// # Example
///
/// `tests_of_files` has it as `first_calls::judges`; L is a lamp that is off:
///
/// ```
/// let journal = b"smi-journal 2\nstart L @1 0 LIGHT\nend L ON\n";
/// let judgement = audit(alloc, domain, journal)?;   // Judgement::Legal
/// ```
pub fn audit(alloc: Global, domain: Arc<Domain>, bytes: &[u8]) -> Result<Judgement, JournalError>
    ensures judged { IfOk result (Judges (arc_value domain) bytes.now) }
    ensures err { IfErr result (λ e. IsRefused (arc_value domain) bytes.now e) }
    // This is found without memory.
    ensures header { NoHeader bytes.now → result ≡ Err JournalError.BadHeader }
{
    if is_legal(alloc, &domain, bytes) {
        return Ok(Judgement::Legal);
    }
    audit_again(alloc, domain, bytes)
}

// Whether bytes are the text of a legal journal. Returns false also if memory runs out.
fn is_legal(alloc: Global, domain: &Arc<Domain>, bytes: &[u8]) -> bool
    ensures { IsTrue result → Judges (arc_value domain.now) bytes.now Legal }
{
    let Some(_past) = Past::of_text(alloc, domain, bytes) else {
        return false;
    };
    true
}

// Judges the text of a journal, with all its entries held at once: a line that is not an entry is reported first, even
// if it is behind one that breaks a rule.
fn audit_again(alloc: Global, domain: Arc<Domain>, bytes: &[u8]) -> Result<Judgement, JournalError>
    ensures judged { IfOk result (Judges (arc_value domain) bytes.now) }
    ensures err { IfErr result (λ e. IsRefused (arc_value domain) bytes.now e) }
    ensures header { NoHeader bytes.now → result ≡ Err JournalError.BadHeader }
{
    let (format, journal) = match read_journal(alloc, &domain, bytes) {
        Ok(read) => read,
        Err(e) => return Err(e),
    };
    let _length = bytes.len();
    match judged(alloc, format, domain, journal.entries()) {
        Ok(judgement) => Ok(judgement),
        Err(_) => Err(JournalError::Memory),
    }
}
