//! What the judge says of the entries of a run.
ghost use Rattle.std.specs.Prelude.{◌≡◌, ◌≢◌, ◌≤◌, ◌++◌, IfErr, IfOk, codes, true};
ghost use Rattle.std.specs.Arc.{arc_value};
ghost use Rattle.sml_text.specs.Written.{Wrote};
ghost use Rattle.smi_journal_entries.specs.declared.journal.Format.TheVariants.{Two};
ghost use Rattle.smi_journal.specs.JournalText.{journal_text};
ghost use Rattle.smi_audit.specs.Audit.{Judges};
ghost use Rattle.smi_audit.specs.JudgementText.{ruling_text};
ghost use Rattle.smirun_commands.specs.Ruling.{ruling_status};

use crate::replaying::{Unlooked, past_of_entries, text_of};
use smi_audit::Judgement;
use smi_journal::Entry;
use smirun_commands::{AuditOptions, DONE, Fault, LoadedDomain, judge_bytes, tell_judgement};
use smirun_live::Continued;
use sml_domain::Domain;
use std::alloc::Global;
use std::io::Write;
use std::sync::Arc;

// Whether the judge finds the entries of a run legal. Not, if memory runs out.
#[tactic(auto, using(crate::proofs::Replayed::judged_legal))]
fn is_legal(alloc: Global, domain: &Arc<Domain>, entries: &[Entry]) -> bool
    ensures { result ≡ true → Judges (arc_value domain.now)
        (journal_text Two (arc_value domain.now) entries.now) Judgement.Legal }
{
    let Some(_past) = past_of_entries(alloc, domain, entries, &mut Unlooked) else {
        return false;
    };
    true
}

/// Judges the entries of a run by its domain, writes the line of what the judge says to its end, and returns the exit
/// status. Entries that are not found legal are judged once more, as the text of their journal, which is then explained
/// as `judge_bytes` does.
///
/// The cost is that of judging. The error is `Output` or `Memory`.
pub fn judge_entries<'a, W: Write, E: Write>(
    alloc: Global,
    domain: &Arc<Domain>,
    text: &[u8],
    options: &AuditOptions<'a>,
    entries: &[Entry],
    output: &mut W,
    errors: &mut E,
) -> Result<u8, Fault<'a>>
    ensures judged { IfOk result (λ status. (judgement : Judgement) × Judges (arc_value domain.now)
        (journal_text Two (arc_value domain.now) entries.now) judgement
        × Wrote (W.contents output.old) (W.contents output.new) (ruling_text judgement ++ codes "\n")
        × (status ≡ ruling_status judgement)) }
    ensures range { IfOk result (λ status. status ≤ 4) }
{
    if is_legal(alloc, domain, entries) {
        return match tell_judgement(alloc, Judgement::Legal, output) {
            Ok(()) => Ok(DONE),
            Err(fault) => Err(fault),
        };
    }
    match text_of(alloc, domain, entries) {
        Ok(bytes) => judge_bytes(alloc, domain, text, options, &bytes, output, errors),
        Err(fault) => Err(fault),
    }
}

/// Judges what a log has done.
pub(crate) fn tell_judged<'a, W: Write, E: Write>(
    alloc: Global,
    file: &LoadedDomain<'a>,
    run: &Continued<'a>,
    options: &AuditOptions<'a>,
    output: &mut W,
    errors: &mut E,
) -> Result<u8, Fault<'a>>
    ensures { IfOk result (λ status. status ≤ 4) }
{
    let entries = run.manager.core().journal();
    judge_entries(
        alloc,
        &run.domain,
        &file.text,
        options,
        entries,
        output,
        errors,
    )
}
