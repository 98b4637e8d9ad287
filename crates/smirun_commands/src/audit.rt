//! The command `audit`: a domain and a journal go in, and what the judge says about it comes out.
ghost use Rattle.std.specs.Prelude.{◌≡◌, ◌≢◌, ◌⊎◌, ◌<◌, ◌≤◌, ◌++◌, Err, IfErr, IfOk, OnOk, codes, length};
ghost use Rattle.std.specs.Arc.{arc_value};
ghost use Rattle.sml_text.specs.Written.{Wrote};
ghost use Rattle.smi_audit.specs.Audit.{Judges};
ghost use Rattle.smi_audit.specs.JudgementText.{ruling_text};
ghost use Rattle.smirun_commands.specs.Ruling.{IsNotJudged, ruling_status};
ghost use Rattle.smirun_commands.specs.declared.audit.TheConstants.{LONGEST_JOURNAL};

use crate::advice::Advice;
use crate::fault::Fault;
use crate::loading::load_with_text;
use crate::status::{DONE, ILLEGAL};
use crate::text::load_prefix;
use explain_journals::{DomainText, explain};
use smi_audit::{Judgement, audit};
use smi_journal::read_journal;
use sml_domain::Domain;
use sml_text::{Sink, put};
use sml_writer::Out;
use std::alloc::{AllocError, Global};
use std::fs::Files;
use std::io::{Read, Write};
use std::sync::Arc;

/// What `audit` is asked to judge. The texts are words of a command line.
#[derive(Drop)]
pub struct AuditOptions<'a> {
    /// The path of the domain file, or `-`.
    pub file: &'a str,
    /// The path of the journal, or `-`.
    pub journal: &'a str,
    /// Whether an illegal line is explained.
    pub explain: bool,
}

/// How many bytes a journal may have.
pub const LONGEST_JOURNAL: usize = 67_108_864;

/// Judges the journal by the domain, writes what the judge says, and returns the exit status. The domain is read
/// and checked before the journal is opened, and the journal is read whole before it is judged.
///
/// If that is asked for, the explanation of an illegal line goes to `errors`, once the line of the judge is written.
/// The journal is then read and judged once more, up to that line. What is read is passed to `domain_of_bytes` and
/// `judge_bytes`.
pub fn run_audit<'a, R: Files + AllocGlobal, I: Read, W: Write, E: Write>(
    rt: &R,
    options: &AuditOptions<'a>,
    input: &mut I,
    output: &mut W,
    errors: &mut E,
    advice: &mut Advice,
) -> Result<u8, Fault<'a>>
    ensures { IfOk result (λ status. status ≤ 4) }
{
    let loaded = match load_with_text(rt, input, options.file, advice) {
        Ok(loaded) => loaded,
        Err(fault) => return Err(fault),
    };
    let bytes = match load_journal(rt, input, options.journal) {
        Ok(bytes) => bytes,
        Err(fault) => return Err(fault),
    };
    let judged = judge_bytes(
        rt.alloc(),
        &loaded.domain,
        loaded.text.as_slice(),
        options,
        bytes.as_slice(),
        output,
        errors,
    );
    if let Err(fault) = &judged {
        advice.of_journal(&loaded.domain, options.journal, bytes.as_slice(), fault);
    }
    drop(loaded);
    drop(bytes);
    judged
}

/// Judges the bytes of a journal by a domain, writes the line of what the judge says to its end, and returns the exit
/// status. If the options ask for it, the explanation of an illegal line then goes to `errors`, with the place in the
/// domain's text that it is about. If memory runs out for that, this is told there too, and the status stays that of
/// the journal, as its line is written.
///
/// The cost is that of judging, and once more if it is explained. The error is the fault of the journal, by its
/// path, `Output` or `Memory`.
pub fn judge_bytes<'a, W: Write, E: Write>(
    heap: Global,
    domain: &Arc<Domain>,
    text: &[u8],
    options: &AuditOptions<'a>,
    bytes: &[u8],
    output: &mut W,
    errors: &mut E,
) -> Result<u8, Fault<'a>>
    ensures judged { IfOk result (λ status. (judgement : Judgement) × Judges (arc_value domain.now) bytes.now judgement
        × Wrote (W.contents output.old) (W.contents output.new) (ruling_text judgement ++ codes "\n")
        × (status ≡ ruling_status judgement)) }
    ensures err { IfErr result (λ fault. fault ≢ Fault.Output
        → IsNotJudged (arc_value domain.now) options.now.journal.now bytes.now fault) }
    ensures range { IfOk result (λ status. status ≤ 4) }
{
    let judgement = match judge_text(heap, domain, options.journal, bytes) {
        Ok(judgement) => judgement,
        Err(fault) => return Err(fault),
    };
    if let Err(fault) = tell_judgement(heap, judgement, output) {
        return Err(fault);
    }
    if options.explain {
        let text = DomainText {
            file: options.file,
            bytes: text,
            declared: domain,
        };
        tell_against(heap, domain, text, bytes, judgement, errors);
    }
    Ok(status_of(judgement))
}

// The exit status of a judgement.
fn status_of(judgement: Judgement) -> u8
    ensures status { result ≡ ruling_status judgement }
    ensures range { result ≤ 4 }
{
    match judgement {
        Judgement::Legal => DONE,
        Judgement::Illegal { .. } => ILLEGAL,
    }
}

// Writes the explanation of the illegal line, if there is one, or that there is no memory for it.
pub(crate) fn tell_against<E: Write>(
    heap: Global,
    domain: &Arc<Domain>,
    text: DomainText<'_>,
    bytes: &[u8],
    judgement: Judgement,
    errors: &mut E,
) {
    let mut out = Out::new(&mut *errors);
    if explain_judgement(heap, domain, Some(text), bytes, judgement, &mut out).is_err() {
        let _ = Fault::Memory.tell(errors);
    }
}

// Writes the explanation of the illegal line, if there is one, with its place in the domain's text if that is there.
// The error is out of memory.
pub(crate) fn explain_judgement<E: Sink>(
    heap: Global,
    domain: &Arc<Domain>,
    text: Option<DomainText<'_>>,
    bytes: &[u8],
    judgement: Judgement,
    out: &mut Out<'_, E>,
) -> Result<(), AllocError> {
    if judgement == Judgement::Legal {
        return Ok(());
    }
    let Ok((format, journal)) = read_journal(heap, domain, bytes) else {
        return Err(AllocError);
    };
    let shared = Arc::try_clone(domain)?;
    explain(
        heap,
        format,
        shared,
        text,
        journal.entries(),
        judgement,
        out,
    )
}

// The bytes of a journal.
pub(crate) fn load_journal<'a, R: Files + AllocGlobal, I: Read>(
    rt: &R,
    input: &mut I,
    journal: &'a str,
) -> Result<Vec<u8>, Fault<'a>> {
    // One byte more, so that a journal which is too long is seen to be so.
    match load_prefix(rt, input, journal, LONGEST_JOURNAL as u64 + 1) {
        Ok(bytes) => within_limit(journal, bytes),
        Err(error) => Err(Fault::of_input(journal, &error)),
    }
}

// The bytes of a journal, unless there are too many.
fn within_limit<'a>(journal: &'a str, bytes: Vec<u8>) -> Result<Vec<u8>, Fault<'a>>
    ensures ok { IfOk result (λ all. (all.items ≡ bytes.items) × (length bytes.items ≤ LONGEST_JOURNAL)) }
    ensures err { IfErr result (λ fault.
        (fault ≡ Fault.TooLong journal.entry) × (LONGEST_JOURNAL < length bytes.items)) }
{
    if bytes.len() > LONGEST_JOURNAL {
        Err(Fault::TooLong(journal))
    } else {
        Ok(bytes)
    }
}

// What the judge says about the bytes of a journal.
pub(crate) fn judge_text<'a>(
    heap: Global,
    domain: &Arc<Domain>,
    journal: &'a str,
    bytes: &[u8],
) -> Result<Judgement, Fault<'a>>
    ensures judged { IfOk result (Judges (arc_value domain.now) bytes.now) }
    ensures err { IfErr result (IsNotJudged (arc_value domain.now) journal.now bytes.now) }
{
    let Ok(shared) = Arc::try_clone(domain) else {
        return Err(Fault::Memory);
    };
    match audit(heap, shared, bytes) {
        Ok(judgement) => Ok(judgement),
        Err(error) => Err(Fault::of_journal(journal, error)),
    }
}

/// Writes the line of a judgement to its end. The error is `Output` or `Memory`.
pub fn tell_judgement<W: Write>(
    heap: Global,
    judgement: Judgement,
    output: &mut W,
) -> Result<(), Fault<'static>>
    ensures err { IfErr result (λ fault. (fault ≡ Fault.Output) ⊎ (fault ≡ Fault.Memory)) }
    ensures told { OnOk result (Wrote (W.contents output.old) (W.contents output.new)
        (ruling_text judgement ++ codes "\n")) }
{
    let Ok(line) = format!(in heap; "{judgement}\n") else {
        return Err(Fault::Memory);
    };
    tell_text(line.as_bytes(), output)
}

/// Writes a text to its end.
pub fn tell_text<W: Write>(text: &[u8], output: &mut W) -> Result<(), Fault<'static>>
    ensures err { IfErr result (λ fault. fault ≡ Fault.Output) }
    ensures told { OnOk result (Wrote (W.contents output.old) (W.contents output.new) text.now) }
{
    if put(output, text).is_err() {
        return Err(Fault::Output);
    }
    match output.flush() {
        Ok(()) => Ok(()),
        Err(_) => Err(Fault::Output),
    }
}
