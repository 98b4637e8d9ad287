//! The command `cover`: a domain and journals of it go in, and what these have exercised comes out.
ghost use Rattle.std.specs.Prelude.{◌≡◌, ◌≤◌, IfOk};

use crate::advice::Advice;
use crate::audit::{judge_text, load_journal, tell_against, tell_text};
use crate::fault::Fault;
use crate::loading::{LoadedDomain, load_with_text};
use crate::status::{DONE, ILLEGAL, REFUSED};
use explain_journals::DomainText;
use show_cover::{CoverText, Coverage, cover_text};
use smi_audit::Judgement;
use sml_domain::Domain;
use std::alloc::Global;
use std::fs::Files;
use std::io::{Read, Write};
use std::sync::Arc;

/// What `cover` is asked to tell. The texts are words of a command line.
#[derive(Drop)]
pub struct CoverOptions<'a> {
    /// The path of the domain file, or `-`.
    pub file: &'a str,
    /// The paths of the journals, or `-`.
    pub journals: Vec<&'a str>,
    /// Whether the status is `REFUSED` if something was never exercised.
    pub strict: bool,
    /// Whether an illegal line is explained.
    pub explain: bool,
}

/// Tells what journals of a domain have exercised, and returns the exit status: `REFUSED` if something never was and
/// the options are strict. The domain is read and checked before the first journal is opened; each journal is read
/// whole, judged and counted before the next is opened. The first that is not legal is told behind its path as `audit`
/// tells it, with that status, and nothing else is.
///
/// The cost is that of judging the journals, and the length of the domain's text; one journal is held at a time. The
/// error is the fault of the domain, by its path, or of a journal as of `run_audit`, `Output` or `Memory`.
pub fn run_cover<'a, R: Files + AllocGlobal, I: Read, W: Write, E: Write>(
    rt: &R,
    options: &CoverOptions<'a>,
    input: &mut I,
    output: &mut W,
    errors: &mut E,
    advice: &mut Advice,
) -> Result<u8, Fault<'a>>
    ensures { IfOk result (λ status. status ≤ 4) }
{
    let loaded = match load_with_text(rt, input, options.file, advice) {
        Ok(loaded) => loaded,
        Err(fault) => return Err(fault),
    };
    let covered = cover_domain(rt, options, &loaded, input, output, errors, advice);
    drop(loaded);
    covered
}

// Tells what journals of a domain that was loaded have exercised.
fn cover_domain<'a, R: Files + AllocGlobal, I: Read, W: Write, E: Write>(
    rt: &R,
    options: &CoverOptions<'a>,
    loaded: &LoadedDomain<'_>,
    input: &mut I,
    output: &mut W,
    errors: &mut E,
    advice: &mut Advice,
) -> Result<u8, Fault<'a>>
    ensures { IfOk result (λ status. status ≤ 4) }
{
    let Ok(mut coverage) = Coverage::new(rt.alloc(), &loaded.domain) else {
        return Err(Fault::Memory);
    };
    for journal in options.journals.as_slice() {
        let bytes = match load_journal(rt, input, journal) {
            Ok(bytes) => bytes,
            Err(fault) => return Err(fault),
        };
        if !coverage.count_journal(rt.alloc(), &loaded.domain, bytes.as_slice()) {
            let text = loaded.text.as_slice();
            let told = tell_uncounted(
                rt.alloc(),
                &loaded.domain,
                text,
                options,
                journal,
                bytes.as_slice(),
                output,
                errors,
            );
            if let Err(fault) = &told {
                advice.of_journal(&loaded.domain, journal, bytes.as_slice(), fault);
            }
            return told;
        }
    }
    let text = loaded.text.as_slice();
    tell_coverage(
        rt.alloc(),
        &loaded.domain,
        text,
        options.strict,
        &coverage,
        output,
    )
}

/// Writes what the judge says of a journal of this path that was not counted, with its path in front: that it is not
/// legal. If the options ask for it, the explanation goes to `errors`, with the place in the domain's text.
///
/// The cost is that of judging. The error is the fault of the journal, by its path, `Output` or `Memory`.
pub fn tell_uncounted<'a, W: Write, E: Write>(
    heap: Global,
    domain: &Arc<Domain>,
    text: &[u8],
    options: &CoverOptions<'a>,
    journal: &'a str,
    bytes: &[u8],
    output: &mut W,
    errors: &mut E,
) -> Result<u8, Fault<'a>>
    ensures { IfOk result (λ status. status ≤ 4) }
{
    let judgement = match judge_text(heap, domain, journal, bytes) {
        // Memory ran out where it was counted, and did not when it was judged.
        Ok(Judgement::Legal) => return Err(Fault::Memory),
        Ok(Judgement::Illegal { line, rule }) => Judgement::Illegal { line, rule },
        Err(fault) => return Err(fault),
    };
    let Ok(line) = format!(in heap; "{journal} {judgement}\n") else {
        return Err(Fault::Memory);
    };
    if let Err(fault) = tell_text(line.as_bytes(), output) {
        return Err(fault);
    }
    if options.explain {
        let text = DomainText {
            file: options.file,
            bytes: text,
            declared: domain,
        };
        tell_against(heap, domain, text, bytes, judgement, errors);
    }
    Ok(ILLEGAL)
}

/// Writes what never was and all counts, with the places in the domain's text, and returns the exit status: `REFUSED`
/// if something never was and that is asked for.
///
/// The cost is the length of the domain's text. The error is `Output` or `Memory`.
pub fn tell_coverage<W: Write>(
    heap: Global,
    domain: &Domain,
    text: &[u8],
    strict: bool,
    coverage: &Coverage,
    output: &mut W,
) -> Result<u8, Fault<'static>>
    ensures { IfOk result (λ status. status ≤ 4) }
{
    let Ok(CoverText { never, counts }) = cover_text(heap, domain, text, coverage) else {
        return Err(Fault::Memory);
    };
    if let Err(fault) = tell_text(never.as_slice(), output) {
        return Err(fault);
    }
    if let Err(fault) = tell_text(counts.as_slice(), output) {
        return Err(fault);
    }
    if strict && never.len() > 0 {
        Ok(REFUSED)
    } else {
        Ok(DONE)
    }
}
