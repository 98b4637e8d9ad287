//! The command `states`: a domain and a journal go in, and how all stood behind a line of it comes out.
ghost use Rattle.std.specs.Prelude.{◌≡◌, ◌≢◌, ◌≤◌, ◌<◌, ◌⊎◌, IfErr, IfNone, IfOk, IfSome, OnOk};
ghost use Rattle.std.specs.Arc.{arc_value};
ghost use Rattle.sml_text.specs.Written.{Wrote};
ghost use Rattle.smi_audit.specs.Audit.{Judges};
ghost use Rattle.smi_audit.specs.Pasts.{IsPastOf};
ghost use Rattle.smirun_commands.specs.Ruling.{IsNotJudged};
ghost use Rattle.smirun_commands.specs.States.{AreFirstLines, WritesStates, WritesStanding, ended_lines};

use crate::advice::Advice;
use crate::audit::{judge_text, load_journal, tell_judgement, tell_text};
use crate::fault::Fault;
use crate::loading::load_domain;
use crate::status::{DONE, ILLEGAL};
use show_states::{change_text, past_text};
use smi_audit::{Judgement, Past};
use sml_domain::Domain;
use std::alloc::Global;
use std::fs::Files;
use std::io::{Read, Write};
use std::sync::Arc;

/// What `states` is asked to tell. The texts are words of a command line.
#[derive(Drop)]
pub struct StatesOptions<'a> {
    /// The path of the domain file, or `-`.
    pub file: &'a str,
    /// The path of the journal, or `-`.
    pub journal: &'a str,
    /// The line behind which it is told how all stood: lines count from 1, and the first one is the header. None for
    /// the last line.
    pub at: Option<usize>,
    /// The line to which it is told what changes, if that is asked for.
    pub with: Option<usize>,
    /// Whether it is explained why a text is refused.
    pub explain: bool,
}

/// Tells how all stood behind a line of a journal, or what differs between two lines, and returns the exit status. The
/// domain is read and checked before the journal is opened, and the journal is read whole before it is judged up to
/// the line. One that is not legal up to there is told as `audit` tells it, with that status.
///
/// What is read is cut by `first_lines` and passed to `states_of_bytes`. The error is the fault of the domain, by its
/// path, or of the journal as of `run_audit`, `NoLine`, `Output` or `Memory`.
pub fn run_states<'a, R: Files + AllocGlobal, I: Read, W: Write>(
    rt: &R,
    options: &StatesOptions<'a>,
    input: &mut I,
    output: &mut W,
    advice: &mut Advice,
) -> Result<u8, Fault<'a>>
    ensures { IfOk result (λ status. status ≤ 4) }
{
    let domain = match load_domain(rt, input, options.file, advice) {
        Ok(domain) => domain,
        Err(fault) => return Err(fault),
    };
    let bytes = match load_journal(rt, input, options.journal) {
        Ok(bytes) => bytes,
        Err(fault) => return Err(fault),
    };
    let told = tell_stood(rt.alloc(), &domain, options, bytes.as_slice(), output);
    if let Err(fault) = &told {
        advice.of_journal(&domain, options.journal, bytes.as_slice(), fault);
    }
    drop(domain);
    drop(bytes);
    told
}

// Tells how all stood, or what differs, by the bytes of a journal.
fn tell_stood<'a, W: Write>(
    heap: Global,
    domain: &Arc<Domain>,
    options: &StatesOptions<'a>,
    bytes: &[u8],
    output: &mut W,
) -> Result<u8, Fault<'a>>
    ensures { IfOk result (λ status. status ≤ 4) }
{
    let front = match lines_up_to(options.journal, bytes, options.at) {
        Ok(front) => front,
        Err(fault) => return Err(fault),
    };
    if options.with.is_none() {
        return states_of_bytes(heap, domain, options.journal, front, output);
    }
    match lines_up_to(options.journal, bytes, options.with) {
        Ok(other) => changes_of_bytes(heap, domain, options.journal, front, other, output),
        Err(fault) => Err(fault),
    }
}

// The lines of a journal up to one, or all of them.
fn lines_up_to<'a, 'b>(
    journal: &'a str,
    bytes: &'b [u8],
    line: Option<usize>,
) -> Result<&'b [u8], Fault<'a>> {
    let Some(line) = line else {
        return Ok(bytes);
    };
    match first_lines(bytes, line) {
        Some(front) => Ok(front),
        None => Err(Fault::NoLine(journal, line as u64)),
    }
}

/// The first lines of a text, this many, each with its line feed. None if fewer lines of the text end, or none is asked
/// for. The cost is the length of these lines.
pub fn first_lines(text: &[u8], count: usize) -> Option<&[u8]>
    ensures some { IfSome result (λ front. AreFirstLines text.now count front.now) }
    ensures none { IfNone result ((count ≡ 0) ⊎ (ended_lines text.now < count)) }
{
    if count == 0 {
        return None;
    }
    let mut ended = 0usize;
    for (place, byte) in text.iter().enumerate() {
        if *byte == b'\n' {
            ended += 1;
            if ended == count {
                return Some(text.split_at(place + 1).0);
            }
        }
    }
    None
}

/// Judges the bytes of a journal by a domain, writes how all stood behind it to the end, and returns `DONE`; or if it
/// is not legal, the line of what the judge says, and the status of that.
///
/// The cost is that of judging and of the text. The error is the fault of the journal, by its path, `Output` or
/// `Memory`.
pub fn states_of_bytes<'a, W: Write>(
    heap: Global,
    domain: &Arc<Domain>,
    journal: &'a str,
    bytes: &[u8],
    output: &mut W,
) -> Result<u8, Fault<'a>>
    ensures told { IfOk result (λ status. WritesStates (arc_value domain.now) bytes.now status
        (W.contents output.old) (W.contents output.new)) }
    ensures err { IfErr result (λ fault. fault ≢ Fault.Output
        → IsNotJudged (arc_value domain.now) journal.now bytes.now fault) }
    ensures range { IfOk result (λ status. status ≤ 4) }
{
    match Past::of_text(heap, domain, bytes) {
        Some(past) => match tell_standing(heap, domain, &past, bytes, output) {
            Ok(()) => Ok(DONE),
            Err(fault) => Err(fault),
        },
        None => tell_illegal(heap, domain, journal, bytes, output),
    }
}

// Writes how all stood behind a past to the end.
fn tell_standing<W: Write>(
    heap: Global,
    domain: &Arc<Domain>,
    past: &Past,
    bytes: &[u8],
    output: &mut W,
) -> Result<(), Fault<'static>>
    requires { IsPastOf (arc_value domain.now) bytes.now past.now }
    ensures told { OnOk result (WritesStanding (arc_value domain.now) bytes.now
        (W.contents output.old) (W.contents output.new)) }
    ensures err { IfErr result (λ fault. fault ≢ Fault.Output → fault ≡ Fault.Memory) }
{
    let Ok(text) = past_text(heap, past, domain) else {
        return Err(Fault::Memory);
    };
    tell_text(text.as_slice(), output)
}

// Writes what the judge says of a journal of which no past was made: that it is not legal.
fn tell_illegal<'a, W: Write>(
    heap: Global,
    domain: &Arc<Domain>,
    journal: &'a str,
    bytes: &[u8],
    output: &mut W,
) -> Result<u8, Fault<'a>>
    ensures told { IfOk result (λ status. WritesStates (arc_value domain.now) bytes.now status
        (W.contents output.old) (W.contents output.new)) }
    ensures err { IfErr result (λ fault. fault ≢ Fault.Output
        → IsNotJudged (arc_value domain.now) journal.now bytes.now fault) }
    ensures range { IfOk result (λ status. status ≤ 4) }
{
    let judgement = match judge_text(heap, domain, journal, bytes) {
        // Memory ran out for its past, and did not when it was judged again.
        Ok(Judgement::Legal) => return Err(Fault::Memory),
        Ok(Judgement::Illegal { line, rule }) => Judgement::Illegal { line, rule },
        Err(fault) => return Err(fault),
    };
    match tell_judgement(heap, judgement, output) {
        Ok(()) => Ok(ILLEGAL),
        Err(fault) => Err(fault),
    }
}

// Writes what differs between how all stood behind the lines of a journal and behind others of its lines.
fn changes_of_bytes<'a, W: Write>(
    heap: Global,
    domain: &Arc<Domain>,
    journal: &'a str,
    bytes: &[u8],
    others: &[u8],
    output: &mut W,
) -> Result<u8, Fault<'a>>
    ensures { IfOk result (λ status. status ≤ 4) }
{
    let Some(before) = Past::of_text(heap, domain, bytes) else {
        return tell_illegal(heap, domain, journal, bytes, output);
    };
    let Some(behind) = Past::of_text(heap, domain, others) else {
        return tell_illegal(heap, domain, journal, others, output);
    };
    let Ok(text) = change_text(heap, &before, &behind, domain) else {
        return Err(Fault::Memory);
    };
    match tell_text(text.as_slice(), output) {
        Ok(()) => Ok(DONE),
        Err(fault) => Err(fault),
    }
}
