//! A plan is run in threads.
ghost use Rattle.std.specs.Prelude.{◌≡◌, IfErr, IfOk, length, map, true};
ghost use Rattle.std.specs.Arc.{arc_value};
ghost use Rattle.smi_journal_entries.specs.Words.{all_starts};
ghost use Rattle.smi_journal_entries.specs.declared.journal.Format.TheVariants.{Two};
ghost use Rattle.smi_meaning.specs.Legal.{IsLegal};
ghost use Rattle.smi_run_report.specs.Receipts.{unmet_among};
ghost use Rattle.smi_run_report.specs.Reports.{IsFinalReport, device_count};
ghost use Rattle.smi_mail.specs.Mails.{AreMailNumbers};
ghost use Rattle.smi_run_runtime.specs.Opening.{are_run_numbers};
ghost use Rattle.smirun_run.specs.Ends.{EndsAtRest};
ghost use Rattle.smirun_run.specs.Running.{AreWithin, HasDevices, IsOpenFault, IsRunError, config_of};
ghost use Rattle.smirun_run.specs.Running.{error_of_mail, error_of_open};
ghost use Rattle.smirun_run.specs.Summary.{all_refused, summary_text};
ghost use Rattle.smirun_run.specs.Told.{AreUnmet, IsSummed};
ghost use Rattle.smi_run_shared.specs.declared.ending.ServeEnd.TheVariants.{Limit};
ghost use Rattle.smirun_run.specs.declared.running.RunError.TheVariants.{Memory as NoMemory};

use crate::outcome::Outcome;
use crate::summary::summary_of;
use smi_mail::{MailError, MailNames, Mailboxes, ruled};
use smi_run::{
    Config, OpenError, Receipt, Refusals, Report, Runtime, ServeEnd, Session, Watch, add_unmet,
    run_watched,
};
use smi_run_plan::{Plan, ScriptDevice};
use sml_domain::Domain;
use std::alloc::{AllocError, Global};
use std::marker::Brand;
use std::sync::{Arc, Wait};
use std::thread::Threads;

/// The numbers of a run.
#[derive(Clone, Copy, Debug, Eq, PartialEq)]
pub struct RunNumbers {
    /// How many workers serve: 1 to `MAX_WORKERS`.
    pub workers: usize,
    /// How many requests wait at an object at most: 1 to `MAX_CAPACITY`.
    pub capacity: usize,
    /// How many requests are started at most: 1 to `MAX_STARTS`.
    pub max_starts: usize,
}

/// Why a plan was not run to a report.
#[derive(Clone, Copy, Debug, Eq, PartialEq)]
pub enum RunError {
    /// A number is outside its limits.
    BadConfig,
    /// The plan has not one device for each associated object: it is of another domain.
    DeviceCount,
    /// Out of memory.
    Memory,
}

impl From<AllocError> for RunError {
    ghost from_gives = { λ _ e. e ≡ NoMemory };

    fn from(_: AllocError) -> Self {
        RunError::Memory
    }
}

impl From<MailError> for RunError {
    ghost from_gives = { λ error e. e ≡ error_of_mail error };

    fn from(error: MailError) -> Self {
        match error {
            MailError::BadConfig => RunError::BadConfig,
            MailError::Memory => RunError::Memory,
        }
    }
}

impl From<OpenError> for RunError {
    ghost from_gives = { λ error e. e ≡ error_of_open error };

    fn from(error: OpenError) -> Self {
        match error {
            OpenError::BadConfig => RunError::BadConfig,
            OpenError::DeviceCount => RunError::DeviceCount,
            OpenError::Memory => RunError::Memory,
        }
    }
}

// The receipts that the journal of a report does not agree with.
fn unmet_of<D: Drop, K: MailNames>(
    alloc: Global,
    report: &Report<D, K>,
) -> Result<Vec<Receipt>, AllocError>
    ensures { IfOk result (λ v. v.items ≡ unmet_among report.now.journal report.now.unmet) }
{
    let mut unmet = Vec::new(alloc);
    add_unmet(report.journal(), report.unmet(), &mut unmet)?;
    Ok(unmet)
}

// How many lines of each session were refused.
fn counts_of(alloc: Global, refused: &[Refusals]) -> Result<Vec<u64>, AllocError>
    ensures { IfOk result (λ v. v.items ≡ map all_refused refused.now) }
{
    let mut counts = Vec::new(alloc);
    for refusals in refused {
        counts.push(refusals.all)?;
    }
    Ok(counts)
}

// What a run came to, by its report.
fn outcome_of<D: Drop, K: MailNames>(
    alloc: Global,
    report: Report<D, K>,
    end: ServeEnd,
    refused: Vec<Refusals>,
) -> Result<Outcome, AllocError>
    ensures end { IfOk result (λ o. o.end ≡ end) }
    ensures journal { IfOk result (λ o. o.journal.entries ≡ report.journal) }
    ensures legal { IfOk result (λ o. IsLegal Two K.names.domain o.journal.entries) }
    ensures unmet { IfOk result (λ o. o.unmet.items ≡ unmet_among report.journal report.unmet) }
    ensures text { IfOk result (λ o. o.summary.items ≡ summary_text K.names.domain report end
        (map all_refused refused.items)) }
    ensures report { IfOk result (λ _. IsFinalReport K.names.domain K.names.sessions report.journal report.accepted
        report.drained) }
{
    report.tells();
    let counts = counts_of(alloc, &refused)?;
    let summary = summary_of(alloc, &report, end, &counts)?;
    let unmet = unmet_of(alloc, &report)?;
    Ok(Outcome {
        end,
        summary,
        journal: report.into_journal(),
        unmet,
        refused,
    })
}

// Empty mailboxes for a plan, with an end for each of its sessions.
fn new_boxes<R: Drop>(
    rt: R,
    alloc: Global,
    domain: &Arc<Domain>,
    plan: &Plan,
    numbers: RunNumbers,
) -> Result<Mailboxes<R>, RunError>
    ensures within { IfOk result (λ _. AreMailNumbers numbers.capacity (length plan.now.scripts.items)) }
    ensures made { IfOk result (λ b. (b.domain ≡ arc_value domain.now) × (b.capacity ≡ numbers.capacity)
        × (b.sessions ≡ length plan.now.scripts.items)) }
    ensures refused { IfErr result (IsRunError (arc_value domain.now) numbers plan.now) }
{
    let shared = Arc::try_clone(domain)?;
    let boxes = Mailboxes::new(rt, alloc, shared, numbers.capacity, plan.sessions())?;
    Ok(boxes)
}

// Opens the runtime of a run over its mailboxes, with a session for each of their ends.
fn open_run<K: MailNames, R: Wait + Copy + Send>(
    alloc: Global,
    domain: &Arc<Domain>,
    boxes: Mailboxes<R>,
    devices: Vec<ScriptDevice>,
    numbers: RunNumbers,
) -> Result<(Runtime<R, K, ScriptDevice>, Vec<Session<K>>), RunError>
    requires named { K.names ≡ boxes }
    requires domain { boxes.domain ≡ arc_value domain.now }
    ensures opened { IfOk result (λ r. (r.0 ≡ config_of numbers) × (length r.1.items ≡ boxes.sessions)) }
    ensures within { IfOk result (λ _. are_run_numbers (config_of numbers) ≡ true) }
    ensures devices { IfOk result (λ _. length devices.items ≡ device_count (arc_value domain.now)) }
    ensures refused { IfErr result (IsOpenFault (arc_value domain.now) numbers (length devices.items)) }
{
    let shared = Arc::try_clone(domain)?;
    let Ok((mail, ends)) = ruled::<K, R>(alloc, boxes) else {
        return Err(RunError::Memory);
    };
    let config = Config {
        workers: numbers.workers,
        max_starts: numbers.max_starts,
    };
    match Runtime::open(alloc, shared, mail, ends, devices, config) {
        Ok(opened) => Ok(opened),
        Err((error, _mail, _ends, _devices)) => Err(RunError::from(error)),
    }
}

// Runs a plan over mailboxes that were made for it.
fn run_over<K: MailNames + Send + Sync, R: Threads + Wait + Copy + Send + Sync, W: Watch>(
    rt: R,
    alloc: Global,
    domain: &Arc<Domain>,
    boxes: Mailboxes<R>,
    plan: Plan,
    numbers: RunNumbers,
    watcher: &mut W,
) -> Result<Outcome, RunError>
    requires named { K.names ≡ boxes }
    requires domain { boxes.domain ≡ arc_value domain.now }
    requires capacity { boxes.capacity ≡ numbers.capacity }
    requires sessions { boxes.sessions ≡ length plan.scripts.items }
    requires within { AreMailNumbers numbers.capacity (length plan.scripts.items) }
    ensures legal { IfOk result (λ o. IsLegal Two (arc_value domain.now) o.journal.entries) }
    ensures rest { IfOk result (λ o. EndsAtRest (arc_value domain.now) o.end o.journal.entries) }
    ensures limit { IfOk result (λ o. o.end ≡ Limit → length (all_starts o.journal.entries) ≡ numbers.max_starts) }
    ensures summed { IfOk result (IsSummed (arc_value domain.now) (length plan.scripts.items)) }
    ensures unmet { IfOk result (λ o. AreUnmet o.journal.entries o.unmet.items) }
    ensures free { IfOk result (λ _. AreWithin numbers (length plan.scripts.items)
        × HasDevices (arc_value domain.now) plan) }
    ensures refused { IfErr result (IsRunError (arc_value domain.now) numbers plan) }
{
    let (scripts, answers) = plan.into_parts();
    let devices = answers.devices(alloc, domain)?;
    let (runtime, sessions) = open_run::<K, R>(alloc, domain, boxes, devices, numbers)?;
    match run_watched(&rt, alloc, runtime, sessions, &scripts, watcher) {
        Ok((end, refused, report)) => Ok(outcome_of(alloc, report, end, refused)?),
        Err(_) => Err(RunError::Memory),
    }
}

/// Runs a plan of a domain: a thread for each worker and for each session, up to the report. `watcher` may be
/// `Unwatched`. What the report says is told by its summary; what the end says of the journal is what `run_scripts`
/// says.
///
/// The error is `BadConfig` where a number is outside its limits, and `DeviceCount` where the plan is of another
/// domain, before anything runs; or `Memory` if memory runs out at the beginning, or at the end: then what was done
/// has no summary.
pub fn run_plan<R: Threads + Wait + Copy + Send + Sync + Drop, W: Watch>(
    rt: R,
    alloc: Global,
    domain: &Arc<Domain>,
    plan: Plan,
    numbers: RunNumbers,
    watcher: &mut W,
) -> Result<Outcome, RunError>
    ensures legal { IfOk result (λ o. IsLegal Two (arc_value domain.now) o.journal.entries) }
    ensures rest { IfOk result (λ o. EndsAtRest (arc_value domain.now) o.end o.journal.entries) }
    ensures limit { IfOk result (λ o. o.end ≡ Limit → length (all_starts o.journal.entries) ≡ numbers.max_starts) }
    ensures summed { IfOk result (IsSummed (arc_value domain.now) (length plan.scripts.items)) }
    ensures unmet { IfOk result (λ o. AreUnmet o.journal.entries o.unmet.items) }
    ensures free { IfOk result (λ _. AreWithin numbers (length plan.scripts.items)
        × HasDevices (arc_value domain.now) plan) }
    ensures refused { IfErr result (IsRunError (arc_value domain.now) numbers plan) }
{
    let boxes = new_boxes(rt, alloc, domain, &plan, numbers)?;
    run_over::<Brand, _, _>(rt, alloc, domain, boxes, plan, numbers, watcher)
}
