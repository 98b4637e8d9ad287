//! With what a manager begins: as the text of its domain declares it, or, where its log follows another, as the front of
//! the log says.
ghost use Rattle.std.specs.Prelude.{◌≡◌, [], IfOk, Some};
ghost use Rattle.std.specs.Arc.{arc_value};
ghost use Rattle.sml_load.specs.Texts.{IsDomainOfText};
ghost use Rattle.smi_log_front.specs.Front.{FrontView};
ghost use Rattle.smi_log_front.specs.declared.first_line.LogVersion.TheVariants.{One, Two};
ghost use Rattle.smi_log_begin.specs.Begins.{IsBegunBy};
ghost use Rattle.smirun_live.specs.Continuing.{BeginsLog};
ghost use Rattle.smirun_live.specs.FirstLine.{IsHeadOf};

use crate::log_lines::{first_line_refusal, whole_lines};
use crate::preparing::{Prepared, head_of_text};
use smi_carried::Carried;
use smi_log_begin::{LogBegin, begin_of_log, log_version};
use smi_log_front::{FrontFault, LogVersion};
use smirun_commands::{Fault, LogRefusal};
use sml_domain::Domain;
use sml_load::{TextFault, own_domain_of};
use std::alloc::Global;
use std::sync::Arc;

/// The text of a log, and its path.
#[derive(Clone, Copy)]
pub(crate) struct LogText<'a, 't> {
    pub(crate) path: &'a str,
    pub(crate) text: &'t [u8],
}

impl<'a> LogText<'a, 'static> {
    /// That of no log.
    pub(crate) fn none() -> LogText<'a, 'static> {
        LogText {
            path: "",
            text: &[],
        }
    }
}

/// With what a manager begins.
#[derive(Drop)]
pub(crate) struct Beginning {
    pub(crate) domain: Arc<Domain>,
    /// What goes along from the logs before.
    pub(crate) carried: Carried,
    /// The first line of the log.
    pub(crate) first: Vec<u8>,
}

// With what a manager begins whose log follows no other.
fn first_beginning<'a>(alloc: Global, prepared: &Prepared<'a>) -> Result<Beginning, Fault<'a>>
    ensures domain { IfOk result (λ b. arc_value b.domain ≡ arc_value prepared.now.domain) }
    ensures names { IfOk result (λ b. b.carried.names ≡ []) }
    ensures first { IfOk result (λ b. b.first.items ≡ prepared.now.first.items) }
{
    let Ok(domain) = Arc::try_clone(&prepared.domain) else {
        return Err(Fault::Memory);
    };
    let Ok(first) = Vec::from_slice(alloc, &prepared.first) else {
        return Err(Fault::Memory);
    };
    Ok(Beginning {
        domain,
        carried: Carried {
            counts: Vec::new(alloc),
            names: Vec::new(alloc),
        },
        first,
    })
}

// The domain of the text of a file, which nobody shares.
fn own_domain<'a>(alloc: Global, file: &'a str, text: &[u8]) -> Result<Domain, Fault<'a>>
    ensures { IfOk result (IsDomainOfText text.now) }
{
    match own_domain_of(alloc, text) {
        Ok(domain) => Ok(domain),
        Err(TextFault::Read(error)) => Err(Fault::of_text(file, error)),
        Err(TextFault::Check(error)) => Err(Fault::of_file(file, error)),
        Err(TextFault::Memory) => Err(Fault::Memory),
    }
}

// The domain of the text of a file as a log begins it that follows another, and what goes along.
fn begun_of_text<'a>(
    alloc: Global,
    file: &'a str,
    text: &[u8],
    log: LogText<'a, '_>,
) -> Result<LogBegin, Fault<'a>>
    ensures { IfOk result (λ b. (f : FrontView)
        × IsBegunBy text.now log.entry.text.now (Some f) (arc_value b.domain) × (b.carried ≡ f.carried)) }
{
    let domain = match own_domain(alloc, file, text) {
        Ok(domain) => domain,
        Err(fault) => return Err(fault),
    };
    match begin_of_log(alloc, domain, log.text) {
        Ok(begin) => Ok(begin),
        Err(FrontFault::BadLine(number)) => {
            Err(Fault::Log(log.path, LogRefusal::BadOutset(number as u64)))
        }
        Err(FrontFault::Memory) => Err(Fault::Memory),
    }
}

// With what a manager begins whose log follows another: its first line is looked at before its front.
fn next_beginning<'a>(
    alloc: Global,
    prepared: &Prepared<'a>,
    log: LogText<'a, '_>,
) -> Result<Beginning, Fault<'a>>
    ensures begun { IfOk result (λ b. (f : FrontView)
        × IsBegunBy prepared.now.text.items log.entry.text.now (Some f) (arc_value b.domain)
        × (b.carried ≡ f.carried)) }
    ensures first { IfOk result (λ b. IsHeadOf prepared.now.text.items Two prepared.now.options.capacity
        b.first.items) }
{
    let first = match head_of_text(alloc, &prepared.options, LogVersion::Two, &prepared.text) {
        Ok(first) => first,
        Err(fault) => return Err(fault),
    };
    if let Some(refusal) = first_line_refusal(log.text, whole_lines(log.text), &first) {
        return Err(Fault::Log(log.path, refusal));
    }
    match begun_of_text(alloc, prepared.options.file, &prepared.text, log) {
        Ok(LogBegin { domain, carried }) => Ok(Beginning {
            domain,
            carried,
            first,
        }),
        Err(fault) => Err(fault),
    }
}

/// With what a manager of what was prepared begins, by the version of its log.
///
/// The faults are `Log` by the first line, and then by the front, of a log that follows another; and out of memory. The
/// cost of such a log is that of reading and checking the text of the domain, and that of reading the front.
pub(crate) fn beginning_of<'a>(
    alloc: Global,
    prepared: &Prepared<'a>,
    log: LogText<'a, '_>,
) -> Result<Beginning, Fault<'a>>
    requires domain { IsDomainOfText prepared.now.text.items (arc_value prepared.now.domain) }
    requires first { IsHeadOf prepared.now.text.items One prepared.now.options.capacity prepared.now.first.items }
    ensures { IfOk result (λ b. BeginsLog prepared.now.text.items log.entry.text.now prepared.now.options.capacity
        (arc_value b.domain) b.carried.names b.first.items) }
{
    match log_version(log.text) {
        LogVersion::One => first_beginning(alloc, prepared),
        LogVersion::Two => next_beginning(alloc, prepared, log),
    }
}
