//! What a manager is made of before its log is looked at.
ghost use Rattle.std.specs.Prelude.{◌≡◌, IfOk};
ghost use Rattle.std.specs.Arc.{arc_value};
ghost use Rattle.sml_load.specs.Texts.{IsDomainOfText};
ghost use Rattle.smi_log_front.specs.declared.first_line.LogVersion.TheVariants.{One};
ghost use Rattle.smirun_live.specs.FirstLine.{IsHeadOf};

use crate::options::LiveOptions;
use smi_log_front::{LogVersion, first_line_of_log};
use smirun_commands::{Advice, Fault, domain_of_bytes, load_prefix, print_text};
use sml_domain::Domain;
use sml_read::MAX_TEXT;
use std::alloc::Global;
use std::fs::Files;
use std::io;
use std::sync::Arc;

// One byte more than a domain text may have, so that a text which is too long is seen to be so.
const MOST_READ: u64 = MAX_TEXT as u64 + 1;

/// The text of a domain file, its domain, and the first line of a log that follows no other.
#[derive(Drop)]
pub(crate) struct Prepared<'a> {
    pub(crate) options: LiveOptions<'a>,
    pub(crate) text: Vec<u8>,
    pub(crate) domain: Arc<Domain>,
    pub(crate) first: Vec<u8>,
}

/// What a manager of the domain file is made of. What is advised on a fault of its text goes to the advice.
pub(crate) fn prepare<'a, R: Files + AllocGlobal>(
    rt: &R,
    options: &LiveOptions<'a>,
    advice: &mut Advice,
) -> Result<Prepared<'a>, Fault<'a>>
    ensures domain { IfOk result (λ made. IsDomainOfText made.text.items (arc_value made.domain)) }
    ensures first { IfOk result (λ made. IsHeadOf made.text.items One made.options.capacity made.first.items) }
    ensures options { IfOk result (λ made. made.options ≡ options.now) }
{
    match load_prefix(rt, &mut io::empty(), options.file, MOST_READ) {
        Ok(text) => prepare_advised(rt.alloc(), options, text, advice),
        Err(error) => Err(Fault::of_input(options.file, &error)),
    }
}

// What a manager of the text of a domain file is made of. What is advised on a fault goes to the advice.
fn prepare_advised<'a>(
    alloc: Global,
    options: &LiveOptions<'a>,
    text: Vec<u8>,
    advice: &mut Advice,
) -> Result<Prepared<'a>, Fault<'a>>
    ensures domain { IfOk result (λ made. IsDomainOfText made.text.items (arc_value made.domain)) }
    ensures first { IfOk result (λ made. IsHeadOf made.text.items One made.options.capacity made.first.items) }
    ensures options { IfOk result (λ made. made.options ≡ options.now) }
{
    let prepared = prepare_text(alloc, options, &text);
    if let Err(fault) = &prepared {
        advice.of_domain(alloc, options.file, &text, fault);
    }
    prepared
}

/// What a manager of the text of a domain file is made of.
pub(crate) fn prepare_text<'a>(
    alloc: Global,
    options: &LiveOptions<'a>,
    text: &[u8],
) -> Result<Prepared<'a>, Fault<'a>>
    ensures domain { IfOk result (λ made. IsDomainOfText made.text.items (arc_value made.domain)) }
    ensures first { IfOk result (λ made. IsHeadOf made.text.items One made.options.capacity made.first.items) }
    ensures options { IfOk result (λ made. made.options ≡ options.now) }
    ensures text { IfOk result (λ made. made.text.items ≡ text.now) }
{
    let domain = match domain_of_bytes(alloc, options.file, text) {
        Ok(domain) => domain,
        Err(fault) => return Err(fault),
    };
    let first = match head_of_text(alloc, options, LogVersion::One, text) {
        Ok(first) => first,
        Err(fault) => return Err(fault),
    };
    match Vec::from_slice(alloc, text) {
        Ok(text) => Ok(Prepared {
            options: *options,
            text,
            domain,
            first,
        }),
        Err(_) => Err(Fault::Memory),
    }
}

/// The first line of a log of this version of a manager of this text. The error is the fault of the text, or out of
/// memory.
pub(crate) fn head_of_text<'a>(
    alloc: Global,
    options: &LiveOptions<'a>,
    version: LogVersion,
    text: &[u8],
) -> Result<Vec<u8>, Fault<'a>>
    ensures { IfOk result (λ line. IsHeadOf text.now version options.now.capacity line.items) }
{
    let mut canonical = Vec::new(alloc);
    match print_text(alloc, options.file, text, &mut canonical) {
        Ok(()) => {}
        Err(Fault::Output) => return Err(Fault::Memory),
        Err(fault) => return Err(fault),
    }
    match first_line_of_log(alloc, version, &canonical, options.capacity) {
        Ok(line) => Ok(line),
        Err(_) => Err(Fault::Memory),
    }
}
