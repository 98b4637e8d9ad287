//! The domains of files.
ghost use Rattle.std.specs.Prelude.{IfErr, IfOk};
ghost use Rattle.std.specs.Arc.{arc_value};
ghost use Rattle.sml_load.specs.Texts.{IsDomainOfText};
ghost use Rattle.smirun_commands.specs.Refused.{IsDomainFault};

use crate::advice::Advice;
use crate::fault::Fault;
use crate::text::load_text;
use sml_domain::Domain;
use sml_load::TextFault;
use std::alloc::Global;
use std::fs::Files;
use std::io::Read;
use std::sync::Arc;

/// The domain of a file, which is read and checked. What is advised on a fault of its text goes to the advice.
pub fn load_domain<'a, R: Files + AllocGlobal, I: Read>(
    rt: &R,
    input: &mut I,
    file: &'a str,
    advice: &mut Advice,
) -> Result<Arc<Domain>, Fault<'a>> {
    match load_text(rt, input, file) {
        Ok(text) => advised_domain(rt.alloc(), file, text.as_slice(), advice),
        Err(error) => Err(Fault::of_input(file, &error)),
    }
}

/// The domain of a file of this path, and its text.
#[derive(Drop)]
pub struct LoadedDomain<'a> {
    pub file: &'a str,
    pub domain: Arc<Domain>,
    pub text: Vec<u8>,
}

/// The domain of a file as of `load_domain`, with its text.
pub fn load_with_text<'a, R: Files + AllocGlobal, I: Read>(
    rt: &R,
    input: &mut I,
    file: &'a str,
    advice: &mut Advice,
) -> Result<LoadedDomain<'a>, Fault<'a>> {
    let text = match load_text(rt, input, file) {
        Ok(text) => text,
        Err(error) => return Err(Fault::of_input(file, &error)),
    };
    match advised_domain(rt.alloc(), file, text.as_slice(), advice) {
        Ok(domain) => Ok(LoadedDomain { file, domain, text }),
        Err(fault) => Err(fault),
    }
}

// The domain of the text of a file. What is advised on a fault goes to the advice.
fn advised_domain<'a>(
    heap: Global,
    file: &'a str,
    text: &[u8],
    advice: &mut Advice,
) -> Result<Arc<Domain>, Fault<'a>> {
    let domain = domain_of_bytes(heap, file, text);
    if let Err(fault) = &domain {
        advice.of_domain(heap, file, text, fault);
    }
    domain
}

/// The domain of the text of a file, which is read and checked. It is shared, as cores and judges keep it.
///
/// The cost is that of reading and of checking. The error is the fault of the file, by its path, or `Memory`.
pub fn domain_of_bytes<'a>(
    heap: Global,
    file: &'a str,
    text: &[u8],
) -> Result<Arc<Domain>, Fault<'a>>
    ensures domain { IfOk result (λ shared. IsDomainOfText text.now (arc_value shared)) }
    ensures err { IfErr result (IsDomainFault file.now text.now) }
{
    match sml_load::domain_of(heap, text) {
        Ok(domain) => Ok(domain),
        Err(TextFault::Read(error)) => Err(Fault::of_text(file, error)),
        Err(TextFault::Check(error)) => Err(Fault::of_file(file, error)),
        Err(TextFault::Memory) => Err(Fault::Memory),
    }
}
