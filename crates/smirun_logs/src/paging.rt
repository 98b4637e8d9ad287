//! The page of a log.
ghost use Rattle.std.specs.Prelude.{◌≤◌, IfOk};

use crate::replaying::text_of;
use smirun_commands::{DONE, Fault, PageOptions, page_of_bytes};
use smirun_live::Continued;
use std::alloc::Global;
use std::io::Write;

/// Writes the page of what a log has done, which has the text of its journal.
pub(crate) fn tell_page<'a, W: Write>(
    alloc: Global,
    run: &Continued<'a>,
    options: &PageOptions<'a>,
    output: &mut W,
) -> Result<u8, Fault<'a>>
    ensures { IfOk result (λ status. status ≤ 4) }
{
    let bytes = match text_of(alloc, &run.domain, run.manager.core().journal()) {
        Ok(bytes) => bytes,
        Err(fault) => return Err(fault),
    };
    match page_of_bytes(alloc, &run.domain, &run.declared, options, &bytes, output) {
        Ok(()) => Ok(DONE),
        Err(fault) => Err(fault),
    }
}
