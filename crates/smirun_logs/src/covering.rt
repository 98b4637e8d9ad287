//! What logs have exercised.
ghost use Rattle.std.specs.Prelude.{◌≤◌, IfOk};

use crate::loading::load_log;
use crate::replaying::{Looker, past_of_entries, text_of};
use show_cover::Coverage;
use smi_audit::Past;
use smi_journal::Entry;
use smirun_commands::{Advice, CoverOptions, Fault, LoadedDomain, tell_coverage, tell_uncounted};
use smirun_live::Continued;
use std::alloc::Global;
use std::fs::Files;
use std::io::{Read, Write};

impl Looker for Coverage {
    fn sees(&mut self, past: &Past, entry: &Entry) {
        self.count(past, entry);
    }
}

/// Tells what logs have exercised of a domain, and returns the exit status, as `run_cover` does of journals. Each log is
/// read, performed and counted before the next is opened.
pub(crate) fn tell_covered<'a, R: Files + AllocGlobal, I: Read, W: Write, E: Write>(
    rt: &R,
    file: &LoadedDomain<'a>,
    options: &CoverOptions<'a>,
    input: &mut I,
    output: &mut W,
    errors: &mut E,
    advice: &mut Advice,
) -> Result<u8, Fault<'a>>
    ensures { IfOk result (λ status. status ≤ 4) }
{
    let Ok(mut coverage) = Coverage::new(rt.alloc(), &file.domain) else {
        return Err(Fault::Memory);
    };
    for path in options.journals.as_slice() {
        let run = match load_log(rt, input, file, path, advice) {
            Ok(run) => run,
            Err(fault) => return Err(fault),
        };
        if !is_counted(rt.alloc(), &run, &mut coverage) {
            return tell_illegal(rt.alloc(), file, &run, options, path, output, errors);
        }
    }
    tell_coverage(
        rt.alloc(),
        &file.domain,
        &file.text,
        options.strict,
        &coverage,
        output,
    )
}

// Counts what a log has done. Whether it could be counted: if it is legal, and there is memory.
fn is_counted(alloc: Global, run: &Continued<'_>, coverage: &mut Coverage) -> bool {
    let entries = run.manager.core().journal();
    past_of_entries(alloc, &run.domain, entries, coverage).is_some()
}

// Writes what the judge says of a log that was not counted.
fn tell_illegal<'a, W: Write, E: Write>(
    alloc: Global,
    file: &LoadedDomain<'a>,
    run: &Continued<'a>,
    options: &CoverOptions<'a>,
    path: &'a str,
    output: &mut W,
    errors: &mut E,
) -> Result<u8, Fault<'a>>
    ensures { IfOk result (λ status. status ≤ 4) }
{
    match text_of(alloc, &run.domain, run.manager.core().journal()) {
        Ok(bytes) => tell_uncounted(
            alloc,
            &run.domain,
            &file.text,
            options,
            path,
            &bytes,
            output,
            errors,
        ),
        Err(fault) => Err(fault),
    }
}
