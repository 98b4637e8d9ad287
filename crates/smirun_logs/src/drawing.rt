//! The picture of a log.
ghost use Rattle.std.specs.Prelude.{◌≤◌, IfOk};

use smirun_commands::{DONE, Fault, GraphOptions, MANY_ENTRIES, draw_entries};
use smirun_live::Continued;
use std::alloc::Global;
use std::io::Write;

/// Draws what a log of this path has done, to the end. Behind a picture with many entries `errors` is told which command
/// shows it better.
pub(crate) fn draw_log<'a, W: Write, E: Write>(
    alloc: Global,
    run: &Continued<'a>,
    options: &GraphOptions<'a>,
    path: &'a str,
    output: &mut W,
    errors: &mut E,
) -> Result<u8, Fault<'a>>
    ensures { IfOk result (λ status. status ≤ 4) }
{
    let entries = run.manager.core().journal();
    match draw_entries(alloc, &run.domain, options, path, entries, output) {
        Ok(()) => {
            note_page(options.file, path, entries.len(), errors);
            Ok(DONE)
        }
        Err(fault) => Err(fault),
    }
}

// Notes that a page shows a log with this many entries better, where it does.
fn note_page<E: Write>(file: &str, path: &str, entries: usize, errors: &mut E) {
    if entries > MANY_ENTRIES {
        let _ = writeln!(
            errors,
            "{path}: {entries} entries; `smirun page {file} --log {path}` shows them better"
        );
    }
}
