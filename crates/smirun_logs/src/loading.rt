//! Logs of managers.

use smirun_commands::{Advice, Fault, LONGEST_SCHEDULE, LoadedDomain, load_prefix};
use smirun_live::{Continued, continued_of_texts};
use std::fs::Files;
use std::io::Read;

/// Reads a log, and performs it: what stands after its last line feed is no line of it. What is advised on a log that is
/// refused goes to the advice. It may be the log of a manager that runs.
pub(crate) fn load_log<'a, R: Files + AllocGlobal, I: Read>(
    rt: &R,
    input: &mut I,
    domain: &LoadedDomain<'a>,
    path: &'a str,
    advice: &mut Advice,
) -> Result<Continued<'a>, Fault<'a>> {
    let log = match load_prefix(rt, input, path, LONGEST_SCHEDULE as u64 + 1) {
        Ok(log) if log.len() > LONGEST_SCHEDULE => return Err(Fault::TooLong(path)),
        Ok(log) => log,
        Err(error) => return Err(Fault::of_input(path, &error)),
    };
    let made = continued_of_texts(rt.alloc(), domain.file, path, &domain.text, &log);
    match &made {
        Err(Fault::Log(_, refusal)) => advice.of_refused_log(path, *refusal),
        Err(Fault::BadLine(_, number)) => advice.of_bad_log(path, &log, *number),
        _ => {}
    }
    made
}
