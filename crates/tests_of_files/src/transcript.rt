//! Schedules that are told step by step, with the lines that each step writes.

use std::alloc::{AllocError, Global};

/// A schedule, and its output.
#[derive(Drop)]
pub struct Transcript {
    pub schedule: String,
    pub output: String,
}

/// The lines of a told schedule, whose steps are at the margin, from one place to before another, with what they write.
pub fn part_of(
    alloc: Global,
    told: &str,
    first: usize,
    end: usize,
) -> Result<Transcript, AllocError> {
    let mut schedule = String::new(alloc);
    let mut output = String::new(alloc);
    let mut begun: usize = 0;
    for line in told.split_inclusive('\n') {
        let written = line.strip_prefix("    ");
        if written.is_none() {
            begun = begun.saturating_add(1);
        }
        if begun <= first || begun > end {
            continue;
        }
        match written {
            Some(written) => output.push_str(written)?,
            None => schedule.push_str(line)?,
        }
    }
    Ok(Transcript { schedule, output })
}

/// A whole told schedule.
pub fn whole_of(alloc: Global, told: &str) -> Result<Transcript, AllocError> {
    part_of(alloc, told, 0, usize::MAX)
}
