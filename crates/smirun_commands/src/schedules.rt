//! Schedules that are looked at and not run.

use crate::fault::Fault;
use smi_core::{LONGEST_SCHEDULE, LineError, read_step};
use std::alloc::Global;

/// Looks at each line of a schedule, and runs none. The error is `TooLong`, by its path, `BadLine` with the number of
/// the first line that is no step, or `Memory`. The cost is the length of the text.
pub fn look_at_schedule<'a>(heap: Global, schedule: &'a str, text: &[u8]) -> Result<(), Fault<'a>> {
    if text.len() > LONGEST_SCHEDULE {
        return Err(Fault::TooLong(schedule));
    }
    for (place, line) in text.split(|b| *b == b'\n').enumerate() {
        match read_step(heap, line) {
            Ok(_) => {}
            Err(LineError::BadLine) => {
                return Err(Fault::BadLine(schedule, (place as u64).saturating_add(1)));
            }
            Err(LineError::Memory) => return Err(Fault::Memory),
        }
    }
    Ok(())
}
