//! What is told once to those who look after a manager.

use smi_core::LONGEST_SCHEDULE;
use sml_writer::Out;

/// What was told once so far. (docs/FORMATS.md, "A log that fills".)
#[derive(Clone, Copy, Default)]
pub(crate) struct Warnings {
    nine_tenths_of_log: bool,
    nine_tenths_of_starts: bool,
    limit: bool,
    remarks: bool,
}

// Whether something was not told before; from here on it counts as told.
fn is_first(told: &mut bool) -> bool {
    let first = !*told;
    *told = true;
    first
}

// Whether a count has come to nine tenths of the most that it may be.
fn is_nine_tenths(count: usize, most: usize) -> bool {
    count >= most.saturating_sub(most / 10)
}

// Adds a warning about what has this path.
fn add(path: &str, words: &[u8], remark: &mut Vec<u8>) {
    let mut out = Out::new(remark);
    out.say(path.as_bytes());
    out.say(words);
}

impl Warnings {
    /// Adds, once each, that nine tenths of the actions were started that may be, or as many as may be.
    pub(crate) fn add_starts(
        &mut self,
        file: &str,
        starts: usize,
        most: usize,
        remark: &mut Vec<u8>,
    ) {
        if starts >= most {
            self.nine_tenths_of_starts = true;
            if is_first(&mut self.limit) {
                add(file, b" limit\n", remark);
            }
        } else if is_nine_tenths(starts, most) && is_first(&mut self.nine_tenths_of_starts) {
            add(file, b" nine tenths of the starts\n", remark);
        }
    }

    /// Adds, once, that nine tenths of the log are full, which may still take `room` bytes.
    pub(crate) fn add_room(&mut self, log: &str, room: usize, remark: &mut Vec<u8>) {
        let used = LONGEST_SCHEDULE.saturating_sub(room);
        if is_nine_tenths(used, LONGEST_SCHEDULE) && is_first(&mut self.nine_tenths_of_log) {
            add(log, b" nine tenths full\n", remark);
        }
    }

    /// Adds, once, that remarks are not kept.
    pub(crate) fn add_remarks(&mut self, remark: &mut Vec<u8>) {
        if is_first(&mut self.remarks) {
            Out::new(remark).say(b"remarks are not kept\n");
        }
    }
}
