//! Explains a text that is refused, if that is asked for.

use crate::audit::LONGEST_JOURNAL;
use crate::fault::Fault;
use crate::log_advice::{explain_bad_log, explain_refused_log};
use crate::log_refusal::LogRefusal;
use crate::print_check::Difference;
use crate::requests::{explain_bad_lines, explain_requests};
use explain_files::{explain_check, explain_good, explain_read};
use explain_lines::{
    LineKind, SourceLine, explain_bad_entry, explain_bad_header, explain_bad_line,
};
use explain_runs::{tell_dead, tell_device_lines, tell_full, tell_length, tell_reasons};
use smi_journal::Entry;
use sml_domain::Domain;
use sml_text::{Sink, put};
use sml_writer::Out;
use std::alloc::Global;
use std::sync::Arc;

/// The explanation behind a fault line: where the fault is, what is there and what could be. It is no part of a
/// format, and what it says is not promised. If memory runs out, a prefix of it is told, or nothing.
#[derive(Drop)]
pub struct Advice {
    is_wanted: bool,
    text: Vec<u8>,
}

impl Advice {
    /// No advice yet. If it is not wanted, there will be no advice at all.
    pub fn new(alloc: Global, is_wanted: bool) -> Advice {
        Advice {
            is_wanted,
            text: Vec::new(alloc),
        }
    }

    /// Advises on the text of a domain file that has this fault. The cost is that of reading and checking the text.
    pub fn of_domain(&mut self, alloc: Global, file: &str, text: &[u8], fault: &Fault<'_>) {
        if !self.is_wanted {
            return;
        }
        let _ = match fault {
            Fault::Read(_, error) => {
                explain_read(alloc, file, text, error, &mut Out::new(&mut self.text))
            }
            Fault::Check(..) => explain_check(alloc, file, text, &mut Out::new(&mut self.text)),
            _ => Ok(()),
        };
    }

    /// Advises on the text of a domain file that has no fault: a word if it declares nothing. The cost is that of
    /// its first token.
    pub fn of_good_domain(&mut self, file: &str, text: &[u8]) {
        if self.is_wanted {
            explain_good(file, text, &mut Out::new(&mut self.text));
        }
    }

    /// Advises on how the text of a domain file differs from what would be printed of it. The cost is the length of
    /// the text up to the difference, and of the line in both texts.
    pub(crate) fn of_difference(&mut self, file: &str, difference: &Difference<'_>) {
        if self.is_wanted {
            difference.explain(file, &mut Out::new(&mut self.text));
        }
    }

    /// Advises on the text of a script of a domain that has this fault. The cost is the length of the text up to its
    /// bad line.
    pub fn of_script(&mut self, domain: &Domain, file: &str, text: &[u8], fault: &Fault<'_>) {
        if !self.is_wanted {
            return;
        }
        if let Fault::BadLine(_, number) = fault {
            let number = *number as usize;
            let line = SourceLine {
                file,
                number,
                text: line_of(text, number),
            };
            explain_bad_line(
                LineKind::Script,
                domain,
                &line,
                &mut Out::new(&mut self.text),
            );
        }
    }

    /// Advises on all lines that a script or a schedule cannot have: at most twenty, and then how many others there
    /// are. The cost is the length of the text, and memory is taken for what is said of one line.
    pub fn of_bad_lines(
        &mut self,
        alloc: Global,
        kind: LineKind,
        domain: &Domain,
        file: &str,
        text: &[u8],
    ) {
        if self.is_wanted {
            explain_bad_lines(
                alloc,
                kind,
                domain,
                file,
                text,
                &mut Out::new(&mut self.text),
            );
        }
    }

    /// Advises on the lines of a script or a schedule whose steps the domain refuses whenever they come: at most
    /// twenty, and then how many others there are. The cost is the length of the text, and memory is taken for
    /// requests.
    pub fn of_requests(&mut self, alloc: Global, domain: &Arc<Domain>, file: &str, text: &[u8]) {
        if self.is_wanted {
            let _ = explain_requests(alloc, domain, file, text, &mut Out::new(&mut self.text));
        }
    }

    /// Advises on the lines of a script for devices that can do nothing, or make their device fail: at most twenty, and
    /// then how many others there are. The cost is the length of the text, twice.
    pub fn of_devices(&mut self, alloc: Global, domain: &Domain, file: &str, text: &[u8]) {
        if self.is_wanted {
            let _ = tell_device_lines(alloc, domain, file, text, &mut Out::new(&mut self.text));
        }
    }

    /// Advises on the text of a journal of a domain that has this fault. The cost is the length of the text up to its
    /// bad line.
    pub fn of_journal(&mut self, domain: &Domain, file: &str, text: &[u8], fault: &Fault<'_>) {
        if !self.is_wanted {
            return;
        }
        match fault {
            Fault::BadHeader(_) => explain_bad_header(file, text, &mut Out::new(&mut self.text)),
            Fault::BadLine(_, number) => explain_bad_entry(
                domain,
                file,
                text,
                *number as usize,
                &mut Out::new(&mut self.text),
            ),
            _ => {}
        }
    }

    /// Advises on a run, by its journal: which devices failed, which requests were skipped, and which objects wait, and
    /// for whom. The cost is that of the entries, and if an object waits, that of judging them.
    pub fn of_run(&mut self, alloc: Global, domain: &Arc<Domain>, entries: &[Entry]) {
        if self.is_wanted {
            let _ = tell_reasons(alloc, domain, entries, &mut Out::new(&mut self.text));
        }
    }

    /// Advises on the journal that was written to a path, if it is longer than other commands read. The cost is the
    /// length of the journal.
    pub fn of_kept_journal(
        &mut self,
        alloc: Global,
        domain: &Domain,
        path: &str,
        entries: &[Entry],
    ) {
        if self.is_wanted {
            let most = LONGEST_JOURNAL as u64;
            let _ = tell_length(
                alloc,
                domain,
                path,
                entries,
                most,
                &mut Out::new(&mut self.text),
            );
        }
    }

    /// Advises on how many requests of a session, counted from 1, found the mailbox of their object full, which has
    /// this capacity; nothing if none did.
    pub fn of_full(&mut self, session: usize, count: u64, capacity: usize) {
        if self.is_wanted {
            tell_full(&mut Out::new(&mut self.text), session, count, capacity);
        }
    }

    /// Advises on how many requests and kills of a session, counted from 1, came to an object that was killed; nothing
    /// if none did.
    pub fn of_dead(&mut self, session: usize, count: u64) {
        if self.is_wanted {
            tell_dead(&mut Out::new(&mut self.text), session, count);
        }
    }

    /// Advises on the log of a live manager that is refused: the way out.
    pub fn of_refused_log(&mut self, path: &str, refusal: LogRefusal) {
        if self.is_wanted {
            explain_refused_log(&mut Out::new(&mut self.text), path, refusal);
        }
    }

    /// Advises on a log, whose line of this number no manager would have written there: the line, and the way out. The
    /// cost is the length of the text up to that line.
    pub fn of_bad_log(&mut self, path: &str, text: &[u8], number: u64) {
        if self.is_wanted {
            let line = line_of(text, number as usize);
            explain_bad_log(&mut Out::new(&mut self.text), path, line, number);
        }
    }

    /// Writes the advice. A fault of the writer changes nothing.
    pub fn tell<E: Sink>(&self, errors: &mut E) {
        let _ = put(errors, &self.text);
    }
}

// The line with a number, counted from 1, without its line feed. Empty if there is no such line.
fn line_of(text: &[u8], number: usize) -> &[u8] {
    match text.split(|b| *b == b'\n').nth(number.saturating_sub(1)) {
        Some(line) => line,
        None => &[],
    }
}
