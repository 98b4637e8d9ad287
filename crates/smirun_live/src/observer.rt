//! What is noted about a manager's lines, and told beside its output.

use crate::outside::explain_outside;
use crate::standing::tell_accounts;
use crate::warnings::Warnings;
use explain_lines::{History, LineKind, SourceLine, explain_bad_line, explain_refused};
use show_states::tell_standing;
use smi_carried::CarriedCounts;
use smi_core::{Answer, Core, Lookout, Step, StepError, Taken};
use smi_journal::Entry;
use smi_live::{Observer, Unkept};
use smi_live_accounts::Accounts;
use smi_live_carried::OverLogs;
use sml_domain::{Domain, ObjId};
use sml_writer::Out;
use std::alloc::{AllocError, Global};
use std::sync::Arc;

/// What the lines of a manager did so far, and what is to be told about them beside the output: why lines were refused,
/// if that is asked for; and each once, that the log or the starts are nine tenths full, that as many actions were
/// started as may be, and that remarks are not kept.
#[derive(Drop)]
pub struct LiveNotes<'a> {
    alloc: Global,
    // The domain as its file declares it.
    domain: Arc<Domain>,
    // What the logs before counted of each object; nothing where there are none.
    before: Vec<CarriedCounts>,
    // The path of the domain, and that of the log.
    file: &'a str,
    log: &'a str,
    history: History,
    // How many actions are started at most.
    max_starts: usize,
    warnings: Warnings,
    // Whether it is explained why a line was refused, from when lines are made as they come, and what is still to be
    // told about that.
    wants_why: bool,
    explain: bool,
    why: Vec<u8>,
    // Whether a remark came that is not kept.
    has_lost_remark: bool,
}

impl<'a> LiveNotes<'a> {
    /// Nothing was done yet, in this log or in one before. The domain, as declared, has the path `file`, and lines are
    /// told as those of `log`. The error is out of memory.
    pub fn new(
        alloc: Global,
        domain: Arc<Domain>,
        file: &'a str,
        log: &'a str,
        max_starts: usize,
        wants_why: bool,
    ) -> Result<LiveNotes<'a>, AllocError> {
        let history = History::new(alloc, &domain)?;
        Ok(LiveNotes {
            alloc,
            domain,
            before: Vec::new(alloc),
            file,
            log,
            history,
            max_starts,
            warnings: Warnings::default(),
            wants_why,
            explain: false,
            why: Vec::new(alloc),
            has_lost_remark: false,
        })
    }

    /// The same, after logs with these counts of the objects, in order.
    pub(crate) fn after_logs(mut self, before: Vec<CarriedCounts>) -> LiveNotes<'a> {
        self.before = before;
        self
    }

    /// What the logs before counted of each object, in order; nothing where there are none.
    pub fn before(&self) -> &[CarriedCounts] {
        &self.before
    }

    /// Whether an action is open at an object.
    pub(crate) fn has_open(&self, o: ObjId) -> bool {
        self.history.opened(o).is_some()
    }

    /// Writes how all stands; its last line is `stands E`. The error is out of memory; then less is written, or
    /// nothing.
    pub(crate) fn tell_all(
        &self,
        core: &Core,
        accounts: &Accounts,
        text: &mut Vec<u8>,
    ) -> Result<(), AllocError> {
        let mut out = Out::new(text);
        tell_standing(self.alloc, &self.domain, core, &self.history, &mut out)?;
        tell_accounts(&mut out, core, &OverLogs::new(accounts, self.before()));
        if out.failed { Err(AllocError) } else { Ok(()) }
    }
}

// A line as it is told.
fn told<'t>(log: &'t str, taken: Taken<'t>) -> SourceLine<'t> {
    SourceLine {
        file: log,
        number: taken.number,
        text: taken.text,
    }
}

impl Lookout for LiveNotes<'_> {
    fn bad_line(&mut self, core: &Core, taken: Taken<'_>) {
        if !self.explain {
            return;
        }
        let line = told(self.log, taken);
        if explain_outside(&line, &mut self.why) {
            return;
        }
        let before = self.why.len();
        explain_bad_line(
            LineKind::Schedule,
            core.domain(),
            &line,
            &mut Out::new(&mut self.why),
        );
        if self.why.len() == before {
            explain_own_line(&line, &mut self.why);
        }
    }

    fn answered(
        &mut self,
        core: &Core,
        taken: Taken<'_>,
        step: &Step,
        answer: &Result<Answer, StepError>,
        added: &[Entry],
    ) {
        self.history
            .note(taken.number, core.domain(), step, answer, added);
        let Err(error) = answer else {
            return;
        };
        if self.explain {
            let line = told(self.log, taken);
            explain_refused(
                &self.history,
                core.domain(),
                &line,
                step,
                *error,
                &mut Out::new(&mut self.why),
            );
        }
    }
}

// Writes why a line is refused that is one of the manager's own steps.
fn explain_own_line(line: &SourceLine<'_>, why: &mut Vec<u8>) {
    let mut out = Out::new(why);
    out.say(line.file.as_bytes());
    out.say(b":");
    out.number(line.number as u64);
    out.say(b": the manager makes every `start` and every `go` by itself\n");
}

// Writes why a line is refused that is not kept.
fn explain_unkept(line: &SourceLine<'_>, unkept: Unkept, why: &mut Vec<u8>) {
    let mut out = Out::new(why);
    out.say(line.file.as_bytes());
    out.say(b":");
    out.number(line.number as u64);
    out.say(match unkept {
        Unkept::Starts =>
            b": as many actions were started as may be, so a request could never start\n",
        Unkept::Room | Unkept::Remark => {
            b": what is left of the log is for answers, faults and kills, and for the manager's own steps\n"
        }
    });
}

impl Observer for LiveNotes<'_> {
    fn begins(&mut self) {
        self.explain = self.wants_why;
    }

    fn unkept(&mut self, taken: Taken<'_>, why: Unkept) {
        if why == Unkept::Remark {
            self.has_lost_remark = true;
        } else if self.explain {
            explain_unkept(&told(self.log, taken), why, &mut self.why);
        }
    }

    fn remark(
        &mut self,
        core: &Core,
        accounts: &Accounts,
        room: Option<usize>,
        is_asked: bool,
        remark: &mut Vec<u8>,
    ) {
        Out::new(&mut *remark).say(self.why.as_slice());
        self.why.clear();
        if let Some(room) = room {
            self.warnings.add_room(self.log, room, remark);
        }
        let starts = accounts.starts();
        self.warnings
            .add_starts(self.file, starts, self.max_starts, remark);
        if self.has_lost_remark {
            self.warnings.add_remarks(remark);
        }
        if is_asked {
            let _ = self.tell_all(core, accounts, remark);
        }
    }
}
