//! What is noted and told about the lines of a schedule.

use crate::step::StepOptions;
use explain_lines::{History, LineKind, SourceLine, explain_bad_line, explain_refused};
use smi_core::{Answer, Core, Lookout, Step, StepError, Taken};
use smi_journal::Entry;
use sml_domain::Domain;
use sml_text::{Sink, put};
use sml_writer::Out;
use std::alloc::{AllocError, Global};
use std::sync::Arc;

/// A lookout that keeps what the lines of a schedule did.
pub(crate) trait Recording: Lookout {
    /// The domain.
    fn domain(&self) -> &Arc<Domain>;

    /// What the lines did.
    fn history(&self) -> &History;
}

/// What a schedule is run for, whether a line of it was refused, and what its lines did, if that is asked for.
#[derive(Drop)]
pub(crate) struct Notes<'n, 'a, E> {
    pub(crate) options: &'n StepOptions<'a>,
    domain: &'n Arc<Domain>,
    pub(crate) is_refused: bool,
    /// What the lines did. It stays empty if it is asked neither why a line was refused nor how all stands.
    history: History,
    errors: &'n mut E,
    // The text about one line, so that it is written in one piece.
    text: Vec<u8>,
}

impl<'n, 'a, E> Notes<'n, 'a, E> {
    /// Nothing is noted yet. Why a line was refused goes to `errors`.
    pub(crate) fn new(
        alloc: Global,
        options: &'n StepOptions<'a>,
        domain: &'n Arc<Domain>,
        errors: &'n mut E,
    ) -> Result<Self, AllocError> {
        Ok(Notes {
            options,
            domain,
            is_refused: false,
            history: History::new(alloc, domain)?,
            errors,
            text: Vec::new(alloc),
        })
    }
}

impl<E: Sink> Notes<'_, '_, E> {
    // Writes out the text about a line, or a prefix of it if memory ran out.
    fn write_told(&mut self) {
        let _ = put(&mut *self.errors, self.text.as_slice());
        self.text.clear();
    }
}

// A line as it is told.
fn told<'t>(file: &'t str, taken: Taken<'t>) -> SourceLine<'t> {
    SourceLine {
        file,
        number: taken.number,
        text: taken.text,
    }
}

impl<E: Sink> Lookout for Notes<'_, '_, E> {
    fn bad_line(&mut self, core: &Core, taken: Taken<'_>) {
        self.is_refused = true;
        if self.options.explain {
            explain_bad_line(
                LineKind::Schedule,
                core.domain(),
                &told(self.options.schedule, taken),
                &mut Out::new(&mut self.text),
            );
            self.write_told();
        }
    }

    fn answered(
        &mut self,
        core: &Core,
        taken: Taken<'_>,
        step: &Step,
        answer: &Result<Answer, StepError>,
        added: &[Entry],
    ) {
        if self.options.explain || self.options.states {
            self.history
                .note(taken.number, core.domain(), step, answer, added);
        }
        let Err(error) = answer else {
            return;
        };
        self.is_refused = true;
        if self.options.explain {
            explain_refused(
                &self.history,
                core.domain(),
                &told(self.options.schedule, taken),
                step,
                *error,
                &mut Out::new(&mut self.text),
            );
            self.write_told();
        }
    }
}

impl<E: Sink> Recording for Notes<'_, '_, E> {
    fn domain(&self) -> &Arc<Domain> {
        self.domain
    }

    fn history(&self) -> &History {
        &self.history
    }
}
