//! Those who hear of the lines of a schedule.

use crate::stepper::Core;
use smi_journal_entries::Entry;
use smi_world::{Answer, Step, StepError};

/// A line of a schedule that was taken.
#[derive(Clone, Copy)]
pub struct Taken<'a> {
    /// Its number, counted from 1.
    pub number: usize,
    /// Its bytes, without the line feed. Of a line that is too long, the first `LONGEST_LINE` bytes and one more.
    pub text: &'a [u8],
}

/// One who hears of each line that asks something, once it was made and what it writes was written. What is done here
/// does not change what the schedule does and writes.
pub trait Lookout {
    /// A line was refused that is not a step.
    fn bad_line(&mut self, core: &Core, taken: Taken<'_>);

    /// A step was answered, and added these entries to the journal. A refused one changed nothing of the core.
    fn answered(
        &mut self,
        core: &Core,
        taken: Taken<'_>,
        step: &Step,
        answer: &Result<Answer, StepError>,
        added: &[Entry],
    );
}

/// One who looks away.
#[derive(Drop)]
pub struct LookAway;

impl Lookout for LookAway {
    fn bad_line(&mut self, _core: &Core, _taken: Taken<'_>) {}

    fn answered(
        &mut self,
        _core: &Core,
        _taken: Taken<'_>,
        _step: &Step,
        _answer: &Result<Answer, StepError>,
        _added: &[Entry],
    ) {}
}
