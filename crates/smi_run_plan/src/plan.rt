//! Reading a script.
ghost use Rattle.std.specs.Prelude.{◌≡◌, ◌<◌, ◌≤◌, ◌∷◌, ℕ, Err, IfOk, MatchBool, MatchOption, None, OnOk};
ghost use Rattle.std.specs.Prelude.{[], length, map};
ghost use Rattle.smi_run_plan.specs.Says.{LineSays};
ghost use Rattle.smi_run_plan.specs.Plans.{HoldAnswers, HoldSessions, HoldsText, IsPlanOfText, IsFirstBad, PlanTakesLine};
ghost use Rattle.smi_run_plan.specs.Plans.{deeds_of, deeds_of_script, script_lines};
ghost use Rattle.smi_run_plan.specs.declared.plan.TheConstants.{LONGEST_SCRIPT};

use crate::answers::DeviceAnswers;
use crate::draft::Draft;
use crate::error::ScriptError;
use crate::lines::read_line;
use crate::room::Room;
use smi_run::{Line, Script};
use sml_domain::Domain;
use std::alloc::{AllocError, Global};

/// How many bytes a script may have.
pub const LONGEST_SCRIPT: usize = 16_777_216;

/// What a script plans: what each session does, and what the devices answer.
#[derive(Drop)]
pub struct Plan {
    scripts: Vec<Script>,
    answers: DeviceAnswers,
}

impl Plan {
    /// How many sessions there are: up to the highest that a line names, and one at least. Takes a constant time.
    pub fn sessions(&self) -> usize
        ensures { result ≡ length self.now.scripts.items }
    {
        self.scripts.len()
    }

    /// The scripts of the sessions in order, and the answers of the devices. Takes no memory.
    pub fn into_parts(self) -> (Vec<Script>, DeviceAnswers)
        ensures scripts { result.0 ≡ self.scripts }
        ensures answers { result.1 ≡ self.answers }
    {
        (self.scripts, self.answers)
    }
}

// The first line of a text, and what follows its line feed, if it has one.
fn first_line(text: &[u8]) -> (&[u8], Option<&[u8]>)
    ensures lines { MatchOption result.1 (script_lines text.now ≡ result.0.now ∷ [])
        (λ rest. script_lines text.now ≡ result.0.now ∷ script_lines rest.now) }
    ensures shorter { MatchOption result.1 (Unit {0}) (λ rest. length rest.now < length text.now) }
{
    match text.iter().position(|b| *b == b'\n') {
        Some(end) => {
            let (line, rest) = text.split_at(end);
            (line, Some(rest.split_at(1).1))
        }
        None => (text, None),
    }
}

// Reads a line into a draft. False if it is not a line of a script.
fn add_line(
    alloc: Global,
    domain: &Domain,
    draft: &mut Draft,
    line: &[u8],
) -> Result<bool, AllocError>
    requires { length draft.old.devices.items ≡ length domain.now.objects }
    ensures { IfOk result (λ good. MatchBool good
        (PlanTakesLine domain.now line.now draft.old.sessions.items draft.new.sessions.items draft.old.devices.items
        draft.new.devices.items)
        (LineSays domain.now line.now None)) }
{
    match read_line(alloc, domain, line)? {
        Some(said) => {
            draft.add(alloc, domain, said)?;
            Ok(true)
        }
        None => Ok(false),
    }
}

// Reads the lines of a text into an empty draft.
fn read_lines(
    alloc: Global,
    domain: &Domain,
    draft: &mut Draft,
    text: &[u8],
) -> Result<(), ScriptError>
    requires length { length text.now ≤ LONGEST_SCRIPT }
    requires sessions { HoldSessions [] draft.old.sessions.items }
    requires devices { HoldAnswers domain.now [] draft.old.devices.items }
    ensures read { OnOk result (HoldsText domain.now text.now draft.new.sessions.items draft.new.devices.items) }
    ensures bad { (n : ℕ) → result ≡ Err (ScriptError.BadLine n) → IsFirstBad domain.now text.now n }
    ensures short { result ≡ Err ScriptError.TooLong → ⊥ }
{
    let mut rest = text;
    let mut number = 1u64;
    'lines: loop {
        let (line, behind) = first_line(rest);
        if !add_line(alloc, domain, draft, line)? {
            return Err(ScriptError::BadLine(number));
        }
        let Some(behind) = behind else {
            return Ok(());
        };
        rest = behind;
        number += 1;
    }
}

// The scripts of what sessions do.
fn scripts_of(alloc: Global, sessions: Vec<Vec<Line>>) -> Result<Vec<Script>, AllocError>
    ensures { IfOk result (λ v. map deeds_of_script v.items ≡ map deeds_of sessions.items) }
{
    let mut scripts = Vec::new(alloc);
    for lines in sessions {
        scripts.push(Script::new(lines))?;
    }
    Ok(scripts)
}

// The plan of a draft.
fn plan_of(alloc: Global, draft: Draft) -> Result<Plan, AllocError>
    ensures scripts { IfOk result (λ p.
        map deeds_of_script p.scripts.items ≡ map deeds_of draft.sessions.items) }
    ensures devices { IfOk result (λ p. p.answers.devices ≡ draft.devices) }
{
    let Draft {
        sessions,
        devices,
        names: _,
        room: _,
    } = draft;
    let scripts = scripts_of(alloc, sessions)?;
    Ok(Plan {
        scripts,
        answers: DeviceAnswers { devices },
    })
}

/// Reads a script of a domain. (docs/FORMATS.md, "Scripts".)
///
/// The time grows with the length of the text, and in a line of a device with the count of objects too.
///
/// Memory is taken for one state for each pair of an object and an action that a line of a device names, and for what
/// the sessions do. On a machine of 64 bits each of their lines takes 48 bytes, and each different name in these 80 and
/// up to 90 for finding it again. Each argument takes 88, four arguments at least where there is one. A first look at
/// the text counts the lines of each session, so that the list of a session has its length from the start. So the
/// shortest lines, of nine bytes, take five times their own bytes, and lines as `request @1 RUN CONFIGURE` take twice
/// theirs. At most it is 32 times: by short lines with two names that no other line has, and one argument. Lines of
/// devices, blank lines and comments take nothing beside those pairs.
///
/// # Errors
///
/// `TooLong` past `LONGEST_SCRIPT` bytes, before any line is looked at; `BadLine` with the number of the first line
/// that is not a line of a script; `Memory` if memory is refused before such a line was found.
pub fn read_script(alloc: Global, domain: &Domain, text: &[u8]) -> Result<Plan, ScriptError>
    ensures plan { IfOk result (IsPlanOfText domain.now text.now) }
    ensures bad { (n : ℕ) → result ≡ Err (ScriptError.BadLine n) → IsFirstBad domain.now text.now n }
    ensures long { LONGEST_SCRIPT < length text.now → result ≡ Err ScriptError.TooLong }
    ensures short { result ≡ Err ScriptError.TooLong → LONGEST_SCRIPT < length text.now }
{
    if text.len() > LONGEST_SCRIPT {
        return Err(ScriptError::TooLong);
    }
    let mut draft = Draft::new(alloc, domain, Room::of(text))?;
    read_lines(alloc, domain, &mut draft, text)?;
    Ok(plan_of(alloc, draft)?)
}
