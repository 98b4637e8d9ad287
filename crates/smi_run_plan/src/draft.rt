//! What was read of a script so far.
ghost use Rattle.std.specs.Prelude.{◌≡◌, ◌==◌, ◌&&◌, ◌<◌, ◌≤◌, ◌+◌, ◌++◌, ◌∷◌, ℕ, List, [], IfOk, OnOk, None, Some};
ghost use Rattle.std.specs.Prelude.{length, max, suc, if◌then◌else◌};
ghost use Rattle.smi_run_plan.specs.declared.lines.Said.{Said as Told};
ghost use Rattle.smi_run_plan.specs.Says.{IsSaidOf};
ghost use Rattle.smi_run_plan.specs.Plans.{HoldSessions, HoldAnswers, answer_at, deed_of, deeds_at};

use crate::device::ScriptDevice;
use crate::lines::Said;
use crate::names::Names;
use crate::room::Room;
use smi_journal_entries::SessionId;
use smi_run::Line;
use sml_domain::{ActionId, Domain, ObjId, StateId};
use std::alloc::{AllocError, Global};

// What was read of a script so far: what each session does, and a device for each object of the domain.
#[derive(Drop)]
pub(crate) struct Draft {
    pub(crate) sessions: Vec<Vec<Line>>,
    pub(crate) devices: Vec<ScriptDevice>,
    pub(crate) names: Names,
    pub(crate) room: Room,
}

// There are this many sessions from now on.
fn reach(
    alloc: Global,
    room: &Room,
    sessions: &mut Vec<Vec<Line>>,
    count: usize,
) -> Result<(), AllocError>
    ensures count { OnOk result (length sessions.new.items ≡ max (length sessions.old.items) count) }
    ensures same { OnOk result ((i : ℕ) → deeds_at sessions.new.items i ≡ deeds_at sessions.old.items i) }
{
    for i in sessions.len()..count {
        sessions.push(Vec::with_capacity(alloc, room.at(i))?)?;
    }
    Ok(())
}

// A session does one thing more.
fn add_part(
    alloc: Global,
    room: &Room,
    sessions: &mut Vec<Vec<Line>>,
    session: SessionId,
    line: Line,
) -> Result<(), AllocError>
    ensures count { OnOk result (length sessions.new.items ≡ max (length sessions.old.items) session) }
    ensures parts { OnOk result ((i : ℕ) → deeds_at sessions.new.items i
        ≡ deeds_at sessions.old.items i ++ (if session == suc i then deed_of line ∷ [] else [])) }
{
    let count = usize::from(session.get());
    reach(alloc, room, sessions, count)?;
    sessions[count - 1].push(line)?;
    Ok(())
}

// The device of an object answers an action by a state from now on.
fn add_answer(
    devices: &mut Vec<ScriptDevice>,
    object: ObjId,
    action: ActionId,
    state: StateId,
) -> Result<(), AllocError>
    requires { object < length devices.old.items }
    ensures count { OnOk result (length devices.new.items ≡ length devices.old.items) }
    ensures answers { OnOk result ((o a : ℕ) → o < length devices.old.items → answer_at devices.new.items o a
        ≡ (if object == o && a == action then Some state else answer_at devices.old.items o a)) }
{
    devices[object.get()].set(action, state)
}

// A device for each object, that answers nothing.
fn new_devices(alloc: Global, domain: &Domain) -> Result<Vec<ScriptDevice>, AllocError>
    ensures { IfOk result (λ v. HoldAnswers domain.now [] v.items) }
{
    let mut devices = Vec::new(alloc);
    for _i in 0..domain.objects() {
        devices.push(ScriptDevice::new(alloc))?;
    }
    Ok(devices)
}

// One session, that does nothing.
fn first_session(alloc: Global, room: &Room) -> Result<Vec<Vec<Line>>, AllocError>
    ensures { IfOk result (λ v. HoldSessions [] v.items) }
{
    let mut sessions = Vec::new(alloc);
    sessions.push(Vec::with_capacity(alloc, room.at(0))?)?;
    Ok(sessions)
}

impl Draft {
    // The draft of no line, with room for what sessions will do.
    pub(crate) fn new(alloc: Global, domain: &Domain, room: Room) -> Result<Draft, AllocError>
        ensures sessions { IfOk result (λ x. HoldSessions [] x.sessions.items) }
        ensures devices { IfOk result (λ x. HoldAnswers domain.now [] x.devices.items) }
    {
        let sessions = first_session(alloc, &room)?;
        let devices = new_devices(alloc, domain)?;
        Ok(Draft {
            sessions,
            devices,
            names: Names::new(alloc),
            room,
        })
    }

    // Takes what one line more says.
    pub(crate) fn add(
        &mut self,
        alloc: Global,
        domain: &Domain,
        said: Said,
    ) -> Result<(), AllocError>
        requires fits { IsSaidOf domain.now said }
        requires devices { length self.old.devices.items ≡ length domain.now.objects }
        ensures sessions { OnOk result ((saids : List Told) → HoldSessions saids self.old.sessions.items →
            HoldSessions (saids ++ said ∷ []) self.new.sessions.items) }
        ensures devices { OnOk result ((saids : List Told) → HoldAnswers domain.now saids self.old.devices.items →
            HoldAnswers domain.now (saids ++ said ∷ []) self.new.devices.items) }
    {
        match said {
            Said::Nothing => Ok(()),
            Said::Asks { session, deed } => {
                let line = self.names.line(alloc, deed)?;
                add_part(alloc, &self.room, &mut self.sessions, session, line)
            }
            Said::Answers {
                object,
                action,
                state,
            } => add_answer(&mut self.devices, object, action, state),
        }
    }
}
