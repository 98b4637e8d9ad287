//! Which lines are not kept: where the log fills, or where no start is left.
ghost use Rattle.std.specs.Prelude.{◌≡◌, ◌⊎◌, Err, IfNone, IfSome, Ok, Some, false, true};
ghost use Rattle.smi_lines.specs.declared.line.LineError.TheVariants as fault;
ghost use Rattle.smi_live.specs.Limiting.{HasNoStartLeft, HasRoomFor, HasStartsLeft, IsKept, IsUnkept, LacksRoomFor};
ghost use Rattle.smi_live.specs.Managing.{StandsFor};

use crate::keeper::Keeper;
use smi_core::{LineError, Step};

/// The bytes at the end of a log that are left for answers, faults, kills and the manager's own steps.
/// (docs/FORMATS.md, "A log that fills".)
pub const BYTES_LEFT: usize = 65_536;

/// Why a line is not kept.
#[derive(Clone, Copy, Debug, PartialEq, Eq)]
pub enum Unkept {
    /// It is a remark, and after it fewer than [`BYTES_LEFT`] bytes of the log would be left.
    Remark,
    /// After it fewer than [`BYTES_LEFT`] bytes of the log would be left.
    Room,
    /// It is a request, and as many actions were started as may be.
    Starts,
}

/// Whether a log has room for a line besides the bytes that are left for others.
pub(crate) fn has_room(room: Option<usize>, line: &[u8]) -> bool
    ensures yes { result ≡ true → HasRoomFor room line.now }
    ensures no { result ≡ false → LacksRoomFor room line.now }
{
    match room {
        Some(room) => room.saturating_sub(line.len()) > BYTES_LEFT,
        None => true,
    }
}

/// Why the line of a request is not kept, if it is not.
pub(crate) fn limit_of_request(room: Option<usize>, keeper: &Keeper, line: &[u8]) -> Option<Unkept>
    ensures none { IfNone result (HasRoomFor room line.now × HasStartsLeft keeper.now.core) }
    ensures some { IfSome result (λ _. LacksRoomFor room line.now ⊎ HasNoStartLeft keeper.now.core) }
{
    if !keeper.has_starts() {
        return Some(Unkept::Starts);
    }
    if has_room(room, line) {
        None
    } else {
        Some(Unkept::Room)
    }
}

// Why a line is not kept that asks for no start, if it is not.
fn limit_of_other(room: Option<usize>, line: &[u8], why: Unkept) -> Option<Unkept>
    ensures none { IfNone result (HasRoomFor room line.now) }
    ensures some { IfSome result (λ _. LacksRoomFor room line.now) }
{
    if has_room(room, line) {
        None
    } else {
        Some(why)
    }
}

// Why a line is not kept that asks for a step, if it is not.
fn limit_of_step(room: Option<usize>, keeper: &Keeper, step: &Step, line: &[u8]) -> Option<Unkept>
    ensures none { IfNone result (IsKept room keeper.now.core (Ok (Some step.now)) line.now) }
    ensures some { IfSome result (λ _. IsUnkept room keeper.now.core (Ok (Some step.now)) line.now) }
{
    match step {
        Step::Request { .. } => limit_of_request(room, keeper, line),
        Step::Start(_) | Step::Go(_) => limit_of_other(room, line, Unkept::Room),
        Step::Answer { .. } | Step::Fault(_) | Step::Kill { .. } => None,
    }
}

/// Why a line that was read so, and would be kept as this, is not kept, if it is not.
pub(crate) fn limit_of(
    room: Option<usize>,
    keeper: &Keeper,
    read: &Result<Option<Step>, LineError>,
    line: &[u8],
) -> Option<Unkept>
    requires { read.now ≡ Err fault.Memory → ⊥ }
    ensures none { IfNone result (IsKept room keeper.now.core read.now line.now) }
    ensures some { IfSome result (λ _. IsUnkept room keeper.now.core read.now line.now) }
{
    match read {
        Ok(Some(step)) => limit_of_step(room, keeper, step, line),
        Ok(None) => limit_of_other(room, line, Unkept::Remark),
        Err(LineError::BadLine) => limit_of_other(room, line, Unkept::Room),
        Err(LineError::Memory) => None,
    }
}

// The line that is kept of one that asks for a step: not a step that the manager makes by itself.
fn line_of_step<'a>(step: &Step, asked: &'a [u8]) -> &'a [u8]
    ensures { StandsFor (Ok (Some step.now)) asked.now result.now }
{
    match step {
        Step::Start(_) | Step::Go(_) => b"refused BadLine",
        Step::Request { .. } | Step::Answer { .. } | Step::Fault(_) | Step::Kill { .. } => asked,
    }
}

/// The line that is kept of one that was read so, if one is kept.
pub(crate) fn line_of<'a>(read: &Result<Option<Step>, LineError>, asked: &'a [u8]) -> &'a [u8]
    requires { read.now ≡ Err fault.Memory → ⊥ }
    ensures { StandsFor read.now asked.now result.now }
{
    match read {
        Ok(Some(step)) => line_of_step(step, asked),
        Ok(None) => asked,
        Err(LineError::BadLine) => b"refused BadLine",
        Err(LineError::Memory) => asked,
    }
}
