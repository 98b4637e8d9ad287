//! Lines of a log, which are made again.
ghost use Rattle.std.specs.Prelude.{◌≡◌, ◌≢◌, ◌⊎◌, Err, IfNone, IfOk, IfSome, Ok, Some, false, true};
ghost use Rattle.smi_core.specs.Output.{LineWrites};
ghost use Rattle.smi_lines.specs.declared.line.LineError.TheVariants as fault;
ghost use Rattle.smi_lines.specs.Line.{LineReads};
ghost use Rattle.smi_live_once.specs.Forms.{IsMarked, IsUnmarked};
ghost use Rattle.smi_live_once.specs.Making.{KeeperWrites};
ghost use Rattle.smi_live_once.specs.Tables.{verdict_in};
ghost use Rattle.smi_world_rest.specs.OwnSteps.{IsOwnStep};
ghost use Rattle.smi_live.specs.Keeping.{AsksNoRequest, AsksRequest, IsIdleLine, IsMadeAgain, IsNeverLogged};
ghost use Rattle.smi_live.specs.Keeping.{IsNoRequest, IsOtherBad, IsSomeRequest, MayBeLogged};
ghost use Rattle.smi_live.specs.Limiting.{line_for_bad};

use crate::keeper::Keeper;
use crate::making::{make_own_again, make_read, make_request};
use crate::taking::{is_unread, step_in};
use smi_core::{LineError, Lookout, Step, Taken, read_step};
use smi_live_loop::Made;
use smi_live_once::{Mark, Verdict, read_mark};
use std::alloc::{AllocError, Global};

// Whether a step is one that a manager makes by itself.
fn is_own(step: &Step) -> bool
    ensures yes { result ≡ true → IsOwnStep step.now }
    ensures no { result ≡ false → IsOwnStep step.now → ⊥ }
{
    match step {
        Step::Start(_) | Step::Go(_) => true,
        Step::Request { .. } | Step::Answer { .. } | Step::Fault(_) | Step::Kill { .. } => false,
    }
}

// The start or the go that a line asks for, if it was read so.
fn own_in(read: &Result<Option<Step>, LineError>) -> Option<&Step>
    ensures some { IfSome result (λ s. (read.now ≡ Ok (Some s.now)) × IsOwnStep s.now) }
    ensures none { IfNone result ((s : Step) → read.now ≡ Ok (Some s) → IsOwnStep s → ⊥) }
{
    match step_in(read) {
        Some(step) if is_own(step) => Some(step),
        _ => None,
    }
}

// Whether a line was read as no step, and is not the one that is kept of such lines.
fn is_other_bad(read: &Result<Option<Step>, LineError>, line: &[u8]) -> bool
    ensures yes { result ≡ true → (read.now ≡ Err fault.BadLine) × (line.now ≢ line_for_bad) }
    ensures no { result ≡ false → read.now ≡ Err fault.BadLine → line.now ≡ line_for_bad }
{
    match read {
        Err(LineError::BadLine) => line != b"refused BadLine".as_slice(),
        _ => false,
    }
}

// Makes a line that has no mark and was read so. False if it is a start or a go that changes nothing, or no step.
fn read_plain<L: Lookout>(
    keeper: &mut Keeper,
    lookout: &mut L,
    taken: Taken<'_>,
    read: &Result<Option<Step>, LineError>,
    made: &mut Made,
) -> Result<bool, AllocError>
    requires { LineReads taken.text.now read.now }
    ensures makes { IfOk result (λ b. b ≡ true
        → LineWrites keeper.old.core taken.entry.text.now made.new.text.items keeper.new.core) }
    ensures logged { IfOk result (λ b. b ≡ true
        → IsMadeAgain keeper.old.core taken.entry.text.now keeper.new.core) }
    ensures never { IfOk result (λ b. b ≡ false → IsIdleLine keeper.old.core taken.entry.text.now
        ⊎ IsOtherBad taken.entry.text.now) }
    ensures same { IfOk result (λ b. b ≡ false → keeper.new.core ≡ keeper.old.core) }
    ensures setup { keeper.new.core.setup ≡ keeper.old.core.setup }
    ensures told { keeper.new.told ≡ keeper.old.told }
{
    if is_other_bad(read, taken.text) {
        return Ok(false);
    }
    match own_in(read) {
        Some(step) => make_own_again(keeper, lookout, taken, step, made),
        None => match make_read(keeper, lookout, taken, read, made) {
            Ok(()) => Ok(true),
            Err(error) => Err(error),
        },
    }
}

// Makes a line that has no mark. False if it is a start or a go that changes nothing, or no step.
fn plain_again<L: Lookout>(
    alloc: Global,
    keeper: &mut Keeper,
    lookout: &mut L,
    taken: Taken<'_>,
    made: &mut Made,
) -> Result<bool, AllocError>
    requires { IsUnmarked taken.text.now }
    ensures made { IfOk result (λ b. b ≡ true
        → KeeperWrites LineWrites keeper.old taken.entry.text.now made.new.text.items keeper.new) }
    ensures logged { IfOk result (λ b. b ≡ true
        → IsMadeAgain keeper.old.core taken.entry.text.now keeper.new.core) }
    ensures never { IfOk result (λ b. b ≡ false → IsIdleLine keeper.old.core taken.entry.text.now
        ⊎ IsOtherBad taken.entry.text.now) }
    ensures same { IfOk result (λ b. b ≡ false → keeper.new ≡ keeper.old) }
    ensures setup { keeper.new.core.setup ≡ keeper.old.core.setup }
{
    let read = read_step(alloc, taken.text);
    let done = read_plain(keeper, lookout, taken, &read, made);
    drop(read);
    done
}

// Makes a request, and keeps its answer for the name of its mark. False if the step is no request; then nothing is
// made.
fn request_again<L: Lookout>(
    alloc: Global,
    keeper: &mut Keeper,
    lookout: &mut L,
    taken: Taken<'_>,
    mark: &Mark<'_>,
    step: &Step,
    made: &mut Made,
) -> Result<bool, AllocError>
    requires reads { LineReads taken.text.now (Ok (Some step.now)) }
    requires marked { IsMarked taken.text.now mark.now.name.now mark.now.number }
    requires new { verdict_in keeper.old.told mark.now.name.now mark.now.number ≡ Verdict.New }
    ensures made { IfOk result (λ b. b ≡ true
        → KeeperWrites LineWrites keeper.old taken.entry.text.now made.new.text.items keeper.new) }
    ensures same { IfOk result (λ b. b ≡ false → keeper.new ≡ keeper.old) }
    ensures request { IfOk result (λ b. b ≡ true → IsSomeRequest step.now) }
    ensures other { IfOk result (λ b. b ≡ false → IsNoRequest step.now) }
    ensures setup { keeper.new.core.setup ≡ keeper.old.core.setup }
{
    match make_request(keeper, lookout, taken, step, made) {
        Ok(Some(requested)) => match keeper.put(alloc, mark, &made.text, requested) {
            Ok(()) => Ok(true),
            Err(error) => Err(error),
        },
        Ok(None) => Ok(false),
        Err(error) => Err(error),
    }
}

// Makes a line that has a mark and was read so. False if it is no request; then nothing is made.
fn read_again<L: Lookout>(
    alloc: Global,
    keeper: &mut Keeper,
    lookout: &mut L,
    taken: Taken<'_>,
    mark: &Mark<'_>,
    read: &Result<Option<Step>, LineError>,
    made: &mut Made,
) -> Result<bool, AllocError>
    requires reads { LineReads taken.text.now read.now }
    requires marked { IsMarked taken.text.now mark.now.name.now mark.now.number }
    requires new { verdict_in keeper.old.told mark.now.name.now mark.now.number ≡ Verdict.New }
    ensures made { IfOk result (λ b. b ≡ true
        → KeeperWrites LineWrites keeper.old taken.entry.text.now made.new.text.items keeper.new) }
    ensures same { IfOk result (λ b. b ≡ false → keeper.new ≡ keeper.old) }
    ensures request { IfOk result (λ b. b ≡ true → AsksRequest taken.entry.text.now) }
    ensures other { IfOk result (λ b. b ≡ false → AsksNoRequest taken.entry.text.now) }
    ensures setup { keeper.new.core.setup ≡ keeper.old.core.setup }
{
    if is_unread(read) {
        return Err(AllocError);
    }
    match step_in(read) {
        Some(step) => request_again(alloc, keeper, lookout, taken, mark, step, made),
        None => Ok(false),
    }
}

// Makes a line that has a mark. False if its number is not new, or it is no request; then nothing is made.
fn marked_again<L: Lookout>(
    alloc: Global,
    keeper: &mut Keeper,
    lookout: &mut L,
    taken: Taken<'_>,
    mark: &Mark<'_>,
    made: &mut Made,
) -> Result<bool, AllocError>
    requires { IsMarked taken.text.now mark.now.name.now mark.now.number }
    ensures made { IfOk result (λ b. b ≡ true
        → KeeperWrites LineWrites keeper.old taken.entry.text.now made.new.text.items keeper.new) }
    ensures same { IfOk result (λ b. b ≡ false → keeper.new ≡ keeper.old) }
    ensures request { IfOk result (λ b. b ≡ true
        → (verdict_in keeper.old.told mark.now.name.now mark.now.number ≡ Verdict.New)
        × AsksRequest taken.entry.text.now) }
    ensures other { IfOk result (λ b. b ≡ false
        → (verdict_in keeper.old.told mark.now.name.now mark.now.number ≢ Verdict.New)
        ⊎ AsksNoRequest taken.entry.text.now) }
    ensures setup { keeper.new.core.setup ≡ keeper.old.core.setup }
{
    if keeper.told().verdict(mark.name, mark.number) != Verdict::New {
        return Ok(false);
    }
    let read = read_step(alloc, taken.text);
    let done = read_again(alloc, keeper, lookout, taken, mark, &read, made);
    drop(read);
    done
}

/// Makes a line of a log again. What one with a mark writes was told last to its name. False if no manager would have
/// written it there: it is a start or a go that changes nothing, or no step, or its mark is not new, or stands after
/// what is no request. Then nothing is made.
pub(crate) fn line_again<L: Lookout>(
    alloc: Global,
    keeper: &mut Keeper,
    lookout: &mut L,
    taken: Taken<'_>,
    made: &mut Made,
) -> Result<bool, AllocError>
    ensures made { IfOk result (λ b. b ≡ true
        → KeeperWrites LineWrites keeper.old taken.entry.text.now made.new.text.items keeper.new) }
    ensures same { IfOk result (λ b. b ≡ false → keeper.new ≡ keeper.old) }
    ensures logged { IfOk result (λ b. b ≡ true → MayBeLogged keeper.old taken.entry.text.now keeper.new) }
    ensures never { IfOk result (λ b. b ≡ false → IsNeverLogged keeper.old taken.entry.text.now) }
    ensures setup { keeper.new.core.setup ≡ keeper.old.core.setup }
{
    match read_mark(taken.text) {
        Some(mark) => marked_again(alloc, keeper, lookout, taken, &mark, made),
        None => plain_again(alloc, keeper, lookout, taken, made),
    }
}
