//! What lines from outside ask, and what is kept of them.
ghost use Rattle.std.specs.Prelude.{◌≡◌, ◌<◌, ◌^◌, ◌++◌, List, Err, IfNone, IfOk, IfSome, Ok, OnOk, Some, false, true, ℕ};
ghost use Rattle.smi_core.specs.Output.{LineWrites};
ghost use Rattle.smi_lines.specs.declared.line.LineError.TheVariants as fault;
ghost use Rattle.smi_lines.specs.Line.{LineReads};
ghost use Rattle.smi_live_accounts.specs.Requested.{RequestedAs};
ghost use Rattle.smi_live_once.specs.Forms.{IsMarked, IsUnmarked, is_once_name, marked_text, told_text};
ghost use Rattle.smi_live_once.specs.Making.{KeeperDoes};
ghost use Rattle.smi_live_once.specs.Tables.{verdict_in, with_last_told};
ghost use Rattle.smi_live.specs.Keeping.{IsNoStep};
ghost use Rattle.smi_live.specs.Limiting.{line_for_bad, logged};
ghost use Rattle.smi_live.specs.Managing.{StandsFor, TakesFirst, TakesLine, TakesNew, TakesOnce, TakesOther};
ghost use Rattle.smi_live.specs.Managing.{TakesOutside, TakesPlain, TakesRefused};

use crate::keeper::Keeper;
use crate::limiting::{Unkept, has_room, limit_of, limit_of_request, line_of};
use crate::making::{make_asked, make_request};
use crate::observer::Observer;
use crate::telling::{
    begin, begin_refused, end_line, tell_alone, tell_beside, tell_limit, tell_unkept,
};
use smi_core::{Core, LineError, Lookout, Step, Taken, read_step};
use smi_live_accounts::Requested;
use smi_live_loop::Made;
use smi_live_once::{Asked, Mark, Verdict, add_mark, is_reserved_line, read_asked, read_mark};
use std::alloc::{AllocError, Global};

// A line from outside is refused. The error is out of memory.
fn refuse<L: Lookout>(
    alloc: Global,
    core: &Core,
    lookout: &mut L,
    taken: Taken<'_>,
    made: &mut Made,
) -> Result<(), AllocError>
    ensures makes { OnOk result (LineWrites core.now made.new.kept.items made.new.text.items core.now) }
    ensures line { OnOk result (made.new.kept.items ≡ line_for_bad) }
{
    lookout.bad_line(core, taken);
    begin_refused(alloc, made)
}

// Refuses a line from outside, and keeps that.
fn take_refused<L: Lookout>(
    alloc: Global,
    keeper: &Keeper,
    lookout: &mut L,
    taken: Taken<'_>,
    made: &mut Made,
) -> Result<(), AllocError>
    ensures made { OnOk result (KeeperDoes LineWrites keeper.now made.new.kept.items made.new.text.items keeper.now) }
    ensures keeps { OnOk result (made.new.kept.items ≡ logged line_for_bad) }
{
    match refuse(alloc, keeper.core(), lookout, taken, made) {
        Ok(()) => end_line(made),
        Err(error) => Err(error),
    }
}

// Refuses a line from outside whatever it asks, and keeps that, if there is room for it.
fn refuse_line<L: Observer>(
    alloc: Global,
    room: Option<usize>,
    keeper: &Keeper,
    lookout: &mut L,
    taken: Taken<'_>,
    made: &mut Made,
) -> Result<(), AllocError>
    ensures made { OnOk result (KeeperDoes LineWrites keeper.now made.new.kept.items made.new.text.items keeper.now) }
    ensures takes { OnOk result (TakesRefused room made.new.kept.items made.new.text.items) }
{
    if has_room(room, b"refused BadLine") {
        return take_refused(alloc, keeper, lookout, taken, made);
    }
    lookout.unkept(taken, Unkept::Room);
    tell_limit(made)
}

// Does what a step of a line from outside asks: one that the manager makes by itself is refused.
fn take_step<L: Lookout>(
    alloc: Global,
    keeper: &mut Keeper,
    lookout: &mut L,
    taken: Taken<'_>,
    step: &Step,
    made: &mut Made,
) -> Result<(), AllocError>
    requires { LineReads taken.text.now (Ok (Some step.now)) }
    ensures makes { OnOk result (LineWrites keeper.old.core made.new.kept.items made.new.text.items keeper.new.core) }
    ensures stands { OnOk result (StandsFor (Ok (Some step.now)) taken.entry.text.now made.new.kept.items) }
    ensures setup { keeper.new.core.setup ≡ keeper.old.core.setup }
    ensures told { keeper.new.told ≡ keeper.old.told }
{
    match step {
        Step::Start(_) | Step::Go(_) => refuse(alloc, keeper.core(), lookout, taken, made),
        _ => match make_asked(keeper, lookout, taken, step, made) {
            Ok(_) => Ok(()),
            Err(error) => Err(error),
        },
    }
}

// Does what a line from outside asks, as it was read.
fn take_read<L: Lookout>(
    alloc: Global,
    keeper: &mut Keeper,
    lookout: &mut L,
    taken: Taken<'_>,
    read: &Result<Option<Step>, LineError>,
    made: &mut Made,
) -> Result<(), AllocError>
    requires { LineReads taken.text.now read.now }
    ensures makes { OnOk result (LineWrites keeper.old.core made.new.kept.items made.new.text.items keeper.new.core) }
    ensures stands { OnOk result (StandsFor read.now taken.entry.text.now made.new.kept.items) }
    ensures setup { keeper.new.core.setup ≡ keeper.old.core.setup }
    ensures told { keeper.new.told ≡ keeper.old.told }
{
    match read {
        Err(LineError::Memory) => Err(AllocError),
        Err(LineError::BadLine) => refuse(alloc, keeper.core(), lookout, taken, made),
        Ok(None) => begin(made, taken.text),
        Ok(Some(step)) => take_step(alloc, keeper, lookout, taken, step, made),
    }
}

// Does what a line from outside asks that has no mark, as it was read, and keeps a line of it.
fn take_kept<L: Lookout>(
    alloc: Global,
    keeper: &mut Keeper,
    lookout: &mut L,
    taken: Taken<'_>,
    read: &Result<Option<Step>, LineError>,
    made: &mut Made,
) -> Result<(), AllocError>
    requires unmarked { IsUnmarked taken.text.now }
    requires reads { LineReads taken.text.now read.now }
    ensures made { OnOk result (KeeperDoes LineWrites keeper.old made.new.kept.items made.new.text.items keeper.new) }
    ensures keeps { OnOk result ((line : List ℕ) × StandsFor read.now taken.entry.text.now line
        × (made.new.kept.items ≡ logged line)) }
    ensures setup { keeper.new.core.setup ≡ keeper.old.core.setup }
{
    match take_read(alloc, keeper, lookout, taken, read, made) {
        Ok(()) => end_line(made),
        Err(error) => Err(error),
    }
}

// Does what a line from outside asks that has no mark, as it was read; or tells that it is not kept.
fn take_limited<L: Observer>(
    alloc: Global,
    room: Option<usize>,
    keeper: &mut Keeper,
    lookout: &mut L,
    taken: Taken<'_>,
    read: &Result<Option<Step>, LineError>,
    made: &mut Made,
) -> Result<(), AllocError>
    requires unmarked { IsUnmarked taken.text.now }
    requires reads { LineReads taken.text.now read.now }
    ensures made { OnOk result (KeeperDoes LineWrites keeper.old made.new.kept.items made.new.text.items keeper.new) }
    ensures takes { OnOk result (TakesPlain room keeper.old.core taken.entry.text.now made.new.kept.items
        made.new.text.items) }
    ensures setup { keeper.new.core.setup ≡ keeper.old.core.setup }
{
    if is_unread(read) {
        return Err(AllocError);
    }
    let line = line_of(read, taken.text);
    match limit_of(room, keeper, read, line) {
        None => take_kept(alloc, keeper, lookout, taken, read, made),
        Some(why) => {
            lookout.unkept(taken, why);
            tell_unkept(made, read)
        }
    }
}

// Does what a line from outside asks that has no mark and asks for nothing once.
fn take_unmarked<L: Observer>(
    alloc: Global,
    room: Option<usize>,
    keeper: &mut Keeper,
    lookout: &mut L,
    taken: Taken<'_>,
    made: &mut Made,
) -> Result<(), AllocError>
    requires { IsUnmarked taken.text.now }
    ensures made { OnOk result (KeeperDoes LineWrites keeper.old made.new.kept.items made.new.text.items keeper.new) }
    ensures takes { OnOk result (TakesPlain room keeper.old.core taken.entry.text.now made.new.kept.items
        made.new.text.items) }
    ensures setup { keeper.new.core.setup ≡ keeper.old.core.setup }
{
    let read = read_step(alloc, taken.text);
    let done = take_limited(alloc, room, keeper, lookout, taken, &read, made);
    drop(read);
    done
}

// Takes a line from outside that asks for nothing once. One with a mark is refused, as marks are the manager's own.
fn take_other<L: Observer>(
    alloc: Global,
    room: Option<usize>,
    keeper: &mut Keeper,
    lookout: &mut L,
    taken: Taken<'_>,
    made: &mut Made,
) -> Result<(), AllocError>
    ensures made { OnOk result (KeeperDoes LineWrites keeper.old made.new.kept.items made.new.text.items keeper.new) }
    ensures takes { OnOk result (TakesOther room keeper.old.core taken.entry.text.now made.new.kept.items
        made.new.text.items) }
    ensures setup { keeper.new.core.setup ≡ keeper.old.core.setup }
{
    match read_mark(taken.text) {
        Some(_) => refuse_line(alloc, room, keeper, lookout, taken, made),
        None => take_unmarked(alloc, room, keeper, lookout, taken, made),
    }
}

// What was told of a request that was made is kept for its name, and told once more beside, and its line is ended.
fn answer_once(
    alloc: Global,
    keeper: &mut Keeper,
    mark: &Mark<'_>,
    requested: Requested,
    made: &mut Made,
) -> Result<(), AllocError>
    requires { RequestedAs keeper.old.core.setup.domain keeper.old.core.world.journal requested made.old.text.items }
    ensures core { keeper.new.core ≡ keeper.old.core }
    ensures told { OnOk result (keeper.new.told ≡ with_last_told keeper.old.told (record {
      name = mark.now.name.now;
      number = mark.now.number;
      answer = made.old.text.items;
    })) }
    ensures kept { OnOk result (made.new.kept.items ≡ logged made.old.kept.items) }
    ensures text { OnOk result (made.new.text.items
        ≡ made.old.text.items ++ told_text mark.now.name.now mark.now.number made.old.text.items) }
{
    match keeper.put(alloc, mark, &made.text, requested) {
        Ok(()) => match tell_beside(alloc, made, mark) {
            Ok(()) => end_line(made),
            Err(error) => Err(error),
        },
        Err(error) => Err(error),
    }
}

// Makes a request that is new, and keeps and tells its answer. A step that is no request is refused.
fn take_request<L: Lookout>(
    alloc: Global,
    keeper: &mut Keeper,
    lookout: &mut L,
    taken: Taken<'_>,
    mark: &Mark<'_>,
    step: &Step,
    made: &mut Made,
) -> Result<(), AllocError>
    requires reads { LineReads taken.text.now (Ok (Some step.now)) }
    requires marked { IsMarked taken.text.now mark.now.name.now mark.now.number }
    requires new { verdict_in keeper.old.told mark.now.name.now mark.now.number ≡ Verdict.New }
    ensures made { OnOk result (KeeperDoes LineWrites keeper.old made.new.kept.items made.new.text.items keeper.new) }
    ensures takes { OnOk result (TakesNew taken.entry.text.now made.new.kept.items) }
    ensures setup { keeper.new.core.setup ≡ keeper.old.core.setup }
{
    match make_request(keeper, lookout, taken, step, made) {
        Ok(Some(requested)) => answer_once(alloc, keeper, mark, requested, made),
        Ok(None) => take_refused(alloc, keeper, lookout, taken, made),
        Err(error) => Err(error),
    }
}

/// Whether a line could not be read since memory ran out.
pub(crate) fn is_unread(read: &Result<Option<Step>, LineError>) -> bool
    ensures { result ≡ false → read.now ≡ Err fault.Memory → ⊥ }
{
    match read {
        Err(LineError::Memory) => true,
        _ => false,
    }
}

/// The step that a line asks for, if it was read so.
pub(crate) fn step_in(read: &Result<Option<Step>, LineError>) -> Option<&Step>
    ensures some { IfSome result (λ s. read.now ≡ Ok (Some s.now)) }
    ensures none { IfNone result (IsNoStep read.now) }
{
    match read {
        Ok(Some(step)) => Some(step),
        _ => None,
    }
}

// Takes a request that is new, whose line with its mark was read so. A line that is no request is refused.
fn take_marked<L: Lookout>(
    alloc: Global,
    keeper: &mut Keeper,
    lookout: &mut L,
    taken: Taken<'_>,
    mark: &Mark<'_>,
    read: &Result<Option<Step>, LineError>,
    made: &mut Made,
) -> Result<(), AllocError>
    requires reads { LineReads taken.text.now read.now }
    requires marked { IsMarked taken.text.now mark.now.name.now mark.now.number }
    requires new { verdict_in keeper.old.told mark.now.name.now mark.now.number ≡ Verdict.New }
    ensures made { OnOk result (KeeperDoes LineWrites keeper.old made.new.kept.items made.new.text.items keeper.new) }
    ensures takes { OnOk result (TakesNew taken.entry.text.now made.new.kept.items) }
    ensures setup { keeper.new.core.setup ≡ keeper.old.core.setup }
{
    if is_unread(read) {
        return Err(AllocError);
    }
    match step_in(read) {
        Some(step) => take_request(alloc, keeper, lookout, taken, mark, step, made),
        None => take_refused(alloc, keeper, lookout, taken, made),
    }
}

// Takes a request that is new, whose line has its mark.
fn take_new<L: Lookout>(
    alloc: Global,
    keeper: &mut Keeper,
    lookout: &mut L,
    taken: Taken<'_>,
    mark: &Mark<'_>,
    made: &mut Made,
) -> Result<(), AllocError>
    requires marked { IsMarked taken.text.now mark.now.name.now mark.now.number }
    requires new { verdict_in keeper.old.told mark.now.name.now mark.now.number ≡ Verdict.New }
    ensures made { OnOk result (KeeperDoes LineWrites keeper.old made.new.kept.items made.new.text.items keeper.new) }
    ensures takes { OnOk result (TakesNew taken.entry.text.now made.new.kept.items) }
    ensures setup { keeper.new.core.setup ≡ keeper.old.core.setup }
{
    let read = read_step(alloc, taken.text);
    let done = take_marked(alloc, keeper, lookout, taken, mark, &read, made);
    drop(read);
    done
}

// The mark of a request that is asked for once.
fn mark_of<'a>(asked: &Asked<'a>) -> Mark<'a>
    ensures name { result.name.now ≡ asked.now.name.now }
    ensures number { result.number ≡ asked.now.number }
{
    Mark {
        name: asked.name,
        number: asked.number,
    }
}

// The line of a request with its mark. The error is out of memory.
fn marked_line(alloc: Global, request: &[u8], mark: &Mark<'_>) -> Result<Vec<u8>, AllocError>
    ensures { IfOk result (λ line. line.items ≡ marked_text request.now mark.now.name.now mark.now.number) }
{
    let mut line = Vec::from_slice(alloc, request)?;
    add_mark(&mut line, mark.name, mark.number)?;
    Ok(line)
}

// Takes a request that is new, whose line has its mark; or tells that it is not kept.
fn take_room<L: Observer>(
    alloc: Global,
    room: Option<usize>,
    keeper: &mut Keeper,
    lookout: &mut L,
    taken: Taken<'_>,
    mark: &Mark<'_>,
    made: &mut Made,
) -> Result<(), AllocError>
    requires marked { IsMarked taken.text.now mark.now.name.now mark.now.number }
    requires new { verdict_in keeper.old.told mark.now.name.now mark.now.number ≡ Verdict.New }
    ensures made { OnOk result (KeeperDoes LineWrites keeper.old made.new.kept.items made.new.text.items keeper.new) }
    ensures takes { OnOk result (TakesFirst room keeper.old mark.now.name.now mark.now.number taken.entry.text.now
        made.new.kept.items made.new.text.items keeper.new) }
    ensures setup { keeper.new.core.setup ≡ keeper.old.core.setup }
{
    match limit_of_request(room, keeper, taken.text) {
        None => take_new(alloc, keeper, lookout, taken, mark, made),
        Some(why) => {
            lookout.unkept(taken, why);
            tell_alone(made, mark, b"refused Limit\n")
        }
    }
}

// Takes a request that is new, as the line of this number. What is kept of it has its mark.
fn take_first<L: Observer>(
    alloc: Global,
    room: Option<usize>,
    keeper: &mut Keeper,
    lookout: &mut L,
    number: usize,
    asked: &Asked<'_>,
    made: &mut Made,
) -> Result<(), AllocError>
    requires named { is_once_name asked.now.name.now ≡ true }
    requires small { asked.now.number < 2 ^ 64 }
    requires new { verdict_in keeper.old.told asked.now.name.now asked.now.number ≡ Verdict.New }
    ensures made { OnOk result (KeeperDoes LineWrites keeper.old made.new.kept.items made.new.text.items keeper.new) }
    ensures takes { OnOk result (TakesFirst room keeper.old asked.now.name.now asked.now.number
        (marked_text asked.now.request.now asked.now.name.now asked.now.number) made.new.kept.items
        made.new.text.items keeper.new) }
    ensures setup { keeper.new.core.setup ≡ keeper.old.core.setup }
{
    let mark = mark_of(asked);
    let line = marked_line(alloc, asked.request, &mark)?;
    let taken = Taken {
        number,
        text: &line,
    };
    take_room(alloc, room, keeper, lookout, taken, &mark, made)
}

// Does what is to be done about a request that is to be made once.
fn take_asked<L: Observer>(
    alloc: Global,
    room: Option<usize>,
    keeper: &mut Keeper,
    lookout: &mut L,
    number: usize,
    asked: &Asked<'_>,
    made: &mut Made,
) -> Result<(), AllocError>
    requires named { is_once_name asked.now.name.now ≡ true }
    requires small { asked.now.number < 2 ^ 64 }
    ensures made { OnOk result (KeeperDoes LineWrites keeper.old made.new.kept.items made.new.text.items keeper.new) }
    ensures takes { OnOk result (TakesOnce (verdict_in keeper.old.told asked.now.name.now asked.now.number) room
        keeper.old asked.now.name.now asked.now.number asked.now.request.now made.new.kept.items made.new.text.items
        keeper.new) }
    ensures setup { keeper.new.core.setup ≡ keeper.old.core.setup }
{
    let mark = mark_of(asked);
    match keeper.told().verdict(asked.name, asked.number) {
        Verdict::New => take_first(alloc, room, keeper, lookout, number, asked, made),
        Verdict::Again => tell_alone(made, &mark, keeper.told().answer(asked.name)),
        Verdict::Old => tell_alone(made, &mark, b"refused Old\n"),
        Verdict::TooMany => tell_alone(made, &mark, b"refused TooManyNames\n"),
    }
}

// Takes a line that may come from outside.
fn take_outside<L: Observer>(
    alloc: Global,
    room: Option<usize>,
    keeper: &mut Keeper,
    lookout: &mut L,
    taken: Taken<'_>,
    made: &mut Made,
) -> Result<(), AllocError>
    ensures made { OnOk result (KeeperDoes LineWrites keeper.old made.new.kept.items made.new.text.items keeper.new) }
    ensures takes { OnOk result (TakesOutside room keeper.old taken.entry.text.now made.new.kept.items
        made.new.text.items keeper.new) }
    ensures setup { keeper.new.core.setup ≡ keeper.old.core.setup }
{
    match read_asked(taken.text) {
        Some(asked) => take_asked(alloc, room, keeper, lookout, taken.number, &asked, made),
        None => take_other(alloc, room, keeper, lookout, taken, made),
    }
}

/// Takes a line from outside. One that may not come is refused. The log may still take `room` bytes, if there is one.
pub(crate) fn take_line<L: Observer>(
    alloc: Global,
    room: Option<usize>,
    keeper: &mut Keeper,
    lookout: &mut L,
    taken: Taken<'_>,
    made: &mut Made,
) -> Result<(), AllocError>
    ensures made { OnOk result (KeeperDoes LineWrites keeper.old made.new.kept.items made.new.text.items keeper.new) }
    ensures takes { OnOk result (TakesLine room keeper.old taken.entry.text.now made.new.kept.items made.new.text.items
        keeper.new) }
    ensures setup { keeper.new.core.setup ≡ keeper.old.core.setup }
{
    if is_reserved_line(taken.text) {
        return refuse_line(alloc, room, keeper, lookout, taken, made);
    }
    take_outside(alloc, room, keeper, lookout, taken, made)
}
