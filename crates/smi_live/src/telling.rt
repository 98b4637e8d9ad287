//! What is kept and told of a line.
ghost use Rattle.std.specs.Prelude.{◌≡◌, ◌++◌, ◌∷◌, [], Err, OnOk, codes, drop};
ghost use Rattle.smi_lines.specs.Answers.{answer_text, refused_text};
ghost use Rattle.smi_lines.specs.Line.{LineReads};
ghost use Rattle.smi_live_once.specs.Forms.{told_text};
ghost use Rattle.smi_live_once.specs.Making.{limit_text};
ghost use Rattle.smi_live.specs.Limiting.{line_for_bad, unkept_text};

use smi_core::{Answer, Core, LineError, Step, StepError, read_step};
use smi_journal_entries::Entry;
use smi_lines::{tell_answer, tell_refused};
use smi_live_loop::Made;
use smi_live_once::{Mark, add_answer};
use std::alloc::{AllocError, Global};

/// The entries from a place on.
pub(crate) fn entries_from(entries: &[Entry], first: usize) -> &[Entry]
    ensures { result.now ≡ drop first entries.now }
{
    if first <= entries.len() {
        entries.split_at(first).1
    } else {
        &[]
    }
}

/// A line replaces what was kept before, and what that wrote is gone. Its line feed is added last (`end_line`).
pub(crate) fn begin(made: &mut Made, line: &[u8]) -> Result<(), AllocError>
    ensures line { OnOk result (made.new.kept.items ≡ line.now) }
    ensures text { OnOk result (made.new.text.items ≡ []) }
{
    made.kept.clear();
    made.text.clear();
    made.kept.extend_from_slice(line)?;
    Ok(())
}

/// Tells what the step of a line was answered, and what it added to the journal.
pub(crate) fn tell(
    core: &Core,
    line: &[u8],
    step: &Step,
    answer: &Result<Answer, StepError>,
    first: usize,
    made: &mut Made,
) -> Result<(), AllocError>
    ensures line { OnOk result (made.new.kept.items ≡ line.now) }
    ensures text { OnOk result (made.new.text.items ≡
        answer_text core.now.setup.domain step.now answer.now (drop first core.now.world.journal)) }
{
    begin(made, line)?;
    let mut failed = false;
    let added = entries_from(core.journal(), first);
    tell_answer(
        &mut made.text,
        &mut failed,
        core.domain(),
        step,
        answer,
        added,
    );
    if failed {
        return Err(AllocError);
    }
    Ok(())
}

/// Tells that a line was refused that is no step.
pub(crate) fn tell_bad(made: &mut Made) -> Result<(), AllocError>
    ensures kept { OnOk result (made.new.kept.items ≡ made.old.kept.items) }
    ensures text { OnOk result (made.new.text.items ≡ refused_text (codes "BadLine")) }
{
    made.text.clear();
    let mut failed = false;
    tell_refused(&mut made.text, &mut failed, b"BadLine");
    if failed {
        return Err(AllocError);
    }
    Ok(())
}

/// What is kept and told of a line from outside that is refused. The error is out of memory.
pub(crate) fn begin_refused(alloc: Global, made: &mut Made) -> Result<(), AllocError>
    ensures line { OnOk result (made.new.kept.items ≡ line_for_bad) }
    ensures text { OnOk result (made.new.text.items ≡ refused_text (codes "BadLine")) }
    ensures reads { OnOk result (LineReads line_for_bad (Err LineError.BadLine)) }
{
    let Err(LineError::BadLine) = read_step(alloc, b"refused BadLine") else {
        return Err(AllocError);
    };
    begin(made, b"refused BadLine")?;
    tell_bad(made)
}

/// The line that is kept is ended. The error is out of memory.
pub(crate) fn end_line(made: &mut Made) -> Result<(), AllocError>
    ensures kept { OnOk result (made.new.kept.items ≡ made.old.kept.items ++ 10 ∷ []) }
    ensures text { OnOk result (made.new.text.items ≡ made.old.text.items) }
{
    made.kept.extend_from_slice(b"\n")
}

/// Nothing is kept, and it is told that there is no room or start left. The error is out of memory.
pub(crate) fn tell_limit(made: &mut Made) -> Result<(), AllocError>
    ensures kept { OnOk result (made.new.kept.items ≡ []) }
    ensures text { OnOk result (made.new.text.items ≡ limit_text) }
{
    made.kept.clear();
    made.text.clear();
    made.text.extend_from_slice(b"refused Limit\n")
}

/// Nothing is kept of a line that was read so, and that is told, if it is no remark. The error is out of memory.
pub(crate) fn tell_unkept(
    made: &mut Made,
    read: &Result<Option<Step>, LineError>,
) -> Result<(), AllocError>
    ensures kept { OnOk result (made.new.kept.items ≡ []) }
    ensures text { OnOk result (made.new.text.items ≡ unkept_text read.now) }
{
    match read {
        Ok(None) => {
            made.kept.clear();
            made.text.clear();
            Ok(())
        }
        Ok(Some(_)) | Err(_) => tell_limit(made),
    }
}

/// Nothing is kept, and an answer is told alone. The error is out of memory.
pub(crate) fn tell_alone(made: &mut Made, mark: &Mark<'_>, answer: &[u8]) -> Result<(), AllocError>
    ensures kept { OnOk result (made.new.kept.items ≡ []) }
    ensures text { OnOk result (made.new.text.items ≡ told_text mark.now.name.now mark.now.number answer.now) }
{
    made.kept.clear();
    made.text.clear();
    add_answer(&mut made.text, mark.name, mark.number, answer)
}

/// What was told is told beside, as the answer. The error is out of memory.
pub(crate) fn tell_beside(alloc: Global, made: &mut Made, mark: &Mark<'_>) -> Result<(), AllocError>
    ensures kept { OnOk result (made.new.kept.items ≡ made.old.kept.items) }
    ensures text { OnOk result (made.new.text.items
        ≡ made.old.text.items ++ told_text mark.now.name.now mark.now.number made.old.text.items) }
{
    let mut beside = Vec::new(alloc);
    match add_answer(&mut beside, mark.name, mark.number, &made.text) {
        Ok(()) => made.text.extend_from_slice(&beside),
        Err(error) => Err(error),
    }
}
