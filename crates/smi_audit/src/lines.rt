//! Judging lines as they are read: of each entry only what the books keep is kept.
ghost use Rattle.std.specs.Prelude.{◌≡◌, ◌<◌, [], IfOk, IfSome, IsTrue, length};
ghost use Rattle.std.specs.Arc.{arc_value};
ghost use Rattle.smi_journal.specs.HasText.{HasNames};
ghost use Rattle.smi_meaning.specs.Legal.{IsLegal};
ghost use Rattle.smi_audit.specs.Judges.{JudgeIsKept};
ghost use Rattle.smi_audit.specs.Lines.{FollowsLine, HasJudgedLines};

use crate::judge::Judge;
use smi_journal::{Format, LineReader};
use sml_domain::Domain;
use std::alloc::Global;
use std::sync::Arc;

// Takes the entry whose line is in front, if it may follow, and returns what is behind the line. Returns None also if
// memory runs out, since the caller then reads the whole text again.
fn take_line<'a>(
    judge: &mut Judge,
    reader: &mut LineReader,
    format: Format,
    domain: &Domain,
    rest: &'a [u8],
) -> Option<&'a [u8]>
    requires names { HasNames domain.now }
    requires kept { JudgeIsKept judge.old }
    requires legal { IsLegal judge.old.format judge.old.books.domain judge.old.books.journal }
    requires of { judge.old.books.domain ≡ domain.now }
    ensures follows { IfSome result (λ more. FollowsLine format domain.now judge.old judge.new rest.now more.now) }
    ensures less { IfSome result (λ more. length more.now < length rest.now) }
{
    let Ok(Some((entry, more))) = reader.next_entry(judge.alloc, domain, format, rest) else {
        return None;
    };
    match judge.take(&entry) {
        Ok(None) => Some(more),
        Ok(Some(_)) | Err(_) => None,
    }
}

// Takes all lines, if each is that of an entry which may follow. Returns false also if memory runs out.
fn take_lines(
    judge: &mut Judge,
    reader: &mut LineReader,
    format: Format,
    domain: &Domain,
    bytes: &[u8],
) -> bool
    requires names { HasNames domain.now }
    requires kept { JudgeIsKept judge.old }
    requires format { judge.old.format ≡ format }
    requires of { judge.old.books.domain ≡ domain.now }
    requires first { judge.old.books.journal ≡ [] }
    ensures { IsTrue result → HasJudgedLines format domain.now bytes.now judge.new }
{
    let mut rest = bytes;
    while rest.len() > 0 {
        let Some(more) = take_line(judge, reader, format, domain, rest) else {
            return false;
        };
        rest = more;
    }
    true
}

// The judge of bytes that are the lines of a legal journal of a format. None if they are not, or memory runs out.
pub(crate) fn judge_of(
    alloc: Global,
    format: Format,
    domain: &Arc<Domain>,
    bytes: &[u8],
) -> Option<Judge>
    requires { HasNames (arc_value domain.now) }
    ensures { IfSome result (HasJudgedLines format (arc_value domain.now) bytes.now) }
{
    let Ok(shared) = Arc::try_clone(domain) else {
        return None;
    };
    let Ok(mut judge) = Judge::new(alloc, format, shared) else {
        return None;
    };
    let mut reader = LineReader::new(alloc);
    if take_lines(&mut judge, &mut reader, format, domain, bytes) {
        Some(judge)
    } else {
        None
    }
}
