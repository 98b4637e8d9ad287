//! The text of the log that follows another.
ghost use Rattle.std.specs.Prelude.{◌≡◌, ◌≢◌, ◌++◌, ◌∷◌, [], ℕ, IfNone, IfOk, IfSome, List, MatchOption, true};
ghost use Rattle.std.specs.Arc.{arc_value};
ghost use Rattle.smi_live.specs.Managing.{keeper_of};
ghost use Rattle.smi_log_front.specs.Front.{FrontView};
ghost use Rattle.smi_log_front.specs.FrontText.{front_text};
ghost use Rattle.smirun_commands.specs.Printed.{IsPrintOf};
ghost use Rattle.smirun_live.specs.Reading.{IsOfWholeLines};
ghost use Rattle.smirun_next.specs.NextFront.{HasNoNext, IsNextFront};
ghost use Rattle.smirun_next.specs.NextLogs.{AreCountsBefore, FollowsKeeper, IsNextLog, KeeperHasNoNext, MakesNext, next_capacity};

use crate::counts_before::counts_before;
use crate::next_front::{NextNames, front_after};
use crate::restless::restless_lines;
use smi_carried::CarriedCounts;
use smi_core::Core;
use smi_live::Manager;
use smi_live_carried::OverLogs;
use smi_log_front::{Front, add_front};
use smirun_commands::{Fault, LogRefusal, print_text};
use smirun_live::{Continued, LiveNotes, continued_of_texts};
use sml_domain::Domain;
use std::alloc::{AllocError, Global};

// The text of a front.
fn text_of(alloc: Global, declared: &Domain, front: &Front) -> Result<Vec<u8>, AllocError>
    ensures { IfOk result (λ text. text.items ≡ front_text declared.now front.now) }
{
    let mut text = Vec::new(alloc);
    add_front(&mut text, declared, front)?;
    Ok(text)
}

/// The text of the log that follows the log of a manager: the lines of its front. None as of `front_after`. The cost is
/// that of `front_after`, and the length of the text. The error is out of memory.
pub fn text_after(
    alloc: Global,
    declared: &Domain,
    core: &Core,
    over: &OverLogs<'_>,
    names: &NextNames<'_>,
) -> Result<Option<Vec<u8>>, AllocError>
    ensures some { IfOk result (λ r. IfSome r (λ text. (f : FrontView) × IsNextFront declared.now core.now over.now
        names.now.canonical.now names.now.capacity names.now.log.now f
        × (text.items ≡ front_text declared.now f))) }
    ensures none { IfOk result (λ r. IfNone r (HasNoNext declared.now core.now over.now
        names.now.canonical.now names.now.capacity names.now.log.now)) }
{
    match front_after(alloc, declared, core, over, names) {
        Ok(Some(front)) => match text_of(alloc, declared, &front) {
            Ok(text) => Ok(Some(text)),
            Err(error) => Err(error),
        },
        Ok(None) => Ok(None),
        Err(error) => Err(error),
    }
}

/// What comes of a log that is to be followed.
#[derive(Drop)]
pub enum NextLog {
    /// All rests, and this is the text of the log that follows.
    Begins(Vec<u8>),
    /// Not all rests, and these lines of how all stands say why.
    Restless(Vec<u8>),
}

// The canonical text of the file that a text says.
fn canonical_of<'a>(alloc: Global, file: &'a str, text: &[u8]) -> Result<Vec<u8>, Fault<'a>>
    ensures { IfOk result (λ printed. IsPrintOf text.now printed.items) }
{
    let mut canonical = Vec::new(alloc);
    match print_text(alloc, file, text, &mut canonical) {
        Ok(()) => Ok(canonical),
        Err(Fault::Output) => Err(Fault::Memory),
        Err(fault) => Err(fault),
    }
}

// What stands before the line feed at the end of a log, if there is one.
fn before_feed(log: &[u8]) -> Option<&[u8]>
    ensures { MatchOption result ((rest : List ℕ) → log.now ≢ rest ++ 10 ∷ [])
        (λ rest. log.now ≡ rest.now ++ 10 ∷ []) }
{
    log.strip_suffix(b"\n".as_slice())
}

// Whether a log has a line, and the last one is whole.
#[tactic(auto, using(crate::proofs::Wholes::of_whole_lines))]
fn is_whole(log: &[u8]) -> bool
    ensures { result ≡ true → IsOfWholeLines log.now }
{
    match before_feed(log) {
        Some(_) => true,
        None => false,
    }
}

// The number of the line behind the last line feed of a log.
fn last_line(log: &[u8]) -> u64 {
    let feeds = log.iter().filter(|b| **b == b'\n').count();
    (feeds as u64).saturating_add(1)
}

// How many requests wait at an object at most in the next log.
fn capacity_of(wanted: Option<usize>, capacity: usize) -> usize
    ensures { result ≡ next_capacity wanted capacity }
{
    match wanted {
        Some(wanted) => wanted,
        None => capacity,
    }
}

/// The log that follows one, both of the domain of a text, with this capacity or with that of the log before. No file is
/// read or written.
///
/// The faults are those of the domain's text, then those of the log as of `continued_of_texts`, then `Log` with `Torn`
/// if the log has no line or its last one is not whole, and out of memory.
pub fn next_of_texts<'a>(
    alloc: Global,
    file: &'a str,
    path: &'a str,
    text: &[u8],
    log: &[u8],
    capacity: Option<usize>,
) -> Result<NextLog, Fault<'a>>
    ensures { IfOk result (IsNextLog text.now log.now capacity) }
{
    let made = match continued_of_texts(alloc, file, path, text, log) {
        Ok(made) => made,
        Err(fault) => return Err(fault),
    };
    if !is_whole(log) {
        return Err(Fault::Log(path, LogRefusal::Torn(last_line(log))));
    }
    let before = match counts_before(alloc, path, &made.declared, log) {
        Ok(before) => before,
        Err(fault) => return Err(fault),
    };
    match canonical_of(alloc, file, text) {
        Ok(canonical) => {
            let names = NextNames {
                canonical: &canonical,
                capacity: capacity_of(capacity, made.capacity),
                log,
            };
            next_of_made(alloc, made, &before, &names)
        }
        Err(fault) => Err(fault),
    }
}

// The text of the log that follows that of a manager, which came after logs with these counts. None if there is none.
fn text_of_manager<'a>(
    alloc: Global,
    declared: &Domain,
    manager: &Manager<LiveNotes<'a>>,
    before: &[CarriedCounts],
    names: &NextNames<'_>,
) -> Result<Option<Vec<u8>>, AllocError>
    requires { AreCountsBefore declared.now names.now.log.now before.now }
    ensures some { IfOk result (λ r. IfSome r (λ next. FollowsKeeper declared.now (keeper_of manager.now)
        names.now.canonical.now names.now.capacity names.now.log.now next.items)) }
    ensures none { IfOk result (λ r. IfNone r (KeeperHasNoNext declared.now (keeper_of manager.now)
        names.now.canonical.now names.now.capacity names.now.log.now)) }
{
    let over = OverLogs::new(manager.accounts(), before);
    text_after(alloc, declared, manager.core(), &over, names)
}

// The log that follows one whose lines were made again, and which came after logs with these counts.
fn next_of_made<'a>(
    alloc: Global,
    made: Continued<'a>,
    before: &[CarriedCounts],
    names: &NextNames<'_>,
) -> Result<NextLog, Fault<'a>>
    requires { AreCountsBefore (arc_value made.declared) names.now.log.now before.now }
    ensures { IfOk result (MakesNext (arc_value made.entry.declared) (keeper_of made.entry.manager)
        names.now.canonical.now names.now.capacity names.now.log.now) }
{
    let Continued {
        mut manager,
        declared,
        ..
    } = made;
    match text_of_manager(alloc, &declared, &manager, before, names) {
        Ok(Some(text)) => Ok(NextLog::Begins(text)),
        Ok(None) => match restless_lines(alloc, &mut manager) {
            Ok(lines) => Ok(NextLog::Restless(lines)),
            Err(_) => Err(Fault::Memory),
        },
        Err(_) => Err(Fault::Memory),
    }
}
