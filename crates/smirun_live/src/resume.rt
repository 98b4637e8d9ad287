//! How the log that a manager is given is opened, and what is told where it is resumed.
ghost use Rattle.std.specs.Arc.{arc_value};
ghost use Rattle.sml_load.specs.Texts.{IsDomainOfText};
ghost use Rattle.smi_log_front.specs.declared.first_line.LogVersion.TheVariants.{One};
ghost use Rattle.smirun_live.specs.FirstLine.{IsHeadOf};

use crate::beginning::LogText;
use crate::continuing::manager_after;
use crate::host::LiveHost;
use crate::log_lines::{lines_in, whole_lines};
use crate::observer::LiveNotes;
use crate::open_log::{OpenLog, begin, begin_new, open_locked, settle, unwritten};
use crate::preparing::Prepared;
use crate::wanted_log::WantedLog;
use smi_core::LONGEST_SCHEDULE;
use smi_journal::{Entry, tell_lines};
use smi_live::Manager;
use smirun_commands::{Advice, Fault};
use sml_domain::ObjId;
use std::alloc::{AllocError, Global};
use std::fs::File;
use std::io;
use std::io::Read;

/// A manager that can continue, and its log.
#[derive(Drop)]
pub(crate) struct Opened<'a> {
    pub(crate) manager: Manager<LiveNotes<'a>>,
    pub(crate) log: OpenLog,
}

/// Opens a log, and begins it, or makes again what it holds, with a manager of what was prepared. What is to be written
/// about that goes into `told`, and the advice on a log that is refused to `advice`.
pub(crate) fn open_log<'a, R: LiveHost>(
    rt: &R,
    wanted: &WantedLog<'a>,
    prepared: Prepared<'a>,
    told: &mut Vec<u8>,
    advice: &mut Advice,
) -> Result<Opened<'a>, Fault<'a>>
    requires domain { IsDomainOfText prepared.text.items (arc_value prepared.domain) }
    requires first { IsHeadOf prepared.text.items One prepared.options.capacity prepared.first.items }
{
    let opened = match open_locked(rt, wanted.path, !wanted.resume) {
        Ok(file) if wanted.resume => resume(rt.alloc(), wanted, file, prepared, told, advice),
        Ok(file) => begin_log(rt.alloc(), wanted, file, prepared),
        Err(fault) => Err(fault),
    };
    let settled = match opened {
        Ok(opened) => settle_opened(rt, wanted, opened),
        Err(fault) => Err(fault),
    };
    if let Err(Fault::Log(_, refusal)) = &settled {
        advice.of_refused_log(wanted.path, *refusal);
    }
    settled
}

// Puts what a log has on the disk, if that is asked for.
fn settle_opened<'a, R: LiveHost>(
    rt: &R,
    wanted: &WantedLog<'a>,
    opened: Opened<'a>,
) -> Result<Opened<'a>, Fault<'a>> {
    let Opened { manager, log } = opened;
    match settle(rt, wanted, log) {
        Ok(log) => Ok(Opened { manager, log }),
        Err(fault) => Err(fault),
    }
}

// Begins a log, with a manager of what was prepared.
fn begin_log<'a>(
    alloc: Global,
    wanted: &WantedLog<'a>,
    file: File,
    prepared: Prepared<'a>,
) -> Result<Opened<'a>, Fault<'a>>
    requires domain { IsDomainOfText prepared.text.items (arc_value prepared.domain) }
    requires first { IsHeadOf prepared.text.items One prepared.options.capacity prepared.first.items }
{
    let log = match begin_new(wanted, &prepared.first, file) {
        Ok(log) => log,
        Err(fault) => return Err(fault),
    };
    let text = LogText {
        path: wanted.path,
        text: &[],
    };
    match manager_after(alloc, &prepared, text) {
        Ok(manager) => Ok(Opened { manager, log }),
        Err(fault) => Err(fault),
    }
}

// Makes again what a log holds.
fn resume<'a>(
    alloc: Global,
    wanted: &WantedLog<'a>,
    mut file: File,
    prepared: Prepared<'a>,
    told: &mut Vec<u8>,
    advice: &mut Advice,
) -> Result<Opened<'a>, Fault<'a>>
    requires domain { IsDomainOfText prepared.text.items (arc_value prepared.domain) }
    requires first { IsHeadOf prepared.text.items One prepared.options.capacity prepared.first.items }
{
    match read_log(alloc, wanted.path, &mut file) {
        Ok(text) => {
            let resumed = resume_text(alloc, wanted, file, &text, prepared, told);
            if let Err(Fault::BadLine(_, number)) = &resumed {
                advice.of_bad_log(wanted.path, &text, *number);
            }
            resumed
        }
        Err(fault) => Err(fault),
    }
}

// Makes again what a log holds, whose text was read, and tells how all stands then. A torn line at its end is cut off
// when all else was looked at; of a torn first line nothing is left.
fn resume_text<'a>(
    alloc: Global,
    wanted: &WantedLog<'a>,
    file: File,
    text: &[u8],
    prepared: Prepared<'a>,
    told: &mut Vec<u8>,
) -> Result<Opened<'a>, Fault<'a>>
    requires domain { IsDomainOfText prepared.text.items (arc_value prepared.domain) }
    requires first { IsHeadOf prepared.text.items One prepared.options.capacity prepared.first.items }
{
    let log = LogText {
        path: wanted.path,
        text,
    };
    let manager = match manager_after(alloc, &prepared, log) {
        Ok(manager) => manager,
        Err(fault) => return Err(fault),
    };
    if tell_again(&manager, told).is_err() {
        return Err(Fault::Memory);
    }
    match whole_log(wanted, &prepared.first, file, text) {
        Ok(log) => Ok(Opened { manager, log }),
        Err(fault) => Err(fault),
    }
}

// Cuts off what stands after the whole lines of a log, and begins one that has none.
fn whole_log<'a>(
    wanted: &WantedLog<'a>,
    first: &[u8],
    file: File,
    text: &[u8],
) -> Result<OpenLog, Fault<'a>> {
    let size = whole_lines(text);
    if let Err(error) = cut_off(&file, text.len(), size) {
        return Err(unwritten(wanted.path, error));
    }
    if size == 0 {
        return begin(wanted, first, file);
    }
    let lines = lines_in(text);
    Ok(OpenLog { file, size, lines })
}

// Cuts off what stands after the whole lines of a file.
fn cut_off(file: &File, length: usize, size: usize) -> io::Result<()> {
    if size < length {
        file.set_len(size as u64)
    } else {
        Ok(())
    }
}

/// The bytes of a log. The faults are `Unreadable`, `TooLong` and out of memory.
pub fn read_log<'a>(alloc: Global, path: &'a str, file: &mut File) -> Result<Vec<u8>, Fault<'a>> {
    let mut text = Vec::new(alloc);
    // One byte more, so that a log which is too long is seen to be so.
    match file
        .take(LONGEST_SCHEDULE as u64 + 1)
        .read_to_end(&mut text)
    {
        Ok(_) if text.len() > LONGEST_SCHEDULE => Err(Fault::TooLong(path)),
        Ok(_) => Ok(text),
        Err(error) => Err(Fault::of_input(path, &error)),
    }
}

// Writes how all stands, and after it once more the start of each action that a device has in hand.
fn tell_again(manager: &Manager<LiveNotes<'_>>, told: &mut Vec<u8>) -> Result<(), AllocError> {
    let core = manager.core();
    manager.observer().tell_all(core, manager.accounts(), told)?;
    let mut failed = false;
    for o in 0..core.domain().objects() {
        let o = ObjId::new(o);
        if core.domain().associated(o) && manager.observer().has_open(o) {
            if let Some(start) = open_start(core.journal(), o) {
                tell_lines(told, &mut failed, core.domain(), start);
            }
        }
    }
    if failed { Err(AllocError) } else { Ok(()) }
}

// The entry of the start of the action that is open at an object.
fn open_start(journal: &[Entry], o: ObjId) -> Option<&[Entry]> {
    for (place, entry) in journal.iter().enumerate().rev() {
        match entry {
            Entry::Start { object, .. } if *object == o => return Some(&journal[place..=place]),
            Entry::End { object, .. } | Entry::Kill { object, .. } if *object == o => return None,
            _ => {}
        }
    }
    None
}
