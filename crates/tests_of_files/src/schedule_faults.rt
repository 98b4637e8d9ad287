//! What is made and written if a schedule ends before its end: the reader or the writer fails, or the
//! text is too long.
ghost use Rattle.std.specs.Prelude.{◌≤◌, IfOk, length};

use crate::cores::{core_of, written};
use crate::one_byte::one_byte_writer;
use crate::schedule_texts::CONFIGURE_READY;
use crate::transcript::{Transcript, part_of, whole_of};
use smi_core::{Core, ScheduleFault, run_schedule};
use std::alloc::{AllocError, Global};
use std::io::{Error, Read};
use std::test::Fail;
use test_domains::SUPPLIES;

// Reads the first bytes of a text, one a call, and then fails or reads line feeds for ever.
#[derive(Drop)]
struct Ending<'a> {
    text: &'a [u8],
    fails: bool,
}

impl<'a> Read for Ending<'a> {
    fn read(&mut self, buf: &mut [u8]) -> std::io::Result<usize> {
        let Some((byte, rest)) = self.text.split_first() else {
            return self.end(buf);
        };
        let Some(place) = buf.first_mut() else {
            return Ok(0);
        };
        *place = *byte;
        self.text = rest;
        Ok(1)
    }
}

impl<'a> Ending<'a> {
    // What comes behind the bytes.
    fn end(&self, buf: &mut [u8]) -> std::io::Result<usize>
        ensures { IfOk result (λ n. n ≤ length buf.new) }
    {
        if self.fails {
            return Err(Error::from(AllocError));
        }
        buf.fill(b'\n');
        Ok(buf.len())
    }
}

// What a new core writes for a text behind which its reader ends so.
fn written_before(alloc: Global, text: &[u8], fails: bool) -> Option<(Vec<u8>, ScheduleFault)> {
    let mut core = core_of(alloc, SUPPLIES)?;
    let mut reader = Ending { text, fails };
    let mut output = Vec::new(alloc);
    let ran = run_schedule(alloc, &mut core, &mut reader, &mut output);
    drop(core);
    match ran {
        Ok(()) => None,
        Err(fault) => Some((output, fault)),
    }
}

// How many line feeds a text has.
fn line_feeds(text: &[u8]) -> usize {
    let mut found = 0usize;
    for byte in text {
        if *byte == b'\n' {
            found = found.saturating_add(1);
        }
    }
    found
}

// Whether all that a prefix of the schedule writes are the lines of its whole lines, where the reader
// fails behind it.
fn makes_whole_lines(alloc: Global, length: usize) -> Option<bool> {
    let whole = whole_of(alloc, CONFIGURE_READY).ok()?;
    let makes = match whole.schedule.as_bytes().get(..length) {
        Some(text) => makes_lines(alloc, text),
        None => None,
    };
    drop(whole);
    makes
}

fn makes_lines(alloc: Global, text: &[u8]) -> Option<bool> {
    let expected = part_of(alloc, CONFIGURE_READY, 0, line_feeds(text)).ok()?;
    let made = written_before(alloc, text, true);
    let makes = is_written(&made, ScheduleFault::Read, expected.output.as_bytes());
    drop(made);
    drop(expected);
    Some(makes)
}

// Whether this was written, and then the fault came.
fn is_written(
    made: &Option<(Vec<u8>, ScheduleFault)>,
    fault: ScheduleFault,
    output: &[u8],
) -> bool {
    match made {
        Some((written, told)) => *told == fault && written.as_slice() == output,
        None => false,
    }
}

// How many steps are made if the output ends behind `length` bytes.
fn steps_made(alloc: Global, length: usize) -> Option<usize> {
    for steps in 0..100 {
        let part = part_of(alloc, CONFIGURE_READY, 0, steps).ok()?;
        if part.output.len() > length {
            return Some(steps);
        }
    }
    None
}

// Whether a writer that fails behind `room` bytes gets those.
fn is_cut_at(alloc: Global, core: &mut Core, whole: &Transcript, room: usize) -> Option<bool> {
    let expected = whole.output.as_bytes().get(..room)?;
    let mut reader = whole.schedule.as_bytes();
    let mut writer = one_byte_writer(alloc, room, true);
    let ran = run_schedule(alloc, core, &mut reader, &mut writer);
    Some(ran == Err(ScheduleFault::Write) && writer.taken.as_slice() == expected)
}

// Whether a core writes what is told.
fn goes_on(alloc: Global, core: &mut Core, told: &Transcript) -> Option<bool> {
    let output = written(alloc, core, told.schedule.as_str())?;
    Some(output.as_slice() == told.output.as_bytes())
}

// The same, and whether the writer leaves the core behind the step whose lines it cut.
fn goes_on_behind_the_cut(alloc: Global, room: usize) -> Option<bool> {
    let whole = whole_of(alloc, CONFIGURE_READY).ok()?;
    let rest = part_of(alloc, CONFIGURE_READY, steps_made(alloc, room)?, usize::MAX).ok()?;
    let mut core = core_of(alloc, SUPPLIES)?;
    let is_cut = is_cut_at(alloc, &mut core, &whole, room);
    let is_continued = goes_on(alloc, &mut core, &rest);
    drop(core);
    Some(is_cut == Some(true) && is_continued == Some(true))
}

#[test]
fn a_core_goes_on_behind_the_step_whose_lines_were_cut(rt: HostRuntime) -> Result<(), Fail> {
    let length = whole_of(rt.alloc(), CONFIGURE_READY)?.output.len();
    for room in 0..length {
        assert!(rt;
            goes_on_behind_the_cut(rt.alloc(), room) == Some(true),
            "at {room}"
        );
    }
    Ok(())
}

#[test]
fn a_line_that_was_cut_is_not_executed(rt: HostRuntime) -> Result<(), Fail> {
    let length = whole_of(rt.alloc(), CONFIGURE_READY)?.schedule.len();
    for at in 0..length {
        assert!(rt; makes_whole_lines(rt.alloc(), at) == Some(true), "at {at}");
    }
    Ok(())
}

// Whether what is before the limit of a schedule's length is executed and its output written.
fn is_written_before_the_limit(alloc: Global) -> Option<bool> {
    let whole = whole_of(alloc, CONFIGURE_READY).ok()?;
    let made = written_before(alloc, whole.schedule.as_bytes(), false);
    let is_written = is_written(&made, ScheduleFault::TooLong, whole.output.as_bytes());
    drop(made);
    drop(whole);
    Some(is_written)
}

#[test]
fn what_is_before_the_limit_is_written(rt: HostRuntime) {
    assert!(rt; is_written_before_the_limit(rt.alloc()) == Some(true));
}
