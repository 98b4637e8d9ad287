//! The commands over logs.
ghost use Rattle.std.specs.Prelude.{◌≤◌, IfOk};

use crate::covering::tell_covered;
use crate::drawing::draw_log;
use crate::judging::tell_judged;
use crate::loading::load_log;
use crate::paging::tell_page;
use crate::telling::tell_states;
use smirun_commands::{
    Advice, AuditOptions, CoverOptions, Fault, GraphOptions, LoadedDomain, PageOptions,
    StatesOptions, load_with_text,
};
use std::fs::Files;
use std::io::{Read, Write};

/// What is asked of a log, by the options of a command: where they name a journal, here a log stands.
#[derive(Drop)]
pub enum LogCommand<'a> {
    /// To tell how all stood behind a line of its journal.
    States(StatesOptions<'a>),
    /// To judge it.
    Audit(AuditOptions<'a>),
    /// To tell what logs have exercised.
    Cover(CoverOptions<'a>),
    /// To write a page of it.
    Page(PageOptions<'a>),
    /// To draw the log of this path.
    Graph(GraphOptions<'a>, &'a str),
}

impl<'a> LogCommand<'a> {
    /// The path of the domain file, or `-`.
    pub fn file(&self) -> &'a str {
        match self {
            LogCommand::States(options) => options.file,
            LogCommand::Audit(options) => options.file,
            LogCommand::Cover(options) => options.file,
            LogCommand::Page(options) => options.file,
            LogCommand::Graph(options, _) => options.file,
        }
    }

    /// Whether it is explained why something is refused.
    pub fn explain(&self) -> bool {
        match self {
            LogCommand::States(options) => options.explain,
            LogCommand::Audit(options) => options.explain,
            LogCommand::Cover(options) => options.explain,
            LogCommand::Page(_) => false,
            LogCommand::Graph(options, _) => options.explain,
        }
    }
}

/// Does what is asked of a log, and returns the exit status: what the command does with a journal, by what the log has
/// done. The domain is read and checked before the log is opened, and the log is read whole, and performed, before
/// anything is written. Its lines are those that a manager of the domain wrote, with the capacity that its first line
/// names; what stands after the last line feed is no line yet. It is not locked, and may be that of a manager that runs.
///
/// The cost is that of the steps of the log, and that of the command. The error is the fault of the domain, by its path;
/// that of the log, `TooLong`, `Unreadable`, `Log` or `BadLine`; `NoLine`, `Output` or `Memory`.
pub fn run_over_log<'a, R: Files + AllocGlobal, I: Read, W: Write, E: Write>(
    rt: &R,
    command: &LogCommand<'a>,
    input: &mut I,
    output: &mut W,
    errors: &mut E,
    advice: &mut Advice,
) -> Result<u8, Fault<'a>>
    ensures { IfOk result (λ status. status ≤ 4) }
{
    let file = match load_with_text(rt, input, command.file(), advice) {
        Ok(file) => file,
        Err(fault) => return Err(fault),
    };
    match command {
        LogCommand::States(options) => tell_stands(rt, &file, options, input, output, advice),
        LogCommand::Audit(options) => {
            tell_ruling(rt, &file, options, input, output, errors, advice)
        }
        LogCommand::Cover(options) => {
            tell_covered(rt, &file, options, input, output, errors, advice)
        }
        LogCommand::Page(options) => write_page(rt, &file, options, input, output, advice),
        LogCommand::Graph(options, log) => {
            draw(rt, &file, options, log, input, output, errors, advice)
        }
    }
}

// Tells how all stood behind a line of the journal that a log has.
fn tell_stands<'a, R: Files + AllocGlobal, I: Read, W: Write>(
    rt: &R,
    file: &LoadedDomain<'a>,
    options: &StatesOptions<'a>,
    input: &mut I,
    output: &mut W,
    advice: &mut Advice,
) -> Result<u8, Fault<'a>>
    ensures { IfOk result (λ status. status ≤ 4) }
{
    match load_log(rt, input, file, options.journal, advice) {
        Ok(run) => tell_states(rt.alloc(), &run, options, output),
        Err(fault) => Err(fault),
    }
}

// Judges what a log has done.
fn tell_ruling<'a, R: Files + AllocGlobal, I: Read, W: Write, E: Write>(
    rt: &R,
    file: &LoadedDomain<'a>,
    options: &AuditOptions<'a>,
    input: &mut I,
    output: &mut W,
    errors: &mut E,
    advice: &mut Advice,
) -> Result<u8, Fault<'a>>
    ensures { IfOk result (λ status. status ≤ 4) }
{
    match load_log(rt, input, file, options.journal, advice) {
        Ok(run) => tell_judged(rt.alloc(), file, &run, options, output, errors),
        Err(fault) => Err(fault),
    }
}

// Writes the page of what a log has done.
fn write_page<'a, R: Files + AllocGlobal, I: Read, W: Write>(
    rt: &R,
    file: &LoadedDomain<'a>,
    options: &PageOptions<'a>,
    input: &mut I,
    output: &mut W,
    advice: &mut Advice,
) -> Result<u8, Fault<'a>>
    ensures { IfOk result (λ status. status ≤ 4) }
{
    match load_log(rt, input, file, options.journal, advice) {
        Ok(run) => tell_page(rt.alloc(), &run, options, output),
        Err(fault) => Err(fault),
    }
}

// Draws what a log has done.
fn draw<'a, R: Files + AllocGlobal, I: Read, W: Write, E: Write>(
    rt: &R,
    file: &LoadedDomain<'a>,
    options: &GraphOptions<'a>,
    log: &'a str,
    input: &mut I,
    output: &mut W,
    errors: &mut E,
    advice: &mut Advice,
) -> Result<u8, Fault<'a>>
    ensures { IfOk result (λ status. status ≤ 4) }
{
    match load_log(rt, input, file, log, advice) {
        Ok(run) => draw_log(rt.alloc(), &run, options, log, output, errors),
        Err(fault) => Err(fault),
    }
}
