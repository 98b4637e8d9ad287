//! From what is asked to an exit status.
ghost use Rattle.std.specs.Prelude.{◌≡◌, ◌≢◌, ◌≤◌, IfErr, IfOk};
ghost use Rattle.std.specs.IoError.{error_kind};
ghost use Rattle.smirun_commands.specs.Status.{fault_status};

use crate::completing::run_completions;
use crate::shown::Shown;
use crate::traced::TracedWriter;
use show_completions::CompletionFile;
use show_json::JsonKind;
use smirun_commands::{
    Advice, AuditOptions, CoverOptions, DONE, Fault, GraphOptions, LintOptions, PageOptions,
    PrintOptions, StatesOptions, StepOptions, WRONG_WORDS, run_audit, run_check, run_cover,
    run_graph, run_lint, run_list, run_page, run_print, run_states, run_step,
};
use smirun_live::{LiveHost, LiveOptions, run_live, run_live_as_lines_come};
use smirun_logs::{LogCommand, run_over_log};
use smirun_next::{NextOptions, run_next};
use smirun_run::{CheckOptions, Host, RunOptions, run_check_lines, run_run};
use std::alloc::Global;
use std::io;
use std::io::{ErrorKind, Read, Write};

/// A command, and how its output is written.
#[derive(Drop)]
pub struct Asked<'a> {
    /// What is asked for.
    pub command: AskedCommand<'a>,
    /// Of which kind the lines of its output are, if each is to be written as a line of JSON.
    pub json: Option<JsonKind>,
}

/// What the program is asked to do.
#[derive(Drop)]
pub enum AskedCommand<'a> {
    /// To check the domain files of these paths, and to say of refused ones why, if that is asked for.
    Check {
        files: Vec<&'a str>,
        explain: bool,
    },
    /// To check a domain file with scripts and schedules. It is a wrong command line if there are more files.
    CheckLines {
        options: CheckOptions<'a>,
        has_more: bool,
    },
    /// To tell what is senseless in domain files.
    Lint(LintOptions<'a>),
    /// To run a schedule on a domain, and to say why the domain is refused, if that is asked for.
    Step {
        options: StepOptions<'a>,
        explain: bool,
    },
    /// To run a script on a domain, in threads.
    Run(RunOptions<'a>),
    /// To run a manager on a domain, which other programs talk to.
    Live(LiveOptions<'a>),
    /// To begin the log that follows that of a manager.
    Next(NextOptions<'a>),
    /// To print the canonical text of a domain file, or to compare the file with it.
    Print(PrintOptions<'a>),
    /// To list what the domain file of this path declares, or to say why it is refused, if that is asked for.
    List {
        file: &'a str,
        explain: bool,
    },
    /// To draw a domain, or the run of a journal.
    Graph(GraphOptions<'a>),
    /// To write a page of the run of a journal.
    Page(PageOptions<'a>),
    /// To tell how all stood behind a line of a journal.
    States(StatesOptions<'a>),
    /// To tell what journals have exercised.
    Cover(CoverOptions<'a>),
    /// To judge a journal by a domain.
    Audit(AuditOptions<'a>),
    /// To do one of these five with the log of a live manager.
    OfLog(LogCommand<'a>),
    /// To write the completions of a shell, or the manual page.
    Completions(CompletionFile),
}

impl AskedCommand<'_> {
    // Whether it is asked to say why a text or a line is refused.
    fn explain(&self) -> bool {
        match self {
            AskedCommand::Check { explain, .. }
            | AskedCommand::List { explain, .. }
            | AskedCommand::Step { explain, .. } => *explain,
            AskedCommand::CheckLines { options, .. } => options.explain,
            AskedCommand::Lint(options) => options.explain,
            AskedCommand::Run(options) => options.explain,
            AskedCommand::Live(options) => options.explain,
            AskedCommand::Next(options) => options.explain,
            AskedCommand::Audit(options) => options.explain,
            AskedCommand::Print(options) => options.explain,
            AskedCommand::Graph(options) => options.explain,
            AskedCommand::States(options) => options.explain,
            AskedCommand::Cover(options) => options.explain,
            AskedCommand::OfLog(command) => command.explain(),
            AskedCommand::Page(_) | AskedCommand::Completions(_) => false,
        }
    }
}

/// Does what is asked, and returns the exit status.
///
/// A file that is named `-` is `input`, and so are the lines of a manager, which it takes in turn. The result of the
/// command goes to `output`. A fault line (docs/FORMATS.md, "Fault lines and exit statuses") goes to `errors`, behind
/// it the cause where `output` failed for one, and then the advice, if that is asked for. A fault of `errors` changes
/// nothing, since there is no place left to tell it.
pub fn perform<R: Host + LiveHost, I: Read, W: Write, E: Write>(
    rt: &R,
    asked: &Asked<'_>,
    input: &mut I,
    output: &mut W,
    errors: &mut E,
) -> u8
    ensures { result ≤ 4 }
{
    let command = &asked.command;
    let mut advice = Advice::new(rt.alloc(), command.explain());
    let mut shown = Shown::new(rt.alloc(), output, asked.json);
    let mut traced = TracedWriter::new(&mut shown);
    let status = perform_advised(rt, command, input, &mut traced, errors, &mut advice);
    traced.tell(errors);
    advice.tell(errors);
    status
}

// Does what is asked, and returns the exit status. The advice goes to `advice`. Each command has its own function, so
// that this one only tells them apart: as one function it was among the slowest to prove.
fn perform_advised<R: Host + LiveHost, I: Read, W: Write, E: Write>(
    rt: &R,
    asked: &AskedCommand<'_>,
    input: &mut I,
    output: &mut W,
    errors: &mut E,
    advice: &mut Advice,
) -> u8
    ensures { result ≤ 4 }
{
    match asked {
        AskedCommand::Check { files, explain } => check(rt, files, *explain, input, output, errors),
        AskedCommand::CheckLines { options, .. } => check_lines(rt, options, input, output, errors),
        AskedCommand::Lint(options) => lint(rt, options, input, output, errors),
        AskedCommand::Print(options) => print(rt, options, input, output, errors, advice),
        AskedCommand::List { file, .. } => list(rt, file, input, output, errors, advice),
        AskedCommand::Graph(options) => graph(rt, options, input, output, errors, advice),
        AskedCommand::Page(options) => page(rt, options, input, output, errors, advice),
        AskedCommand::States(options) => states(rt, options, input, output, errors, advice),
        AskedCommand::Cover(options) => cover(rt, options, input, output, errors, advice),
        AskedCommand::Step { options, .. } => step(rt, options, input, output, errors, advice),
        AskedCommand::Run(options) => run(rt, options, input, output, errors, advice),
        AskedCommand::Live(options) => live(rt, options, input, output, errors, advice),
        AskedCommand::Next(options) => next(rt, options, input, output, errors, advice),
        AskedCommand::Audit(options) => audit(rt, options, input, output, errors, advice),
        AskedCommand::OfLog(command) => of_log(rt, command, input, output, errors, advice),
        AskedCommand::Completions(file) => completions(rt.alloc(), *file, output, errors),
    }
}

/// Runs a manager whose lines are those of `input`, as they come, and returns the exit status.
///
/// What is written goes where `perform` writes it.
pub fn perform_live<
    R: Host + LiveHost + 'static,
    I: Read + Send + Drop + 'static,
    W: Write,
    E: Write,
>(rt: &R, options: &LiveOptions<'_>, input: I, output: &mut W, errors: &mut E) -> u8
    ensures { result ≤ 4 }
{
    let mut advice = Advice::new(rt.alloc(), options.explain);
    let mut traced = TracedWriter::new(output);
    let done = run_live_as_lines_come(rt, options, input, &mut traced, errors, &mut advice);
    let status = ended(&done, errors);
    traced.tell(errors);
    advice.tell(errors);
    status
}

// Checks domain files.
fn check<R: Host + LiveHost, I: Read, W: Write, E: Write>(
    rt: &R,
    files: &[&str],
    explain: bool,
    input: &mut I,
    output: &mut W,
    errors: &mut E,
) -> u8
    ensures { result ≤ 4 }
{
    let outcome = run_check(rt, files, explain, input, output, errors);
    status_of(&outcome, errors)
}

// Checks a domain file with scripts and schedules.
fn check_lines<R: Host + LiveHost, I: Read, W: Write, E: Write>(
    rt: &R,
    options: &CheckOptions<'_>,
    input: &mut I,
    output: &mut W,
    errors: &mut E,
) -> u8
    ensures { result ≤ 4 }
{
    let outcome = run_check_lines(rt, options, input, output, errors);
    status_of(&outcome, errors)
}

// Tells what is senseless in domain files.
fn lint<R: Host + LiveHost, I: Read, W: Write, E: Write>(
    rt: &R,
    options: &LintOptions<'_>,
    input: &mut I,
    output: &mut W,
    errors: &mut E,
) -> u8
    ensures { result ≤ 4 }
{
    let outcome = run_lint(rt, options, input, output, errors);
    status_of(&outcome, errors)
}

// Prints the canonical text of a domain file, or compares the file with it.
fn print<R: Host + LiveHost, I: Read, W: Write, E: Write>(
    rt: &R,
    options: &PrintOptions<'_>,
    input: &mut I,
    output: &mut W,
    errors: &mut E,
    advice: &mut Advice,
) -> u8
    ensures { result ≤ 4 }
{
    let outcome = run_print(rt, options, input, output, advice);
    status_of(&outcome, errors)
}

// Lists what a domain file declares.
fn list<R: Host + LiveHost, I: Read, W: Write, E: Write>(
    rt: &R,
    file: &str,
    input: &mut I,
    output: &mut W,
    errors: &mut E,
    advice: &mut Advice,
) -> u8
    ensures { result ≤ 4 }
{
    let outcome = run_list(rt, file, input, output, advice);
    ended(&outcome, errors)
}

// Draws a domain, or the run of a journal.
fn graph<R: Host + LiveHost, I: Read, W: Write, E: Write>(
    rt: &R,
    options: &GraphOptions<'_>,
    input: &mut I,
    output: &mut W,
    errors: &mut E,
    advice: &mut Advice,
) -> u8
    ensures { result ≤ 4 }
{
    let outcome = run_graph(rt, options, input, output, errors, advice);
    ended(&outcome, errors)
}

// Writes a page of the run of a journal.
fn page<R: Host + LiveHost, I: Read, W: Write, E: Write>(
    rt: &R,
    options: &PageOptions<'_>,
    input: &mut I,
    output: &mut W,
    errors: &mut E,
    advice: &mut Advice,
) -> u8
    ensures { result ≤ 4 }
{
    let outcome = run_page(rt, options, input, output, advice);
    ended(&outcome, errors)
}

// Runs a schedule.
fn step<R: Host + LiveHost, I: Read, W: Write, E: Write>(
    rt: &R,
    options: &StepOptions<'_>,
    input: &mut I,
    output: &mut W,
    errors: &mut E,
    advice: &mut Advice,
) -> u8
    ensures { result ≤ 4 }
{
    let outcome = run_step(rt, options, input, output, errors, advice);
    status_of(&outcome, errors)
}

// Runs a script in threads.
fn run<R: Host + LiveHost, I: Read, W: Write, E: Write>(
    rt: &R,
    options: &RunOptions<'_>,
    input: &mut I,
    output: &mut W,
    errors: &mut E,
    advice: &mut Advice,
) -> u8
    ensures { result ≤ 4 }
{
    let outcome = run_run(rt, options, input, output, errors, advice);
    status_of(&outcome, errors)
}

// Runs a manager over lines that are all there.
fn live<R: Host + LiveHost, I: Read, W: Write, E: Write>(
    rt: &R,
    options: &LiveOptions<'_>,
    input: &mut I,
    output: &mut W,
    errors: &mut E,
    advice: &mut Advice,
) -> u8
    ensures { result ≤ 4 }
{
    let outcome = run_live(rt, options, input, output, errors, advice);
    ended(&outcome, errors)
}

// Begins the log that follows that of a manager.
fn next<R: Host + LiveHost, I: Read, W: Write, E: Write>(
    rt: &R,
    options: &NextOptions<'_>,
    input: &mut I,
    output: &mut W,
    errors: &mut E,
    advice: &mut Advice,
) -> u8
    ensures { result ≤ 4 }
{
    let outcome = run_next(rt, options, input, output, errors, advice);
    status_of(&outcome, errors)
}

// Tells how all stood behind a line of a journal.
fn states<R: Host + LiveHost, I: Read, W: Write, E: Write>(
    rt: &R,
    options: &StatesOptions<'_>,
    input: &mut I,
    output: &mut W,
    errors: &mut E,
    advice: &mut Advice,
) -> u8
    ensures { result ≤ 4 }
{
    let outcome = run_states(rt, options, input, output, advice);
    status_of(&outcome, errors)
}

// Tells what journals have exercised.
fn cover<R: Host + LiveHost, I: Read, W: Write, E: Write>(
    rt: &R,
    options: &CoverOptions<'_>,
    input: &mut I,
    output: &mut W,
    errors: &mut E,
    advice: &mut Advice,
) -> u8
    ensures { result ≤ 4 }
{
    let outcome = run_cover(rt, options, input, output, errors, advice);
    status_of(&outcome, errors)
}

// Judges a journal.
fn audit<R: Host + LiveHost, I: Read, W: Write, E: Write>(
    rt: &R,
    options: &AuditOptions<'_>,
    input: &mut I,
    output: &mut W,
    errors: &mut E,
    advice: &mut Advice,
) -> u8
    ensures { result ≤ 4 }
{
    let outcome = run_audit(rt, options, input, output, errors, advice);
    status_of(&outcome, errors)
}

// Does with a log what a command does with a journal.
fn of_log<R: Host + LiveHost, I: Read, W: Write, E: Write>(
    rt: &R,
    command: &LogCommand<'_>,
    input: &mut I,
    output: &mut W,
    errors: &mut E,
    advice: &mut Advice,
) -> u8
    ensures { result ≤ 4 }
{
    let outcome = run_over_log(rt, command, input, output, errors, advice);
    status_of(&outcome, errors)
}

// Writes the completions of a shell, or the manual page.
fn completions<W: Write, E: Write>(
    alloc: Global,
    file: CompletionFile,
    output: &mut W,
    errors: &mut E,
) -> u8
    ensures { result ≤ 4 }
{
    let outcome = run_completions(alloc, file, output);
    ended(&outcome, errors)
}

// The status that a command returns, or that of its fault, which is told.
fn status_of<E: Write>(outcome: &Result<u8, Fault<'_>>, errors: &mut E) -> u8
    requires { IfOk outcome.now (λ status. status ≤ 4) }
    ensures ok { IfOk outcome.now (λ status. result ≡ status) }
    ensures err { IfErr outcome.now (λ fault. result ≡ fault_status fault) }
    ensures range { result ≤ 4 }
{
    match outcome {
        Ok(status) => *status,
        Err(fault) => fault.tell(errors),
    }
}

// The status of a command that did what it was asked, or that of its fault, which is told.
fn ended<E: Write>(outcome: &Result<(), Fault<'_>>, errors: &mut E) -> u8
    ensures ok { IfOk outcome.now (λ _. result ≡ 0) }
    ensures err { IfErr outcome.now (λ fault. result ≡ fault_status fault) }
    ensures range { result ≤ 3 }
{
    match outcome {
        Ok(()) => DONE,
        Err(fault) => fault.tell(errors),
    }
}

/// Ends a program whose words cannot be read: they are not all text, or memory ran out for them.
pub fn refuse_words<E: Write>(error: &io::Error, errors: &mut E) -> u8
    ensures memory { error_kind error.now ≡ ErrorKind.OutOfMemory → result ≡ 3 }
    ensures not_text { error_kind error.now ≢ ErrorKind.OutOfMemory → result ≡ 2 }
{
    if error.kind() == ErrorKind::OutOfMemory {
        return Fault::Memory.tell(errors);
    }
    let _ = writeln!(
        errors,
        "error: the words of the command line are not all text"
    );
    WRONG_WORDS
}
