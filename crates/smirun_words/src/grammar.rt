//! The commands of the program and their arguments.

use crate::help;
use crate::help::ArgumentHelp;
use crate::help::FILE;
use crate::help::JSON;
use crate::help::LOG;
use crate::help::LOGS;
use crate::help::NO_EXPLAIN;
use crate::help::WHY_LINES;
use crate::help::WHY_REFUSED;
use crate::help::WHY_TEXTS;
use crate::help::audit::AUDIT;
use crate::help::audit::AUDIT_EXAMPLES;
use crate::help::audit::AUDIT_MORE;
use crate::help::audit::EXPLAIN;
use crate::help::audit::JOURNAL;
use crate::help::check::CHECK;
use crate::help::check::CHECK_EXAMPLES;
use crate::help::check::CHECK_MORE;
use crate::help::check::CHECKED_SCHEDULE;
use crate::help::check::CHECKED_SCRIPT;
use crate::help::check::FILES;
use crate::help::completions::COMPLETIONS;
use crate::help::completions::COMPLETIONS_EXAMPLES;
use crate::help::completions::COMPLETIONS_MORE;
use crate::help::completions::SHELL;
use crate::help::cover::COUNTED_JOURNALS;
use crate::help::cover::COVER;
use crate::help::cover::COVER_EXAMPLES;
use crate::help::cover::COVER_MORE;
use crate::help::cover::COVER_STRICT;
use crate::help::graph::COUNT;
use crate::help::graph::DRAWN_JOURNAL;
use crate::help::graph::FROM;
use crate::help::graph::GRAPH;
use crate::help::graph::GRAPH_EXAMPLES;
use crate::help::graph::GRAPH_MORE;
use crate::help::graph::MEMBERS;
use crate::help::graph::OBJECTS;
use crate::help::lint::ALL;
use crate::help::lint::LINT;
use crate::help::lint::LINT_EXAMPLES;
use crate::help::lint::LINT_MORE;
use crate::help::lint::LINT_STRICT;
use crate::help::lint::LINTED;
use crate::help::lint::WHY_SENSELESS;
use crate::help::list::LIST;
use crate::help::list::LIST_EXAMPLES;
use crate::help::list::LIST_MORE;
use crate::help::live::IN_TURN;
use crate::help::live::KEPT_LOG;
use crate::help::live::LIVE;
use crate::help::live::LIVE_EXAMPLES;
use crate::help::live::LIVE_FILE;
use crate::help::live::LIVE_MORE;
use crate::help::live::RESUME;
use crate::help::live::SYNC;
use crate::help::next::FOLLOWED_LOG;
use crate::help::next::NEXT;
use crate::help::next::NEXT_CAPACITY;
use crate::help::next::NEXT_EXAMPLES;
use crate::help::next::NEXT_MORE;
use crate::help::page::PAGE;
use crate::help::page::PAGE_EXAMPLES;
use crate::help::page::PAGE_MORE;
use crate::help::page::SHOWN_JOURNAL;
use crate::help::print::COMPARE;
use crate::help::print::KEEP;
use crate::help::print::PRINT;
use crate::help::print::PRINT_EXAMPLES;
use crate::help::print::PRINT_MORE;
use crate::help::print::WHY_DIFFERS;
use crate::help::run::PROGRESS;
use crate::help::run::RUN;
use crate::help::run::RUN_EXAMPLES;
use crate::help::run::RUN_JOURNAL;
use crate::help::run::RUN_MORE;
use crate::help::run::RUN_STATES;
use crate::help::run::RUN_STRICT;
use crate::help::run::SCRIPT;
use crate::help::run::WORKERS;
use crate::help::states::AT;
use crate::help::states::STATES_COMMAND;
use crate::help::states::STATES_EXAMPLES;
use crate::help::states::STATES_MORE;
use crate::help::states::TOLD_JOURNAL;
use crate::help::states::WITH;
use crate::help::step::CAPACITY;
use crate::help::step::KEPT_JOURNAL;
use crate::help::step::SCHEDULE;
use crate::help::step::STARTS;
use crate::help::step::STATES;
use crate::help::step::STEP;
use crate::help::step::STEP_EXAMPLES;
use crate::help::step::STEP_MORE;
use crate::help::step::STRICT;
use crate::maker::HelpLength;
use crate::maker::Maker;
use clap::Arg;
use clap::ArgAction;
use clap::ArgGroup;
use clap::Command;
use show_completions::CompletionFile;
use smirun_commands::LONGEST_JOURNAL;
use smirun_commands::MAX_CAPACITY;
use smirun_commands::MAX_STARTS;
use smirun_run::MAX_WORKERS;
use std::alloc::AllocError;
use std::alloc::Global;

// The version of the program, and the toolchain that it is proved with: what `--version` writes.
const VERSION: &str = "0.1.0 (proved with rattle-kit-13f logic dac8208d650f15bf)";

/// The program's commands, with their arguments and help of this length. The error is out of memory.
pub(crate) fn smirun_command<'a>(
    alloc: Global,
    length: HelpLength,
) -> Result<Command<'a>, AllocError> {
    let maker = Maker { alloc, length };
    let command = Ok(program(maker));
    let command = with_subcommand(command, check_command(maker));
    let command = with_subcommand(command, lint_command(maker));
    let command = with_subcommand(command, print_command(maker));
    let command = with_subcommand(command, list_command(maker));
    let command = with_subcommand(command, graph_command(maker));
    let command = with_subcommand(command, page_command(maker));
    let command = with_subcommand(command, states_command(maker));
    let command = with_subcommand(command, cover_command(maker));
    let command = with_subcommand(command, step_command(maker));
    let command = with_subcommand(command, run_command(maker));
    let command = with_subcommand(command, live_command(maker));
    let command = with_subcommand(command, next_command(maker));
    let command = with_subcommand(command, audit_command(maker));
    with_subcommand(command, completions_command(maker))
}

// The program without its commands.
fn program<'a>(maker: Maker) -> Command<'a> {
    let command = Command::new(maker.alloc, "smirun")
        .version(VERSION)
        .subcommand_required(true);
    match maker.length {
        HelpLength::Short => command.long_about(help::ABOUT).after_help(help::EXAMPLES),
        HelpLength::Full => command.about(help::ABOUT).after_help(help::STATUSES),
    }
}

// Adds a command, where there was memory for both. The functions below hand commands and arguments on as results, since
// the prover writes out at each `?` how all that is held there is dropped, and a command has some fifty fields.
fn with_subcommand<'a>(
    command: Result<Command<'a>, AllocError>,
    made: Result<Command<'a>, AllocError>,
) -> Result<Command<'a>, AllocError> {
    command?.subcommand(made?)
}

// Adds an argument, where there was memory for both.
fn with_argument<'a>(
    command: Result<Command<'a>, AllocError>,
    made: Result<Arg<'a>, AllocError>,
) -> Result<Command<'a>, AllocError> {
    command?.arg(made?)
}

// Adds a journal and in its place the log of a live manager: one of them, and if it is required, no less.
fn with_run<'a>(
    maker: Maker,
    command: Result<Command<'a>, AllocError>,
    journal: Arg<'a>,
    log: Arg<'a>,
    is_required: bool,
) -> Result<Command<'a>, AllocError> {
    let command = with_argument(command, Ok(journal));
    let command = with_argument(command, Ok(log));
    with_group(command, run_group(maker.alloc, is_required))
}

fn with_group<'a>(
    command: Result<Command<'a>, AllocError>,
    made: Result<ArgGroup<'a>, AllocError>,
) -> Result<Command<'a>, AllocError> {
    command?.group(made?)
}

fn run_group<'a>(alloc: Global, is_required: bool) -> Result<ArgGroup<'a>, AllocError> {
    let group = ArgGroup::new(alloc, "run").required(is_required);
    group.arg("JOURNAL")?.arg("log")
}

fn check_command<'a>(maker: Maker) -> Result<Command<'a>, AllocError> {
    let command = Ok(maker.command("check", CHECK, CHECK_EXAMPLES, CHECK_MORE));
    let command = with_argument(command, Ok(maker.required("FILE", FILES).num_args(1..)));
    let command = with_argument(command, Ok(looked_at(maker, "script", CHECKED_SCRIPT)));
    let command = with_argument(command, Ok(looked_at(maker, "schedule", CHECKED_SCHEDULE)));
    let command = with_argument(command, Ok(explain(maker, WHY_REFUSED)));
    with_argument(command, no_explain(maker))
}

fn lint_command<'a>(maker: Maker) -> Result<Command<'a>, AllocError> {
    let command = Ok(maker.command("lint", LINT, LINT_EXAMPLES, LINT_MORE));
    let command = with_argument(command, Ok(maker.required("FILE", LINTED).num_args(1..)));
    let command = with_argument(command, Ok(maker.flag("all", ALL)));
    let command = with_argument(command, Ok(maker.flag("strict", LINT_STRICT)));
    let command = with_argument(command, Ok(explain(maker, WHY_SENSELESS)));
    with_argument(command, no_explain(maker))
}

fn print_command<'a>(maker: Maker) -> Result<Command<'a>, AllocError> {
    let command = Ok(maker.command("print", PRINT, PRINT_EXAMPLES, PRINT_MORE));
    let command = with_argument(command, Ok(file(maker)));
    let command = with_argument(command, Ok(maker.flag("check", COMPARE)));
    let command = with_argument(command, Ok(maker.flag("keep", KEEP)));
    let command = with_argument(command, Ok(explain(maker, WHY_DIFFERS)));
    with_argument(command, no_explain(maker))
}

fn list_command<'a>(maker: Maker) -> Result<Command<'a>, AllocError> {
    let command = Ok(maker.command("list", LIST, LIST_EXAMPLES, LIST_MORE));
    let command = with_argument(command, Ok(file(maker)));
    let command = with_argument(command, Ok(explain(maker, WHY_REFUSED)));
    let command = with_argument(command, no_explain(maker));
    with_argument(command, Ok(json(maker)))
}

fn graph_command<'a>(maker: Maker) -> Result<Command<'a>, AllocError> {
    let command = Ok(maker.command("graph", GRAPH, GRAPH_EXAMPLES, GRAPH_MORE));
    let command = with_argument(command, Ok(file(maker)));
    let journal = maker.argument("JOURNAL", DRAWN_JOURNAL);
    let command = with_run(maker, command, journal, log(maker), false);
    let command = with_argument(command, objects(maker));
    let command = with_argument(command, members(maker));
    let command = with_argument(command, from(maker));
    let command = with_argument(command, count(maker));
    let command = with_argument(command, Ok(explain(maker, WHY_TEXTS)));
    with_argument(command, no_explain(maker))
}

fn page_command<'a>(maker: Maker) -> Result<Command<'a>, AllocError> {
    let command = Ok(maker.command("page", PAGE, PAGE_EXAMPLES, PAGE_MORE));
    let command = with_argument(command, Ok(file(maker)));
    let journal = maker.argument("JOURNAL", SHOWN_JOURNAL);
    with_run(maker, command, journal, log(maker), true)
}

fn states_command<'a>(maker: Maker) -> Result<Command<'a>, AllocError> {
    let command = Ok(maker.command("states", STATES_COMMAND, STATES_EXAMPLES, STATES_MORE));
    let command = with_argument(command, Ok(file(maker)));
    let journal = maker.argument("JOURNAL", TOLD_JOURNAL);
    let command = with_run(maker, command, journal, log(maker), true);
    let command = with_argument(command, Ok(line_number(maker, "at", "N", AT)));
    let command = with_argument(
        command,
        line_number(maker, "with", "N2", WITH).requires_arg("at"),
    );
    let command = with_argument(command, Ok(explain(maker, WHY_TEXTS)));
    with_argument(command, no_explain(maker))
}

fn cover_command<'a>(maker: Maker) -> Result<Command<'a>, AllocError> {
    let command = Ok(maker.command("cover", COVER, COVER_EXAMPLES, COVER_MORE));
    let command = with_argument(command, Ok(file(maker)));
    let journals = maker.argument("JOURNAL", COUNTED_JOURNALS).num_args(1..);
    let command = with_run(maker, command, journals, logs(maker), true);
    let command = with_argument(command, Ok(maker.flag("strict", COVER_STRICT)));
    let command = with_argument(command, Ok(explain(maker, WHY_TEXTS)));
    with_argument(command, no_explain(maker))
}

fn step_command<'a>(maker: Maker) -> Result<Command<'a>, AllocError> {
    let command = Ok(maker.command("step", STEP, STEP_EXAMPLES, STEP_MORE));
    let command = with_argument(command, Ok(file(maker)));
    let command = with_argument(command, Ok(maker.required("SCHEDULE", SCHEDULE)));
    let command = with_argument(command, Ok(capacity(maker)));
    let command = with_argument(command, Ok(max_starts(maker)));
    let command = with_argument(command, Ok(maker.option("journal", "PATH", KEPT_JOURNAL)));
    let command = with_argument(command, Ok(explain(maker, WHY_LINES)));
    let command = with_argument(command, no_explain(maker));
    let command = with_argument(command, Ok(maker.flag("strict", STRICT)));
    let command = with_argument(command, Ok(maker.flag("states", STATES)));
    with_argument(command, Ok(json(maker)))
}

fn run_command<'a>(maker: Maker) -> Result<Command<'a>, AllocError> {
    let command = Ok(maker.command("run", RUN, RUN_EXAMPLES, RUN_MORE));
    let command = with_argument(command, Ok(file(maker)));
    let command = with_argument(command, Ok(maker.required("SCRIPT", SCRIPT)));
    let command = with_argument(command, Ok(workers(maker)));
    let command = with_argument(command, Ok(capacity(maker)));
    let command = with_argument(command, Ok(max_starts(maker)));
    let command = with_argument(command, Ok(maker.option("journal", "PATH", RUN_JOURNAL)));
    let command = with_argument(command, Ok(maker.flag("progress", PROGRESS)));
    let command = with_argument(command, Ok(explain(maker, WHY_LINES)));
    let command = with_argument(command, no_explain(maker));
    let command = with_argument(command, Ok(maker.flag("strict", RUN_STRICT)));
    let command = with_argument(command, Ok(maker.flag("states", RUN_STATES)));
    with_argument(command, Ok(json(maker)))
}

fn live_command<'a>(maker: Maker) -> Result<Command<'a>, AllocError> {
    let command = Ok(maker.command("live", LIVE, LIVE_EXAMPLES, LIVE_MORE));
    let command = with_argument(command, Ok(maker.required("FILE", LIVE_FILE)));
    let command = with_argument(command, Ok(maker.option("log", "PATH", KEPT_LOG)));
    let command = with_argument(command, maker.flag("resume", RESUME).requires_arg("log"));
    let command = with_argument(command, maker.flag("sync", SYNC).requires_arg("log"));
    let command = with_argument(command, Ok(maker.flag("in-turn", IN_TURN)));
    let command = with_argument(command, Ok(capacity(maker)));
    let command = with_argument(command, Ok(max_starts(maker)));
    let command = with_argument(command, Ok(explain(maker, WHY_LINES)));
    with_argument(command, no_explain(maker))
}

fn next_command<'a>(maker: Maker) -> Result<Command<'a>, AllocError> {
    let command = Ok(maker.command("next", NEXT, NEXT_EXAMPLES, NEXT_MORE));
    let command = with_argument(command, Ok(file(maker)));
    let command = with_argument(command, Ok(maker.required("LOG", FOLLOWED_LOG)));
    let command = with_argument(command, Ok(next_capacity(maker)));
    let command = with_argument(command, Ok(explain(maker, WHY_TEXTS)));
    with_argument(command, no_explain(maker))
}

fn audit_command<'a>(maker: Maker) -> Result<Command<'a>, AllocError> {
    let command = Ok(maker.command("audit", AUDIT, AUDIT_EXAMPLES, AUDIT_MORE));
    let command = with_argument(command, Ok(file(maker)));
    let journal = maker.argument("JOURNAL", JOURNAL);
    let command = with_run(maker, command, journal, log(maker), true);
    let command = with_argument(command, Ok(explain(maker, EXPLAIN)));
    let command = with_argument(command, no_explain(maker));
    with_argument(command, Ok(json(maker)))
}

fn completions_command<'a>(maker: Maker) -> Result<Command<'a>, AllocError> {
    maker
        .command(
            "completions",
            COMPLETIONS,
            COMPLETIONS_EXAMPLES,
            COMPLETIONS_MORE,
        )
        .arg(
            maker
                .required("SHELL", SHELL)
                .value_parser(CompletionFile::NAMES),
        )
}

fn file<'a>(maker: Maker) -> Arg<'a> {
    maker.required("FILE", FILE)
}

fn looked_at<'a>(maker: Maker, name: &'static str, help: ArgumentHelp) -> Arg<'a> {
    maker.option(name, "PATH", help).action(ArgAction::Append)
}

fn explain<'a>(maker: Maker, help: ArgumentHelp) -> Arg<'a> {
    maker.flag("explain", help)
}

// The last one counts of this and of `--explain`.
fn no_explain<'a>(maker: Maker) -> Result<Arg<'a>, AllocError> {
    maker
        .flag("no-explain", NO_EXPLAIN)
        .overrides_with("explain")
}

fn json<'a>(maker: Maker) -> Arg<'a> {
    maker.flag("json", JSON)
}

fn log<'a>(maker: Maker) -> Arg<'a> {
    maker.option("log", "LOG", LOG)
}

fn logs<'a>(maker: Maker) -> Arg<'a> {
    maker.option("log", "LOG", LOGS).action(ArgAction::Append)
}

fn objects<'a>(maker: Maker) -> Result<Arg<'a>, AllocError> {
    maker
        .flag("objects", OBJECTS)
        .conflicts_with("JOURNAL")?
        .conflicts_with("log")
}

fn members<'a>(maker: Maker) -> Result<Arg<'a>, AllocError> {
    maker.flag("members", MEMBERS).requires_arg("objects")
}

fn from<'a>(maker: Maker) -> Result<Arg<'a>, AllocError> {
    line_number(maker, "from", "N", FROM)
        .default_value("1")
        .requires_arg("run")
}

fn count<'a>(maker: Maker) -> Result<Arg<'a>, AllocError> {
    line_number(maker, "count", "M", COUNT)
        .default_value("1000")
        .requires_arg("run")
}

fn line_number<'a>(
    maker: Maker,
    name: &'static str,
    value: &'static str,
    help: ArgumentHelp,
) -> Arg<'a> {
    maker.number(name, value, LONGEST_JOURNAL as i64, help)
}

fn workers<'a>(maker: Maker) -> Arg<'a> {
    maker
        .number("workers", "N", MAX_WORKERS as i64, WORKERS)
        .default_value("2")
}

fn capacity<'a>(maker: Maker) -> Arg<'a> {
    maker
        .number("capacity", "C", MAX_CAPACITY as i64, CAPACITY)
        .default_value("16")
}

// (without one it is that of the log before)
fn next_capacity<'a>(maker: Maker) -> Arg<'a> {
    maker.number("capacity", "C", MAX_CAPACITY as i64, NEXT_CAPACITY)
}

fn max_starts<'a>(maker: Maker) -> Arg<'a> {
    maker
        .number("max-starts", "M", MAX_STARTS as i64, STARTS)
        .default_value("1000000")
}
