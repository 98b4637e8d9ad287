//! The command line.

use crate::asked::{Asked, AskedCommand};
use crate::grammar::smirun_command;
use crate::maker::HelpLength;
use crate::terminals::Terminals;
use clap::error::ErrorKind;
use clap::{ArgMatches, Command, Error};
use show_completions::CompletionFile;
use show_json::JsonKind;
use smirun_commands::{
    AuditOptions, CoverOptions, GraphOptions, LintOptions, PageOptions, PrintOptions,
    STANDARD_INPUT, StatesOptions, StepOptions,
};
use smirun_live::LiveOptions;
use smirun_logs::LogCommand;
use smirun_next::NextOptions;
use smirun_run::{CheckOptions, RunNumbers, RunOptions};
use std::alloc::{AllocError, Global};

/// Reads the words of a command line, the program's name first. A request for help or for the version is an
/// `Err` too, and the error tells which it is.
pub fn parse<'a>(
    alloc: Global,
    words: &'a [String],
    terminals: Terminals,
) -> Result<Asked<'a>, Error> {
    let mut command = smirun_command(alloc, help_length(words))?;
    read_words(alloc, &mut command, words, terminals)
}

// Of which length help is, if the words ask for it: the first of them that does says so.
fn help_length(words: &[String]) -> HelpLength {
    for word in words {
        if word.as_str() == "--help" {
            return HelpLength::Full;
        }
        if word.starts_with("-h") {
            return HelpLength::Short;
        }
    }
    HelpLength::Full
}

fn read_words<'a>(
    alloc: Global,
    command: &mut Command<'a>,
    words: &'a [String],
    terminals: Terminals,
) -> Result<Asked<'a>, Error> {
    let matches = command.try_get_matches_from_mut(words)?;
    let Some(asked) = asked_of(alloc, &matches, terminals)? else {
        return Err(command.error(ErrorKind::MissingSubcommand, "no command is given")?);
    };
    match conflict_of(&asked) {
        Some(told) => Err(command.error(ErrorKind::ArgumentConflict, told)?),
        None => Ok(Asked {
            command: asked,
            json: json_asked(&matches),
        }),
    }
}

// Whether a command is to say why something is refused: by a word, or where standard error is a terminal and no word is
// against it.
fn explains(command: &ArgMatches<'_>, terminals: Terminals) -> bool {
    command.get_flag("explain") || (terminals.errors && !command.get_flag("no-explain"))
}

// Whether `step` is to explain the lines of a schedule. That has each line of output written out before the next is
// read, so without a word it is done only where a person reads both streams, or gives the lines.
fn explains_lines(step: &ArgMatches<'_>, schedule: &str, terminals: Terminals) -> bool {
    let is_read = terminals.output || schedule == STANDARD_INPUT;
    step.get_flag("explain") || (is_read && explains(step, terminals))
}

// The commands that write lines of JSON where that is asked for, with the kinds of their lines.
const IN_JSON: [(&str, JsonKind); 4] = [
    ("step", JsonKind::Steps),
    ("run", JsonKind::Summary),
    ("audit", JsonKind::Judgement),
    ("list", JsonKind::Declarations),
];

// Of which kind the lines are that are to be written as JSON, if they are.
fn json_asked(matches: &ArgMatches<'_>) -> Option<JsonKind> {
    for (name, kind) in IN_JSON {
        if let Some(command) = matches.subcommand_matches(name) {
            return command.get_flag("json").then_some(kind);
        }
    }
    None
}

// Why paths of a command line do not go together, if they do not.
fn conflict_of(asked: &AskedCommand<'_>) -> Option<&'static str> {
    if inputs(asked) > 1 {
        Some("`-` stands more than once, and standard input is read once")
    } else if matches!(asked, AskedCommand::CheckLines { has_more: true, .. }) {
        Some("`--script` and `--schedule` go with one FILE")
    } else if has_no_file(asked) {
        Some("`live` takes no domain from standard input, which has the lines")
    } else if written(asked) == Some(STANDARD_INPUT) {
        Some("`-` is no file to write: take /dev/stdout, or ./- for a file of that name")
    } else {
        None
    }
}

// The path of the journal or of the log that is to be written, if there is one.
fn written<'a>(asked: &AskedCommand<'a>) -> Option<&'a str> {
    match asked {
        AskedCommand::Step { options, .. } => options.journal,
        AskedCommand::Run(options) => options.journal,
        AskedCommand::Live(options) => options.log,
        AskedCommand::Next(options) => Some(options.log),
        _ => None,
    }
}

// Whether a manager is to take its domain from where its lines come.
fn has_no_file(asked: &AskedCommand<'_>) -> bool {
    match asked {
        AskedCommand::Live(options) => options.file == STANDARD_INPUT,
        _ => false,
    }
}

// How many files are to be standard input.
fn inputs(asked: &AskedCommand<'_>) -> usize {
    match asked {
        AskedCommand::Check { files, .. } => inputs_in(files.as_slice()),
        AskedCommand::CheckLines { options, .. } => {
            inputs_in(&[options.file])
                .saturating_add(inputs_in(options.scripts.as_slice()))
                .saturating_add(inputs_in(options.schedules.as_slice()))
        }
        AskedCommand::Lint(options) => inputs_in(options.files.as_slice()),
        AskedCommand::Print(options) => inputs_in(&[options.file]),
        AskedCommand::List { file, .. } => inputs_in(&[file]),
        AskedCommand::Graph(options) => inputs_in(&[options.file, options.journal.unwrap_or("")]),
        AskedCommand::Page(options) => inputs_in(&[options.file, options.journal]),
        AskedCommand::States(options) => inputs_in(&[options.file, options.journal]),
        AskedCommand::Cover(options) => {
            inputs_in(&[options.file]).saturating_add(inputs_in(options.journals.as_slice()))
        }
        AskedCommand::Step { options, .. } => inputs_in(&[options.file, options.schedule]),
        AskedCommand::Run(options) => inputs_in(&[options.file, options.script]),
        AskedCommand::Live(_) => 1,
        AskedCommand::Next(options) => inputs_in(&[options.file]),
        AskedCommand::Completions(_) => 0,
        AskedCommand::Audit(options) => inputs_in(&[options.file, options.journal]),
        AskedCommand::OfLog(command) => log_inputs(command),
    }
}

// How many files are to be standard input where a log is asked about.
fn log_inputs(command: &LogCommand<'_>) -> usize {
    match command {
        LogCommand::States(options) => inputs_in(&[options.file, options.journal]),
        LogCommand::Audit(options) => inputs_in(&[options.file, options.journal]),
        LogCommand::Page(options) => inputs_in(&[options.file, options.journal]),
        LogCommand::Graph(options, log) => inputs_in(&[options.file, log]),
        LogCommand::Cover(options) => {
            inputs_in(&[options.file]).saturating_add(inputs_in(options.journals.as_slice()))
        }
    }
}

fn inputs_in(files: &[&str]) -> usize {
    files.iter().filter(|file| **file == STANDARD_INPUT).count()
}

fn asked_of<'a>(
    alloc: Global,
    matches: &ArgMatches<'a>,
    terminals: Terminals,
) -> Result<Option<AskedCommand<'a>>, AllocError> {
    let Some((name, command)) = matches.subcommand() else {
        return Ok(None);
    };
    match name {
        "check" => files_to_check(alloc, command, terminals),
        "lint" => files_to_lint(alloc, command, terminals),
        "print" => Ok(file_to_print(command, terminals)),
        "list" => Ok(file_to_list(command, terminals)),
        "graph" => Ok(what_to_draw(command, terminals)),
        "page" => Ok(run_to_show(command)),
        "states" => Ok(states_to_tell(command, terminals)),
        "cover" => journals_to_count(alloc, command, terminals),
        "step" => Ok(schedule_to_run(command, terminals)),
        "run" => Ok(script_to_run(command, terminals)),
        "live" => Ok(manager_to_run(command, terminals)),
        "next" => Ok(log_to_follow(command, terminals)),
        "audit" => Ok(journal_to_judge(command, terminals)),
        "completions" => Ok(file_to_complete(command)),
        _ => Ok(None),
    }
}

fn files_to_check<'a>(
    alloc: Global,
    check: &ArgMatches<'a>,
    terminals: Terminals,
) -> Result<Option<AskedCommand<'a>>, AllocError> {
    let Some(files) = check.get_strs("FILE") else {
        return Ok(None);
    };
    let scripts = check.get_strs("script").unwrap_or(&[]);
    let schedules = check.get_strs("schedule").unwrap_or(&[]);
    let explain = explains(check, terminals);
    match files.first() {
        Some(file) if scripts.len() > 0 || schedules.len() > 0 => {
            Ok(Some(AskedCommand::CheckLines {
                options: CheckOptions {
                    file,
                    scripts: scripts.to_vec(alloc)?,
                    schedules: schedules.to_vec(alloc)?,
                    explain,
                },
                has_more: files.len() > 1,
            }))
        }
        _ => Ok(Some(AskedCommand::Check {
            files: files.to_vec(alloc)?,
            explain,
        })),
    }
}

fn files_to_lint<'a>(
    alloc: Global,
    lint: &ArgMatches<'a>,
    terminals: Terminals,
) -> Result<Option<AskedCommand<'a>>, AllocError> {
    let Some(files) = lint.get_strs("FILE") else {
        return Ok(None);
    };
    Ok(Some(AskedCommand::Lint(LintOptions {
        files: files.to_vec(alloc)?,
        all: lint.get_flag("all"),
        strict: lint.get_flag("strict"),
        explain: explains(lint, terminals),
    })))
}

fn file_to_print<'a>(print: &ArgMatches<'a>, terminals: Terminals) -> Option<AskedCommand<'a>> {
    Some(AskedCommand::Print(PrintOptions {
        file: print.get_str("FILE")?,
        explain: explains(print, terminals),
        check: print.get_flag("check"),
        keep: print.get_flag("keep"),
    }))
}

fn file_to_list<'a>(list: &ArgMatches<'a>, terminals: Terminals) -> Option<AskedCommand<'a>> {
    Some(AskedCommand::List {
        file: list.get_str("FILE")?,
        explain: explains(list, terminals),
    })
}

// The path of a journal, or of the log that stands in its place.
fn run_path<'a>(command: &ArgMatches<'a>) -> Option<&'a str> {
    command.get_str("JOURNAL").or(command.get_str("log"))
}

// Whether a log stands in the place of a journal.
fn is_of_log(command: &ArgMatches<'_>) -> bool {
    command.get_str("log").is_some()
}

fn what_to_draw<'a>(graph: &ArgMatches<'a>, terminals: Terminals) -> Option<AskedCommand<'a>> {
    let options = GraphOptions {
        file: graph.get_str("FILE")?,
        journal: graph.get_str("JOURNAL"),
        objects: graph.get_flag("objects"),
        members: graph.get_flag("members"),
        from: graph.get_one::<usize>("from")?,
        count: graph.get_one::<usize>("count")?,
        explain: explains(graph, terminals),
    };
    Some(match graph.get_str("log") {
        Some(log) => AskedCommand::OfLog(LogCommand::Graph(options, log)),
        None => AskedCommand::Graph(options),
    })
}

fn run_to_show<'a>(page: &ArgMatches<'a>) -> Option<AskedCommand<'a>> {
    let options = PageOptions {
        file: page.get_str("FILE")?,
        journal: run_path(page)?,
    };
    Some(if is_of_log(page) {
        AskedCommand::OfLog(LogCommand::Page(options))
    } else {
        AskedCommand::Page(options)
    })
}

fn states_to_tell<'a>(states: &ArgMatches<'a>, terminals: Terminals) -> Option<AskedCommand<'a>> {
    let options = StatesOptions {
        file: states.get_str("FILE")?,
        journal: run_path(states)?,
        at: states.get_one::<usize>("at"),
        with: states.get_one::<usize>("with"),
        explain: explains(states, terminals),
    };
    Some(if is_of_log(states) {
        AskedCommand::OfLog(LogCommand::States(options))
    } else {
        AskedCommand::States(options)
    })
}

fn journals_to_count<'a>(
    alloc: Global,
    cover: &ArgMatches<'a>,
    terminals: Terminals,
) -> Result<Option<AskedCommand<'a>>, AllocError> {
    let Some(file) = cover.get_str("FILE") else {
        return Ok(None);
    };
    let Some(runs) = cover.get_strs("JOURNAL").or(cover.get_strs("log")) else {
        return Ok(None);
    };
    let options = CoverOptions {
        file,
        journals: runs.to_vec(alloc)?,
        strict: cover.get_flag("strict"),
        explain: explains(cover, terminals),
    };
    Ok(Some(if cover.get_strs("log").is_some() {
        AskedCommand::OfLog(LogCommand::Cover(options))
    } else {
        AskedCommand::Cover(options)
    }))
}

fn schedule_to_run<'a>(step: &ArgMatches<'a>, terminals: Terminals) -> Option<AskedCommand<'a>> {
    let schedule = step.get_str("SCHEDULE")?;
    let options = StepOptions {
        file: step.get_str("FILE")?,
        schedule,
        capacity: step.get_one::<usize>("capacity")?,
        max_starts: step.get_one::<usize>("max-starts")?,
        journal: step.get_str("journal"),
        strict: step.get_flag("strict"),
        explain: explains_lines(step, schedule, terminals),
        states: step.get_flag("states"),
    };
    Some(AskedCommand::Step {
        options,
        explain: explains(step, terminals),
    })
}

fn script_to_run<'a>(run: &ArgMatches<'a>, terminals: Terminals) -> Option<AskedCommand<'a>> {
    let numbers = RunNumbers {
        workers: run.get_one::<usize>("workers")?,
        capacity: run.get_one::<usize>("capacity")?,
        max_starts: run.get_one::<usize>("max-starts")?,
    };
    Some(AskedCommand::Run(RunOptions {
        file: run.get_str("FILE")?,
        script: run.get_str("SCRIPT")?,
        numbers,
        journal: run.get_str("journal"),
        progress: terminals.errors && run.get_flag("progress"),
        explain: explains(run, terminals),
        strict: run.get_flag("strict"),
        states: run.get_flag("states"),
    }))
}

fn manager_to_run<'a>(live: &ArgMatches<'a>, terminals: Terminals) -> Option<AskedCommand<'a>> {
    Some(AskedCommand::Live(LiveOptions {
        file: live.get_str("FILE")?,
        log: live.get_str("log"),
        resume: live.get_flag("resume"),
        sync: live.get_flag("sync"),
        in_turn: live.get_flag("in-turn"),
        capacity: live.get_one::<usize>("capacity")?,
        max_starts: live.get_one::<usize>("max-starts")?,
        explain: explains(live, terminals),
    }))
}

fn log_to_follow<'a>(next: &ArgMatches<'a>, terminals: Terminals) -> Option<AskedCommand<'a>> {
    Some(AskedCommand::Next(NextOptions {
        file: next.get_str("FILE")?,
        log: next.get_str("LOG")?,
        capacity: next.get_one::<usize>("capacity"),
        explain: explains(next, terminals),
    }))
}

fn journal_to_judge<'a>(audit: &ArgMatches<'a>, terminals: Terminals) -> Option<AskedCommand<'a>> {
    let options = AuditOptions {
        file: audit.get_str("FILE")?,
        journal: run_path(audit)?,
        explain: explains(audit, terminals),
    };
    Some(if is_of_log(audit) {
        AskedCommand::OfLog(LogCommand::Audit(options))
    } else {
        AskedCommand::Audit(options)
    })
}

fn file_to_complete<'a>(completions: &ArgMatches<'a>) -> Option<AskedCommand<'a>> {
    let file = CompletionFile::named(completions.get_str("SHELL")?)?;
    Some(AskedCommand::Completions(file))
}
