//! Completions for fish.

use crate::values::{
    Value, about_of, add_commands, add_names, add_quoted, help_of, is_help, value_of,
};
use clap::{Arg, Command};
use std::alloc::{AllocError, Global};

/// The text of a file for fish.
pub(crate) fn completions(alloc: Global, command: &Command<'_>) -> Result<String, AllocError> {
    let name = command.get_name();
    let mut text = format!(in alloc;
        "# Completions of {name} for fish, as `{name} completions fish` writes them.\n\n"
    )?;
    let front = format!(in alloc; "complete -c {name} -n __fish_use_subcommand")?;
    write!(text, "{front} -f\n")?;
    for argument in command.get_arguments() {
        add_argument(&mut text, front.as_str(), argument)?;
    }
    for below in command.get_subcommands() {
        write!(text, "{front} -a {}", below.get_name())?;
        add_description(&mut text, about_of(below))?;
    }
    for below in command.get_subcommands() {
        add_command(&mut text, alloc, command, below)?;
    }
    Ok(text)
}

// Adds what may stand behind a command.
fn add_command(
    text: &mut String,
    alloc: Global,
    above: &Command<'_>,
    command: &Command<'_>,
) -> Result<(), AllocError> {
    let front = format!(in alloc;
        "complete -c {} -n '__fish_seen_subcommand_from {}'",
        above.get_name(),
        command.get_name()
    )?;
    if is_help(command) {
        write!(text, "{front} -f -a '")?;
        add_commands(text, above)?;
        return text.push_str("'\n");
    }
    for argument in command.get_arguments() {
        add_argument(text, front.as_str(), argument)?;
    }
    Ok(())
}

// Adds an argument: an option, or names. Files are offered where nothing is said.
fn add_argument(text: &mut String, front: &str, argument: &Arg<'_>) -> Result<(), AllocError> {
    let value = value_of(argument);
    let Some(long) = argument.get_long() else {
        return match value {
            Value::Names(names) => add_choice(text, front, names),
            _ => Ok(()),
        };
    };
    text.push_str(front)?;
    if let Some(short) = argument.get_short() {
        write!(text, " -s {short}")?;
    }
    write!(text, " -l {long}")?;
    text.push_str(match value {
        Value::Nothing => "",
        Value::Path => " -r -F",
        Value::Names(_) | Value::Number => " -x",
    })?;
    add_description(text, help_of(argument))
}

// Adds names, one of which stands there.
fn add_choice(text: &mut String, front: &str, names: &[&str]) -> Result<(), AllocError> {
    write!(text, "{front} -f -a '")?;
    add_names(text, names)?;
    text.push_str("'\n")
}

// Adds what is shown beside a word, and ends the line.
fn add_description(text: &mut String, words: &str) -> Result<(), AllocError> {
    text.push_str(" -d '")?;
    add_quoted(text, words, "\\'")?;
    text.push_str("'\n")
}
