//! What arguments take, and the words that several shells want.

use clap::builder::ValueParser;
use clap::{Arg, Command};
use std::alloc::AllocError;

// The command that the parser adds: what stands behind it is the name of another.
const HELP: &str = "help";

/// What may stand as the value of an argument.
#[derive(Clone, Copy)]
pub(crate) enum Value<'a> {
    /// Nothing: it is a flag.
    Nothing,
    /// The path of a file.
    Path,
    /// One of these names.
    Names(&'a [&'a str]),
    /// A number.
    Number,
}

/// What an argument takes.
pub(crate) fn value_of<'a>(argument: &Arg<'a>) -> Value<'a> {
    if !argument.get_action().takes_values() {
        return Value::Nothing;
    }
    match argument.get_value_parser() {
        ValueParser::String => Value::Path,
        ValueParser::Names(names) => Value::Names(names),
        _ => Value::Number,
    }
}

/// Whether a command is the one for help on the others.
pub(crate) fn is_help(command: &Command<'_>) -> bool {
    command.get_name() == HELP
}

/// Whether an argument may stand several times, or have several values.
pub(crate) fn is_repeated(argument: &Arg<'_>) -> bool {
    match argument.get_num_args() {
        Some(range) => range.max_values() > 1,
        None => false,
    }
}

/// The short help of an argument.
pub(crate) fn help_of<'a>(argument: &Arg<'a>) -> &'a str {
    argument.get_help().unwrap_or("")
}

/// What a command does, in a line.
pub(crate) fn about_of<'a>(command: &Command<'a>) -> &'a str {
    command.get_about().unwrap_or("")
}

/// Adds the names of all commands below a command, with blanks between them.
pub(crate) fn add_commands(text: &mut String, command: &Command<'_>) -> Result<(), AllocError> {
    for (at, below) in command.get_subcommands().iter().enumerate() {
        if at > 0 {
            text.push_str(" ")?;
        }
        text.push_str(below.get_name())?;
    }
    Ok(())
}

/// Adds names, with blanks between them.
pub(crate) fn add_names(text: &mut String, names: &[&str]) -> Result<(), AllocError> {
    for (at, name) in names.iter().enumerate() {
        if at > 0 {
            text.push_str(" ")?;
        }
        text.push_str(name)?;
    }
    Ok(())
}

/// Adds a text for a word in single quotes, where `escape` stands for a single quote.
pub(crate) fn add_quoted(text: &mut String, words: &str, escape: &str) -> Result<(), AllocError> {
    for (at, part) in words.split('\'').enumerate() {
        if at > 0 {
            text.push_str(escape)?;
        }
        text.push_str(part)?;
    }
    Ok(())
}
