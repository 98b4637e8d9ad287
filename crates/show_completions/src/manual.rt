//! The manual page.

use crate::manual_text::{add_line, add_text};
use crate::values::{Value, about_of, is_help, is_repeated, value_of};
use clap::{Arg, Command};
use std::alloc::{AllocError, Global};

/// The text of the manual page, whose last section is `closing`.
pub(crate) fn page(
    alloc: Global,
    command: &Command<'_>,
    closing: &str,
) -> Result<String, AllocError> {
    let name = command.get_name();
    let mut text = format!(in alloc;
        ".\\\" The manual page of {name}, as `{name} completions man` writes it.\n"
    )?;
    add_head(&mut text, command)?;
    add_forms(&mut text, command)?;
    text.push_str(".SH DESCRIPTION\n")?;
    add_text(&mut text, command.get_long_about().unwrap_or(""))?;
    text.push_str(".SH COMMANDS\n")?;
    for below in command.get_subcommands() {
        if !is_help(below) {
            add_command(&mut text, alloc, name, below)?;
        }
    }
    text.push_str(".SH NOTES\n")?;
    add_text(&mut text, closing)?;
    Ok(text)
}

// Adds the title, and what the program does in a line.
fn add_head(text: &mut String, command: &Command<'_>) -> Result<(), AllocError> {
    let name = command.get_name();
    let version = command.get_version().unwrap_or("");
    let number = version.split(' ').next().unwrap_or("");
    write!(
        text,
        ".TH {name} 1 \"\" \"{name} {number}\" \"User Commands\"\n"
    )?;
    write!(text, ".SH NAME\n{name} \\- ")?;
    let about = command.get_long_about().unwrap_or("");
    let first = about.split('\n').next().unwrap_or("");
    add_line(text, first.trim_end_matches('.'))
}

// Adds the forms of command lines: those of commands, and those with an option alone.
fn add_forms(text: &mut String, command: &Command<'_>) -> Result<(), AllocError> {
    let name = command.get_name();
    text.push_str(".SH SYNOPSIS\n")?;
    for below in command.get_subcommands() {
        if !is_help(below) {
            write!(text, ".B {name} {}\n", below.get_name())?;
            add_usage(text, below)?;
        }
    }
    for argument in command.get_arguments() {
        write!(text, ".B {name}\n")?;
        add_name(text, argument)?;
        text.push_str(".br\n")?;
    }
    Ok(())
}

// Adds what may stand behind a command, a line each.
fn add_usage(text: &mut String, command: &Command<'_>) -> Result<(), AllocError> {
    text.push_str(".RI [ OPTION ...]\n")?;
    for argument in command.get_arguments() {
        if argument.is_positional() {
            add_place(text, argument)?;
        }
    }
    text.push_str(".br\n")
}

// Adds an argument by its place.
fn add_place(text: &mut String, argument: &Arg<'_>) -> Result<(), AllocError> {
    let id = argument.get_id();
    if !argument.is_required_set() {
        write!(text, ".RI [ {id} ]\n")
    } else if is_repeated(argument) {
        write!(text, ".IR {id} ...\n")
    } else {
        write!(text, ".I {id}\n")
    }
}

// Adds a command: its form, what it does, its arguments, and all that help says behind them.
fn add_command(
    text: &mut String,
    alloc: Global,
    program: &str,
    command: &Command<'_>,
) -> Result<(), AllocError> {
    write!(text, ".SS {program} {}\n", command.get_name())?;
    add_text(text, about_of(command))?;
    for argument in command.get_arguments() {
        text.push_str(".TP\n")?;
        add_name(text, argument)?;
        add_help(text, alloc, argument)?;
    }
    text.push_str(".PP\n")?;
    add_text(text, command.get_long_about().unwrap_or(""))
}

// Adds the names of an argument, and what its value is.
fn add_name(text: &mut String, argument: &Arg<'_>) -> Result<(), AllocError> {
    let Some(long) = argument.get_long() else {
        return write!(text, ".I {}\n", argument.get_id());
    };
    text.push_str(".B ")?;
    if let Some(short) = argument.get_short() {
        write!(text, "\\-{short}\\fR,\\fB ")?;
    }
    text.push_str("\\-\\-")?;
    for (at, part) in long.split('-').enumerate() {
        if at > 0 {
            text.push_str("\\-")?;
        }
        text.push_str(part)?;
    }
    text.push_str(match value_of(argument) {
        Value::Nothing => "\n",
        Value::Path => " \\fIPATH\n",
        Value::Names(_) => " \\fINAME\n",
        Value::Number => " \\fINUMBER\n",
    })
}

// Adds the long help of an argument, and its default.
fn add_help(text: &mut String, alloc: Global, argument: &Arg<'_>) -> Result<(), AllocError> {
    let long = argument.get_long_help();
    let mut help = String::from_str(alloc, long.or(argument.get_help()).unwrap_or(""))?;
    if let Some(default) = argument.get_default_values().first() {
        if !matches!(value_of(argument), Value::Nothing) {
            write!(help, " [default: {default}]")?;
        }
    }
    add_line(text, help.as_str())
}
