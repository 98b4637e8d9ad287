//! Completions for zsh.

use crate::values::{
    Value, about_of, add_names, add_quoted, help_of, is_help, is_repeated, value_of,
};
use clap::{Arg, ArgAction, Command};
use std::alloc::{AllocError, Global};

// What stands for a single quote within single quotes.
const QUOTE: &str = "'\\''";

/// The text of a file for zsh.
pub(crate) fn completions(alloc: Global, command: &Command<'_>) -> Result<String, AllocError> {
    let name = command.get_name();
    let mut text = format!(in alloc;
        "#compdef {name}\n# Completions of {name} for zsh, as `{name} completions zsh` writes them.\n\n"
    )?;
    add_names_of_commands(&mut text, command)?;
    write!(text, "_{name}() {{\n")?;
    text.push_str("    local curcontext=$curcontext state line\n    typeset -A opt_args\n")?;
    text.push_str("    _arguments -C \\\n")?;
    add_options(&mut text, "        ", command)?;
    write!(text, "        '1: :_{name}_commands' \\\n")?;
    text.push_str("        '*:: :->rest'\n    [[ $state == rest ]] || return\n")?;
    text.push_str("    case $words[1] in\n")?;
    for below in command.get_subcommands() {
        add_case(&mut text, name, below)?;
    }
    text.push_str("    esac\n}\n\n")?;
    write!(
        text,
        "if [[ $funcstack[1] == _{name} ]]; then\n    _{name} \"$@\"\n"
    )?;
    write!(text, "else\n    compdef _{name} {name}\nfi\n")?;
    Ok(text)
}

// Adds a function that offers the commands, each with what it does.
fn add_names_of_commands(text: &mut String, command: &Command<'_>) -> Result<(), AllocError> {
    write!(
        text,
        "_{}_commands() {{\n    local -a commands=(\n",
        command.get_name()
    )?;
    for below in command.get_subcommands() {
        write!(text, "        '{}:", below.get_name())?;
        add_quoted(text, about_of(below), QUOTE)?;
        text.push_str("'\n")?;
    }
    text.push_str("    )\n    _describe command commands\n}\n\n")
}

// Adds what may stand behind a command.
fn add_case(text: &mut String, program: &str, command: &Command<'_>) -> Result<(), AllocError> {
    write!(text, "        {})\n", command.get_name())?;
    if is_help(command) {
        return write!(text, "            _{program}_commands\n            ;;\n");
    }
    text.push_str("            _arguments \\\n")?;
    add_options(text, "                ", command)?;
    let mut place = 0usize;
    for argument in command.get_arguments() {
        if argument.is_positional() {
            place = place.saturating_add(1);
            add_place(text, place, argument)?;
        }
    }
    text.push_str("                && return\n            ;;\n")
}

// Adds the options of a command, a line each.
fn add_options(text: &mut String, front: &str, command: &Command<'_>) -> Result<(), AllocError> {
    for argument in command.get_arguments() {
        if let Some(long) = argument.get_long() {
            text.push_str(front)?;
            add_option(text, long, argument)?;
        }
    }
    Ok(())
}

// Adds an option, by its long name, and by its short one if it has one.
fn add_option(text: &mut String, long: &str, argument: &Arg<'_>) -> Result<(), AllocError> {
    let value = value_of(argument);
    let equals = if matches!(value, Value::Nothing) {
        ""
    } else {
        "="
    };
    if let Some(short) = argument.get_short() {
        write!(text, "'(-{short} --{long})'{{-{short},--{long}}}'[")?;
    } else if argument.get_action() == ArgAction::Append {
        write!(text, "'*--{long}{equals}[")?;
    } else {
        write!(text, "'--{long}{equals}[")?;
    }
    add_explained(text, help_of(argument))?;
    text.push_str("]")?;
    add_value(text, name_of(&value), &value)?;
    text.push_str("' \\\n")
}

// Adds an argument by its place.
fn add_place(text: &mut String, place: usize, argument: &Arg<'_>) -> Result<(), AllocError> {
    text.push_str("                '")?;
    if is_repeated(argument) {
        text.push_str("*")?;
    } else {
        write!(text, "{place}")?;
    }
    add_value(text, argument.get_id(), &value_of(argument))?;
    text.push_str("' \\\n")
}

// What the value of an option is called.
fn name_of(value: &Value<'_>) -> &'static str {
    match value {
        Value::Nothing => "",
        Value::Path => "path",
        Value::Names(_) => "name",
        Value::Number => "number",
    }
}

// Adds what a value is called, and where it comes from.
fn add_value(text: &mut String, called: &str, value: &Value<'_>) -> Result<(), AllocError> {
    match value {
        Value::Nothing => Ok(()),
        Value::Path => write!(text, ":{called}:_files"),
        Value::Number => write!(text, ":{called}: "),
        Value::Names(names) => {
            write!(text, ":{called}:(")?;
            add_names(text, names)?;
            text.push_str(")")
        }
    }
}

// Adds words for between brackets and single quotes.
fn add_explained(text: &mut String, words: &str) -> Result<(), AllocError> {
    for letter in words.chars() {
        match letter {
            '\'' => text.push_str(QUOTE)?,
            '[' | ']' | ':' | '\\' => {
                text.push('\\')?;
                text.push(letter)?;
            }
            _ => text.push(letter)?,
        }
    }
    Ok(())
}
