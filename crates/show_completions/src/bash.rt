//! Completions for bash.

use crate::values::{Value, add_commands, add_names, is_help, value_of};
use clap::{Arg, Command};
use std::alloc::{AllocError, Global};

// What stands before the cases. Of the first word the command is empty.
const START: &str = "    local word=${COMP_WORDS[COMP_CWORD]} last=${COMP_WORDS[COMP_CWORD - 1]}
    local command=${COMP_WORDS[1]} options= names= numbers=
    COMPREPLY=()
    if [ \"$COMP_CWORD\" -eq 1 ]; then
        command=
    fi
    case $command in
";

// What stands behind the cases. Where nothing is offered, bash offers files, except where they are turned off.
const END: &str = "    esac
    case \" $numbers \" in
        *\" $last \"*)
            compopt +o default 2>/dev/null
            return
            ;;
    esac
    if [ -n \"$names\" ]; then
        compopt +o default 2>/dev/null
    fi
    case $word in
        -*) names=$options ;;
    esac
    if [ -n \"$names\" ]; then
        COMPREPLY=($(compgen -W \"$names\" -- \"$word\"))
    fi
}

";

/// The text of a file for bash.
pub(crate) fn completions(alloc: Global, command: &Command<'_>) -> Result<String, AllocError> {
    let name = command.get_name();
    let mut text = format!(in alloc;
        "# Completions of {name} for bash, as `{name} completions bash` writes them.\n\n"
    )?;
    write!(text, "_{name}() {{\n")?;
    text.push_str(START)?;
    for below in command.get_subcommands() {
        write!(text, "        {})\n", below.get_name())?;
        add_case(&mut text, command, below)?;
    }
    text.push_str("        \"\")\n")?;
    add_case(&mut text, command, command)?;
    text.push_str(END)?;
    write!(text, "complete -o default -F _{name} {name}\n")?;
    Ok(text)
}

// Adds what may stand behind a command: its options, those of them that take a number, and names.
fn add_case<'a>(
    text: &mut String,
    above: &Command<'a>,
    command: &Command<'a>,
) -> Result<(), AllocError> {
    add_options(text, command)?;
    add_numbers(text, command)?;
    if is_help(command) || command.has_subcommands() {
        text.push_str("            names=\"")?;
        add_commands(text, above)?;
        text.push_str("\"\n")?;
    }
    for argument in command.get_arguments() {
        add_choice(text, argument)?;
    }
    text.push_str("            ;;\n")
}

// Adds the options of a command.
fn add_options(text: &mut String, command: &Command<'_>) -> Result<(), AllocError> {
    let mut front = "            options=\"";
    for argument in command.get_arguments() {
        if let Some(long) = argument.get_long() {
            write!(text, "{front}--{long}")?;
            front = " ";
        }
    }
    end_list(text, front)
}

// Adds the options of a command that take a number.
fn add_numbers(text: &mut String, command: &Command<'_>) -> Result<(), AllocError> {
    let mut front = "            numbers=\"";
    for argument in command.get_arguments() {
        if let (Value::Number, Some(long)) = (value_of(argument), argument.get_long()) {
            write!(text, "{front}--{long}")?;
            front = " ";
        }
    }
    end_list(text, front)
}

// Ends a list of words, if it has one: then a blank stands in front of the next.
fn end_list(text: &mut String, front: &str) -> Result<(), AllocError> {
    if front == " " {
        text.push_str("\"\n")?;
    }
    Ok(())
}

// Adds the names that an argument may be, if it is one of some.
fn add_choice(text: &mut String, argument: &Arg<'_>) -> Result<(), AllocError> {
    if let (Value::Names(names), None) = (value_of(argument), argument.get_long()) {
        text.push_str("            names=\"")?;
        add_names(text, names)?;
        text.push_str("\"\n")?;
    }
    Ok(())
}
