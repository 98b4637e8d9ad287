//! From the words of a command line to an exit status.
ghost use Rattle.std.specs.Prelude.{◌≡◌, ◌≢◌, ◌≤◌, ◌⊎◌};
ghost use Rattle.clap.specs.Values.{kind_of};

use crate::asked::{AskedCommand, perform, perform_live};
use crate::coloured::Coloured;
use crate::command_line::parse;
use crate::terminals::Terminals;
use crate::traced::STANDARD_OUTPUT;
use clap::error::ErrorKind;
use smirun_commands::{DONE, Fault, WRONG_WORDS, tell_cause};
use smirun_live::{Aside, LiveHost, LiveOptions};
use smirun_run::Host;
use std::env::Env;
use std::io::{IsTerminal, Read, Write};

/// Does what the words ask for, and returns the exit status.
///
/// The first word is the program's name. A file that is named `-` is standard input. The result of a command, and
/// help or the version if they are asked for, go to `output`; a fault line (docs/FORMATS.md, "Fault lines and
/// exit statuses") and what is wrong with a command line go to `errors`. A fault of `errors` changes nothing,
/// since there is no place left to tell it.
///
/// Standard input is `input`. If a manager is to take lines as they come, another thread reads it, and a third one
/// writes to `errors`, so that whoever does not read that never holds the manager up. What is said to a person depends
/// on which of `output` and `errors` are terminals, and on the variable `NO_COLOR` ([`Terminals`]).
pub fn drive<
    R: Host + LiveHost + Env + 'static,
    I: Read + Send + Drop + 'static,
    W: Write + IsTerminal,
    E: Write + IsTerminal + Copy + Send + Drop + 'static,
>(rt: &R, words: &[String], mut input: I, output: &mut W, errors: &mut E) -> u8
    ensures { result ≤ 4 }
{
    let terminals = Terminals::of(rt, output, errors);
    let mut coloured = Coloured::new(rt.alloc(), &mut *errors, terminals.colours);
    match parse(rt.alloc(), words, terminals) {
        Ok(asked) => match &asked.command {
            AskedCommand::Live(options) if !options.in_turn => {
                drop(coloured);
                manage(rt, options, input, output, errors, terminals)
            }
            _ => perform(rt, &asked, &mut input, output, &mut coloured),
        },
        Err(error) => answer(&error, output, &mut coloured),
    }
}

// Runs a manager that takes lines as they come. What it tells beside the output never holds it up.
fn manage<
    R: Host + LiveHost + 'static,
    I: Read + Send + Drop + 'static,
    W: Write,
    E: Write + Copy + Send + Drop + 'static,
>(
    rt: &R,
    options: &LiveOptions<'_>,
    input: I,
    output: &mut W,
    errors: &mut E,
    terminals: Terminals,
) -> u8
    ensures { result ≤ 4 }
{
    let Ok(mut aside) = Aside::start(*rt, rt.alloc(), *errors) else {
        return Fault::Memory.tell(errors);
    };
    let mut coloured = Coloured::new(rt.alloc(), &mut aside, terminals.colours);
    let status = perform_live(rt, options, input, output, &mut coloured);
    drop(coloured);
    aside.finish();
    status
}

/// As [`drive`], with another reader in place of standard input, and with what `terminals` says of `output` and
/// `errors`. A manager takes the lines of such a reader in turn, whether that is asked for or not.
pub fn drive_from<R: Host + LiveHost, I: Read, W: Write, E: Write>(
    rt: &R,
    words: &[String],
    input: &mut I,
    output: &mut W,
    errors: &mut E,
    terminals: Terminals,
) -> u8
    ensures { result ≤ 4 }
{
    let mut errors = Coloured::new(rt.alloc(), errors, terminals.colours);
    match parse(rt.alloc(), words, terminals) {
        Ok(asked) => perform(rt, &asked, input, output, &mut errors),
        Err(error) => answer(&error, output, &mut errors),
    }
}

// Shows what the parser of command lines has to say: help, the version, or what is wrong with the words.
fn answer<W: Write, E: Write>(error: &clap::Error, output: &mut W, errors: &mut E) -> u8
    ensures memory { kind_of error.now ≡ ErrorKind.OutOfMemory → result ≡ 3 }
    ensures mistake { kind_of error.now ≢ ErrorKind.OutOfMemory → kind_of error.now ≢ ErrorKind.DisplayHelp
        → kind_of error.now ≢ ErrorKind.DisplayVersion → result ≡ 2 }
    ensures shown { (kind_of error.now ≡ ErrorKind.DisplayHelp) ⊎ (kind_of error.now ≡ ErrorKind.DisplayVersion)
        → (result ≡ 0) ⊎ (result ≡ 1) }
    ensures range { result ≤ 3 }
{
    if error.kind() == ErrorKind::OutOfMemory {
        return Fault::Memory.tell(errors);
    }
    if error.use_stderr() {
        let _ = write!(errors, "{error}");
        return WRONG_WORDS;
    }
    match write!(output, "{error}").and_then(|()| output.flush()) {
        Ok(()) => DONE,
        Err(cause) => {
            let status = Fault::Output.tell(errors);
            tell_cause(STANDARD_OUTPUT, &cause, errors);
            status
        }
    }
}
