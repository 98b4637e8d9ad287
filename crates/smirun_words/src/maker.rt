//! Commands and arguments with the texts of help.

use crate::help::ArgumentHelp;
use clap::{Arg, ArgAction, Command, value_parser};
use std::alloc::Global;

/// Of which help the texts are.
#[derive(Clone, Copy)]
pub(crate) enum HelpLength {
    /// Of `-h`. The longer texts stand with them as clap's long help, for those who read a command.
    Short,
    /// Of `--help`. They stand as clap's short help, whose layout has an argument on a line.
    Full,
}

/// What makes commands and arguments.
#[derive(Clone, Copy)]
pub(crate) struct Maker {
    pub alloc: Global,
    pub length: HelpLength,
}

impl Maker {
    /// A command, with what it does in a line, examples for `-h`, and all that `--help` says behind the options.
    pub(crate) fn command<'a>(
        self,
        name: &'static str,
        about: &'static str,
        examples: &'static str,
        more: &'static str,
    ) -> Command<'a> {
        let command = Command::new(self.alloc, name).about(about);
        match self.length {
            HelpLength::Short => command.long_about(more).after_help(examples),
            HelpLength::Full => command.after_help(more),
        }
    }

    /// An argument by its place, which may be left out.
    pub(crate) fn argument<'a>(self, name: &'static str, help: ArgumentHelp) -> Arg<'a> {
        let argument = Arg::new(self.alloc, name);
        match self.length {
            HelpLength::Short => argument.help(help.short).long_help(help.full),
            HelpLength::Full => argument.help(help.full),
        }
    }

    /// An argument by its place, which has to be there.
    pub(crate) fn required<'a>(self, name: &'static str, help: ArgumentHelp) -> Arg<'a> {
        self.argument(name, help).required(true)
    }

    /// An option without a value.
    pub(crate) fn flag<'a>(self, name: &'static str, help: ArgumentHelp) -> Arg<'a> {
        self.argument(name, help)
            .long(name)
            .action(ArgAction::SetTrue)
    }

    /// An option with a value.
    pub(crate) fn option<'a>(
        self,
        name: &'static str,
        value: &'static str,
        help: ArgumentHelp,
    ) -> Arg<'a> {
        self.argument(name, help).long(name).value_name(value)
    }

    /// An option whose value is a number from 1 on.
    pub(crate) fn number<'a>(
        self,
        name: &'static str,
        value: &'static str,
        most: i64,
        help: ArgumentHelp,
    ) -> Arg<'a> {
        self.option(name, value, help)
            .value_parser(value_parser!(usize).range(1..=most))
    }
}
