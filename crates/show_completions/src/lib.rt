//! Completions for shells, and a manual page, as texts of files that are made of a command of `clap`. Nothing here
//! decides anything: they have the commands, the options and the help of the command.
//!
//! A value that is any text is taken for a path, and one that is no name of a list and no text for a number.
#![tactic(auto)]

mod bash;
mod fish;
mod manual;
mod manual_text;
mod values;
mod zsh;

use clap::Command;
use std::alloc::{AllocError, Global};

/// Of what a file is.
#[derive(Clone, Copy)]
pub enum CompletionFile {
    /// Of completions for bash.
    Bash,
    /// Of completions for zsh.
    Zsh,
    /// Of completions for fish.
    Fish,
    /// Of the manual page.
    Manual,
}

impl CompletionFile {
    /// The names of the files on a command line, in the order of the variants.
    pub const NAMES: &'static [&'static str] = &["bash", "zsh", "fish", "man"];

    /// The file of a name, if it is one of `NAMES`.
    pub fn named(name: &str) -> Option<CompletionFile> {
        match name {
            "bash" => Some(CompletionFile::Bash),
            "zsh" => Some(CompletionFile::Zsh),
            "fish" => Some(CompletionFile::Fish),
            "man" => Some(CompletionFile::Manual),
            _ => None,
        }
    }

    /// The text of the file, for a command that was built: of its commands and their arguments, with the short help
    /// for shells and the long one for the manual page, whose last section is `closing`. The error is out of memory.
    pub fn text(
        self,
        alloc: Global,
        command: &Command<'_>,
        closing: &str,
    ) -> Result<String, AllocError> {
        match self {
            CompletionFile::Bash => bash::completions(alloc, command),
            CompletionFile::Zsh => zsh::completions(alloc, command),
            CompletionFile::Fish => fish::completions(alloc, command),
            CompletionFile::Manual => manual::page(alloc, command, closing),
        }
    }
}
