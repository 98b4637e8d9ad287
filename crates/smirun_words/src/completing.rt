//! The command `completions`.

use crate::grammar::smirun_command;
use crate::help::STATUSES;
use crate::maker::HelpLength;
use show_completions::CompletionFile;
use smirun_commands::Fault;
use std::alloc::{AllocError, Global};
use std::io::Write;

/// Writes the completions of a shell, or the manual page. The memory is that of the text and of the commands.
pub(crate) fn run_completions<W: Write>(
    alloc: Global,
    file: CompletionFile,
    output: &mut W,
) -> Result<(), Fault<'static>> {
    let Ok(text) = text_of(alloc, file) else {
        return Err(Fault::Memory);
    };
    match output
        .write_all(text.as_bytes())
        .and_then(|()| output.flush())
    {
        Ok(()) => Ok(()),
        Err(_) => Err(Fault::Output),
    }
}

// The text of a file, made of the commands of the program.
fn text_of(alloc: Global, file: CompletionFile) -> Result<String, AllocError> {
    let mut command = smirun_command(alloc, HelpLength::Short)?;
    command.build()?;
    file.text(alloc, &command, STATUSES)
}
