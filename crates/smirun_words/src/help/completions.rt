//! The texts of help on `completions`.

use crate::help::ArgumentHelp;

pub const COMPLETIONS: &str = "\
Writes the completions of a shell, or the manual page, as a file.";

pub const SHELL: ArgumentHelp = ArgumentHelp {
    short: "The shell, or man",
    full: "The shell whose completions are written; man stands for the manual page",
};

pub const COMPLETIONS_EXAMPLES: &str = "\
`smirun completions --help` has all. Examples:
  smirun completions fish > ~/.config/fish/completions/smirun.fish
  smirun completions man | man -l -";

pub const COMPLETIONS_MORE: &str = "\
The file goes to standard output. It is made of the texts of help, so that it has every command and every option.
`tools/install PREFIX` has put the four files below PREFIX/share, where shells and `man` look for them. By hand:

  smirun completions bash > ~/.local/share/bash-completion/completions/smirun
  smirun completions zsh > ~/.zsh/_smirun     in any folder of the list $fpath
  smirun completions fish > ~/.config/fish/completions/smirun.fish
  smirun completions man > ~/.local/share/man/man1/smirun.1

Files are completed where a FILE, another path or the PATH of an option stands. `output fault` on standard error
says that the output cannot be written, `memory` that there is not enough memory.

Exit status: 0 done; 1 the output could not be written; 2 a wrong command line; 3 not enough memory.";
