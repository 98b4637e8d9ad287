//! The texts of help on `print`.

use crate::help::ArgumentHelp;

pub const PRINT: &str = "\
Prints the canonical text of a domain: the one spelling that every domain has.";

pub const COMPARE: ArgumentHelp = ArgumentHelp {
    short: "Tell the first place where FILE differs",
    full: "Print nothing, and tell the first place where FILE differs from what would be printed",
};

pub const KEEP: ArgumentHelp = ArgumentHelp {
    short: "Print comments and blank lines too",
    full: "Print the comments too, and blank lines where FILE has some",
};

pub const WHY_DIFFERS: ArgumentHelp = ArgumentHelp {
    short: "Say on standard error why FILE is refused or differs",
    full: "Say on standard error why FILE is refused, or what is expected where it differs: line and column",
};

pub const PRINT_EXAMPLES: &str = "\
`smirun print --help` has all. Examples:
  smirun print detector.sml
  smirun print --keep --check detector.sml";

pub const PRINT_MORE: &str = "\
FILE, the domain file, has at most 1048576 bytes of ASCII, without a byte order mark. It is read and
not checked, so that names need not be declared. The text that is printed says the same file: reserved
words in lower case and names in capitals, one item or instruction a line, two blanks a level, no
comments, brackets in a condition only where they are needed. It is written to standard output. For
example:

  class:lamp state:off action:light move_to on state:on   ! a lamp

is printed as

  class: LAMP
    state: OFF
      action: LIGHT
        move_to ON
    state: ON

With `--keep` comments are kept, each on a line of its own in front of the line of the next word or sign, or
two blanks behind a line where it stood behind the last word or sign of that line. Where FILE has blank lines
between two lines, one is kept; none is added. Printing that again with `--keep` gives it back, and a file
without comments and blank lines is printed as without `--keep`. The example then is

  class: LAMP
    state: OFF
      action: LIGHT
        move_to ON
    state: ON  ! a lamp

With `--check` nothing is printed. A FILE that is, byte for byte, what would be printed, with `--keep` too if that
is asked for, is told by status 0. Of another, standard output has

  FILE differs at LINE:COLUMN    where the first byte is that differs, or its end where more would be
                                 printed; both count from 1, and a column is a byte

and with `--explain` standard error has what is expected there, the line, and the line that would be printed.

A file that is refused is told on standard error, by FILE and one of: `read NO KIND at OFFSET` (no
text of the language; `smirun check --help` has the kinds), `unreadable`. `output fault` says that the
output cannot be written, `memory` that there is not enough memory. With `--explain` standard error then has
why a text is refused, as `smirun check --help` has it.

Exit status: 0 done; 1 the file was refused, differs, could not be read or the output not be written; 2 a
wrong command line; 3 not enough memory.";
