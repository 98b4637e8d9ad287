//! The texts of `-h` and of `--help`, from which completions and the manual page are made too.

pub mod audit;
pub mod check;
pub mod completions;
pub mod cover;
pub mod graph;
pub mod lint;
pub mod list;
pub mod live;
pub mod next;
pub mod page;
pub mod print;
pub mod run;
pub mod states;
pub mod step;

/// What help says of an argument.
#[derive(Clone, Copy)]
pub struct ArgumentHelp {
    /// A few words: for `-h`, and for completions.
    pub short: &'static str,
    /// A line: for `--help`, and for the manual page.
    pub full: &'static str,
}

pub const EXAMPLES: &str = "\
`smirun --help` has all, and `smirun COMMAND -h` what a command does. To begin: smirun check --explain detector.sml";

pub const ABOUT: &str = "\
Runs state manager domains.

A domain is a text that describes equipment and what is done with it. A class declares states, and
a state declares actions; an action is a list of instructions, such as an order to another object
or a move to another state. Objects belong to classes. Every object keeps the requests that it was
sent in a mailbox, and performs them one after the other, in the order in which they came.

`step` makes the steps of a schedule in its order, on one thread. `run` has operators' sessions and workers
in threads of their own, and says what came of it. `live` is a manager that other programs talk to.";

pub const STATUSES: &str = "\
`--help` behind a command has the forms of its files, what it writes, and examples.

All texts are ASCII, without a byte order mark. `-` in the place of a file that is read is standard input,
which stands once on a command line; a file of that name is `./-`.

Where a file is `unreadable`, or the journal of `step` or `run` or the log of `live` cannot be written, a further
line on standard error has why, in the words of the system.

Where standard error is a terminal, it has what `--explain` asks for unasked, in colours unless the environment
has NO_COLOR; with `--no-explain` it does not. Of `--explain` and `--no-explain` the last one counts.

Exit status: 0 done, also where single steps or requests were refused; 1 an input was refused, or a file
could not be read or the output not be written; 2 a wrong command line; 3 not enough memory; 4 a journal
that is not legal.";

pub const FILE: ArgumentHelp = ArgumentHelp {
    short: "The domain file, or - for standard input",
    full: "The domain file, or - for standard input",
};

pub const LOG: ArgumentHelp = ArgumentHelp {
    short: "The log of a live manager, in the place of JOURNAL",
    full: "The log of a manager of FILE, in the place of JOURNAL: a text as `live --log` writes it, which is performed",
};

pub const LOGS: ArgumentHelp = ArgumentHelp {
    short: "A log of a live manager, in the place of journals",
    full: "A log of a manager of FILE, in the place of journals: a text as `live --log` writes it, which is performed",
};

pub const JSON: ArgumentHelp = ArgumentHelp {
    short: "Write each line as a JSON object",
    full: "Writes each line of standard output as a JSON object on a line, with the words as its fields",
};

pub const WHY_REFUSED: ArgumentHelp = ArgumentHelp {
    short: "Say on standard error why a file is refused",
    full: "Say on standard error why a file is refused: line, column, and what could stand there instead",
};

pub const WHY_TEXTS: ArgumentHelp = ArgumentHelp {
    short: "Say on standard error why a text is refused",
    full: "Say on standard error why a text is refused: line, column, and what could stand there instead",
};

pub const WHY_LINES: ArgumentHelp = ArgumentHelp {
    short: "Say on standard error why a file or a line is refused",
    full: "Say on standard error why a file or a line is refused: line, column, and what could stand there instead",
};

pub const NO_EXPLAIN: ArgumentHelp = ArgumentHelp {
    short: "Do not say why, on a terminal either",
    full: "Says nothing of why; without it, what --explain says is said wherever standard error is a terminal",
};
