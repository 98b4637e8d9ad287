//! The texts of help on `cover`.

use crate::help::ArgumentHelp;

pub const COVER: &str = "\
Tells what journals have exercised of a domain, and what they never have.";

pub const COUNTED_JOURNALS: ArgumentHelp = ArgumentHelp {
    short: "The journals of runs, or - for standard input",
    full: "The journals of runs, as `step --journal` writes them; - is standard input",
};

pub const COVER_STRICT: ArgumentHelp = ArgumentHelp {
    short: "End with status 1 if something was never exercised",
    full: "End with status 1 if something was never exercised",
};

pub const COVER_EXAMPLES: &str = "\
`smirun cover --help` has all. Examples:
  smirun cover detector.sml monday.journal tuesday.journal
  smirun cover --strict detector.sml run.journal";

pub const COVER_MORE: &str = "\
FILE, the domain file, has at most 1048576 bytes, each JOURNAL at most 67108864, and each LOG at most
16777216, all ASCII without a byte order mark. The domain is read and checked, and then each journal is read,
judged and counted. What was never exercised comes in front, a line for each thing:

  never entered CLASS STATE                         the initial state is never told, since objects begin
                                                    in it; a dead state is entered by a kill too
  never started CLASS STATE ACTION
  never true CLASS STATE ACTION at LINE:COLUMN      an `if`, by its place in FILE
  never false CLASS STATE ACTION at LINE:COLUMN
  never sent CLASS STATE ACTION at LINE:COLUMN      a `do`; none over a set in which no object can be

Then come all counts, state by state, in the order of FILE:

  entered CLASS STATE COUNT                         by ends of actions and by kills
  skipped CLASS STATE COUNT                         where any were: started there, and not declared there
  started CLASS STATE ACTION COUNT
  if CLASS STATE ACTION at LINE:COLUMN true N false N
  send CLASS STATE ACTION at LINE:COLUMN sent N full N dead N empty N
  wait CLASS STATE ACTION at LINE:COLUMN seen N

`sent` counts requests, one for each member of a set, and with them those that were refused as `full` or
as `dead`; `empty` is how often the set had no members. Classes without objects have no lines.

  smirun cover detector.sml monday.journal tuesday.journal
  smirun cover --strict detector.sml *.journal

With `--log`, once or more, what logs of `live` managers have done is counted, however long journals of it
would be: each is performed, with the capacity that its first line names and without what stands after its
last line feed. It may be that of a manager that runs.

  smirun cover detector.sml --log monday.log --log tuesday.log

The first journal that is not legal is told as `smirun audit` tells it, behind its path, and nothing is
counted: `JOURNAL Illegal LINE RULE`. `--explain` says why.

A file that is refused is told on standard error, by its path and one of: `read NO KIND at OFFSET`, `check
NO KIND NAME` (the domain; `smirun check --help` has the kinds), `unreadable`, and of a journal `too
long`, `bad header`, `bad line NO` (`smirun audit --help` has them); of a log `too long`, `is of another
domain`, `bad line NO` (no manager wrote it there). `output fault` says that the output cannot be written,
`memory` that there is not enough memory.

Exit status: 0 done; 1 an input was refused, or a file could not be read or the output not be written, and
with `--strict` also if something was never exercised; 2 a wrong command line; 3 not enough memory; 4 a
journal is not legal.";
