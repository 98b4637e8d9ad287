//! The texts of help on `states`.

use crate::help::ArgumentHelp;

pub const STATES_COMMAND: &str = "\
Tells how all stood behind a line of a journal, or what differs between two lines.";

pub const TOLD_JOURNAL: ArgumentHelp = ArgumentHelp {
    short: "The journal of the run, or - for standard input",
    full: "The journal of the run: a text as `step --journal` writes it; - is standard input",
};

pub const AT: ArgumentHelp = ArgumentHelp {
    short: "The line of the journal [default: the last]",
    full: "The line behind which it is told: the header is line 1 [default: the last]",
};

pub const WITH: ArgumentHelp = ArgumentHelp {
    short: "Tell only what differs between line N and line N2",
    full: "Tell only what differs between line N and line N2",
};

pub const STATES_EXAMPLES: &str = "\
`smirun states --help` has all. Examples:
  smirun states detector.sml run.journal --at 40
  smirun states detector.sml run.journal --at 40 --with 41";

pub const STATES_MORE: &str = "\
FILE, the domain file, has at most 1048576 bytes, JOURNAL at most 67108864, and LOG at most 16777216, all
ASCII without a byte order mark. The domain is read and checked, and the journal is judged up to line N. Then
these lines are written to standard output:

  state OBJECT STATE                    every object
  param OBJECT NAME=VALUE               every parameter of its class
  open OBJECT ACTION                    where an action is open, and its next move needs nothing
  open OBJECT ACTION waits device       its device is to answer
  open OBJECT ACTION waits OBJECT1 ..   its next `if` or `wait` waits for these, which are busy
  waiting OBJECT COUNT                  how many requests of objects wait there, if any do: no journal
                                        holds requests of sessions before they start
  member SET OBJECT1 ..                 its members, where they are not the declared ones in their order
  next OBJECT ENTRY                     what the open action does next, as its line in the journal would
                                        be behind the object's name; `end` alone where its device is to
                                        answer, `wait` where an object is busy

A parameter is the one behind the last action that ended: what an open action has set is not in the journal.
A post stands with the number that it gets if the mailbox of its target is not full.

With `--with`, those lines are written that differ, in the same order: with `-` in front as they are behind
line N, with `+` as they are behind line N2.

  smirun states detector.sml run.journal --at 40
  smirun states detector.sml run.journal --at 40 --with 41

A journal that is not legal up to that line is told as `smirun audit` tells it: `Illegal LINE RULE`.

With `--log` it is told of the log of a `live` manager, also of one that runs. The log is performed, with the
capacity that its first line names and without what stands after its last line feed; line N is that of the
journal which `step --journal` writes of it, however long that is.

  smirun states detector.sml --log detector.log

A file that is refused is told on standard error, by its path and one of: `read NO KIND at OFFSET`, `check
NO KIND NAME` (the domain; `smirun check --help` has the kinds), `unreadable`, and of the journal `too
long`, `bad header`, `bad line NO` (`smirun audit --help` has them), `has no line NO`; of the log `too long`, `is
of another domain`, `bad line NO` (no manager wrote it there), `has no line NO`. `output fault` says that
the output cannot be written, `memory` that there is not enough memory.

Exit status: 0 done; 1 an input was refused, or a file could not be read or the output not be written; 2 a
wrong command line; 3 not enough memory; 4 the journal is not legal up to the line.";
