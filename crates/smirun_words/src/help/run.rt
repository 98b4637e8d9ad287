//! The texts of help on `run`.

use crate::help::ArgumentHelp;

pub const RUN: &str = "\
Runs a script on a domain, with operators' sessions and workers in threads, and writes a summary.";

pub const SCRIPT: ArgumentHelp = ArgumentHelp {
    short: "The script, or - for standard input",
    full: "The script: what the operators do and the devices answer; - is standard input",
};

pub const WORKERS: ArgumentHelp = ArgumentHelp {
    short: "How many workers perform actions, 1 to 8",
    full: "How many workers perform actions, 1 to 8",
};

pub const RUN_JOURNAL: ArgumentHelp = ArgumentHelp {
    short: "Write the journal to this file",
    full: "Writes the journal to this file, behind the summary; a file that is read is refused",
};

pub const PROGRESS: ArgumentHelp = ArgumentHelp {
    short: "Tell on a terminal how far the run is",
    full: "Tell on standard error how far the run is, if that is a terminal and the run takes over two seconds",
};

pub const RUN_STRICT: ArgumentHelp = ArgumentHelp {
    short: "End with status 1 where not all was done",
    full: "Ends with status 1 where a request was refused, an object waits, requests are left, or a device failed",
};

pub const RUN_STATES: ArgumentHelp = ArgumentHelp {
    short: "Write behind the summary how all stands",
    full: "Writes behind the summary every parameter, what is open, and changed sets, as `smirun step --states` does",
};

pub const RUN_EXAMPLES: &str = "\
`smirun run --help` has all. Examples:
  smirun run detector.sml switch_on.script
  smirun run detector.sml switch_on.script --workers 4 --journal run.journal";

pub const RUN_MORE: &str = "\
FILE is a domain file, as `smirun step --help` has it. SCRIPT has at most 16777216 bytes of ASCII. Each line
has at most 8192 bytes, and is one of these, or has only blanks and a comment behind `!`:

  request @S OBJECT ACTION                     session @S, which is @1 to @8, asks OBJECT for ACTION
  request @S OBJECT ACTION (NAME = VALUE, ..)  the same with arguments, ints or strings in quotes, 16 at
                                               most; a parameter that is left out has its default
  kill OBJECT @S                               session @S kills OBJECT: its open action is cut off, it is
                                               in its dead state for good, and nothing starts there any more
  device OBJECT ACTION STATE                   the device of OBJECT, whose class is `/associated`, answers
                                               ACTION by STATE; the last line for both counts

Names may be written in capitals or not. A device fails at an action that has no line, or whose STATE is none
of the class of OBJECT, and its object is then killed. Any other line, and a `device` line with a name that
the domain does not have, makes the script refused, and nothing runs. Names in the other lines are looked up
as the run goes.

Sessions @1 to the highest that SCRIPT names each do their own lines in order, in a thread of their own,
while N workers take what waits in the mailboxes and perform it. Lines of two sessions come in whatever
order; requests of one session to one object are started in the order of its lines. Once all sessions have
left and nothing can be done any more, the run ends, and the summary is written to standard output:

  end Quiet                      all that could be done was done
  end Limit                      the same, but M requests were started, and no more may be; others may be
                                 left, but need not
  end Memory                     memory was refused, and the rest was left undone
  state OBJECT STATE             the state of each object
  stalled OBJECT                 its action is still open: an `if` or `wait` waits for an object that is busy
  accepted SENDER OBJECT COUNT   so many requests of SENDER to OBJECT were accepted
  left SENDER OBJECT COUNT       so many of these were never started
  refused @S COUNT               so many lines of session @S were refused

Lines with a count of 0 are left out. SENDER is a session, or an object that sent with a `do`.

What to do:

  Limit      run it again with more `--max-starts`, or look for objects that send to one another for ever. Nothing
             need be left; and where the last start was the last request, it is open whether Quiet or Limit is told
  Memory     run it again where there is more memory, or with a smaller SCRIPT
  stalled    the journal (`--journal`) has a line `wait` of the object; look which object of that `if` or
             `wait` is busy: one that is stalled too, or whose requests are left. Two objects that wait for
             each other stay so
  left       the object was killed, or is stalled, or the run ended with Limit or Memory
  refused    no such object, or no such action in any state of its class; a wrong argument; the object was
             killed before the request or kill; or its mailbox was full (`--capacity`). A session does not
             wait for room: give more room, or fewer requests

A request that is skipped, because the state of its object does not declare the action by then, was started
and is not left; the journal has `end OBJECT skipped`.

With the domain of `smirun step --help`, the script on the left is told as on the right:

  device HV SWITCH_ON ON                   end Quiet
  request @1 RUN CONFIGURE                 state HV ON
  request @1 RUN NOTHING                   state RUN READY
                                           accepted @1 RUN 1
                                           accepted RUN HV 1
                                           refused @1 1

Without its first line the device of HV fails: HV is then DEAD, and RUN ends in ERROR. With `kill HV @2` as
a further line, what comes first is open, and so is the summary.

With `--progress` a terminal shows, four times a second, how many requests were started, how many that were
accepted wait for it, and how many objects have an open action:

  starts 123456, waiting 12, open 3

With `--states` these lines are written behind the summary, as `smirun step --help` has them: `param` for every
parameter, `open` for every open action with what it waits for, and `member` for sets that changed.

With `--json` each of these lines is an object of JSON, on a line of its own: its field `line` is the first word,
and the others are `end`, `object`, `state`, `sender` and `count`; those of `param`, `open` and `member` are as
`smirun step --help` has them. For example:

  {\"line\":\"accepted\",\"sender\":\"RUN\",\"object\":\"HV\",\"count\":1}

With `--journal PATH` the file PATH is made, or what stands there is deleted, once the summary is written, and
the journal of the run is written to it: what was started, sent, seen, put into sets, taken out of them,
ended and killed, in its order.
`smirun audit FILE PATH` judges it. A journal over 67108864 bytes is written, and `audit` and `graph` refuse it.
Where PATH is FILE or SCRIPT, by this path or another, or is -, the command line is a wrong one, and nothing is
read or written. Ctrl-C ends a run at once: then there is no summary, and what stands at PATH stays as it was.

A file that is refused is told on standard error, by FILE and one of: `read NO KIND at OFFSET`, `check NO KIND
NAME` (the domain; `smirun check --help` has the kinds), `unreadable` (a second line has why), and of the
script `too long` and `bad line NO`, whose lines count from 1. `output fault` says that the summary cannot be
written, or that the journal cannot be made or written (then a second line has PATH and why), `memory` that
there is not enough memory: behind a summary where it says `end Memory`. `report differs` behind a summary
says that a session was told of a kill which the journal does not have; it is a fault of this program.

With `--explain` standard error has why a text or a line of SCRIPT is refused: the place as FILE:LINE:COLUMN, both
counted from 1, one sentence, the line and a caret under the place; and behind the summary the same for the
requests and kills that the domain refuses whenever they come, and for `device` lines that do nothing, or make
their device fail. Then it has what went wrong in the run: devices that failed, and at what; requests that were
skipped, and in which state; objects that wait at its end, and for whom; of each up to twenty. Of each session it
has how many requests found a mailbox full, and how many requests and kills came to an object that was killed.

SCRIPT is kept while the run goes on, and so are the journal, some 100 to 150 bytes an entry, and what each
session was told is accepted.

Exit status: 0 done, also where requests or kills were refused; 1 an input was refused, or a file could not
be read or the output not be written, or the report differs, or with `--strict` the summary has a line
`refused`, `stalled` or `left`, or a device failed; 2 a wrong command line; 3 not enough memory.";
