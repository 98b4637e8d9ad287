//! The texts of help on `step`.

use crate::help::ArgumentHelp;

pub const STEP: &str = "\
Runs a schedule on a domain, and writes what each of its steps does.";

pub const SCHEDULE: ArgumentHelp = ArgumentHelp {
    short: "The schedule, or - for standard input",
    full: "The schedule: a text with one step a line; - is standard input",
};

pub const CAPACITY: ArgumentHelp = ArgumentHelp {
    short: "How many requests wait at an object at most",
    full: "How many requests wait at an object at most, 1 to 1024",
};

pub const STARTS: ArgumentHelp = ArgumentHelp {
    short: "How many actions are started at most",
    full: "How many actions are started at most, 1 to 1000000",
};

pub const KEPT_JOURNAL: ArgumentHelp = ArgumentHelp {
    short: "Write the journal to this file",
    full: "Writes the journal to this file, of standard input step by step; a file that is read is refused",
};

pub const STRICT: ArgumentHelp = ArgumentHelp {
    short: "End with status 1 where a line was refused",
    full: "Ends with status 1 where a line was refused",
};

pub const STATES: ArgumentHelp = ArgumentHelp {
    short: "Write in the end how all stands",
    full: "Writes behind the schedule the state and the parameters of each object, and what is open or waits",
};

pub const STEP_EXAMPLES: &str = "\
`smirun step --help` has all. Examples:
  smirun step first.sml first.schedule
  smirun step first.sml - --journal first.journal";

pub const STEP_MORE: &str = "\
FILE, the domain file, has at most 1048576 bytes of ASCII, without a byte order mark. `!` begins a
comment. For example:

  class: SUPPLY /associated            ! a device does what a supply is asked for
    state: OFF
      action: SWITCH_ON (int VOLTS)
    state: ON
  class: CONTROL
    parameters: int TRIES = 0
    state: NOT_READY
      action: CONFIGURE (int VOLTS = 1500)
        set TRIES = 1
        do SWITCH_ON (VOLTS = VOLTS) all_in SUPPLIES
        if ( all_in SUPPLIES in_state ON ) then
          move_to READY
        endif
        move_to ERROR
    state: READY
    state: ERROR
  object: HV is_of_class SUPPLY
  object: RUN is_of_class CONTROL
  objectset: SUPPLIES { HV }

An object begins in the state of its class that is marked `/initial_state`, or else in the first. `set`
gives a parameter of the class a value. `do` sends a request and goes on; `do .. all_in` sends it to each
member of a set. An `if` waits while an action is open at one of the objects that it asks, or while what
was sent to one of them by the object itself has not ended; then it reads all their states at once. A
`wait`, as in wait ( HV, all_in SUPPLIES ), does the same for the objects that it names and the members of
its sets, and goes on whatever their states are. `insert HV in SUPPLIES` makes HV the last member of a set,
unless it is a member, and `remove HV from SUPPLIES` takes it out: at once, for all objects, and for good. A `do`
asks those who are members when it sends; an `if` and a `wait` those who are members when they read, so that
one that waits may go on when a member is taken out. `move_to` and `terminate_action /state=` end the action in
a state; one that runs off its end leaves the state as it was. The dead state of a class is the one that is
marked `/dead_state`, or else DEAD.

SCHEDULE has at most 16777216 bytes of ASCII. Each line is one step, of at most 8192 bytes, or has only
blanks and a comment. Names may be written in capitals or not. The steps:

  request @S OBJECT ACTION                  session @S, which is @1 to @8, asks OBJECT for ACTION
  request @S OBJECT ACTION (NAME = VALUE, ..)  the same with arguments, ints or strings in quotes, 16 at
                                            most; a parameter that is left out has its default
  start OBJECT                              OBJECT takes the request that waits longest and begins its
                                            action
  go OBJECT                                 the action that is open at OBJECT makes its next move: one
                                            `set`, one `do`, one `if`, one `wait`, one `insert`, one
                                            `remove`, or its end
  answer OBJECT STATE                       the device of OBJECT has done its action, and is in STATE
  fault OBJECT                              the device of OBJECT fails at its action: OBJECT is killed
  kill OBJECT @S                            session @S kills OBJECT: its open action is cut off, it is in
                                            its dead state for good, and nothing starts there any more

What is written to standard output, one line each, with all names in capitals; ARGS is nothing where the
action has no parameters, else all of them in order, as in (T = 5, M = \"a\"):

  accept @S OBJECT NUMBER ACTION ARGS           the request waits; it is number NUMBER, counted from 0,
                                                of those that @S has sent to OBJECT
  start OBJECT SENDER NUMBER ACTION ARGS        the action of that request has begun
  set OBJECT PARAMETER=VALUE                    a `set` of OBJECT has given it this value
  post OBJECT TARGET NUMBER ACTION ARGS         a `do` of OBJECT has sent the request to TARGET
  post OBJECT TARGET refused full ACTION ARGS   a `do` of OBJECT, but as many wait at TARGET as may
  post OBJECT TARGET refused dead ACTION ARGS   a `do` of OBJECT, but TARGET is killed
  empty OBJECT SET                              a `do` of OBJECT to all in SET, which has no members
  insert OBJECT MEMBER SET                      an `insert` of OBJECT: MEMBER is put into SET, or is in it
  remove OBJECT MEMBER SET                      a `remove` of OBJECT: MEMBER is taken out of SET, or is not
                                                in it
  wait OBJECT                                   an `if` or a `wait` of OBJECT waits: an object that it
                                                asks is busy
  still OBJECT                                  it waits on
  seen OBJECT OBJECT1=STATE1 OBJECT2=STATE2 ..  an `if` or a `wait` of OBJECT has read these states
  end OBJECT STATE                              the action has ended, and OBJECT is in STATE
  end OBJECT skipped                            the state of OBJECT does not declare the action, so it
                                                ended as it began
  kill OBJECT @S                                OBJECT is killed, by session @S
  kill OBJECT fault                             OBJECT is killed, by a fault of its device
  refused KIND                                  the step was not done, and nothing has changed

The kinds of `refused`:

  BadLine        the line is no step: another form, a byte above 127, or more than 8192 bytes
  UnknownObject  the domain has no such object
  UnknownAction  no state of the object's class declares the action
  BadArgs        an argument is unknown, repeated, missing or of the wrong kind
  Dead           the object is killed
  Full           as many requests wait at the object as may
  Limit          as many actions were started as may be
  AlreadyOpen    an action is open at the object, so that no other may start
  Empty          no request waits at the object
  Associated     a device does the object's actions, so that it makes no moves: `answer` ends them
  NotAssociated  no device does the object's actions: `go` does them
  NotOpen        no action is open at the object
  NotAState      the object's class has no such state
  AlreadyDead    the object was killed before

With the domain above, the schedule on the left writes what is on the right:

  request @1 RUN CONFIGURE     accept @1 RUN 0 CONFIGURE (VOLTS = 1500)
  start RUN                    start RUN @1 0 CONFIGURE (VOLTS = 1500)
  go RUN                       set RUN TRIES=1
  go RUN                       post RUN HV 0 SWITCH_ON (VOLTS = 1500)
  go RUN                       wait RUN
  start HV                     start HV RUN 0 SWITCH_ON (VOLTS = 1500)
  go RUN                       still RUN
  answer HV ON                 end HV ON
  go RUN                       seen RUN HV=ON
  go RUN                       end RUN READY
  kill HV @2                   kill HV @2
  start HV                     refused Dead

With `--journal PATH` the file PATH is made, or what stands there is deleted, before the first step; the
journal is written to it when the whole schedule is done: the line `smi-journal 2`, and then the lines
above but `accept`, `set`, `still` and `refused`. Where SCHEDULE is -, the first line is written before the first
step, and the lines of each step before they go to standard output. `smirun audit FILE PATH` judges it. A journal
over 67108864 bytes is written, and `audit` and `graph` refuse it. Where PATH is FILE or SCHEDULE, by this path or
another, or is -, the command line is a wrong one, and nothing is read or written.

With `--states` these lines follow what the schedule writes:

  state OBJECT STATE              the state of each object
  param OBJECT NAME=VALUE         each of its parameters
  open OBJECT ACTION              an action is open at OBJECT, and `go` is its next move
  open OBJECT ACTION waits device     the same; its device is to answer
  open OBJECT ACTION waits OBJECT1 ..  the same; its next `if` or `wait` waits for these objects
  waiting OBJECT COUNT            so many requests wait in the mailbox of OBJECT
  member SET OBJECT1 ..           the members of SET, where they are not the declared ones; SET alone where
                                  there are none

With `--json` each of these lines is an object of JSON, on a line of its own. Its field `line` is the first word,
and the others are, in the order of the text: `object`, `sender`, `number`, `action` and `args`, a list of objects
with `name` and `value`; of a post `target`, and `refused` in place of `number`; of `set` and `param` `name` and
`value`; of `seen` `read`, a list of objects with `object` and `state`; `state`, or `skipped`, which is true; `set`
and `member`; of a kill `by`; of `refused` `kind`; of `open` `waits`, a list of names, or `device`, which is true;
`count`; and of `member` `set` and `objects`. Ints and numbers are numbers, all other words strings. For example:

  {\"line\":\"set\",\"object\":\"RUN\",\"name\":\"TRIES\",\"value\":1}
  {\"line\":\"seen\",\"object\":\"RUN\",\"read\":[{\"object\":\"HV\",\"state\":\"ON\"}]}

With `--explain` standard error has why, behind the line of each refused step: the place in SCHEDULE as
SCHEDULE:LINE:COLUMN, both counted from 1, one sentence, the line and a caret under the place. With `--strict`
the exit status is 1 where a line was refused, so that a schedule can be a test.

With `--explain` each line of output is written out before the next is read, so that what explains a line stands
behind it; that takes longer. So where it is not asked for, and standard error is a terminal, lines are explained
only where standard output is a terminal too, or SCHEDULE is -.

Where SCHEDULE is -, what the lines that were read write is written before more is read. Ctrl-D ends them. Ctrl-C
ends the program at once; its journal has all that was told, and `audit` takes it.

A file that is refused is told on standard error, by FILE and one of: `read NO KIND at OFFSET` (no text
of the language), `check NO KIND NAME` (not well-formed; `smirun check --help` has the kinds),
`unreadable` (a second line has why), `too long` (the schedule). `output fault` says that the output cannot
be written, or that the journal cannot be made or written (then a second line has PATH and why), `memory`
that there is not enough memory. What the steps before a fault write is written, and nothing of the
journal, but what it has already where SCHEDULE is -. No step is made where the journal cannot be made. Where that
of standard input cannot be written any more, no further step is told, and the schedule ends.

The time grows with the length of the schedule and of what it writes: a million steps take about a second.
No step looks through the journal. A `request` costs what its arguments and the parameters of its action
cost; `start`, `answer`, `fault` and `kill` what the parameters of OBJECT cost; `go` what its one move
costs, and where OBJECT waits, also the count of the objects. Memory is taken for one line and for the
journal, which is kept whole while the schedule runs: some 100 to 150 bytes an entry.

Exit status: 0 done, also where steps were refused; 1 an input was refused, or with `--strict` a line, or a
file could not be read or the output not be written; 2 a wrong command line; 3 not enough memory.";
