//! The texts of help on `audit`.

use crate::help::ArgumentHelp;

pub const AUDIT: &str = "\
Judges a journal: whether each of its lines may stand where it stands, or which is the first that may not.";

pub const JOURNAL: ArgumentHelp = ArgumentHelp {
    short: "The journal, or - for standard input",
    full: "The journal: a text as `step --journal` writes it; - is standard input",
};

pub const EXPLAIN: ArgumentHelp = ArgumentHelp {
    short: "Say on standard error what stands against an illegal line",
    full: "Say on standard error what stands against an illegal line, and which earlier line or instruction",
};

pub const AUDIT_EXAMPLES: &str = "\
`smirun audit --help` has all. Examples:
  smirun audit detector.sml run.journal
  smirun audit --explain first.sml broken.journal";

pub const AUDIT_MORE: &str = "\
FILE, the domain file, has at most 1048576 bytes, JOURNAL at most 67108864, and LOG at most 16777216, all
ASCII without a byte order mark. What is written to standard output is one line:

  Legal              each entry of the journal may follow those before it, by the domain
  Illegal LINE RULE  LINE is the first line whose entry may not, and RULE the first rule that it
                     breaks; lines count from 1, and the first is the header

With `--json` this line is {\"line\":\"Legal\"}, or {\"line\":\"Illegal\",\"at\":LINE,\"rule\":\"RULE\"}.

The first line of a journal is `smi-journal 2`, or `smi-journal 1` in journals of earlier versions. Each
further line is an entry; it has one blank between words, names in capitals, numbers without leading zeros,
and ends with a line feed. The entries, and the rules that each is held to, in the order in which they are
tried; Split is tried before them, of every entry:

  start OBJECT SENDER NUMBER ACTION ARGS         Killed, Open, Number; NotSent where SENDER is an
                                                 object, BadRequest where it is a session
  post OBJECT TARGET NUMBER ACTION ARGS          NotOpen, Meaning, Dead, Number
  post OBJECT TARGET refused full ACTION ARGS    NotOpen, Meaning, Dead
  post OBJECT TARGET refused dead ACTION ARGS    NotOpen, Meaning, Dead
  empty OBJECT SET                               NotOpen, Meaning
  insert OBJECT MEMBER SET                       NotOpen, Meaning
  remove OBJECT MEMBER SET                       NotOpen, Meaning
  wait OBJECT                                    NotOpen, Meaning, Clear
  seen OBJECT OBJECT1=STATE1 OBJECT2=STATE2 ..   NotOpen, Meaning, Busy, Reading
  end OBJECT STATE                               NotOpen, Meaning; NotAState where a device ends it
  end OBJECT skipped                             NotOpen, Meaning
  kill OBJECT @S                                 Killed
  kill OBJECT fault                              Killed, NotOpen

What a rule says where it is broken; `now` means by the lines before:

  Split       what a `do .. all_in` sends stands on lines one behind the other, from its first post to its
              last; now one has begun, and this is not its next post
  Killed      the object is killed now
  Open        an action is open at the object now
  Number      NUMBER is not the next one: the count of starts of SENDER at OBJECT, or of the accepted
              posts of OBJECT to TARGET
  NotSent     SENDER has sent no request of this number to OBJECT, or another one
  BadRequest  the action is none of the class of OBJECT, or ARGS are not its parameters with their kinds
  NotOpen     no action is open at OBJECT now, or, for a fault, OBJECT has no device
  Meaning     this is not what the open action does next, or not how it ends; an action that the state
              now does not declare is skipped, and no other is
  Dead        accepted or refused full where TARGET is killed now, or refused dead where it is not
  Clear       no object that the `if` or `wait` asks is busy, so that there is nothing to wait for
  Busy        an object that the `if` or `wait` asks is busy
  Reading     a state is not the state of its object now
  NotAState   STATE is none of the class of OBJECT

A set has its declared members, as the lines `insert` and `remove` before have changed them. A `do .. all_in`
asks those who are members at its first post, an `if` or a `wait` those at its line `wait` or `seen`. The
lines `empty`, `insert` and `remove` are of format 2 alone, behind `smi-journal 2`: in format 1 they are bad
lines, a `do` to an empty set leaves no line, Split is not tried, and an action that comes to an `insert` or a
`remove` has no further line, but for a kill.

An object is busy for the `if` or `wait` of OBJECT while an action is open at it, or while a request that
OBJECT has sent to it has not ended; a killed one is not busy. A journal does not hold how many requests a
mailbox has room for, so that `refused full` is not judged; a second line `wait OBJECT` for one `if` or
`wait` is legal. What `step --journal` writes is legal. For example, with the domain of `smirun step --help`,

  smi-journal 2
  start RUN @1 0 CONFIGURE (VOLTS = 1500)
  post RUN HV 0 SWITCH_ON (VOLTS = 1500)
  seen RUN HV=OFF

is told as `Illegal 4 Busy`: HV has not ended what it was sent. With `--explain` standard error then has the
line, what stands against it, where it is about the next instruction of an action (Split and Meaning) the place
of this in FILE, and the earlier line that this rests on:

  line 4: seen RUN HV=OFF
  what RUN sent to HV has not ended.
  line 3: post RUN HV 0 SWITCH_ON (VOLTS = 1500)

With `--log` what the log of a `live` manager has done is judged, however long a journal of it would be: the
log is performed, with the capacity that its first line names and without what stands after its last line
feed. It may be that of a manager that runs.

A file that is refused is told on standard error, by FILE and one of: `read NO KIND at OFFSET`, `check NO
KIND NAME` (the domain; `smirun check --help` has the kinds), `unreadable`, and of the journal `too long`,
`bad header` (it does not begin with the line of journals), `bad line NO` (the line is no entry: another
form, a name that the domain does not have, a number past 64 bits, arguments that are not named and
ordered as the action's parameters, or no line feed at its end). A bad header or line goes before every
rule; with `--explain` standard error has why it is bad. Of the log it is `too long`, `is of another domain`, or
`bad line NO` (no manager wrote it there). `output fault` says that the output cannot be written, `memory`
that there is not enough memory. Where `memory` comes behind `Illegal`, it ends what
`--explain` has to say, and the exit status is still 4.

The time grows with the length of the journal and with what its actions do: a million lines take less than a
second. The journal is read whole; beside its text it takes some 150 bytes a line.

Exit status: 0 the journal is legal; 1 an input was refused, or a file could not be read or the output not
be written; 2 a wrong command line; 3 not enough memory; 4 the journal is not legal.";
