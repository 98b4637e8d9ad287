//! The texts of help on `check`.

use crate::help::ArgumentHelp;

pub const CHECK: &str = "\
Tells of domain files whether they are well-formed, one line a file.";

pub const FILES: ArgumentHelp = ArgumentHelp {
    short: "The domain files; - is standard input",
    full: "The domain files; - is standard input",
};

pub const CHECKED_SCRIPT: ArgumentHelp = ArgumentHelp {
    short: "Look at the lines of this script of FILE too",
    full: "Look at the lines of this script of FILE too, and run nothing; may stand more than once",
};

pub const CHECKED_SCHEDULE: ArgumentHelp = ArgumentHelp {
    short: "Look at the lines of this schedule of FILE too",
    full: "Look at the lines of this schedule of FILE too, and run nothing; may stand more than once",
};

pub const CHECK_EXAMPLES: &str = "\
`smirun check --help` has all. Examples:
  smirun check detector.sml
  smirun check --explain detector.sml --script switch_on.script";

pub const CHECK_MORE: &str = "\
A domain file has at most 1048576 bytes of ASCII, without a byte order mark. It is well-formed where
every name that it uses is declared and fits where it stands. What is written to standard output, one
line a file:

  FILE ok                      the file is well-formed
  FILE read NO KIND at OFFSET  it is no text of the language; OFFSET counts bytes from 0
  FILE check NO KIND NAME      it is not well-formed; NAME is the name at fault
  FILE unreadable              it cannot be opened or read; standard error has why

With `--script` and `--schedule` there is one FILE. Where it is well-formed, these lines follow, of each script and
then of each schedule:

  PATH ok                      each line is one of a script (`smirun run --help`) or a schedule (`smirun step --help`)
  PATH bad line NO             the first line that it cannot have; `run` refuses such a script, `step` the line
  PATH too long, unreadable    as `run` and `step` tell it

To find the line of an offset: `head -c OFFSET FILE | wc -l` gives the number of lines before the one that
OFFSET lies in. For example

  class: LAMP
    state ON

is told as `FILE read 4 Unexpected at 20`: there ON begins, and a colon is missing before it. One line stands
before it, so it is in the second.

With `--explain` standard error has why, behind the line of each refused file: the place as FILE:LINE:COLUMN,
both counted from 1, one sentence, the line of the text and a caret under the place; for each fault of a file
that is not well-formed, in the order of its text, up to twenty. Of a script or a schedule it says why it cannot
have a line; where there are no such lines, which lines the domain refuses whenever they come, and which `device`
lines do nothing or make their device fail. Of the file above

  FILE:2:9: expected `:` behind `state`, found `ON`
    state ON
          ^

The condition of an `if` stands in brackets. It is one of these, where STATES is a state or a list of states
in braces, as in { ON, OFF }:

  OBJECT in_state STATES            OBJECT is in one of STATES
  OBJECT not_in_state STATES        OBJECT is in none of STATES
  all_in SET in_state STATES        each member of SET is in one of STATES; not_in_state as above
  any_in SET in_state STATES        some member of SET is in one of STATES; not_in_state as above
  not C,  C and C,  C or C,  ( C )  `not` binds closest, then `and`, then `or`

A `wait` has one name or more in brackets, with commas between them:

  wait ( OBJECT, all_in SET )       waits for OBJECT and for each member of SET

Sets change while a domain runs. Objects and sets are named, and need not be of this class:

  insert OBJECT in SET              OBJECT becomes the last member of SET, unless it is a member
  remove OBJECT from SET            OBJECT is no member of SET any more

The kinds of `read`. The first three are looked for in this order over the whole text; then the first
place in the text is told:

  1 TooLong         the text has more than 1048576 bytes
  2 NotAscii        a byte is above 127, as in letters with accents or in a byte order mark
  3 BadToken        here begins no word, int, string, sign or comment; a word has at most 64 bytes, an
                    int 64 bits with its sign, and a string at most 255 bytes and ends on its line
  4 Unexpected      this word or sign may not stand here, or, at the end, the text ends too early
  5 TooDeep         an `if` inside 16 others, or a `not` or bracket inside 16 of its condition
  6 TooMany         one more than the language allows of what begins here: 64 classes, 64 objects,
                    32 sets, 32 states of a class, 32 actions of a state, 16 parameters of a list,
                    16 arguments of a `do`, 64 members of a set, 32 states of a list, 64 tests of a
                    condition, 64 names of a `wait`

The kinds of `check`. Of several faults the one of the lowest NO is told, and of these the first in the
text. For 8 to 12 and 14 a set has its declared members, and behind them each object that an `insert`
anywhere in the file may put into it; a `remove` takes nothing away from that:

  1 Duplicate       a name is declared twice: a class, object or set, a state of a class, an action of
                    a state, a parameter of a list, a member of a set, an argument of a `do`
  2 NoState         a class has no states
  3 TwoInitial      two states of a class are marked as initial
  4 TwoDead         two states of a class are marked as dead
  5 UnknownClass    an object is of no declared class
  6 UnknownObject   a member, a target of `do`, or an object of a test, a `wait`, an `insert` or a
                    `remove` is not declared
  7 UnknownSet      the name after `all_in`, `any_in`, `in` or `from` is no set
  8 UnknownState    an action ends in, or a test names, a state that is none there
  9 UnknownAction   a target of `do` does not have the action
  10 UnknownParam   a name is no parameter there
  11 KindMismatch   a value is of another kind than its parameter
  12 MissingArg     a `do` leaves a parameter without a value
  13 ParamsDiffer   an action has two lists of parameters in one class
  14 SelfInCondition  a condition or a `wait` asks an object of its own class
  15 AssociatedBody an action of an associated class has instructions

A refused file is told, and the next follows. `output fault` on standard error says that the output
cannot be written, `memory` that there is not enough memory; both end the program.

Exit status: 0 all files are well-formed; 1 a file was refused or could not be read, or the output not
be written; 2 a wrong command line; 3 not enough memory.";
