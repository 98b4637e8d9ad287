//! The texts of help on `lint`.

use crate::help::ArgumentHelp;

pub const LINT: &str = "\
Tells what is senseless in domains that are well-formed: what nothing reaches, and what nothing uses.";

pub const LINTED: ArgumentHelp = ArgumentHelp {
    short: "The domain files, or - for standard input",
    full: "The domain files, of which one may be - for standard input",
};

pub const ALL: ArgumentHelp = ArgumentHelp {
    short: "Tell also states that no action leaves",
    full: "Tell also states that no action leaves: a last state may be meant",
};

pub const LINT_STRICT: ArgumentHelp = ArgumentHelp {
    short: "Make the exit status 1 where there is a warning",
    full: "Make the exit status 1 where there is a warning",
};

pub const WHY_SENSELESS: ArgumentHelp = ArgumentHelp {
    short: "Say on standard error what is wrong, and where",
    full: "Say on standard error why a file is refused, and what is senseless: line, column, a sentence",
};

pub const LINT_EXAMPLES: &str = "\
`smirun lint --help` has all. Examples:
  smirun lint --explain detector.sml
  smirun lint --strict --all detector.sml partition.sml";

pub const LINT_MORE: &str = "\
Each FILE is read and checked as by `smirun check`, and a refused one is told as there. Of each other, standard
output has a line for each warning, in the order of the text:

  FILE warn NO KIND NAME at LINE:COLUMN

NAME is what it is about, and LINE:COLUMN where that stands; both count from 1. NO and KIND are:

  1 Unreached     an instruction of action NAME behind one at which each way of its block has ended
  2 NoWayIn       a state in which no object is ever, as no action that it can start ends there; not the initial
                  state, nor the dead one, and none of a class whose actions devices do
  3 NoWayOut      with --all: a state without an action, but for the dead one
  4 NoBody        a class whose actions have no instructions: is `/associated` missing?
  5 Always        a test of NAME that is always true, by itself or with others of the same object before it
  6 Never         a test of NAME that is never true; or a set that never has a member
  7 Circle        actions that send to one another in a circle, and may go on for ever
  8 WaitCircle    objects whose `if`s and `wait`s ask one another in a circle, and may wait for ever
  9 NeverRead     a parameter that nothing reads; devices read all of theirs
 10 Unused        a class without objects, a set that nothing names, an object with a device that nobody uses, and
                  an action of such objects that no object sends, but for a report: one without parameters that
                  each state declares, of two or more
 11 DeadByName    a `move_to` or `terminate_action` with the dead state, which does not kill; or a state DEAD where
                  another is marked as the dead one

Of 1 and 2 it is proved that no journal of the domain which is legal shows such an instruction or state. The others
are meant for people: what they tell is so by the domain alone, but may be wanted.

A comment `! lint: KIND` behind what is told, on its line, keeps that warning from being told:

  state: DONE        ! lint: NoWayOut

For example, `smirun lint --strict FILE` fails where anything is told, so that it can be a test.

Exit status: 0 done, also where there were warnings; 1 a file was refused or could not be read, with `--strict` also
where there was a warning, or the output could not be written; 2 a wrong command line; 3 not enough memory.";
