//! The texts of help on `graph`.

use crate::help::ArgumentHelp;

pub const GRAPH: &str = "\
Draws a domain as a graph of its states, or, with a journal, the run that this is of.";

pub const DRAWN_JOURNAL: ArgumentHelp = ArgumentHelp {
    short: "The journal of the run to draw, or -",
    full: "The journal of the run to draw: a text as `step --journal` writes it; - is standard input",
};

pub const OBJECTS: ArgumentHelp = ArgumentHelp {
    short: "Draw who sends what to whom, and who reads whom",
    full: "Draw the objects and sets too, who sends what to whom, and who reads whom",
};

pub const MEMBERS: ArgumentHelp = ArgumentHelp {
    short: "With --objects, draw each member of large sets too",
    full: "With --objects, draw each member of sets with more than eight too",
};

pub const FROM: ArgumentHelp = ArgumentHelp {
    short: "The first entry of the journal to draw",
    full: "The first entry of the journal to draw; the first of all is 1",
};

pub const COUNT: ArgumentHelp = ArgumentHelp {
    short: "How many entries of the journal to draw at most",
    full: "How many entries of the journal to draw at most",
};

pub const GRAPH_EXAMPLES: &str = "\
`smirun graph --help` has all. Examples:
  smirun graph detector.sml | dot -Tsvg > detector.svg
  smirun graph detector.sml run.journal | dot -Tsvg > run.svg";

pub const GRAPH_MORE: &str = "\
FILE, the domain file, has at most 1048576 bytes, JOURNAL at most 67108864, and LOG at most 16777216, all
ASCII without a byte order mark. The domain is read and checked.

Without JOURNAL and LOG a text for Graphviz is written to standard output; `dot` of that makes a picture:

  smirun graph detector.sml | dot -Tsvg > detector.svg

Each class has a frame, and each of its states a box: a thick one where objects begin in it, a grey and
broken one where killed objects are in it. An arrow from a state has the actions that may end in the
state to which it leads, one a line. An action may end where `move_to` or `terminate_action` says so,
and keeps its state where its instructions run out; whether a condition can hold is not looked at.
Actions of a device may end in any state of their class: a class of devices is a table, in which they
stand beside the states that declare them. In SVG the parameters of actions are shown where one points
at an arrow or a table.

With `--objects` there is a frame of all objects and sets; devices are grey-blue. An arrow from an
object has what actions of its class send to the object or set to which it leads, a dotted line leads
to what their `if` and `wait` read, and a broken line from a set to each of its declared members. A set
of more than eight members is one box, with their count. Members stand in it that no instruction names
and no smaller set has, and what they send leads from it; with `--members` each is drawn for itself.

With JOURNAL a picture in SVG is written to standard output, which a browser shows:

  smirun graph detector.sml run.journal > run.svg

Each object has a line of life, and each session that the entries name has one. Sessions come first, then
the objects that nobody commands, then those to which these send, and so on, and devices last. Each entry
has a row, with its number (its line in the journal is one more), and its line is shown where one points
at it:

  a bar             an action, from its start to its end; the call stands at the one, the state at the other
  a coloured line   an object between actions: each state has one of eight colours, in the order of the text;
                    grey and broken in the state of killed objects
  an arrow          what an object posts, what a session asked for, or a kill by one; red where refused
  a ring            a wait, with those for whom it is: those of whom it then reads the state and that are not
                    done, or, if the journal does not come so far, those to which it sent and that are not
  a dotted line     what is read, with the state of each object that was read
  insert, remove    who is put into which set, or taken out; `empty`: a set that is asked has no members
  a cross           a kill

`--from N` and `--count M` choose the entries that are shown, and the first line of the picture says
which of how many they are. A bar that began before them, or does not end in them, goes to the edge.
The journal need not be legal; `smirun audit` judges it. What is cut for want of room ends with `..`.
The picture is dark where the browser prefers that. Behind one of a journal with more than 2000 entries
a line on standard error says that `smirun page` shows it better.

With `--log` it is the picture of the log of a `live` manager, also of one that runs. The log is performed,
with the capacity that its first line names and without what stands after its last line feed.

A file that is refused is told on standard error, by its path and one of: `read NO KIND at OFFSET`, `check
NO KIND NAME` (the domain; `smirun check --help` has the kinds), `unreadable`, and of the journal `too
long`, `bad header`, `bad line NO` (`smirun audit --help` has them); of the log `too long`, `is of another
domain`, `bad line NO` (no manager wrote it there). `output fault` says that the output cannot be written,
`memory` that there is not enough memory.

Exit status: 0 done; 1 an input was refused, or a file could not be read or the output not be written; 2
a wrong command line; 3 not enough memory.";
