//! The texts of help on `next`.

use crate::help::ArgumentHelp;

pub const NEXT: &str = "\
Begins the log that follows that of a manager, which has ended at rest.";

pub const FOLLOWED_LOG: ArgumentHelp = ArgumentHelp {
    short: "The log of a live manager, which has ended",
    full: "The log of a manager of FILE, a text as `live --log` writes it; it is LOG.1 then, or LOG.2 and so on",
};

pub const NEXT_CAPACITY: ArgumentHelp = ArgumentHelp {
    short: "The capacity of the next log",
    full: "How many requests wait at an object at most in the next log; without it, as many as in LOG",
};

pub const NEXT_EXAMPLES: &str = "\
`smirun next --help` has all. Examples:
  smirun next detector.sml detector.log
  smirun live detector.sml --log detector.log --resume";

pub const NEXT_MORE: &str = "\
A log has 16777216 bytes and 1000000 starts at most (`smirun live --help`). Where all rests, another log may
follow it:

  1. end the manager, or wait until it has ended: no manager has LOG then
  2. smirun next FILE LOG
  3. smirun live FILE --log LOG --resume

All rests where no action is open, and no request waits but at objects that were killed. Else `LOG does not rest`
stands on standard error, behind it the lines `open ..` and `waiting ..` of how all stands that say why, and LOG
stays what it was: `live --resume` goes on with it until what is at work has ended.

The next log is in the place of LOG when this ends, and LOG is then LOG.1, or the first of LOG.2, LOG.3 .. that
is not there; that name is written to standard output. It begins with how all stands: the states of all objects,
their parameters, the members of all sets, how often each object started and ended an action, what became of the
last request of each NAME that asks with `once`, and who was killed and by whom. So a manager that resumes it
goes on from there, no request is made twice, and what is dead stays so. A `once` line with the number that NAME
had last is then told `once NAME K past WHAT`, with what became of it. The numbers of requests and the journal
begin anew, what waits at objects that were killed is left behind, and the bytes and the starts of the new log
are counted from 0.

LOG and LOG.next, which is what comes into its place, are put on the disk before that, and the folder after it.
So a crash leaves under LOG the old log or the new one, whole. LOG.next is the program's own: what stood there is
taken away. A domain file of that path is refused. The new log may be read and written by those who may do so
with LOG, and belongs to who has begun it.

Each log names the one before, by the SHA-1 of all its bytes; the logs before are read by nobody any more. Keep
them to look at them: `smirun states FILE --log LOG.1`.

What ends it otherwise is told on standard error, and nothing is changed: the faults of FILE
(`smirun step --help` has them); `LOG is a link`, where the path itself is a symbolic link: the next log would
lie beside the link, and not beside the file; `LOG is no file`, `LOG is in use`, `LOG unreadable`,
`LOG too long`, `LOG is of another domain`, `LOG has capacity C`, one that no manager can have,
`LOG bad outset N`, where a log that follows another does not begin as one does, and `LOG bad line N`, where no
manager would have written that line, or where it is the last one and was cut off, which `live --resume` takes
away; `LOG was moved`; `output fault`, and behind it the path and why, where LOG.next or LOG.1 cannot be written;
and `memory`. (Where the path is that of the folder, or it is standard output that cannot be written, LOG has its
successor already.)

Exit status: 0 LOG has a successor; 1 an input was refused, does not rest, or could not be read or written; 2 a
wrong command line; 3 not enough memory.";
