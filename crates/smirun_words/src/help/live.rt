//! The texts of help on `live`.

use crate::help::ArgumentHelp;

pub const LIVE: &str = "\
Runs a manager of a domain, which other programs talk to by lines.";

pub const LIVE_FILE: ArgumentHelp = ArgumentHelp {
    short: "The domain file",
    full: "The domain file; standard input has the lines, so - is refused",
};

pub const KEPT_LOG: ArgumentHelp = ArgumentHelp {
    short: "Write each line that is made to this file",
    full: "Writes each line that is made to this file, which is not there yet or empty; FILE is refused",
};

pub const RESUME: ArgumentHelp = ArgumentHelp {
    short: "Make the lines of the log again first, and go on",
    full: "Makes the lines of the log again first, and goes on after them",
};

pub const SYNC: ArgumentHelp = ArgumentHelp {
    short: "Put each line on the disk before it is told",
    full: "Puts each line of the log on the disk before what it writes is written, so that no power cut loses it",
};

pub const IN_TURN: ArgumentHelp = ArgumentHelp {
    short: "Take a line only when nothing else is left to do",
    full: "Takes a line only when nothing else is left to do, so that the same lines give the same output",
};

pub const LIVE_EXAMPLES: &str = "\
`smirun live --help` has all. Examples:
  smirun live detector.sml --log detector.log
  smirun live detector.sml --log detector.log --resume";

pub const LIVE_MORE: &str = "\
FILE is a domain file, as `smirun step --help` has it. The manager makes all `start` and `go` steps by itself,
the objects in turn. Other programs write lines to its standard input, and read from its standard output what
it does. A `start` line of an associated object tells who drives that device what to do; the reply is an
`answer` or a `fault` line. Any number of devices may be at work at once.

What goes in, one line each, of at most 8192 bytes of ASCII; a comment begins with `!`:

  request @S OBJECT ACTION                  session @S, which is @1 to @8, asks OBJECT for ACTION
  request @S OBJECT ACTION (NAME = VALUE, ..)  the same with arguments
  answer OBJECT STATE                       the device of OBJECT has done its action, and is in STATE
  fault OBJECT                              the device of OBJECT fails at its action: OBJECT is killed
  kill OBJECT @S                            session @S kills OBJECT
  once NAME K request ..                    a request that is made once, however often it is asked for
  ? ..                                      a question: how all stands goes to standard error; neither the log nor
                                            standard output has anything of it

Any other line is `refused BadLine`: also `start` and `go`, which are the manager's own, and a last line that
lacks its line feed, since it may be cut off. A line that has only blanks and a comment writes nothing, and
stands in the log: so a driver can leave remarks there.

What goes out is what `smirun step` writes for the lines that are made, those of others and the manager's own, in
their order: `accept`, `start`, `set`, `post`, `empty`, `insert`, `remove`, `wait`, `seen`, `end`, `kill` and
`refused`; `smirun step --help` has them all. By turns the manager makes one step of its own, if one can be made,
and takes one line, if one has come; what a turn writes goes out in one write, before the next turn. It waits for a
line only when nothing else is left to do. So a `kill` waits for the lines before it, and one step for each of them,
and one more. A question waits as a line does; its answer takes no time that grows with what was done before.

A driver must read what the manager writes at all times, in the background of a script: one that writes and does
not read fills both pipes, and then it and the manager wait for one another for ever. It waits for the `start`
line: an answer before it is `refused NotOpen`. Where an `end OBJECT skipped` follows, there is nothing to do. Several
programs may write into one FIFO where each line is one write of at most 4096 bytes, as `echo` makes it; one program
reads the other. A FIFO ends when its last writer closes it, so whoever starts the manager keeps one open. With
HV.sml, the domain of `smirun step --help`, this script has a supply that is always switched on at once, and shows
what the manager tells; `exec 3>&-` ends it:

  mkfifo lines told
  smirun live HV.sml --log HV.log <lines >told &
  exec 3>lines                      # one writer stays, so that the lines do not end
  while read -r line; do
    echo \"$line\"
    case \"$line\" in
      \"start HV \"*) echo \"answer HV ON\" >lines ;;
    esac
  done <told 3>&- &
  echo \"request @1 RUN CONFIGURE\" >&3

Who may not learn whether a request was taken sends it as `once NAME K request @S OBJECT ..`, to the byte, and
may send it again. NAME is its own for ever, 1 to 64 upper-case letters, digits and `_`; K is a number below 2^64
that grows. If K is greater than the last of NAME, the request is made, and after what it writes comes
`once NAME K ANSWER` with its `accept ..` or `refused ..` line. If K is the last, the same `once` line comes
again, and nothing else is done. If K is less, it is `once NAME K refused Old`; of more than 64 names it is
`once NAME K refused TooManyNames`. So it is also after a crash and `--resume`. If the last K was had in a log
before (`smirun next`), it is `once NAME K past WHAT`. In the log stands the request with the comment
`! once NAME K`; from outside a line that ends so is refused.

How all stands is what `step --states` writes, and then `started OBJECT N` and `ended OBJECT N`, how often each
object began and ended an action, `once NAME K OBJECT STATE VERSION WHAT`, what became of the last request of
each NAME (`waits`, `open`, `ended`, `skipped`, `killed` or `refused WORD`) with the state and the count of ends
of its object then, and always as the last line `stands E`, how many entries the journal has.

With `--log PATH` each line that is made is written to PATH before what it writes is written: after a first line
that names the domain and the capacity, each line that came, as it came, and each `start` and `go` of the
manager. In place of one that is `refused BadLine` for its form stands the line `refused BadLine`. PATH is a
schedule: `smirun step FILE PATH` writes what the manager wrote but for its `once` lines and `refused Limit`, with
`--journal` its journal too, and with `--states` how all stands, also while the manager runs. It needs the same
`--capacity`. PATH is a regular file, is not there before, or empty, and no other manager has it. Never move or
cut the log of a manager that runs: it looks once a second, and ends where PATH no longer names the file that it
opened, or where that has other bytes than it wrote.

A log has 16777216 bytes at most. Standard error has `PATH nine tenths full` when nine tenths are used. The last
65536 bytes are left for answers, faults and kills and for the manager's own steps: there a request and any line
that would be `refused BadLine` are `refused Limit` (`once NAME K refused Limit`, and K may be used again), a line
without a token is not kept, and of all these the log has nothing. When it is full, the manager ends.
A log that ended where all rests gets a successor by `smirun next`, and that is resumed as this one would be.

What the log has survives any end of the manager. A crash of the machine, or a power cut, may lose the last lines
that the system had not put on the disk, though they were told: with `--sync` they are on the disk before they are
told, once a turn, which costs what the disk takes for it.

With `--resume` PATH is there. What it holds is made again in silence, then how all stands is written to standard
output, and after that once more the `start` line of each action that a device has in hand. Then the manager goes
on. An empty PATH is begun. A last line that was cut off is taken away. No accepted request is lost that the log
has, but an answer that the log does not have comes once more to be given: so a driver looks first what its device
does. FILE may have other comments and blanks than before, and nothing else may be changed.

Without `--in-turn` a thread reads standard input, and what comes between which steps depends on when it comes; the
log has it. With `--in-turn` a line is taken only when nothing else is left to do, for tests, and where the lines are
those of a file.

`--max-starts` counts the starts of a log that is resumed too. Standard error has `FILE nine tenths of the starts`,
and `FILE limit` when as many actions were started as may be: then nothing starts any more, requests are
`refused Limit`, and answers, faults and kills go on.

With `--explain` standard error has why a line was refused: the place as PATH:LINE:COLUMN, by its line in the log,
one sentence, the line and a caret under the place; where there is no log, - stands for PATH.

Without `--in-turn` the manager never waits for whoever reads standard error: up to 1048576 bytes wait to be read,
and what has no room is dropped whole. Before the next that has room stands `? not told` for each answer to a
question that was dropped, and `N bytes not told` for all else.

When the lines end, the manager makes the steps that are left, and ends. Standard error has then the lines `open ..`
and `waiting ..` of what is not done. Devices that are at work stay so.

What else ends it is told on standard error: the faults of FILE (`smirun step --help` has them); `PATH is no file`,
where it is no regular file, or is standard input, output or error; `PATH is in use`; `PATH is not empty` without
`--resume`; with it `PATH unreadable`, `PATH too long`, `PATH is of another domain`, where the first line names
another one, `PATH has capacity C`, which is another one, `PATH bad outset N`, where a log that follows another
does not begin as one does, `PATH has N starts`, more than `--max-starts`, and `PATH bad line N`, where no manager
would have written that line: a `start` or a `go` that cannot be made there, no step but `refused BadLine`, a byte
that no manager writes, a second first line, or a mark `! once NAME K` that no manager wrote; then the lines before
it are a log that can be resumed, and nothing was changed. `PATH full`, `PATH was moved`,
`PATH was written by another`; `- unreadable`; `output fault`, also where PATH cannot be made or written (then a
second line has PATH and why); and `memory`. What the log has by then was told, but for the lines of its last turn.

Exit status: 0 the lines ended and all was done that could be; 1 an input was refused, or a file could not be read,
or the output or the log not be written; 2 a wrong command line; 3 not enough memory.";
