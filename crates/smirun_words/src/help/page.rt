//! The texts of help on `page`.

use crate::help::ArgumentHelp;

pub const PAGE: &str = "\
Writes a page of a run: one file of HTML, by which the run is gone through in a browser.";

pub const SHOWN_JOURNAL: ArgumentHelp = ArgumentHelp {
    short: "The journal of the run, or - for standard input",
    full: "The journal of the run: a text as `step --journal` writes it; - is standard input",
};

pub const PAGE_EXAMPLES: &str = "\
`smirun page --help` has all. Examples:
  smirun page detector.sml run.journal > run.html
  smirun page detector.sml - < run.journal > run.html";

pub const PAGE_MORE: &str = "\
FILE, the domain file, has at most 1048576 bytes, JOURNAL at most 67108864, and LOG at most 16777216, all
ASCII without a byte order mark. The domain is read and checked, and the journal is judged. The page is
written to standard output:

  smirun page detector.sml run.journal > run.html

The file is complete in itself: it asks for nothing else, and can be sent or kept. It shows

  what the judge says       a journal that is not legal is shown too: its first illegal line is marked, with
                            what stands against it, and those behind it are faint
  a slider                  over the entries; the tables show how all stands behind the chosen one
  the objects               with class, state, open action and sender, the entry at which it began, `device`
                            or the objects that it waits for, and how many requests of objects wait there;
                            in the order of their declaration, or each below the first that sends to it.
                            Killed objects are grey, with a broken frame
  the entries               coloured by their first word; those of the chosen objects or sets alone, or
                            those in which a text is

  left, right               the entry before or behind, of those shown; also up and down
  PgUp, PgDn                20 of them
  Home, End                 before the first entry, behind the last
  /, f                      to the field of search, to that of objects; Esc leaves it

The number of the entry stands behind the `#` of the address: run.html#120 begins there. Each entry has its
number, and its line in the journal is one more. Whom an object waits for is told by the line `seen` that ends
the wait; without that line, those are told to which it sent, and which are busy.

With `--log` the page is that of the log of a `live` manager, also of one that runs. The log is performed,
with the capacity that its first line names and without what stands after its last line feed; the page has
the journal of that, however long it is.

A file that is refused is told on standard error, by its path and one of: `read NO KIND at OFFSET`, `check
NO KIND NAME` (the domain; `smirun check --help` has the kinds), `unreadable`, and of the journal `too
long`, `bad header`, `bad line NO` (`smirun audit --help` has them); of the log `too long`, `is of another
domain`, `bad line NO` (no manager wrote it there). `output fault` says that the output cannot be written,
`memory` that there is not enough memory.

Exit status: 0 done, also for a journal that is not legal; 1 an input was refused, or a file could not be
read or the output not be written; 2 a wrong command line; 3 not enough memory.";
