//! The texts of help on `list`.

pub const LIST: &str = "\
Lists what a domain declares, one thing a line: for searching, and for editors.";

pub const LIST_EXAMPLES: &str = "\
`smirun list --help` has all. Examples:
  smirun list detector.sml
  smirun list detector.sml | grep '^action '";

pub const LIST_MORE: &str = "\
FILE, the domain file, has at most 1048576 bytes of ASCII, without a byte order mark. It is read and
checked. What is written to standard output is a line for each class, each with its parameters and its
states behind it, and with the actions of a state behind that; then one for each object and each set.
They stand in the order in which they are declared, and each line says all by itself:

  class CLASS                    `associated` behind it where a device stands behind the objects
  param CLASS NAME KIND VALUE    KIND is `int` or `string`
  state CLASS STATE              `initial` behind it where objects begin in it, `dead` where killed
                                 objects are in it; both, where no mark says so too
  action CLASS STATE ACTION      its parameters behind it in brackets, as (int VOLTS, int RAMP = 10)
  object OBJECT CLASS
  set SET OBJECT ..              the declared members, as many as there are

For example, `smirun list FILE | grep '^action PSU '` finds what a supply may be asked for, in each state:

  action PSU OFF SWITCH_ON (int VOLTS, int RAMP = 10)
  action PSU ON SWITCH_OFF

With `--json` each line is an object of JSON, on a line of its own: its field `line` is the first word, and the
others are `class`, `state`, `action`, `object`, `set`, `name`, `kind`, `value`; `associated`, `initial` and
`dead`, which are true or false; `parameters`, a list of objects with `kind`, `name`, and `value` where there is a
default; and `objects`, a list of names. For example:

  {\"line\":\"state\",\"class\":\"PSU\",\"state\":\"OFF\",\"initial\":true,\"dead\":false}

A file that is refused is told on standard error, by FILE and one of: `read NO KIND at OFFSET`, `check NO
KIND NAME` (`smirun check --help` has the kinds), `unreadable`. `output fault` says that the output
cannot be written, `memory` that there is not enough memory.

Exit status: 0 done; 1 the file was refused, could not be read or the output not be written; 2 a
wrong command line; 3 not enough memory.";
