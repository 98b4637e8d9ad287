//! Journals that are read, and bytes that are the text of none.

use crate::journal_texts::{
    ARGUMENTS_TEXT, ENDS_OF_RANGES_TEXT, KILLED_SUPPLY_TEXT, KILLS_TEXT, STANDARD_TEXT,
};
use smi_journal::{Format, JournalError, read_journal, write_journal};
use sml_domain::Domain;
use sml_load::domain_of;
use std::alloc::{AllocError, Global};
use std::io::{Error, Write};
use std::sync::Arc;
use test_domains::{COUNTER, SUPPLIES};

// The place of the digit in the first line.
const DIGIT: usize = 12;

// The bytes with the first line of a format.
fn with_format(alloc: Global, bytes: &[u8], format: Format) -> Option<Vec<u8>> {
    let mut text = Vec::from_slice(alloc, bytes).ok()?;
    let digit = match format {
        Format::One => b'1',
        Format::Two => b'2',
    };
    *text.get_mut(DIGIT)? = digit;
    Some(text)
}

// Whether bytes are read as a journal of the format that is written as these.
fn is_read_as(
    alloc: Global,
    domain: &Domain,
    bytes: &[u8],
    format: Format,
    written: &[u8],
) -> bool {
    let Ok((found, journal)) = read_journal(alloc, domain, bytes) else {
        return false;
    };
    let mut text = Vec::new(alloc);
    write_journal(domain, journal.entries(), &mut text).is_ok()
        && found == format
        && text.as_slice() == written
}

// Whether a text is read in a format, and written in the second one.
fn is_read_back(alloc: Global, domain: &Domain, bytes: &[u8], format: Format) -> bool {
    let Some(text) = with_format(alloc, bytes, format) else {
        return false;
    };
    match with_format(alloc, bytes, Format::Two) {
        Some(written) => is_read_as(alloc, domain, &text, format, &written),
        None => false,
    }
}

// Whether bytes are refused so.
fn is_refused(alloc: Global, domain: &Domain, bytes: &[u8], expected: JournalError) -> bool {
    match read_journal(alloc, domain, bytes) {
        Ok(_) => false,
        Err(error) => error == expected,
    }
}

// Whether a text is read in both formats.
fn is_read_in_both(alloc: Global, domain: &Option<Arc<Domain>>, bytes: &[u8]) -> bool {
    match domain {
        Some(domain) => {
            is_read_back(alloc, domain, bytes, Format::One)
                && is_read_back(alloc, domain, bytes, Format::Two)
        }
        None => false,
    }
}

fn is_refused_in(
    alloc: Global,
    domain: &Option<Arc<Domain>>,
    bytes: &[u8],
    expected: JournalError,
) -> bool {
    match domain {
        Some(domain) => is_refused(alloc, domain, bytes, expected),
        None => false,
    }
}

// A name, a domain, and the text of a journal of it.
const TEXTS: &[(&str, &[u8], &[u8])] = &[
    ("both supplies are switched on", SUPPLIES, STANDARD_TEXT),
    ("kills and faults", SUPPLIES, KILLS_TEXT),
    (
        "a supply is killed before it starts",
        SUPPLIES,
        KILLED_SUPPLY_TEXT,
    ),
    ("arguments", COUNTER, ARGUMENTS_TEXT),
    ("the ends of ranges", COUNTER, ENDS_OF_RANGES_TEXT),
    ("no entries", SUPPLIES, b"smi-journal 1\n"),
    (
        "values of another kind than their parameters, and a string with every sign",
        COUNTER,
        b"smi-journal 1\nstart C @1 0 PUT (T = \"5\", M = 0)\npost C OUT 7 TAKE (V = 1, W = \") = , (@ 9\")\n",
    ),
    (
        "an action that the object's class does not have, and a state of another class",
        SUPPLIES,
        b"smi-journal 1\nstart HV1 @1 0 CONFIGURE\nend RUN ON\n",
    ),
];

#[test]
fn journals_are_read(rt: HostRuntime) {
    for (name, domain, text) in TEXTS {
        let domain = domain_of(rt.alloc(), *domain).ok();
        assert!(rt; is_read_in_both(rt.alloc(), &domain, *text), "{name}");
    }
}

const NO_HEADERS: &[(&str, &[u8])] = &[
    ("nothing", b""),
    ("the first line without its line feed", b"smi-journal 1"),
    (
        "that of the second format without its line feed",
        b"smi-journal 2",
    ),
    ("the format 0", b"smi-journal 0\n"),
    ("the format 3", b"smi-journal 3\n"),
    ("a format of two digits", b"smi-journal 12\n"),
    ("a blank at the end", b"smi-journal 1 \n"),
    (
        "a blank at the end of the second format",
        b"smi-journal 2 \n",
    ),
    ("a carriage return at the end", b"smi-journal 1\r\n"),
    ("an empty line before it", b"\nsmi-journal 1\n"),
    ("an entry in its place", b"wait RUN\n"),
];

#[test]
fn texts_without_the_first_line_are_refused(rt: HostRuntime) {
    let domain = domain_of(rt.alloc(), SUPPLIES).ok();
    for (name, text) in NO_HEADERS {
        assert!(rt;
            is_refused_in(rt.alloc(), &domain, *text, JournalError::BadHeader),
            "{name}"
        );
    }
}

// Each is behind the first line and `wait RUN`.
const BAD_LINES: &[(&str, &[u8])] = &[
    (
        "a skip that is cut short, without a line feed",
        b"end RUN skip",
    ),
    ("a skip that is cut short", b"end RUN skip\n"),
    ("a skip without a line feed", b"end RUN skipped"),
    ("a skip in capitals", b"end RUN SKIPPED\n"),
    ("an empty line", b"\n"),
    ("no object", b"wait\n"),
    ("an object in small letters", b"wait run\n"),
    ("a blank at the end", b"wait RUN \n"),
    ("a carriage return at the end", b"wait RUN\r\n"),
    ("a blank at the beginning", b" wait RUN\n"),
    ("an unknown object", b"wait XX\n"),
    ("a keyword with a capital", b"Wait RUN\n"),
    (
        "a number with a zero in front",
        b"start RUN @1 00 CONFIGURE\n",
    ),
    (
        "a number beyond its range",
        b"start RUN @1 18446744073709551616 CONFIGURE\n",
    ),
    ("the session 0", b"start RUN @0 0 CONFIGURE\n"),
    ("the session 9", b"start RUN @9 0 CONFIGURE\n"),
    ("two blanks", b"start RUN @1  0 CONFIGURE\n"),
    ("an unknown action", b"start RUN @1 0 NOPE\n"),
    ("empty brackets", b"start RUN @1 0 CONFIGURE ()\n"),
    (
        "arguments for an action without parameters",
        b"start RUN @1 0 CONFIGURE (T = 5)\n",
    ),
    (
        "a refusal of no kind",
        b"post RUN HV1 refused late SWITCH_ON\n",
    ),
    (
        "a refusal without its action",
        b"post RUN HV1 refused full\n",
    ),
    ("a negative number", b"post RUN HV1 -0 SWITCH_ON\n"),
    ("two blanks between readings", b"seen RUN HV1=ON  HV2=ON\n"),
    ("an unknown state", b"seen RUN HV1=BROKEN\n"),
    ("a reading without a state", b"seen RUN HV1\n"),
    ("a session of two digits", b"kill RUN @10\n"),
    ("a fault with a capital", b"kill RUN Fault\n"),
    ("an unknown entry", b"halt RUN\n"),
    ("an insert without its set", b"insert RUN HV1\n"),
    ("an insert into two sets", b"insert RUN HV1 HV HV\n"),
    (
        "an object and a set that are exchanged",
        b"insert RUN HV HV1\n",
    ),
    ("an insert with a word between", b"insert RUN HV1 in HV\n"),
    ("an insert by an unknown object", b"insert XX HV1 HV\n"),
    ("an insert without a line feed", b"insert RUN HV1 HV"),
    ("an unknown member", b"remove RUN XX HV\n"),
    ("an unknown set", b"remove RUN HV1 XX\n"),
    ("an object for a set", b"remove RUN HV1 HV1\n"),
    ("two blanks before a member", b"remove RUN  HV1 HV\n"),
    ("a set found empty, without its name", b"empty RUN\n"),
    ("an object found empty", b"empty RUN HV1\n"),
    ("two sets found empty", b"empty RUN HV HV\n"),
    ("a set found empty by an unknown object", b"empty XX HV\n"),
];

// A text of a format whose second line is good, and whose third is this.
fn behind_a_wait(alloc: Global, format: Format, line: &[u8]) -> Option<Vec<u8>> {
    let mut text = with_format(alloc, b"smi-journal 1\nwait RUN\n", format)?;
    for b in line {
        text.push(*b).ok()?;
    }
    Some(text)
}

fn is_bad_behind_a_wait(
    alloc: Global,
    domain: &Option<Arc<Domain>>,
    format: Format,
    line: &[u8],
) -> bool {
    match behind_a_wait(alloc, format, line) {
        Some(text) => is_refused_in(alloc, domain, &text, JournalError::BadLine(3)),
        None => false,
    }
}

#[test]
fn bad_lines_are_told_by_their_numbers(rt: HostRuntime) {
    let domain = domain_of(rt.alloc(), SUPPLIES).ok();
    for (name, line) in BAD_LINES {
        assert!(rt;
            is_bad_behind_a_wait(rt.alloc(), &domain, Format::One, *line),
            "{name}, in the first format"
        );
        assert!(rt;
            is_bad_behind_a_wait(rt.alloc(), &domain, Format::Two, *line),
            "{name}, in the second format"
        );
    }
}

// These are lines of the second format alone.
const LINES_OF_SETS: &[(&str, &[u8])] = &[
    ("an insert", b"insert RUN HV1 HV\n"),
    ("an object inserts itself", b"insert RUN RUN HV\n"),
    ("a remove", b"remove HV2 HV1 HV\n"),
    ("a set found empty", b"empty RUN HV\n"),
];

// Whether a line is read in the second format, and bad in the first one.
fn is_of_sets(alloc: Global, domain: &Option<Arc<Domain>>, line: &[u8]) -> bool {
    let Some(domain_there) = domain else {
        return false;
    };
    match behind_a_wait(alloc, Format::Two, line) {
        Some(text) => {
            is_read_back(alloc, domain_there, &text, Format::Two)
                && is_bad_behind_a_wait(alloc, domain, Format::One, line)
        }
        None => false,
    }
}

#[test]
fn lines_of_sets_are_of_the_second_format(rt: HostRuntime) {
    let domain = domain_of(rt.alloc(), SUPPLIES).ok();
    for (name, line) in LINES_OF_SETS {
        assert!(rt; is_of_sets(rt.alloc(), &domain, *line), "{name}");
    }
}

// Arguments of another form: each text is a whole journal.
const BAD_ARGUMENTS: &[(&str, &[u8])] = &[
    (
        "an argument is missing",
        b"smi-journal 1\nstart C @1 0 PUT (T = 5)\n",
    ),
    (
        "another order",
        b"smi-journal 1\nstart C @1 0 PUT (M = \"a\", T = 5)\n",
    ),
    (
        "no closing bracket",
        b"smi-journal 1\nstart C @1 0 PUT (T = 5, M = \"a\"\n",
    ),
    (
        "a negative zero",
        b"smi-journal 1\nstart C @1 0 PUT (T = -0, M = \"a\")\n",
    ),
    (
        "an int with a zero in front",
        b"smi-journal 1\nstart C @1 0 PUT (T = 05, M = \"a\")\n",
    ),
    (
        "an int above the greatest",
        b"smi-journal 1\nstart C @1 0 PUT (T = 9223372036854775808, M = \"a\")\n",
    ),
    (
        "an int below the least",
        b"smi-journal 1\nstart C @1 0 PUT (T = -9223372036854775809, M = \"a\")\n",
    ),
    (
        "no blank before the bracket",
        b"smi-journal 1\nstart C @1 0 PUT(T = 5, M = \"a\")\n",
    ),
    (
        "no blank behind a comma",
        b"smi-journal 1\nstart C @1 0 PUT (T = 5,M = \"a\")\n",
    ),
    (
        "another name",
        b"smi-journal 1\nstart C @1 0 PUT (T = 5, N = \"a\")\n",
    ),
    ("no arguments", b"smi-journal 1\nstart C @1 0 PUT\n"),
    ("empty brackets", b"smi-journal 1\nstart C @1 0 SHOW ()\n"),
];

#[test]
fn bad_arguments_are_refused(rt: HostRuntime) {
    let domain = domain_of(rt.alloc(), COUNTER).ok();
    for (name, text) in BAD_ARGUMENTS {
        assert!(rt;
            is_refused_in(rt.alloc(), &domain, *text, JournalError::BadLine(2)),
            "{name}"
        );
    }
}

// Takes one byte a call, and fails after `good_calls` bytes.
#[derive(Drop)]
struct OneByte {
    taken: Vec<u8>,
    good_calls: usize,
}

impl Write for OneByte {
    fn write(&mut self, buf: &[u8]) -> std::io::Result<usize> {
        if self.taken.len() >= self.good_calls {
            return Err(Error::from(AllocError));
        }
        let [first, ..] = buf else {
            return Ok(0);
        };
        self.taken.push(*first)?;
        Ok(1)
    }

    fn flush(&mut self) -> std::io::Result<()> {
        Ok(())
    }
}

// Whether the first `calls` bytes of a journal's text are written, and a fault is told if these are not all.
fn is_front_written(
    alloc: Global,
    domain: &Option<Arc<Domain>>,
    bytes: &[u8],
    calls: usize,
) -> bool {
    let Some(domain) = domain else {
        return false;
    };
    let Ok((_, journal)) = read_journal(alloc, domain, bytes) else {
        return false;
    };
    let mut writer = OneByte {
        taken: Vec::new(alloc),
        good_calls: calls,
    };
    let done = write_journal(domain, journal.entries(), &mut writer).is_ok();
    let front = &bytes[..calls.min(bytes.len())];
    done == (calls >= bytes.len()) && writer.taken.as_slice() == front
}

#[test]
fn a_front_is_written_at_a_fault(rt: HostRuntime) {
    let domain = domain_of(rt.alloc(), SUPPLIES).ok();
    for calls in 0..STANDARD_TEXT.len() + 2 {
        assert!(rt;
            is_front_written(rt.alloc(), &domain, STANDARD_TEXT, calls),
            "{calls} bytes"
        );
    }
}
