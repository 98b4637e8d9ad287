//! A run of two supplies that are switched on, and what may not be changed in its journal.

use crate::changed_journals::{Change, ChangeRow, is_said_changed};
use crate::judged::{Said, is_said};
use crate::settings::Setting;
use smi_audit::Rule;
use std::test::*;

/// Both supplies are switched on, the run is ready, and what asks for it again is skipped.
pub const STANDARD: &[&[u8]] = &[
    b"smi-journal 1\n",
    b"start RUN @1 0 CONFIGURE\n",
    b"post RUN HV1 0 SWITCH_ON\n",
    b"post RUN HV2 0 SWITCH_ON\n",
    b"wait RUN\n",
    b"start HV1 RUN 0 SWITCH_ON\n",
    b"end HV1 ON\n",
    b"start HV2 RUN 0 SWITCH_ON\n",
    b"end HV2 ON\n",
    b"seen RUN HV1=ON HV2=ON\n",
    b"end RUN READY\n",
    b"start RUN @1 1 CONFIGURE\n",
    b"end RUN skipped\n",
];

const CHANGES: &[ChangeRow] = &[
    ("as it is", Change::Nothing, Said::Legal),
    ("the header alone", Change::First(1), Said::Legal),
    ("the first five lines", Change::First(5), Said::Legal),
    (
        "both requests of the run exchanged",
        Change::Exchange(2, 12),
        Said::Illegal(2, Rule::Number),
    ),
    (
        "a state that was not so",
        Change::Line(10, b"seen RUN HV1=ON HV2=OFF\n"),
        Said::Illegal(10, Rule::Reading),
    ),
    (
        "another branch",
        Change::Line(11, b"end RUN ERROR\n"),
        Said::Illegal(11, Rule::Meaning),
    ),
    (
        "waiting twice",
        Change::Line(5, b"wait RUN\nwait RUN\n"),
        Said::Legal,
    ),
    ("not waiting at all", Change::Line(5, b""), Said::Legal),
    (
        "a start of what was refused",
        Change::Line(4, b"post RUN HV2 refused full SWITCH_ON\n"),
        Said::Illegal(8, Rule::NotSent),
    ),
    (
        "an action of another class",
        Change::Line(2, b"start RUN @1 0 SWITCH_ON\n"),
        Said::Illegal(2, Rule::BadRequest),
    ),
    (
        "the first start left out",
        Change::Line(2, b""),
        Said::Illegal(2, Rule::NotOpen),
    ),
    (
        "a start of the device left out",
        Change::Line(8, b""),
        Said::Illegal(8, Rule::NotOpen),
    ),
    (
        "an end of the device left out",
        Change::Line(9, b""),
        Said::Illegal(9, Rule::Busy),
    ),
    (
        "a post left out",
        Change::Line(3, b""),
        Said::Illegal(3, Rule::Meaning),
    ),
    (
        "the reading left out",
        Change::Line(10, b""),
        Said::Illegal(10, Rule::Meaning),
    ),
    (
        "the end left out",
        Change::Line(11, b""),
        Said::Illegal(11, Rule::Open),
    ),
];

/// A text of no journal is refused before any rule is tried.
const SPELLINGS: &[ChangeRow] = &[
    (
        "the last line cut",
        Change::Line(13, b"end RUN skip"),
        Said::BadLine(13),
    ),
    (
        "the last line without its line feed",
        Change::Line(13, b"end RUN skipped"),
        Said::BadLine(13),
    ),
    ("no header", Change::Line(1, b""), Said::BadHeader),
    (
        "a header of another format",
        Change::Line(1, b"smi-journal 3\n"),
        Said::BadHeader,
    ),
    (
        "a header of another format that begins as one",
        Change::Line(1, b"smi-journal 20\n"),
        Said::BadHeader,
    ),
    (
        "a carriage return in the header",
        Change::Line(1, b"smi-journal 1\r\n"),
        Said::BadHeader,
    ),
    (
        "a leading zero",
        Change::Line(3, b"post RUN HV1 00 SWITCH_ON\n"),
        Said::BadLine(3),
    ),
    (
        "two blanks",
        Change::Line(3, b"post RUN  HV1 0 SWITCH_ON\n"),
        Said::BadLine(3),
    ),
    (
        "the greatest number",
        Change::Line(3, b"post RUN HV1 18446744073709551615 SWITCH_ON\n"),
        Said::Illegal(3, Rule::Number),
    ),
    (
        "a number past the greatest",
        Change::Line(3, b"post RUN HV1 18446744073709551616 SWITCH_ON\n"),
        Said::BadLine(3),
    ),
    (
        "a carriage return",
        Change::Line(7, b"end HV1 ON\r\n"),
        Said::BadLine(7),
    ),
    (
        "a bad line behind one that may not stand there",
        Change::Line(2, b"wait RUN\nwait\n"),
        Said::BadLine(3),
    ),
    (
        "the first of two bad lines",
        Change::Line(12, b"start RUN @9 1 CONFIGURE\nwait\n"),
        Said::BadLine(12),
    ),
];

/// What is shorter than a journal, and what is as short as one.
const SHORT: &[(&str, &[u8], Said)] = &[
    ("no text", b"", Said::BadHeader),
    ("a line feed alone", b"\n", Said::BadHeader),
    (
        "the header without its line feed",
        b"smi-journal 1",
        Said::BadHeader,
    ),
    ("the header", b"smi-journal 1\n", Said::Legal),
];

#[test]
fn the_first_illegal_line_and_its_first_rule_are_told(rt: HostRuntime) {
    for (name, change, said) in CHANGES {
        assert!(rt;
            is_said_changed(rt.alloc(), Setting::Supplies, STANDARD, *change, *said),
            "{name}"
        );
    }
}

#[test]
fn a_line_that_is_no_entry_is_told_before_any_rule(rt: HostRuntime) {
    for (name, change, said) in SPELLINGS {
        assert!(rt;
            is_said_changed(rt.alloc(), Setting::Supplies, STANDARD, *change, *said),
            "{name}"
        );
    }
}

#[test]
fn a_journal_has_its_whole_header(rt: HostRuntime) {
    for (name, text, said) in SHORT {
        assert!(rt;
            is_said(rt.alloc(), Setting::Supplies, *text, *said),
            "{name}"
        );
    }
}
