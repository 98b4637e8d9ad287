//! Journals under the first line of either format: what splits a send, what sends to nobody, and what waits.

use crate::changed_journals::{Change, FormatRow, is_said_in_both};
use crate::judged::Said;
use crate::settings::Setting;
use crate::standard::STANDARD;
use smi_audit::Rule;
use std::test::*;

/// Both supplies are asked in one send, whose posts directly follow each other in the second format.
const SPLIT: &[FormatRow] = &[
    ("as it is", Change::Nothing, Said::Legal, Said::Legal),
    (
        "cut within the send",
        Change::First(3),
        Said::Legal,
        Said::Legal,
    ),
    (
        "a target is killed within the send",
        Change::Line(4, b"kill HV2 @1\npost RUN HV2 0 SWITCH_ON\n"),
        Said::Illegal(5, Rule::Dead),
        Said::Illegal(4, Rule::Split),
    ),
    (
        "the sender is killed within the send",
        Change::Line(4, b"kill RUN @1\npost RUN HV2 0 SWITCH_ON\n"),
        Said::Illegal(5, Rule::NotOpen),
        Said::Illegal(4, Rule::Split),
    ),
    (
        "a target starts within the send",
        Change::Line(4, b"start HV1 RUN 0 SWITCH_ON\npost RUN HV2 0 SWITCH_ON\n"),
        Said::Illegal(7, Rule::Open),
        Said::Illegal(4, Rule::Split),
    ),
    (
        "the sender is killed before the send",
        Change::Line(3, b"kill RUN @1\npost RUN HV1 0 SWITCH_ON\n"),
        Said::Illegal(4, Rule::NotOpen),
        Said::Illegal(4, Rule::NotOpen),
    ),
    (
        "the second post left out",
        Change::Line(4, b""),
        Said::Illegal(4, Rule::Meaning),
        Said::Illegal(4, Rule::Split),
    ),
    (
        "the second post of another action",
        Change::Line(4, b"post RUN HV2 0 SWITCH_OFF\n"),
        Said::Illegal(4, Rule::Meaning),
        Said::Illegal(4, Rule::Split),
    ),
    (
        "nobody within the send",
        Change::Line(4, b"empty RUN HV\n"),
        Said::BadLine(4),
        Said::Illegal(4, Rule::Split),
    ),
    (
        "a change of the set within the send, where nothing is open",
        Change::Line(4, b"insert HV1 HV2 HV\npost RUN HV2 0 SWITCH_ON\n"),
        Said::BadLine(4),
        Said::Illegal(4, Rule::Split),
    ),
    (
        "the second post under another number",
        Change::Line(4, b"post RUN HV2 1 SWITCH_ON\n"),
        Said::Illegal(4, Rule::Number),
        Said::Illegal(4, Rule::Number),
    ),
    (
        "the second post to the dead",
        Change::Line(4, b"post RUN HV2 refused dead SWITCH_ON\n"),
        Said::Illegal(4, Rule::Dead),
        Said::Illegal(4, Rule::Dead),
    ),
    (
        "the second post refused",
        Change::Line(4, b"post RUN HV2 refused full SWITCH_ON\n"),
        Said::Illegal(8, Rule::NotSent),
        Said::Illegal(8, Rule::NotSent),
    ),
    (
        "the posts exchanged",
        Change::Exchange(3, 4),
        Said::Illegal(3, Rule::Meaning),
        Said::Illegal(3, Rule::Meaning),
    ),
    (
        "nobody before the send",
        Change::Line(3, b"empty RUN HV\n"),
        Said::BadLine(3),
        Said::Illegal(3, Rule::Meaning),
    ),
    (
        "a change of the set where nothing is open",
        Change::Line(3, b"insert HV1 HV2 HV\npost RUN HV1 0 SWITCH_ON\n"),
        Said::BadLine(3),
        Said::Illegal(3, Rule::NotOpen),
    ),
    (
        "a change of the set that the action does not make",
        Change::Line(3, b"remove RUN HV2 HV\npost RUN HV1 0 SWITCH_ON\n"),
        Said::BadLine(3),
        Said::Illegal(3, Rule::Meaning),
    ),
];

/// A send to nobody, which leaves an entry in the second format alone.
const TO_NOBODY: &[&[u8]] = &[
    b"smi-journal 1\n",
    b"start X @1 0 GO\n",
    b"empty X E\n",
    b"end X S\n",
];

const NOBODY: &[FormatRow] = &[
    ("as it is", Change::Nothing, Said::BadLine(3), Said::Legal),
    (
        "a kill in its place",
        Change::Lines(&[(3, b"kill X @1\n"), (4, b"")]),
        Said::Legal,
        Said::Legal,
    ),
    (
        "another set",
        Change::Line(3, b"empty X F\n"),
        Said::BadLine(3),
        Said::BadLine(3),
    ),
    (
        "nobody left out",
        Change::Line(3, b""),
        Said::Legal,
        Said::Illegal(3, Rule::Meaning),
    ),
    (
        "nobody behind the end",
        Change::Exchange(3, 4),
        Said::BadLine(4),
        Said::Illegal(3, Rule::Meaning),
    ),
    (
        "a reading in its place",
        Change::Line(3, b"seen X\n"),
        Said::Illegal(3, Rule::Meaning),
        Said::Illegal(3, Rule::Meaning),
    ),
    (
        "a wait in its place",
        Change::Line(3, b"wait X\n"),
        Said::Illegal(3, Rule::Meaning),
        Said::Illegal(3, Rule::Meaning),
    ),
    (
        "nobody twice",
        Change::Line(3, b"empty X E\nempty X E\n"),
        Said::BadLine(3),
        Said::Illegal(4, Rule::Meaning),
    ),
    (
        "nobody behind a kill",
        Change::Lines(&[(3, b"kill X @1\n"), (4, b"empty X E\n")]),
        Said::BadLine(4),
        Said::Illegal(4, Rule::NotOpen),
    ),
    (
        "the start left out",
        Change::Line(2, b""),
        Said::BadLine(2),
        Said::Illegal(2, Rule::NotOpen),
    ),
];

/// What a boss sends to a lamp, and waits for: alike in both formats.
const WAITED: &[&[u8]] = &[
    b"smi-journal 1\n",
    b"start B @1 0 GO\n",
    b"post B L 0 LIGHT\n",
    b"wait B\n",
    b"start L B 0 LIGHT\n",
    b"end L ON\n",
    b"seen B L=ON\n",
    b"end B DONE\n",
];

const WAITS: &[FormatRow] = &[
    ("as it is", Change::Nothing, Said::Legal, Said::Legal),
    (
        "not waiting at all",
        Change::Line(4, b""),
        Said::Legal,
        Said::Legal,
    ),
    (
        "waiting twice",
        Change::Line(5, b"wait B\nstart L B 0 LIGHT\n"),
        Said::Legal,
        Said::Legal,
    ),
    (
        "a kill of what is waited for",
        Change::Lines(&[(5, b"kill L @1\n"), (6, b""), (7, b"seen B L=DEAD\n")]),
        Said::Legal,
        Said::Legal,
    ),
    (
        "the reading left out",
        Change::Line(7, b""),
        Said::Illegal(7, Rule::Meaning),
        Said::Illegal(7, Rule::Meaning),
    ),
    (
        "the reading too early",
        Change::Lines(&[(5, b"seen B L=ON\nstart L B 0 LIGHT\n"), (7, b"")]),
        Said::Illegal(5, Rule::Busy),
        Said::Illegal(5, Rule::Busy),
    ),
    (
        "a state that is not so",
        Change::Line(7, b"seen B L=OFF\n"),
        Said::Illegal(7, Rule::Reading),
        Said::Illegal(7, Rule::Reading),
    ),
    (
        "a reading of nothing",
        Change::Line(7, b"seen B\n"),
        Said::Illegal(7, Rule::Meaning),
        Said::Illegal(7, Rule::Meaning),
    ),
    (
        "waiting for nobody",
        Change::Line(7, b"wait B\nseen B L=ON\n"),
        Said::Illegal(7, Rule::Clear),
        Said::Illegal(7, Rule::Clear),
    ),
    (
        "an end in another state",
        Change::Line(8, b"end B IDLE\n"),
        Said::Illegal(8, Rule::Meaning),
        Said::Illegal(8, Rule::Meaning),
    ),
];

#[test]
fn nothing_splits_a_send_in_the_second_format(rt: HostRuntime) {
    for (name, change, first, second) in SPLIT {
        assert!(rt;
            is_said_in_both(
                rt.alloc(),
                Setting::Supplies,
                STANDARD,
                *change,
                *first,
                *second
            ),
            "{name}"
        );
    }
}

#[test]
fn a_send_to_nobody_leaves_an_entry_in_the_second_format_alone(rt: HostRuntime) {
    for (name, change, first, second) in NOBODY {
        assert!(rt;
            is_said_in_both(
                rt.alloc(),
                Setting::Nobody,
                TO_NOBODY,
                *change,
                *first,
                *second
            ),
            "{name}"
        );
    }
}

#[test]
fn waits_are_judged_alike_in_both_formats(rt: HostRuntime) {
    for (name, change, first, second) in WAITS {
        assert!(rt;
            is_said_in_both(rt.alloc(), Setting::Waits, WAITED, *change, *first, *second),
            "{name}"
        );
    }
}
