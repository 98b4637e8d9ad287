//! A run of forty lines, and what becomes of it where two neighbouring lines are exchanged.

use crate::changed_journals::{Change, is_said_changed, is_said_in_second};
use crate::judged::Said;
use crate::settings::Setting;
use smi_audit::Rule;
use std::test::*;

/// One after another: the supplies are switched on; the counter puts and shows, and is killed at its second
/// put, as is its sink at what it was shown; of two that ask one another one is killed; and a watch switches
/// off what is killed meanwhile.
const RUN: &[&[u8]] = &[
    b"smi-journal 1\n",
    b"start HV1 @2 0 SWITCH_ON\n",
    b"start RUN @1 0 CONFIGURE\n",
    b"end HV1 ON\n",
    b"post RUN HV1 0 SWITCH_ON\n",
    b"post RUN HV2 0 SWITCH_ON\n",
    b"wait RUN\n",
    b"start HV1 RUN 0 SWITCH_ON\n",
    b"end HV1 skipped\n",
    b"start HV2 RUN 0 SWITCH_ON\n",
    b"end HV2 ON\n",
    b"seen RUN HV1=ON HV2=ON\n",
    b"end RUN READY\n",
    b"start C @1 0 PUT (T = 5, M = \"a\")\n",
    b"post C OUT 0 TAKE (V = 5, W = \"a\")\n",
    b"start OUT C 0 TAKE (V = 5, W = \"a\")\n",
    b"end C IDLE\n",
    b"end OUT READY\n",
    b"start C @1 1 SHOW\n",
    b"post C OUT 1 TAKE (V = 5, W = \"none\")\n",
    b"end C IDLE\n",
    b"start C @2 0 PUT (T = 7, M = \"b\")\n",
    b"start OUT C 1 TAKE (V = 5, W = \"none\")\n",
    b"kill C @1\n",
    b"kill OUT fault\n",
    b"start A @1 0 GO\n",
    b"start B @1 0 GO\n",
    b"wait A\n",
    b"wait B\n",
    b"kill B @1\n",
    b"seen A B=DEAD\n",
    b"end A S\n",
    b"start W @1 0 LOOK\n",
    b"post W HV2 0 SWITCH_OFF\n",
    b"post W HV2 1 SWITCH_OFF\n",
    b"kill HV2 @3\n",
    b"post W HV2 refused dead SWITCH_OFF\n",
    b"kill HV1 @3\n",
    b"seen W HV1=DEAD\n",
    b"end W IDLE\n",
];

/// What is exchanged, the two lines of it, and what is then said. A line that is exchanged with itself changes nothing.
const EXCHANGED: &[(&str, usize, usize, Said)] = &[
    ("nothing", 1, 1, Said::Legal),
    ("the header and the first start", 1, 2, Said::BadHeader),
    ("two starts", 2, 3, Said::Legal),
    (
        "a start and the end of another object's action",
        3,
        4,
        Said::Legal,
    ),
    ("an end and a post to its object", 4, 5, Said::Legal),
    (
        "two posts of one send",
        5,
        6,
        Said::Illegal(5, Rule::Meaning),
    ),
    (
        "a post and the wait behind it",
        6,
        7,
        Said::Illegal(6, Rule::Meaning),
    ),
    ("a wait and a start of what it waits for", 7, 8, Said::Legal),
    (
        "a start and the end that skips it",
        8,
        9,
        Said::Illegal(8, Rule::NotOpen),
    ),
    ("an end and a start of another object", 9, 10, Said::Legal),
    (
        "a start and the end of its action",
        10,
        11,
        Said::Illegal(10, Rule::NotOpen),
    ),
    (
        "an end and the reading that waits for it",
        11,
        12,
        Said::Illegal(11, Rule::Busy),
    ),
    (
        "a reading and the end behind it",
        12,
        13,
        Said::Illegal(12, Rule::Meaning),
    ),
    (
        "an end and the start of the next object",
        13,
        14,
        Said::Legal,
    ),
    (
        "a start and the post of its action",
        14,
        15,
        Said::Illegal(14, Rule::NotOpen),
    ),
    (
        "a post and the start of what it sent",
        15,
        16,
        Said::Illegal(15, Rule::NotSent),
    ),
    (
        "the start of the sink and the end of the counter",
        16,
        17,
        Said::Legal,
    ),
    ("the ends of two objects", 17, 18, Said::Legal),
    (
        "the end of the sink and the next start of the counter",
        18,
        19,
        Said::Legal,
    ),
    (
        "the start that shows and its post",
        19,
        20,
        Said::Illegal(19, Rule::NotOpen),
    ),
    (
        "a post and the end behind it",
        20,
        21,
        Said::Illegal(20, Rule::Meaning),
    ),
    (
        "an end and the next start of its object",
        21,
        22,
        Said::Illegal(21, Rule::Open),
    ),
    (
        "the starts of the counter and of the sink",
        22,
        23,
        Said::Legal,
    ),
    ("a start and the kill of its sender", 23, 24, Said::Legal),
    ("two kills", 24, 25, Said::Legal),
    (
        "a kill by a fault and a start of another object",
        25,
        26,
        Said::Legal,
    ),
    (
        "the starts of two that ask one another",
        26,
        27,
        Said::Legal,
    ),
    (
        "a start and the wait for its object",
        27,
        28,
        Said::Illegal(27, Rule::Clear),
    ),
    ("two waits", 28, 29, Said::Legal),
    (
        "a wait and the kill of its object",
        29,
        30,
        Said::Illegal(30, Rule::NotOpen),
    ),
    (
        "a kill and the reading of what is dead",
        30,
        31,
        Said::Illegal(30, Rule::Busy),
    ),
    (
        "the reading of what is dead and the end behind it",
        31,
        32,
        Said::Illegal(31, Rule::Meaning),
    ),
    ("an end and the start of the watch", 32, 33, Said::Legal),
    (
        "the start of the watch and its first post",
        33,
        34,
        Said::Illegal(33, Rule::NotOpen),
    ),
    (
        "two posts to one object",
        34,
        35,
        Said::Illegal(34, Rule::Number),
    ),
    (
        "a post and the kill of its target",
        35,
        36,
        Said::Illegal(36, Rule::Dead),
    ),
    (
        "a kill and the post that is refused for it",
        36,
        37,
        Said::Illegal(36, Rule::Dead),
    ),
    (
        "a refused post and a kill of another object",
        37,
        38,
        Said::Legal,
    ),
    (
        "a kill and the reading behind the refused post",
        38,
        39,
        Said::Illegal(38, Rule::Reading),
    ),
    (
        "the last reading and the last end",
        39,
        40,
        Said::Illegal(39, Rule::Meaning),
    ),
];

/// In the second format the same is said, but of lines that come between the two posts of the run.
const IN_SECOND: &[(usize, Said)] = &[
    (4, Said::Illegal(5, Rule::Split)),
    (6, Said::Illegal(6, Rule::Split)),
];

fn said_in_second(line: usize, said: Said) -> Said {
    for (other, second) in IN_SECOND {
        if *other == line {
            return *second;
        }
    }
    said
}

#[test]
fn exchanged_neighbours_are_judged(rt: HostRuntime) {
    for (name, line, other, said) in EXCHANGED {
        let change = Change::Exchange(*line, *other);
        assert!(rt;
            is_said_changed(rt.alloc(), Setting::Plant, RUN, change, *said),
            "{name}, from line {line}"
        );
    }
}

#[test]
fn exchanged_neighbours_are_judged_in_the_second_format(rt: HostRuntime) {
    for (name, line, other, said) in EXCHANGED {
        // The first line stays.
        if *line > 1 {
            let change = Change::Exchange(*line, *other);
            let second = said_in_second(*line, *said);
            assert!(rt;
                is_said_in_second(rt.alloc(), Setting::Plant, RUN, change, second),
                "{name}, from line {line}"
            );
        }
    }
}
