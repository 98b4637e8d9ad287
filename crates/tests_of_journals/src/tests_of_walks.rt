//! Tasks of known domains, contact by contact.

use crate::domains::{ERROR, HV, HV1, HV2, LISTS, NESTED, OFF, ON, READY, SWITCH_ON};
use crate::rows::Plain;
use crate::walk::{Step, Walk, Wanted, is_walked};
use smi_journal::Verdict;
use std::test::*;
use test_domains::{COUNTER, EMPTY_SET, SUPPLIES};

const TWO: &[Verdict] = &[Verdict::Accepted(0), Verdict::Accepted(0)];

const TO_BOTH: &[Wanted] = &[(HV1, SWITCH_ON, &[]), (HV2, SWITCH_ON, &[])];

// What is done with two supplies, told their states, and how the action ends then.
fn configured(name: &'static str, steps: &'static [Step]) -> Walk {
    Walk {
        name,
        text: SUPPLIES,
        changes: &[],
        object: 2,
        params: &[],
        state: 2,
        action: 2,
        given: &[],
        steps,
        left: &[],
    }
}

const SUPPLIED: &[(&str, &[Step])] = &[
    (
        "both supplies are on",
        &[
            Step::Sends(TO_BOTH, TWO),
            Step::Reads(&[HV1, HV2], &[ON, ON]),
            Step::Ends(Some(READY)),
        ],
    ),
    (
        "the first supply is off",
        &[
            Step::Sends(TO_BOTH, TWO),
            Step::Reads(&[HV1, HV2], &[OFF, ON]),
            Step::Ends(Some(ERROR)),
        ],
    ),
    (
        "a refused post does not end the action",
        &[
            Step::Sends(TO_BOTH, &[Verdict::Accepted(3), Verdict::Full]),
            Step::Reads(&[HV1, HV2], &[ON, OFF]),
            Step::Ends(Some(ERROR)),
        ],
    ),
    (
        "no post is accepted",
        &[
            Step::Sends(TO_BOTH, &[Verdict::Dead, Verdict::Full]),
            Step::Reads(&[HV1, HV2], &[OFF, OFF]),
            Step::Ends(Some(ERROR)),
        ],
    ),
];

const COUNTED: &[Walk] = &[
    Walk {
        name: "a number and a text are put and sent",
        text: COUNTER,
        changes: &[],
        object: 1,
        params: &[Plain::Int(3), Plain::Str(b"x")],
        state: 1,
        action: 1,
        given: &[Plain::Int(5), Plain::Str(b"a")],
        steps: &[
            Step::Sets(0, Plain::Int(5)),
            Step::Sets(1, Plain::Str(b"a")),
            Step::Sends(
                &[(0, 0, &[Plain::Int(5), Plain::Str(b"a")])],
                &[Verdict::Accepted(0)],
            ),
            Step::Ends(None),
        ],
        left: &[Plain::Int(5), Plain::Str(b"a")],
    },
    Walk {
        name: "a number is shown, and a text by default",
        text: COUNTER,
        changes: &[],
        object: 1,
        params: &[Plain::Int(-4), Plain::Str(b"x")],
        state: 1,
        action: 2,
        given: &[],
        steps: &[
            Step::Sends(
                &[(0, 0, &[Plain::Int(-4), Plain::Str(b"none")])],
                &[Verdict::Full],
            ),
            Step::Ends(None),
        ],
        left: &[Plain::Int(-4), Plain::Str(b"x")],
    },
];

// What is done with three lamps, whose states have the numbers of those of supplies, and the parameters that it leaves.
fn nested(name: &'static str, steps: &'static [Step], left: &'static [Plain]) -> Walk {
    Walk {
        name,
        text: NESTED,
        changes: &[],
        object: 3,
        params: &[Plain::Int(0), Plain::Int(0)],
        state: 2,
        action: 1,
        given: &[Plain::Int(7)],
        steps,
        left,
    }
}

const DEEP: &[(&str, &[Step], &[Plain])] = &[
    (
        "the first lamp is off",
        &[
            Step::Sets(0, Plain::Int(7)),
            Step::Reads(&[0], &[OFF]),
            Step::Sets(1, Plain::Int(7)),
            Step::Ends(None),
        ],
        &[Plain::Int(7), Plain::Int(7)],
    ),
    (
        "the state of the first lamp is read anew by each `if`",
        &[
            Step::Sets(0, Plain::Int(7)),
            Step::Reads(&[0], &[ON]),
            Step::Sets(0, Plain::Int(2)),
            Step::Reads(&[1, 0], &[OFF, OFF]),
            Step::Sets(1, Plain::Int(2)),
            Step::Reads(&[2], &[OFF]),
            Step::Sets(0, Plain::Int(3)),
            Step::Sets(1, Plain::Int(3)),
            Step::Sets(0, Plain::Int(6)),
            Step::Sets(1, Plain::Int(6)),
            Step::Ends(None),
        ],
        &[Plain::Int(6), Plain::Int(6)],
    ),
    (
        "the action's argument stays as it was given",
        &[
            Step::Sets(0, Plain::Int(7)),
            Step::Reads(&[0], &[ON]),
            Step::Sets(0, Plain::Int(2)),
            Step::Reads(&[1, 0], &[ON, ON]),
            Step::Sets(1, Plain::Int(2)),
            Step::Reads(&[2], &[ON]),
            Step::Sets(0, Plain::Int(7)),
            Step::Sets(1, Plain::Int(7)),
            Step::Sets(0, Plain::Int(6)),
            Step::Sets(1, Plain::Int(6)),
            Step::Ends(None),
        ],
        &[Plain::Int(6), Plain::Int(6)],
    ),
    (
        "the action ends within a branch",
        &[
            Step::Sets(0, Plain::Int(7)),
            Step::Reads(&[0], &[ON]),
            Step::Sets(0, Plain::Int(2)),
            Step::Reads(&[1, 0], &[OFF, ON]),
            Step::Ends(Some(3)),
        ],
        &[Plain::Int(2), Plain::Int(0)],
    ),
];

const NOBODY: &[Walk] = &[
    Walk {
        name: "an `if` over nobody",
        text: EMPTY_SET,
        changes: &[],
        object: 0,
        params: &[],
        state: 0,
        action: 0,
        given: &[],
        steps: &[Step::Reads(&[], &[]), Step::Ends(Some(1))],
        left: &[],
    },
    Walk {
        name: "requests to two classes, and to nobody",
        text: LISTS,
        changes: &[],
        object: 2,
        params: &[Plain::Int(9)],
        state: 0,
        action: 1,
        given: &[],
        steps: &[
            Step::Sends(
                &[
                    (1, 0, &[Plain::Str(b"x"), Plain::Int(2)]),
                    (0, 0, &[Plain::Int(1), Plain::Str(b"x")]),
                ],
                TWO,
            ),
            Step::Sets(0, Plain::Int(8)),
            Step::Sends(
                &[
                    (1, 0, &[Plain::Str(b"y"), Plain::Int(8)]),
                    (0, 0, &[Plain::Int(8), Plain::Str(b"y")]),
                ],
                TWO,
            ),
            Step::Sends(&[], &[]),
            Step::Sends(&[], &[]),
            Step::Ends(None),
        ],
        left: &[Plain::Int(8)],
    },
];

// Sets that others have changed.
const CHANGED: &[Walk] = &[
    Walk {
        name: "one supply is left",
        text: SUPPLIES,
        changes: &[(false, HV1, HV)],
        object: 2,
        params: &[],
        state: 2,
        action: 2,
        given: &[],
        steps: &[
            Step::Sends(&[(HV2, SWITCH_ON, &[])], &[Verdict::Accepted(0)]),
            Step::Reads(&[HV2], &[ON]),
            Step::Ends(Some(READY)),
        ],
        left: &[],
    },
    Walk {
        name: "no supply is left",
        text: SUPPLIES,
        changes: &[(false, HV2, HV), (false, HV1, HV)],
        object: 2,
        params: &[],
        state: 2,
        action: 2,
        given: &[],
        steps: &[
            Step::Sends(&[], &[]),
            Step::Reads(&[], &[]),
            Step::Ends(Some(READY)),
        ],
        left: &[],
    },
    Walk {
        name: "one set gets its first member, and the other one is in another order",
        text: LISTS,
        changes: &[(true, 0, 1), (false, 1, 0), (true, 1, 0)],
        object: 2,
        params: &[Plain::Int(9)],
        state: 0,
        action: 1,
        given: &[],
        steps: &[
            Step::Sends(
                &[
                    (0, 0, &[Plain::Int(1), Plain::Str(b"x")]),
                    (1, 0, &[Plain::Str(b"x"), Plain::Int(2)]),
                ],
                TWO,
            ),
            Step::Sets(0, Plain::Int(8)),
            Step::Sends(
                &[
                    (0, 0, &[Plain::Int(8), Plain::Str(b"y")]),
                    (1, 0, &[Plain::Str(b"y"), Plain::Int(8)]),
                ],
                TWO,
            ),
            Step::Sends(
                &[(0, 0, &[Plain::Int(1), Plain::Str(b"z")])],
                &[Verdict::Full],
            ),
            Step::Sends(&[], &[]),
            Step::Ends(None),
        ],
        left: &[Plain::Int(8)],
    },
];

#[test]
fn switches_supplies_on(rt: HostRuntime) {
    for (name, steps) in SUPPLIED {
        assert!(rt; is_walked(rt.alloc(), &configured(name, steps)), "{name}");
    }
}

#[test]
fn counts_and_shows(rt: HostRuntime) {
    for walk in COUNTED {
        assert!(rt; is_walked(rt.alloc(), walk), "{}", walk.name);
    }
}

#[test]
fn nests_three_deep(rt: HostRuntime) {
    for (name, steps, left) in DEEP {
        assert!(rt; is_walked(rt.alloc(), &nested(name, steps, left)), "{name}");
    }
}

#[test]
fn asks_nobody_and_two_classes(rt: HostRuntime) {
    for walk in NOBODY {
        assert!(rt; is_walked(rt.alloc(), walk), "{}", walk.name);
    }
}

#[test]
fn goes_by_the_members_that_sets_have(rt: HostRuntime) {
    for walk in CHANGED {
        assert!(rt; is_walked(rt.alloc(), walk), "{}", walk.name);
    }
}
