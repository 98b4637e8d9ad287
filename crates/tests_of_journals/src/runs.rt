//! Journals, entry by entry, with facts that are known of them beforehand.

use crate::facts::Fact;
use crate::rows::Plain;
use crate::sets::{A, B, E, G, LAMPS, X};
use smi_journal::Verdict;
use test_domains::{COUNTER, SUPPLIES};

const HV1: usize = 0;

const HV2: usize = 1;

const RUN: usize = 2;

const OFF: usize = 0;

const ON: usize = 1;

const NOT_READY: usize = 2;

const READY: usize = 3;

const ERROR: usize = 4;

const DEAD: usize = 5;

const SWITCH_ON: usize = 0;

const SWITCH_OFF: usize = 1;

const CONFIGURE: usize = 2;

/// Who sends a request: a session, or an object.
#[derive(Clone, Copy)]
pub enum By {
    Session(u8),
    Object(usize),
}

/// The arguments of a request.
pub type Given = &'static [Plain];

/// An entry. All go by number.
#[derive(Clone, Copy)]
pub enum Line {
    /// An object starts what a sender asked for, under a number: an action with its arguments.
    Start(usize, By, u64, usize, Given),
    /// An object posts to a target an action with its arguments.
    Post(usize, usize, Verdict, usize, Given),
    /// An object waits.
    Wait(usize),
    /// An object reads states, each of an object.
    Seen(usize, &'static [(usize, usize)]),
    /// An object's action ends in a state.
    End(usize, usize),
    /// An object's action is skipped.
    Skip(usize),
    /// An object is killed by a session.
    Kill(usize, u8),
    /// An object is killed by a fault of its device.
    Fault(usize),
    /// An object puts a member into a set.
    Insert(usize, usize, usize),
    /// An object takes a member out of a set.
    Remove(usize, usize, usize),
    /// An object finds no member in a set to which it would send.
    Empty(usize, usize),
}

/// A journal of a domain under a name, and facts, each with the number of entries after which it holds.
#[derive(Clone, Copy)]
pub struct Run {
    pub name: &'static str,
    pub text: &'static [u8],
    pub lines: &'static [Line],
    pub facts: &'static [(usize, Fact)],
}

const NONE: Given = &[];

/// Both supplies are switched on, the run is ready, and what asks for it again is skipped.
pub const STANDARD: Run = Run {
    name: "both supplies are switched on, and a second request is skipped",
    text: SUPPLIES,
    lines: &[
        Line::Start(RUN, By::Session(1), 0, CONFIGURE, NONE),
        Line::Post(RUN, HV1, Verdict::Accepted(0), SWITCH_ON, NONE),
        Line::Post(RUN, HV2, Verdict::Accepted(0), SWITCH_ON, NONE),
        Line::Wait(RUN),
        Line::Start(HV1, By::Object(RUN), 0, SWITCH_ON, NONE),
        Line::End(HV1, ON),
        Line::Start(HV2, By::Object(RUN), 0, SWITCH_ON, NONE),
        Line::End(HV2, ON),
        Line::Seen(RUN, &[(HV1, ON), (HV2, ON)]),
        Line::End(RUN, READY),
        Line::Start(RUN, By::Session(1), 1, CONFIGURE, NONE),
        Line::Skip(RUN),
    ],
    facts: &[
        (0, Fact::InState(HV1, OFF)),
        (0, Fact::InState(RUN, NOT_READY)),
        (0, Fact::Starts(0)),
        (0, Fact::IsClear(RUN, HV1)),
        (1, Fact::IsOpen(RUN)),
        (1, Fact::Started(By::Session(1), RUN, 1)),
        (1, Fact::Started(By::Session(2), RUN, 0)),
        (1, Fact::IsBusy(HV1, RUN)),
        (2, Fact::Posted(RUN, HV1, 1)),
        (2, Fact::IsBusy(RUN, HV1)),
        (2, Fact::IsClear(RUN, HV2)),
        (2, Fact::IsClear(HV2, HV1)),
        (3, Fact::Answers(RUN, 2)),
        (4, Fact::Waits(RUN)),
        (5, Fact::IsBusy(RUN, HV1)),
        (5, Fact::IsBusy(HV2, HV1)),
        (6, Fact::IsClear(RUN, HV1)),
        (6, Fact::InState(HV1, ON)),
        (6, Fact::Waits(RUN)),
        (8, Fact::IsClear(RUN, HV2)),
        (9, Fact::Answers(RUN, 3)),
        (9, Fact::InState(RUN, NOT_READY)),
        (10, Fact::InState(RUN, READY)),
        (10, Fact::Answers(RUN, 0)),
        (11, Fact::Answers(RUN, 0)),
        (12, Fact::InState(RUN, READY)),
        (12, Fact::Started(By::Session(1), RUN, 2)),
        (12, Fact::Started(By::Object(RUN), HV2, 1)),
        (12, Fact::Posted(HV1, RUN, 0)),
        (12, Fact::Starts(4)),
    ],
};

/// Both posts are refused, a device fails while the run waits, and two objects are killed.
pub const KILLS: Run = Run {
    name: "posts are refused, a device fails, and objects are killed",
    text: SUPPLIES,
    lines: &[
        Line::Start(RUN, By::Session(1), 0, CONFIGURE, NONE),
        Line::Start(HV1, By::Session(2), 0, SWITCH_ON, NONE),
        Line::Kill(HV2, 1),
        Line::Post(RUN, HV1, Verdict::Full, SWITCH_ON, NONE),
        Line::Post(RUN, HV2, Verdict::Dead, SWITCH_ON, NONE),
        Line::End(HV1, ON),
        Line::Start(HV1, By::Session(2), 1, SWITCH_OFF, NONE),
        Line::Wait(RUN),
        Line::Fault(HV1),
        Line::Seen(RUN, &[(HV1, DEAD), (HV2, DEAD)]),
        Line::End(RUN, ERROR),
        Line::Start(RUN, By::Session(1), 1, CONFIGURE, NONE),
        Line::Kill(RUN, 8),
    ],
    facts: &[
        (3, Fact::Killed(HV2, 2)),
        (3, Fact::InState(HV2, DEAD)),
        (3, Fact::IsAlive(HV1)),
        (4, Fact::Posted(RUN, HV1, 0)),
        (4, Fact::IsBusy(RUN, HV1)),
        (5, Fact::Posted(RUN, HV2, 0)),
        (5, Fact::IsClear(RUN, HV2)),
        (5, Fact::Answers(RUN, 2)),
        (6, Fact::IsClear(RUN, HV1)),
        (7, Fact::IsBusy(RUN, HV1)),
        (8, Fact::Waits(RUN)),
        (9, Fact::Killed(HV1, 8)),
        (9, Fact::InState(HV1, DEAD)),
        (9, Fact::IsClear(RUN, HV1)),
        (9, Fact::Waits(RUN)),
        (10, Fact::Answers(RUN, 3)),
        (11, Fact::InState(RUN, ERROR)),
        (12, Fact::IsOpen(RUN)),
        (13, Fact::Killed(RUN, 12)),
        (13, Fact::InState(RUN, DEAD)),
        (13, Fact::Started(By::Session(1), RUN, 2)),
        (13, Fact::Started(By::Session(2), HV1, 2)),
        (13, Fact::Starts(4)),
    ],
};

/// A supply is killed before it starts what was posted to it: it is clear, and what was posted still counts.
pub const KILLED_SUPPLY: Run = Run {
    name: "a supply is killed before it starts",
    text: SUPPLIES,
    lines: &[
        Line::Start(RUN, By::Session(1), 0, CONFIGURE, NONE),
        Line::Post(RUN, HV1, Verdict::Accepted(0), SWITCH_ON, NONE),
        Line::Post(RUN, HV2, Verdict::Accepted(0), SWITCH_ON, NONE),
        Line::Wait(RUN),
        Line::Start(HV1, By::Object(RUN), 0, SWITCH_ON, NONE),
        Line::End(HV1, ON),
        Line::Kill(HV2, 1),
        Line::Seen(RUN, &[(HV1, ON), (HV2, DEAD)]),
        Line::End(RUN, ERROR),
    ],
    facts: &[
        (6, Fact::IsBusy(RUN, HV2)),
        (7, Fact::IsClear(RUN, HV2)),
        (7, Fact::Posted(RUN, HV2, 1)),
        (7, Fact::Started(By::Object(RUN), HV2, 0)),
        (9, Fact::InState(RUN, ERROR)),
    ],
};

const OUT: usize = 0;

const C: usize = 1;

const READY_SINK: usize = 0;

const IDLE: usize = 1;

const TAKE: usize = 0;

const PUT: usize = 1;

/// A counter sends what it was given to its sink.
pub const ARGUMENTS: Run = Run {
    name: "a counter sends arguments to its sink",
    text: COUNTER,
    lines: &[
        Line::Start(
            C,
            By::Session(1),
            0,
            PUT,
            &[Plain::Int(5), Plain::Str(b"a")],
        ),
        Line::Post(
            C,
            OUT,
            Verdict::Accepted(0),
            TAKE,
            &[Plain::Int(5), Plain::Str(b"a")],
        ),
        Line::End(C, IDLE),
        Line::Start(
            OUT,
            By::Object(C),
            0,
            TAKE,
            &[Plain::Int(5), Plain::Str(b"a")],
        ),
        Line::End(OUT, READY_SINK),
    ],
    facts: &[
        (1, Fact::IsOpen(C)),
        (2, Fact::Posted(C, OUT, 1)),
        (3, Fact::IsBusy(C, OUT)),
        (5, Fact::IsClear(C, OUT)),
        (5, Fact::InState(OUT, READY_SINK)),
    ],
};

const LIGHT: usize = 0;

const GO: usize = 1;

/// Members are put into sets and taken out, and who did it is killed.
pub const CHANGES: Run = Run {
    name: "members are put into sets and taken out",
    text: LAMPS,
    lines: &[
        Line::Start(X, By::Session(1), 0, GO, NONE),
        Line::Post(X, A, Verdict::Accepted(0), LIGHT, NONE),
        Line::Empty(X, E),
        Line::Insert(X, A, E),
        Line::Insert(X, X, G),
        Line::Insert(X, A, G),
        Line::Remove(X, A, G),
        Line::Insert(X, A, G),
        Line::Remove(X, X, E),
        Line::Wait(X),
        Line::Seen(X, &[(A, OFF)]),
        Line::Remove(X, A, E),
        Line::Kill(X, 1),
        Line::Start(A, By::Object(X), 0, LIGHT, NONE),
        Line::Insert(A, B, E),
        Line::End(A, ON),
    ],
    facts: &[
        (0, Fact::Has(G, &[A, B])),
        (0, Fact::Has(E, &[])),
        (3, Fact::Answers(X, 2)),
        (3, Fact::Had(X, 1, E, &[])),
        (4, Fact::Has(E, &[A])),
        (4, Fact::Has(G, &[A, B])),
        (4, Fact::Answers(X, 3)),
        (4, Fact::Had(X, 1, E, &[])),
        (5, Fact::Has(G, &[A, B, X])),
        (6, Fact::Has(G, &[A, B, X])),
        (6, Fact::Answers(X, 5)),
        (7, Fact::Has(G, &[B, X])),
        (8, Fact::Has(G, &[B, X, A])),
        (9, Fact::Has(E, &[A])),
        (9, Fact::Answers(X, 8)),
        (10, Fact::Waits(X)),
        (11, Fact::Had(X, 8, G, &[B, X, A])),
        (11, Fact::Had(X, 0, G, &[A, B])),
        (12, Fact::Has(E, &[])),
        (12, Fact::Had(X, 8, E, &[A])),
        (13, Fact::Answers(X, 0)),
        (13, Fact::Has(G, &[B, X, A])),
        (15, Fact::Has(E, &[B])),
        (15, Fact::Answers(A, 1)),
        (16, Fact::Has(E, &[B])),
        (16, Fact::Has(G, &[B, X, A])),
    ],
};
