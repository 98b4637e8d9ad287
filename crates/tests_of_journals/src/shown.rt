//! What journals show of actions of known domains, and what follows.

use crate::changed_members::Change;
use crate::domains::{ERROR, HV, HV1, HV2, LISTS, NESTED, OFF, ON, READY, SWITCH_ON};
use crate::rows::Plain;
use smi_journal::{Format, Verdict};
use test_domains::{COUNTER, EMPTY_SET, SUPPLIES};

/// What a journal shows. All go by number.
#[derive(Clone, Copy)]
pub enum Told {
    /// A post: its target, action, arguments and verdict.
    Post(usize, usize, &'static [Plain], Verdict),
    /// The readings of objects, in states.
    Seen(&'static [usize], &'static [usize]),
    /// A set that has no member to send to.
    Nobody(usize),
    /// Nothing of the action: from here on sets are as these changes leave them.
    Others(&'static [Change]),
}

/// What comes next.
#[derive(Clone, Copy)]
pub enum Next {
    /// A post: its target, action and arguments.
    Post(usize, usize, &'static [Plain]),
    /// These objects are read.
    Read(&'static [usize]),
    /// The set has no member to send to.
    Nobody(usize),
    /// The action ends in a state, and leaves these parameters.
    End(usize, &'static [Plain]),
    /// Nothing, since what was shown last may not be shown.
    Nothing,
}

/// An action from its beginning: its object and the parameters of this, the state in which it begins, its
/// action and arguments.
#[derive(Clone, Copy)]
pub struct Opened {
    pub text: &'static [u8],
    pub object: usize,
    pub params: &'static [Plain],
    pub state: usize,
    pub action: usize,
    pub given: &'static [Plain],
}

pub const CONFIGURE: Opened = Opened {
    text: SUPPLIES,
    object: 2,
    params: &[],
    state: 2,
    action: 2,
    given: &[],
};

const PUT: Opened = Opened {
    text: COUNTER,
    object: 1,
    params: &[Plain::Int(3), Plain::Str(b"x")],
    state: 1,
    action: 1,
    given: &[Plain::Int(5), Plain::Str(b"a")],
};

const DEEP: Opened = Opened {
    text: NESTED,
    object: 3,
    params: &[Plain::Int(0), Plain::Int(0)],
    state: 2,
    action: 1,
    given: &[Plain::Int(7)],
};

const NOBODY: Opened = Opened {
    text: EMPTY_SET,
    object: 0,
    params: &[],
    state: 0,
    action: 0,
    given: &[],
};

pub const TWO_LISTS: Opened = Opened {
    text: LISTS,
    object: 2,
    params: &[Plain::Int(9)],
    state: 0,
    action: 1,
    given: &[],
};

const FIRST: Told = Told::Post(HV1, SWITCH_ON, &[], Verdict::Accepted(0));

const SECOND: Told = Told::Post(HV2, SWITCH_ON, &[], Verdict::Full);

const BOTH_ON: Told = Told::Seen(&[HV1, HV2], &[ON, ON]);

const TAKEN: &[Plain] = &[Plain::Int(5), Plain::Str(b"a")];

/// What happens, and what follows what was shown.
pub const ROWS: &[(&str, Opened, &[Told], Next)] = &[
    (
        "the first post is to come",
        CONFIGURE,
        &[],
        Next::Post(HV1, SWITCH_ON, &[]),
    ),
    (
        "the second post is to come",
        CONFIGURE,
        &[FIRST],
        Next::Post(HV2, SWITCH_ON, &[]),
    ),
    (
        "behind its posts the action reads",
        CONFIGURE,
        &[FIRST, SECOND],
        Next::Read(&[HV1, HV2]),
    ),
    (
        "both supplies are on",
        CONFIGURE,
        &[FIRST, SECOND, BOTH_ON],
        Next::End(READY, &[]),
    ),
    (
        "one supply is off",
        CONFIGURE,
        &[FIRST, SECOND, Told::Seen(&[HV1, HV2], &[ON, OFF])],
        Next::End(ERROR, &[]),
    ),
    ("the second post first", CONFIGURE, &[SECOND], Next::Nothing),
    (
        "readings before the posts",
        CONFIGURE,
        &[BOTH_ON],
        Next::Nothing,
    ),
    (
        "a post too many",
        CONFIGURE,
        &[FIRST, SECOND, FIRST],
        Next::Nothing,
    ),
    (
        "readings in another order",
        CONFIGURE,
        &[FIRST, SECOND, Told::Seen(&[HV2, HV1], &[ON, ON])],
        Next::Nothing,
    ),
    (
        "a reading too few",
        CONFIGURE,
        &[FIRST, SECOND, Told::Seen(&[HV1], &[ON])],
        Next::Nothing,
    ),
    (
        "a post behind the readings",
        CONFIGURE,
        &[FIRST, SECOND, BOTH_ON, FIRST],
        Next::Nothing,
    ),
    (
        "the sets before a post count for its arguments",
        PUT,
        &[],
        Next::Post(0, 0, TAKEN),
    ),
    (
        "an action that falls through leaves the state",
        PUT,
        &[Told::Post(0, 0, TAKEN, Verdict::Dead)],
        Next::End(1, TAKEN),
    ),
    (
        "a post with the parameters of before the sets",
        PUT,
        &[Told::Post(0, 0, &[Plain::Int(3), Plain::Str(b"a")], Verdict::Dead)],
        Next::Nothing,
    ),
    (
        "the first lamp is off",
        DEEP,
        &[Told::Seen(&[0], &[0])],
        Next::End(2, &[Plain::Int(7), Plain::Int(7)]),
    ),
    (
        "the other branch, and an `if` within it",
        DEEP,
        &[Told::Seen(&[0], &[1]), Told::Seen(&[1, 0], &[0, 1])],
        Next::End(3, &[Plain::Int(2), Plain::Int(0)]),
    ),
    (
        "an `if` over nobody is to come",
        NOBODY,
        &[],
        Next::Read(&[]),
    ),
    (
        "an `if` over nobody is shown",
        NOBODY,
        &[Told::Seen(&[], &[])],
        Next::End(1, &[]),
    ),
];

const X_TO_R: Told = Told::Post(1, 0, &[Plain::Str(b"x"), Plain::Int(2)], Verdict::Full);

const X_TO_L: Told = Told::Post(0, 0, &[Plain::Int(1), Plain::Str(b"x")], Verdict::Full);

const Y_TO_R: Told = Told::Post(1, 0, &[Plain::Str(b"y"), Plain::Int(8)], Verdict::Full);

const Y_TO_L: Told = Told::Post(0, 0, &[Plain::Int(8), Plain::Str(b"y")], Verdict::Full);

// What others make of the set of two supplies.
const WITHOUT_FIRST: Told = Told::Others(&[(false, HV1, HV)]);

const WITHOUT_BOTH: Told = Told::Others(&[(false, HV1, HV), (false, HV2, HV)]);

// The second of two sets, which is declared without members.
const NONE: usize = 1;

pub const ASKED: &[Told] = &[X_TO_R, X_TO_L, Y_TO_R, Y_TO_L];

/// What follows the posts to two lists, as a journal of the format shows it: only the second one shows a `do` to
/// nobody.
pub const LISTED: &[(&str, Format, &[Told], Next)] = &[
    (
        "the first format shows nothing",
        Format::One,
        &[],
        Next::End(0, &[Plain::Int(8)]),
    ),
    (
        "the first format has no such line",
        Format::One,
        &[Told::Nobody(NONE)],
        Next::Nothing,
    ),
    (
        "the second format has one",
        Format::Two,
        &[],
        Next::Nobody(NONE),
    ),
    (
        "and another one",
        Format::Two,
        &[Told::Nobody(NONE)],
        Next::Nobody(NONE),
    ),
    (
        "both are shown",
        Format::Two,
        &[Told::Nobody(NONE), Told::Nobody(NONE)],
        Next::End(0, &[Plain::Int(8)]),
    ),
    (
        "nobody of the other set",
        Format::Two,
        &[Told::Nobody(0)],
        Next::Nothing,
    ),
    (
        "the set has a member now",
        Format::Two,
        &[Told::Others(&[(true, 0, NONE)])],
        Next::Post(0, 0, &[Plain::Int(1), Plain::Str(b"z")]),
    ),
];

/// What is shown of two supplies, where others change their set.
pub const SWITCHED: &[(&str, &[Told], Next)] = &[
    // A `do` goes to those who are members at its first post, and to all of them.
    (
        "one member is gone before the posts",
        &[WITHOUT_FIRST],
        Next::Post(HV2, SWITCH_ON, &[]),
    ),
    (
        "the other one is sent to",
        &[WITHOUT_FIRST, SECOND],
        Next::Read(&[HV2]),
    ),
    (
        "a post to the one that is gone",
        &[WITHOUT_FIRST, FIRST],
        Next::Nothing,
    ),
    (
        "one is gone between the posts",
        &[FIRST, WITHOUT_FIRST, SECOND],
        Next::Nothing,
    ),
    (
        "both are gone before the posts",
        &[WITHOUT_BOTH],
        Next::Nobody(HV),
    ),
    (
        "a post though both are gone",
        &[WITHOUT_BOTH, FIRST],
        Next::Nothing,
    ),
    (
        "nobody is sent to, and then nobody is read",
        &[WITHOUT_BOTH, Told::Nobody(HV)],
        Next::Read(&[]),
    ),
    (
        "an `if` over nobody is shown",
        &[WITHOUT_BOTH, Told::Nobody(HV), Told::Seen(&[], &[])],
        Next::End(READY, &[]),
    ),
    (
        "nobody though there are members",
        &[Told::Nobody(HV)],
        Next::Nothing,
    ),
    // An `if` reads those who are members then.
    (
        "one is gone before the readings",
        &[FIRST, SECOND, WITHOUT_FIRST],
        Next::Read(&[HV2]),
    ),
    (
        "the other one is read",
        &[FIRST, SECOND, WITHOUT_FIRST, Told::Seen(&[HV2], &[ON])],
        Next::End(READY, &[]),
    ),
    (
        "a reading of the one that is gone",
        &[FIRST, SECOND, WITHOUT_FIRST, BOTH_ON],
        Next::Nothing,
    ),
];
