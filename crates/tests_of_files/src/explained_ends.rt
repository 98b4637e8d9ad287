//! Illegal ends, kills, sends and changes of sets, and their explanations.

use crate::explained_rows::Explained;
use crate::settings::Setting;

/// An end, of what is not open, of another kind or in another state; and a kill of what is killed, or by a device
/// that does nothing or is not there.
pub const ENDS: &[Explained] = &[
    (
        "an end before any start",
        Setting::Supplies,
        b"end RUN READY\n",
        "line 2: end RUN READY
no action is open at RUN.
",
    ),
    (
        "an end behind an end",
        Setting::Supplies,
        b"start HV1 @1 0 SWITCH_OFF
end HV1 skipped
end HV1 skipped
",
        "line 4: end HV1 skipped
no action is open at HV1.
line 3: end HV1 skipped
",
    ),
    (
        "a device that ends an action as skipped",
        Setting::Supplies,
        b"start HV1 @1 0 SWITCH_ON\nend HV1 skipped\n",
        "line 3: end HV1 skipped
next the device of HV1 ends the action.
line 2: start HV1 @1 0 SWITCH_ON
",
    ),
    (
        "a skipped action that ends in a state",
        Setting::Supplies,
        b"start HV1 @1 0 SWITCH_OFF\nend HV1 OFF\n",
        "line 3: end HV1 OFF
the state OFF of HV1 does not declare the action, which is skipped.
line 2: start HV1 @1 0 SWITCH_OFF
",
    ),
    (
        "an end in the state of the other branch",
        Setting::Empty,
        b"start X @1 0 GO
seen X
end X BAD
",
        "line 4: end X BAD
next the action of X ends in GOOD.
line 2: start X @1 0 GO
",
    ),
    (
        "an end before the reading of no object",
        Setting::Empty,
        b"start X @1 0 GO\nend X GOOD\n",
        "line 3: end X GOOD
next the action of X reads no object.
line 2: start X @1 0 GO
",
    ),
    (
        "an end in a state of another class",
        Setting::Supplies,
        b"start HV1 @1 0 SWITCH_ON\nend HV1 READY\n",
        "line 3: end HV1 READY
the class of HV1 has no such state.
line 2: start HV1 @1 0 SWITCH_ON
",
    ),
    (
        "a kill of a killed object",
        Setting::Supplies,
        b"kill RUN @1\nkill RUN @2\n",
        "line 3: kill RUN @2
the object RUN is killed.
line 2: kill RUN @1
",
    ),
    (
        "a fault of a device that does nothing",
        Setting::Supplies,
        b"start HV1 @1 0 SWITCH_ON
end HV1 ON
kill HV1 fault
",
        "line 4: kill HV1 fault
no action is open at HV1.
line 3: end HV1 ON
",
    ),
    (
        "a fault where an action is open, but no device does it",
        Setting::Supplies,
        b"start RUN @1 0 CONFIGURE\nkill RUN fault\n",
        "line 3: kill RUN fault
the object RUN has no device.
",
    ),
];

/// In the second format: what splits a send, what leaves out that a set has no member, and sets that nothing changes.
pub const SETS: &[Explained] = &[
    (
        "a kill between the posts of a send",
        Setting::Supplies,
        b"start RUN @1 0 CONFIGURE
post RUN HV1 0 SWITCH_ON
kill HV2 @1
",
        "line 4: kill HV2 @1
nothing stands between the posts of a send: next the action of RUN posts to HV2 SWITCH_ON.
line 3: post RUN HV1 0 SWITCH_ON
",
    ),
    (
        "an end between the posts of a send",
        Setting::Supplies,
        b"start HV1 @1 0 SWITCH_ON
start RUN @1 0 CONFIGURE
post RUN HV1 refused full SWITCH_ON
end HV1 ON
",
        "line 5: end HV1 ON
nothing stands between the posts of a send: next the action of RUN posts to HV2 SWITCH_ON.
line 4: post RUN HV1 refused full SWITCH_ON
",
    ),
    (
        "an end in place of a send to nobody",
        Setting::Nobody,
        b"start X @1 0 GO\nend X S\n",
        "line 3: end X S
next the action of X finds no member of E.
line 2: start X @1 0 GO
",
    ),
    (
        "a send to nobody in place of a post",
        Setting::Supplies,
        b"start RUN @1 0 CONFIGURE\nempty RUN HV\n",
        "line 3: empty RUN HV
next the action of RUN posts to HV1 SWITCH_ON.
line 2: start RUN @1 0 CONFIGURE
",
    ),
    (
        "a change of a set in place of a post",
        Setting::Supplies,
        b"start RUN @1 0 CONFIGURE\nremove RUN HV1 HV\n",
        "line 3: remove RUN HV1 HV
next the action of RUN posts to HV1 SWITCH_ON.
line 2: start RUN @1 0 CONFIGURE
",
    ),
    (
        "a change of a set where no action is open",
        Setting::Supplies,
        b"insert RUN HV1 HV\n",
        "line 2: insert RUN HV1 HV
no action is open at RUN.
",
    ),
];
