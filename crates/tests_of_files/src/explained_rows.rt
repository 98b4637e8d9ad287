//! Illegal journals and their explanations: the line, one sentence, and the earlier line that this rests on.

use crate::settings::Setting;

/// A row: its name, the domain, the lines of a journal behind its header, and what is said about the first illegal
/// line.
pub type Explained = (&'static str, Setting, &'static [u8], &'static str);

/// A start, at an object that is killed, at one that is open, under another number, of what was not sent, or of
/// no request.
pub const STARTS: &[Explained] = &[
    (
        "a start of a killed object",
        Setting::Supplies,
        b"start HV1 @1 0 SWITCH_ON
kill HV1 @3
start HV1 @1 1 SWITCH_ON
",
        "line 4: start HV1 @1 1 SWITCH_ON
the object HV1 is killed.
line 3: kill HV1 @3
",
    ),
    (
        "a start beside an open action",
        Setting::Supplies,
        b"start HV1 @1 0 SWITCH_ON
end HV1 ON
start HV1 @1 1 SWITCH_OFF
start HV1 @2 0 SWITCH_ON
",
        "line 5: start HV1 @2 0 SWITCH_ON
an action is open at HV1.
line 4: start HV1 @1 1 SWITCH_OFF
",
    ),
    (
        "the first request of a session under the number 1",
        Setting::Supplies,
        b"start HV1 @1 1 SWITCH_ON\n",
        "line 2: start HV1 @1 1 SWITCH_ON
the next start of @1 at HV1 has the number 0.
",
    ),
    (
        "the second request of a session under the number 0",
        Setting::Supplies,
        b"start HV1 @1 0 SWITCH_ON
end HV1 ON
start HV1 @2 0 SWITCH_OFF
end HV1 OFF
start HV1 @1 0 SWITCH_ON
",
        "line 6: start HV1 @1 0 SWITCH_ON
the next start of @1 at HV1 has the number 1.
line 2: start HV1 @1 0 SWITCH_ON
",
    ),
    (
        "the first request of an object under the number 1",
        Setting::Supplies,
        b"start RUN @1 0 CONFIGURE
post RUN HV1 0 SWITCH_ON
start HV1 RUN 1 SWITCH_ON
",
        "line 4: start HV1 RUN 1 SWITCH_ON
the next start of RUN at HV1 has the number 0.
",
    ),
    (
        "a request that nobody posted",
        Setting::Supplies,
        b"start HV1 RUN 0 SWITCH_ON\n",
        "line 2: start HV1 RUN 0 SWITCH_ON
its sender posted no such request under this number.
",
    ),
    (
        "a request with other arguments than were posted",
        Setting::Counter,
        b"start C @1 0 SHOW
post C OUT refused full TAKE (V = 3, W = \"none\")
end C IDLE
start C @1 1 SHOW
post C OUT 0 TAKE (V = 3, W = \"none\")
start OUT C 0 TAKE (V = 4, W = \"none\")
",
        "line 7: start OUT C 0 TAKE (V = 4, W = \"none\")
its sender posted no such request under this number.
line 6: post C OUT 0 TAKE (V = 3, W = \"none\")
",
    ),
    (
        "an action of another class",
        Setting::Supplies,
        b"start RUN @1 0 SWITCH_ON\n",
        "line 2: start RUN @1 0 SWITCH_ON
no state of the class of RUN declares SWITCH_ON.
",
    ),
];

/// A post, of what is not open, of another request, told of the dead as if they lived or of the living as if they
/// were dead, or under another number.
pub const POSTS: &[Explained] = &[
    (
        "a post before any start",
        Setting::Supplies,
        b"post RUN HV1 0 SWITCH_ON\n",
        "line 2: post RUN HV1 0 SWITCH_ON
no action is open at RUN.
",
    ),
    (
        "a post behind the kill of its sender",
        Setting::Supplies,
        b"start RUN @1 0 CONFIGURE
kill RUN @1
post RUN HV1 0 SWITCH_ON
",
        "line 4: post RUN HV1 0 SWITCH_ON
no action is open at RUN.
line 3: kill RUN @1
",
    ),
    (
        "a post to the second target first",
        Setting::Supplies,
        b"start RUN @1 0 CONFIGURE\npost RUN HV2 0 SWITCH_ON\n",
        "line 3: post RUN HV2 0 SWITCH_ON
next the action of RUN posts to HV1 SWITCH_ON.
line 2: start RUN @1 0 CONFIGURE
",
    ),
    (
        "a post with other arguments",
        Setting::Counter,
        b"start C @1 0 PUT (T = 5, M = \"a\")
post C OUT 0 TAKE (V = 3, W = \"x\")
",
        "line 3: post C OUT 0 TAKE (V = 3, W = \"x\")
next the action of C posts to OUT TAKE (V = 5, W = \"a\").
line 2: start C @1 0 PUT (T = 5, M = \"a\")
",
    ),
    (
        "a post of a device",
        Setting::Supplies,
        b"start HV1 @1 0 SWITCH_ON\npost HV1 HV2 0 SWITCH_ON\n",
        "line 3: post HV1 HV2 0 SWITCH_ON
next the device of HV1 ends the action.
line 2: start HV1 @1 0 SWITCH_ON
",
    ),
    (
        "a post to an object that a session killed",
        Setting::Supplies,
        b"kill HV1 @2
start RUN @1 0 CONFIGURE
post RUN HV1 0 SWITCH_ON
",
        "line 4: post RUN HV1 0 SWITCH_ON
the object HV1 is killed.
line 2: kill HV1 @2
",
    ),
    (
        "a post that is refused as full, to an object that a fault killed",
        Setting::Supplies,
        b"start HV1 @1 0 SWITCH_ON
kill HV1 fault
start RUN @1 0 CONFIGURE
post RUN HV1 refused full SWITCH_ON
",
        "line 5: post RUN HV1 refused full SWITCH_ON
the object HV1 is killed.
line 3: kill HV1 fault
",
    ),
    (
        "a post that is refused as dead, to a living object",
        Setting::Supplies,
        b"start RUN @1 0 CONFIGURE\npost RUN HV1 refused dead SWITCH_ON\n",
        "line 3: post RUN HV1 refused dead SWITCH_ON
the object HV1 is not killed.
",
    ),
    (
        "the first post under the number 1",
        Setting::Supplies,
        b"start RUN @1 0 CONFIGURE\npost RUN HV1 1 SWITCH_ON\n",
        "line 3: post RUN HV1 1 SWITCH_ON
the next accepted post of RUN to HV1 has the number 0.
",
    ),
    (
        "the second post under the number 0",
        Setting::Counter,
        b"start C @1 0 SHOW
post C OUT 0 TAKE (V = 3, W = \"none\")
end C IDLE
start C @1 1 SHOW
post C OUT 0 TAKE (V = 3, W = \"none\")
",
        "line 6: post C OUT 0 TAKE (V = 3, W = \"none\")
the next accepted post of C to OUT has the number 1.
line 3: post C OUT 0 TAKE (V = 3, W = \"none\")
",
    ),
];

/// A wait, of what is not open, where nothing is read, or for nobody; and a reading, of what is not open, of other
/// objects, of one that is busy, or of another state.
pub const READINGS: &[Explained] = &[
    (
        "a wait before any start",
        Setting::Supplies,
        b"wait RUN\n",
        "line 2: wait RUN
no action is open at RUN.
",
    ),
    (
        "a wait in place of a post",
        Setting::Supplies,
        b"start RUN @1 0 CONFIGURE\nwait RUN\n",
        "line 3: wait RUN
next the action of RUN posts to HV1 SWITCH_ON.
line 2: start RUN @1 0 CONFIGURE
",
    ),
    (
        "a wait for objects that are not busy",
        Setting::Supplies,
        b"start RUN @1 0 CONFIGURE
post RUN HV1 refused full SWITCH_ON
post RUN HV2 refused full SWITCH_ON
wait RUN
",
        "line 5: wait RUN
none of the objects that RUN reads next is busy.
line 2: start RUN @1 0 CONFIGURE
",
    ),
    (
        "a reading behind the end of its action",
        Setting::Pair,
        b"start A @1 0 GO
seen A B=S
end A S
seen A B=S
",
        "line 5: seen A B=S
no action is open at A.
line 4: end A S
",
    ),
    (
        "a reading of the objects in another order",
        Setting::Supplies,
        b"start RUN @1 0 CONFIGURE
post RUN HV1 refused full SWITCH_ON
post RUN HV2 refused full SWITCH_ON
seen RUN HV2=OFF HV1=OFF
",
        "line 5: seen RUN HV2=OFF HV1=OFF
next the action of RUN reads HV1 HV2.
line 2: start RUN @1 0 CONFIGURE
",
    ),
    (
        "a reading before what was sent has ended",
        Setting::Control,
        b"start RUN @1 0 CONFIGURE (VOLTS = 1500)
post RUN HV 0 SWITCH_ON (VOLTS = 1500)
seen RUN HV=OFF
",
        "line 4: seen RUN HV=OFF
what RUN sent to HV has not ended.
line 3: post RUN HV 0 SWITCH_ON (VOLTS = 1500)
",
    ),
    (
        "a reading of an object that is busy with what another sent",
        Setting::Supplies,
        b"start RUN @1 0 CONFIGURE
post RUN HV1 0 SWITCH_ON
post RUN HV2 0 SWITCH_ON
start HV1 RUN 0 SWITCH_ON
end HV1 ON
start HV2 @2 0 SWITCH_ON
seen RUN HV1=ON HV2=OFF
",
        "line 8: seen RUN HV1=ON HV2=OFF
an action is open at HV2.
line 7: start HV2 @2 0 SWITCH_ON
",
    ),
    (
        "a living object that is read as dead",
        Setting::Pair,
        b"start A @1 0 GO\nseen A B=DEAD\n",
        "line 3: seen A B=DEAD
the state of B is S.
",
    ),
    (
        "a state that a skipped request did not set: the end before did",
        Setting::Control,
        b"start HV @1 0 SWITCH_ON (VOLTS = 0)
end HV ON
start RUN @1 0 CONFIGURE (VOLTS = 1)
post RUN HV 0 SWITCH_ON (VOLTS = 1)
start HV RUN 0 SWITCH_ON (VOLTS = 1)
end HV skipped
seen RUN HV=OFF
",
        "line 8: seen RUN HV=OFF
the state of HV is ON.
line 3: end HV ON
",
    ),
    (
        "a dead object that is read as living",
        Setting::Pair,
        b"start A @1 0 GO
kill B @7
seen A B=S
",
        "line 4: seen A B=S
the state of B is DEAD.
line 3: kill B @7
",
    ),
];
