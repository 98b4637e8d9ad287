//! Tasks of boards that send, read and wait, call by call.

use crate::acts::Made::{Ended, Posted, Seen, Set, Shelved, Waiting};
use crate::boards::{Call, Opened, Run};
use crate::domains::{ECHO, MANY, NOBODY, PAIR, TWICE, VALVE};
use crate::requests::Asked;
use crate::rows::Plain;
use smi_board::{AnswerError, RequestRefusal, StartError};
use test_domains::{COUNTER, SUPPLIES};

const NONE: &[Plain] = &[];

const CONFIGURE: Asked = (1, "CONFIGURE", NONE);

const SWITCH_ON: Asked = (1, "SWITCH_ON", NONE);

const GO: Asked = (1, "GO", NONE);

const LIGHT: Asked = (1, "LIGHT", NONE);

const TURN: Asked = (1, "TURN", NONE);

const SWITCHES_ON: Call = Call::Start(Ok(Opened::Perform("SWITCH_ON", NONE)));

const LIGHTS: Call = Call::Start(Ok(Opened::Perform("LIGHT", NONE)));

const TURNS: Call = Call::Start(Ok(Opened::Perform("TURN", NONE)));

const ENDS_ON: Call = Call::Answer("ON", Ok(()));

const IS_EMPTY: Call = Call::Start(Err(StartError::Empty));

pub const READY: Run = Run {
    name: "both supplies are switched on, and then the run is ready",
    text: SUPPLIES,
    capacity: 16,
    most: 100,
    calls: &[
        ("RUN", Call::Request(CONFIGURE, Ok(0))),
        ("RUN", Call::Act(&[Posted, Waiting])),
        ("RUN", Call::Rest),
        ("HV1", SWITCHES_ON),
        ("HV1", ENDS_ON),
        ("RUN", Call::Rest),
        ("HV2", SWITCHES_ON),
        ("HV2", ENDS_ON),
        ("RUN", Call::Resume(&[Seen, Ended])),
        ("RUN", Call::Rest),
        ("RUN", Call::Look("READY", NONE, None)),
    ],
    journal: "smi-journal 2
start RUN @1 0 CONFIGURE
post RUN HV1 0 SWITCH_ON
post RUN HV2 0 SWITCH_ON
wait RUN
start HV1 RUN 0 SWITCH_ON
end HV1 ON
start HV2 RUN 0 SWITCH_ON
end HV2 ON
seen RUN HV1=ON HV2=ON
end RUN READY
",
};

/// A request wakes no object; posts wake their targets, and an end its object. A task continues before an object
/// starts. An object that is open, killed or empty is passed over.
pub const WORKED: Run = Run {
    name: "a worker does what comes next until nothing does",
    text: SUPPLIES,
    capacity: 16,
    most: 100,
    calls: &[
        ("RUN", Call::Quiet(true)),
        ("RUN", Call::Request(CONFIGURE, Ok(0))),
        ("RUN", Call::Request(CONFIGURE, Ok(1))),
        ("RUN", Call::Comes(false)),
        ("RUN", Call::Quiet(true)),
        ("RUN", Call::Wake),
        ("RUN", Call::Wake),
        ("RUN", Call::Comes(true)),
        ("RUN", Call::Quiet(false)),
        ("RUN", Call::Offered),
        ("RUN", Call::Act(&[Posted, Waiting])),
        ("HV1", Call::Offered),
        ("HV1", SWITCHES_ON),
        ("HV2", Call::Offered),
        ("HV2", SWITCHES_ON),
        // Both devices are out.
        ("HV1", Call::Wake),
        ("RUN", Call::Comes(false)),
        ("RUN", Call::Quiet(false)),
        ("HV1", ENDS_ON),
        ("HV1", Call::Offered),
        ("HV1", IS_EMPTY),
        ("RUN", Call::Comes(false)),
        ("RUN", Call::Quiet(false)),
        ("HV2", ENDS_ON),
        ("RUN", Call::Resume(&[Seen, Ended])),
        ("HV2", Call::Offered),
        ("HV2", IS_EMPTY),
        ("RUN", Call::Offered),
        ("RUN", Call::Start(Ok(Opened::Skipped))),
        ("RUN", Call::Offered),
        ("RUN", IS_EMPTY),
        ("RUN", Call::Comes(false)),
        ("RUN", Call::Quiet(true)),
        ("HV1", Call::Wake),
        ("HV2", Call::Wake),
        ("HV1", Call::Kill(1, Ok(12))),
        ("HV2", Call::Offered),
        ("HV2", IS_EMPTY),
        ("RUN", Call::Quiet(true)),
    ],
    journal: "smi-journal 2
start RUN @1 0 CONFIGURE
post RUN HV1 0 SWITCH_ON
post RUN HV2 0 SWITCH_ON
wait RUN
start HV1 RUN 0 SWITCH_ON
start HV2 RUN 0 SWITCH_ON
end HV1 ON
end HV2 ON
seen RUN HV1=ON HV2=ON
end RUN READY
start RUN @1 1 CONFIGURE
end RUN skipped
kill HV1 @1
",
};

pub const CAPACITY_ONE: Run = Run {
    name: "a request is refused as full, and so is a post, which is not waited for",
    text: SUPPLIES,
    capacity: 1,
    most: 100,
    calls: &[
        ("HV2", Call::Request(SWITCH_ON, Ok(0))),
        ("RUN", Call::Request(CONFIGURE, Ok(0))),
        ("RUN", Call::Request(CONFIGURE, Err(RequestRefusal::Full))),
        ("RUN", Call::Act(&[Posted, Waiting])),
        ("HV1", SWITCHES_ON),
        ("HV1", ENDS_ON),
        ("RUN", Call::Resume(&[Seen, Ended])),
        ("RUN", Call::Look("ERROR", NONE, None)),
    ],
    journal: "smi-journal 2
start RUN @1 0 CONFIGURE
post RUN HV1 0 SWITCH_ON
post RUN HV2 refused full SWITCH_ON
wait RUN
start HV1 RUN 0 SWITCH_ON
end HV1 ON
seen RUN HV1=ON HV2=OFF
end RUN ERROR
",
};

pub const KILLED_SUPPLY: Run = Run {
    name: "a supply that is killed is no longer waited for",
    text: SUPPLIES,
    capacity: 16,
    most: 100,
    calls: &[
        ("RUN", Call::Request(CONFIGURE, Ok(0))),
        ("RUN", Call::Act(&[Posted, Waiting])),
        ("HV1", SWITCHES_ON),
        ("HV1", ENDS_ON),
        ("RUN", Call::Rest),
        ("HV2", Call::Kill(1, Ok(6))),
        ("HV2", Call::Start(Err(StartError::Dead))),
        ("RUN", Call::Resume(&[Seen, Ended])),
        ("RUN", Call::Look("ERROR", NONE, None)),
    ],
    journal: "smi-journal 2
start RUN @1 0 CONFIGURE
post RUN HV1 0 SWITCH_ON
post RUN HV2 0 SWITCH_ON
wait RUN
start HV1 RUN 0 SWITCH_ON
end HV1 ON
kill HV2 @1
seen RUN HV1=ON HV2=DEAD
end RUN ERROR
",
};

/// What it posted is started still. A device's answer after its kill comes too late.
pub const KILLED_RUN: Run = Run {
    name: "a run that is killed while it waits does not continue",
    text: SUPPLIES,
    capacity: 16,
    most: 100,
    calls: &[
        ("RUN", Call::Request(CONFIGURE, Ok(0))),
        ("RUN", Call::Act(&[Posted, Waiting])),
        ("RUN", Call::Kill(1, Ok(4))),
        ("HV1", SWITCHES_ON),
        ("HV1", ENDS_ON),
        ("HV2", SWITCHES_ON),
        ("HV2", Call::Kill(1, Ok(8))),
        ("HV2", Call::Answer("ON", Err(AnswerError::NotOpen))),
        ("RUN", Call::Rest),
        ("RUN", Call::Look("DEAD", NONE, Some(4))),
    ],
    journal: "smi-journal 2
start RUN @1 0 CONFIGURE
post RUN HV1 0 SWITCH_ON
post RUN HV2 0 SWITCH_ON
wait RUN
kill RUN @1
start HV1 RUN 0 SWITCH_ON
end HV1 ON
start HV2 RUN 0 SWITCH_ON
kill HV2 @1
",
};

pub const HANDED_BACK: Run = Run {
    name: "a task is put back before each of its moves, and continues each time",
    text: SUPPLIES,
    capacity: 16,
    most: 100,
    calls: &[
        ("RUN", Call::Request(CONFIGURE, Ok(0))),
        ("RUN", Call::Act(&[Shelved])),
        ("RUN", Call::Resume(&[Posted, Shelved])),
        ("HV1", Call::Kill(1, Ok(3))),
        ("HV2", Call::Kill(1, Ok(4))),
        ("RUN", Call::Resume(&[Seen, Shelved])),
        ("RUN", Call::Resume(&[Ended])),
    ],
    journal: "smi-journal 2
start RUN @1 0 CONFIGURE
post RUN HV1 0 SWITCH_ON
post RUN HV2 0 SWITCH_ON
kill HV1 @1
kill HV2 @1
seen RUN HV1=DEAD HV2=DEAD
end RUN ERROR
",
};

const PUT: Asked = (1, "PUT", &[Plain::Int(5), Plain::Str(b"a")]);

const PUT_MORE: Asked = (1, "PUT", &[Plain::Int(9), Plain::Str(b"b")]);

pub const SETS: Run = Run {
    name: "the sets of an action are kept at its end, and never if a kill cuts it",
    text: COUNTER,
    capacity: 16,
    most: 100,
    calls: &[
        ("C", Call::Request(PUT, Ok(0))),
        ("C", Call::Request(PUT_MORE, Ok(1))),
        ("C", Call::Act(&[Set, Set, Posted, Shelved])),
        (
            "C",
            Call::Look("IDLE", &[Plain::Int(3), Plain::Str(b"x")], None),
        ),
        ("C", Call::Resume(&[Ended])),
        (
            "C",
            Call::Look("IDLE", &[Plain::Int(5), Plain::Str(b"a")], None),
        ),
        ("C", Call::Act(&[Set, Set, Shelved])),
        ("C", Call::Kill(1, Ok(4))),
        ("C", Call::Rest),
        (
            "C",
            Call::Look("DEAD", &[Plain::Int(5), Plain::Str(b"a")], Some(4)),
        ),
    ],
    journal: "smi-journal 2
start C @1 0 PUT (T = 5, M = \"a\")
post C OUT 0 TAKE (V = 5, W = \"a\")
end C IDLE
start C @1 1 PUT (T = 9, M = \"b\")
kill C @1
",
};

pub const FOR_EACH_OTHER: Run = Run {
    name: "two objects wait for each other until one is killed",
    text: PAIR,
    capacity: 16,
    most: 100,
    calls: &[
        ("A", Call::Request(GO, Ok(0))),
        ("B", Call::Request(GO, Ok(0))),
        ("A", Call::Act(&[Shelved])),
        ("B", Call::Act(&[Shelved])),
        ("A", Call::Resume(&[Waiting])),
        ("B", Call::Resume(&[Waiting])),
        ("A", Call::Rest),
        ("B", Call::Kill(1, Ok(4))),
        ("A", Call::Resume(&[Seen, Ended])),
        ("A", Call::Rest),
    ],
    journal: "smi-journal 2
start A @1 0 GO
start B @1 0 GO
wait A
wait B
kill B @1
seen A B=DEAD
end A S
",
};

pub const TWO_WAITS: Run = Run {
    name: "two `if`s in a row both wait, each once",
    text: TWICE,
    capacity: 16,
    most: 100,
    calls: &[
        ("X", Call::Request(GO, Ok(0))),
        ("X", Call::Act(&[Posted, Waiting])),
        ("L", LIGHTS),
        ("L", ENDS_ON),
        ("X", Call::Resume(&[Seen, Posted, Waiting])),
        ("X", Call::Rest),
        ("L", Call::Start(Ok(Opened::Skipped))),
        ("X", Call::Resume(&[Seen, Ended])),
        ("X", Call::Look("T", NONE, None)),
    ],
    journal: "smi-journal 2
start X @1 0 GO
post X L 0 LIGHT
wait X
start L X 0 LIGHT
end L ON
seen X L=ON
post X L 1 LIGHT
wait X
start L X 1 LIGHT
end L skipped
seen X L=ON
end X T
",
};

/// It takes requests, is waited for while it is open, and is read.
pub const FIRST_STATE_IS_DEAD: Run = Run {
    name: "an object that begins in its dead state is not killed",
    text: VALVE,
    capacity: 16,
    most: 100,
    calls: &[
        ("V", Call::Look("SHUT", NONE, None)),
        ("H", Call::Request(GO, Ok(0))),
        ("H", Call::Act(&[Posted, Waiting])),
        ("V", TURNS),
        ("H", Call::Rest),
        ("V", Call::Answer("SHUT", Ok(()))),
        ("V", Call::Look("SHUT", NONE, None)),
        ("H", Call::Resume(&[Seen, Ended])),
        ("H", Call::Look("T", NONE, None)),
        ("V", Call::Request(TURN, Ok(0))),
        ("V", TURNS),
        ("V", Call::Kill(1, Ok(8))),
        ("V", Call::Look("SHUT", NONE, Some(8))),
        ("V", Call::Request(TURN, Err(RequestRefusal::Dead))),
    ],
    journal: "smi-journal 2
start H @1 0 GO
post H V 0 TURN
wait H
start V H 0 TURN
end V SHUT
seen H V=SHUT
end H T
start V @1 0 TURN
kill V @1
",
};

pub const TO_ITSELF: Run = Run {
    name: "an object sends to itself, and counts in its own capacity",
    text: ECHO,
    capacity: 1,
    most: 100,
    calls: &[
        ("X", Call::Request(GO, Ok(0))),
        ("X", Call::Act(&[Posted, Posted, Ended])),
        ("X", Call::Act(&[Posted, Posted, Ended])),
    ],
    journal: "smi-journal 2
start X @1 0 GO
post X X 0 GO
post X X refused full GO
end X S
start X X 0 GO
post X X 1 GO
post X X refused full GO
end X S
",
};

pub const TO_TEN: Run = Run {
    name: "of ten members the third is killed and the fifth has no room",
    text: MANY,
    capacity: 1,
    most: 100,
    calls: &[
        ("L4", Call::Request(LIGHT, Ok(0))),
        ("L2", Call::Kill(1, Ok(0))),
        ("X", Call::Request(GO, Ok(0))),
        ("X", Call::Act(&[Posted, Ended])),
        ("L9", LIGHTS),
    ],
    journal: "smi-journal 2
kill L2 @1
start X @1 0 GO
post X L0 0 LIGHT
post X L1 0 LIGHT
post X L2 refused dead LIGHT
post X L3 0 LIGHT
post X L4 refused full LIGHT
post X L5 0 LIGHT
post X L6 0 LIGHT
post X L7 0 LIGHT
post X L8 0 LIGHT
post X L9 0 LIGHT
end X S
start L9 X 0 LIGHT
",
};

// The sets of the next domain, by number, and a number that is of none.
const E: usize = 0;

const G: usize = 1;

const NO_SET: usize = 2;

pub const TO_NOBODY: Run = Run {
    name: "a request to an empty set is in the journal, and the task continues",
    text: NOBODY,
    capacity: 1,
    most: 100,
    calls: &[
        ("B", Call::Has(E, &[])),
        ("B", Call::Has(G, &[0])),
        ("B", Call::Has(NO_SET, &[])),
        ("B", Call::Request(GO, Ok(0))),
        ("B", Call::Act(&[Posted, Posted, Shelved])),
        ("B", Call::Resume(&[Posted, Seen, Ended])),
        ("B", Call::Look("DONE", NONE, None)),
        ("B", Call::Has(E, &[])),
        ("B", Call::Has(G, &[0])),
    ],
    journal: "smi-journal 2
start B @1 0 GO
empty B E
post B L 0 LIGHT
empty B E
seen B
end B DONE
",
};
