//! Boards of two supplies and what switches them on, call by call.

use crate::boards::{Call, Opened, Run};
use crate::requests::Asked;
use crate::rows::Plain;
use smi_board::{AnswerError, KillError, RequestRefusal, StartError};
use test_domains::SUPPLIES;

const NONE: &[Plain] = &[];

const ON_BY_1: Asked = (1, "SWITCH_ON", NONE);

const ON_BY_2: Asked = (2, "SWITCH_ON", NONE);

const OFF_BY_1: Asked = (1, "SWITCH_OFF", NONE);

const OFF_BY_2: Asked = (2, "SWITCH_OFF", NONE);

const CONFIGURE_BY_1: Asked = (1, "CONFIGURE", NONE);

const CONFIGURE_BY_2: Asked = (2, "CONFIGURE", NONE);

const SWITCHES_ON: Call = Call::Start(Ok(Opened::Perform("SWITCH_ON", NONE)));

const SWITCHES_OFF: Call = Call::Start(Ok(Opened::Perform("SWITCH_OFF", NONE)));

const SKIPS: Call = Call::Start(Ok(Opened::Skipped));

const IS_EMPTY: Call = Call::Start(Err(StartError::Empty));

const IS_OPEN: Call = Call::Start(Err(StartError::AlreadyOpen));

const IS_DEAD: Call = Call::Start(Err(StartError::Dead));

const IS_ENOUGH: Call = Call::Start(Err(StartError::Limit));

// None of these objects has parameters.
const IS_OFF: Call = Call::Look("OFF", NONE, None);

const IS_ON: Call = Call::Look("ON", NONE, None);

const IS_NOT_READY: Call = Call::Look("NOT_READY", NONE, None);

/// What the state of the supply does not declare is skipped.
pub const IN_ORDER: Run = Run {
    name: "a supply does in their order what two sessions ask",
    text: SUPPLIES,
    capacity: 4,
    most: 100,
    calls: &[
        ("HV1", IS_OFF),
        ("HV1", IS_EMPTY),
        ("HV1", Call::Request(ON_BY_1, Ok(0))),
        ("HV1", Call::Request(OFF_BY_2, Ok(0))),
        ("HV1", Call::Request(OFF_BY_1, Ok(1))),
        ("HV2", IS_EMPTY),
        ("HV1", Call::Answer("ON", Err(AnswerError::NotOpen))),
        ("HV1", SWITCHES_ON),
        ("HV1", IS_OPEN),
        ("HV1", Call::Answer("READY", Err(AnswerError::NotAState))),
        ("HV1", IS_OFF),
        ("HV1", Call::Answer("ON", Ok(()))),
        ("HV1", IS_ON),
        ("HV1", Call::Answer("ON", Err(AnswerError::NotOpen))),
        ("HV1", SWITCHES_OFF),
        ("HV1", Call::Answer("OFF", Ok(()))),
        ("HV1", SKIPS),
        ("HV1", IS_OFF),
        ("HV1", IS_EMPTY),
        ("HV1", Call::Request(ON_BY_2, Ok(1))),
        ("HV1", Call::Request(ON_BY_1, Ok(2))),
        ("HV2", IS_OFF),
    ],
    journal: "smi-journal 2
start HV1 @1 0 SWITCH_ON
end HV1 ON
start HV1 @2 0 SWITCH_OFF
end HV1 OFF
start HV1 @1 1 SWITCH_OFF
end HV1 skipped
",
};

/// Neither before its action is open nor then.
pub const NO_DEVICE: Run = Run {
    name: "an answer for an object without a device is refused",
    text: SUPPLIES,
    capacity: 4,
    most: 100,
    calls: &[
        (
            "RUN",
            Call::Answer("READY", Err(AnswerError::NotAssociated)),
        ),
        ("RUN", Call::Fault(Err(AnswerError::NotAssociated))),
        ("RUN", Call::Request(CONFIGURE_BY_1, Ok(0))),
        (
            "RUN",
            Call::Start(Ok(Opened::Run("NOT_READY", NONE, CONFIGURE_BY_1, 0))),
        ),
        (
            "RUN",
            Call::Answer("READY", Err(AnswerError::NotAssociated)),
        ),
        ("RUN", Call::Fault(Err(AnswerError::NotAssociated))),
        ("RUN", IS_NOT_READY),
    ],
    journal: "smi-journal 2
start RUN @1 0 CONFIGURE
",
};

pub const DEAD_BY_ANSWER: Run = Run {
    name: "a device answers with the dead state, which is no kill",
    text: SUPPLIES,
    capacity: 4,
    most: 100,
    calls: &[
        ("HV1", Call::Request(ON_BY_1, Ok(0))),
        ("HV1", SWITCHES_ON),
        ("HV1", Call::Answer("DEAD", Ok(()))),
        ("HV1", Call::Look("DEAD", NONE, None)),
        ("HV1", Call::Request(ON_BY_1, Ok(1))),
        ("HV1", SKIPS),
        ("HV1", Call::Kill(1, Ok(4))),
        ("HV1", Call::Look("DEAD", NONE, Some(4))),
    ],
    journal: "smi-journal 2
start HV1 @1 0 SWITCH_ON
end HV1 DEAD
start HV1 @1 1 SWITCH_ON
end HV1 skipped
kill HV1 @1
",
};

pub const KILLED: Run = Run {
    name: "objects are killed, open and at rest",
    text: SUPPLIES,
    capacity: 4,
    most: 100,
    calls: &[
        ("RUN", Call::Request(CONFIGURE_BY_1, Ok(0))),
        ("RUN", Call::Request(CONFIGURE_BY_2, Ok(0))),
        (
            "RUN",
            Call::Start(Ok(Opened::Run("NOT_READY", NONE, CONFIGURE_BY_1, 0))),
        ),
        ("RUN", IS_OPEN),
        ("RUN", IS_NOT_READY),
        ("RUN", Call::Kill(8, Ok(1))),
        ("RUN", Call::Look("DEAD", NONE, Some(1))),
        ("RUN", IS_DEAD),
        (
            "RUN",
            Call::Request(CONFIGURE_BY_2, Err(RequestRefusal::Dead)),
        ),
        ("RUN", Call::Kill(1, Err(KillError::AlreadyDead(1)))),
        ("RUN", Call::Kill(8, Err(KillError::AlreadyDead(1)))),
        ("HV1", Call::Request(ON_BY_1, Ok(0))),
        ("HV1", SWITCHES_ON),
        ("HV1", Call::Kill(2, Ok(3))),
        ("HV1", Call::Answer("ON", Err(AnswerError::NotOpen))),
        ("HV1", Call::Look("DEAD", NONE, Some(3))),
        ("HV2", Call::Kill(1, Ok(4))),
        ("HV2", IS_DEAD),
        ("HV2", Call::Look("DEAD", NONE, Some(4))),
        ("RUN", Call::Look("DEAD", NONE, Some(1))),
    ],
    journal: "smi-journal 2
start RUN @1 0 CONFIGURE
kill RUN @8
start HV1 @1 0 SWITCH_ON
kill HV1 @2
kill HV2 @1
",
};

pub const ONE_WAITS: Run = Run {
    name: "one request may wait at each object",
    text: SUPPLIES,
    capacity: 1,
    most: 100,
    calls: &[
        ("HV1", Call::Request(ON_BY_1, Ok(0))),
        ("HV1", Call::Request(OFF_BY_2, Err(RequestRefusal::Full))),
        ("HV1", Call::Request(OFF_BY_1, Err(RequestRefusal::Full))),
        ("HV2", Call::Request(ON_BY_1, Ok(0))),
        ("HV1", SWITCHES_ON),
        ("HV1", Call::Request(OFF_BY_1, Ok(1))),
        ("HV1", Call::Request(OFF_BY_2, Err(RequestRefusal::Full))),
        ("HV1", IS_OPEN),
        ("HV1", Call::Answer("ON", Ok(()))),
        ("HV1", SWITCHES_OFF),
        ("HV1", Call::Request(ON_BY_2, Ok(0))),
        // The mailbox of a killed object is full too.
        ("HV1", Call::Kill(1, Ok(3))),
        ("HV1", Call::Request(ON_BY_1, Err(RequestRefusal::Dead))),
    ],
    journal: "smi-journal 2
start HV1 @1 0 SWITCH_ON
end HV1 ON
start HV1 @1 1 SWITCH_OFF
kill HV1 @1
",
};

pub const KILLED_FIRST: Run = Run {
    name: "a kill before all else has the first place of the journal",
    text: SUPPLIES,
    capacity: 4,
    most: 100,
    calls: &[
        ("HV2", Call::Kill(1, Ok(0))),
        ("HV2", Call::Look("DEAD", NONE, Some(0))),
        ("HV2", Call::Kill(1, Err(KillError::AlreadyDead(0)))),
        ("HV2", Call::Request(ON_BY_1, Err(RequestRefusal::Dead))),
        ("RUN", Call::Kill(2, Ok(1))),
        ("HV1", Call::Request(ON_BY_1, Ok(0))),
        ("HV1", SWITCHES_ON),
        ("HV1", Call::Answer("ON", Ok(()))),
        ("HV2", Call::Look("DEAD", NONE, Some(0))),
        ("HV1", IS_ON),
    ],
    journal: "smi-journal 2
kill HV2 @1
kill RUN @2
start HV1 @1 0 SWITCH_ON
end HV1 ON
",
};

pub const FAULTY: Run = Run {
    name: "a device fails, and later that of the other supply",
    text: SUPPLIES,
    capacity: 4,
    most: 100,
    calls: &[
        ("HV1", Call::Fault(Err(AnswerError::NotOpen))),
        ("HV1", Call::Request(ON_BY_1, Ok(0))),
        ("HV1", Call::Request(OFF_BY_1, Ok(1))),
        ("HV1", Call::Fault(Err(AnswerError::NotOpen))),
        ("HV2", Call::Request(ON_BY_2, Ok(0))),
        ("HV2", Call::Request(OFF_BY_2, Ok(1))),
        ("HV1", SWITCHES_ON),
        ("HV1", Call::Fault(Ok(1))),
        ("HV1", Call::Look("DEAD", NONE, Some(1))),
        ("HV2", SWITCHES_ON),
        ("HV1", Call::Fault(Err(AnswerError::NotOpen))),
        ("HV1", Call::Answer("ON", Err(AnswerError::NotOpen))),
        ("HV1", IS_DEAD),
        ("HV1", Call::Request(ON_BY_2, Err(RequestRefusal::Dead))),
        ("HV1", Call::Kill(1, Err(KillError::AlreadyDead(1)))),
        ("HV2", Call::Answer("ON", Ok(()))),
        ("HV2", IS_ON),
        ("HV2", SWITCHES_OFF),
        ("HV2", Call::Fault(Ok(5))),
        ("HV2", Call::Look("DEAD", NONE, Some(5))),
    ],
    journal: "smi-journal 2
start HV1 @1 0 SWITCH_ON
kill HV1 fault
start HV2 @2 0 SWITCH_ON
end HV2 ON
start HV2 @2 1 SWITCH_OFF
kill HV2 fault
",
};

/// Though something waits: not while the first action is open, nor then, nor at an object that is killed, nor where
/// nothing waits.
pub const ONE_START: Run = Run {
    name: "one start is made, and no second one",
    text: SUPPLIES,
    capacity: 4,
    most: 1,
    calls: &[
        ("HV1", Call::Request(ON_BY_1, Ok(0))),
        ("HV1", Call::Request(OFF_BY_1, Ok(1))),
        ("HV2", Call::Request(ON_BY_2, Ok(0))),
        ("HV1", SWITCHES_ON),
        ("HV1", IS_ENOUGH),
        ("HV2", IS_ENOUGH),
        ("RUN", IS_ENOUGH),
        ("HV1", Call::Answer("ON", Ok(()))),
        ("HV1", IS_ENOUGH),
        ("HV2", Call::Kill(1, Ok(2))),
        ("HV2", IS_ENOUGH),
        ("HV1", Call::Request(ON_BY_2, Ok(0))),
    ],
    journal: "smi-journal 2
start HV1 @1 0 SWITCH_ON
end HV1 ON
kill HV2 @1
",
};

/// A call that starts nothing does not.
pub const TWO_STARTS: Run = Run {
    name: "a skipped request counts as a start",
    text: SUPPLIES,
    capacity: 4,
    most: 2,
    calls: &[
        ("HV1", IS_EMPTY),
        ("HV1", Call::Request(OFF_BY_1, Ok(0))),
        ("HV1", SKIPS),
        ("HV1", IS_EMPTY),
        ("HV2", Call::Request(ON_BY_1, Ok(0))),
        ("HV2", SWITCHES_ON),
        ("HV2", IS_ENOUGH),
        ("HV1", IS_ENOUGH),
    ],
    journal: "smi-journal 2
start HV1 @1 0 SWITCH_OFF
end HV1 skipped
start HV2 @1 0 SWITCH_ON
",
};

pub const NO_START: Run = Run {
    name: "no start may be made",
    text: SUPPLIES,
    capacity: 4,
    most: 0,
    calls: &[
        ("HV1", IS_ENOUGH),
        ("HV1", Call::Request(ON_BY_1, Ok(0))),
        ("HV1", IS_ENOUGH),
        ("HV1", IS_OFF),
    ],
    journal: "smi-journal 2\n",
};
