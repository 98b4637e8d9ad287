//! Boards of a switch and a lamp, call by call.

use crate::boards::{Call, Opened, Run};
use crate::domains::SWITCH;
use crate::requests::Asked;
use smi_board::{AnswerError, StartError};

// Requests to the switch, and one to the lamp.
const TURN_ON: Asked = (8, "TURN_ON", &[]);

const TURN_OFF: Asked = (8, "TURN_OFF", &[]);

const LIGHT: Asked = (3, "LIGHT", &[]);

pub const SKIPPED: Run = Run {
    name: "an action that the state does not declare is skipped, without a device too",
    text: SWITCH,
    capacity: 4,
    most: 100,
    calls: &[
        ("X", Call::Request(TURN_OFF, Ok(0))),
        ("X", Call::Request(TURN_ON, Ok(1))),
        ("X", Call::Start(Ok(Opened::Skipped))),
        ("X", Call::Start(Ok(Opened::Run("OFF", &[], TURN_ON, 1)))),
        ("X", Call::Start(Err(StartError::AlreadyOpen))),
    ],
    journal: "smi-journal 2
start X @8 0 TURN_OFF
end X skipped
start X @8 1 TURN_ON
",
};

/// Its action stays open until it names one of its own.
pub const OTHER_STATES: Run = Run {
    name: "a device answers with states of another class",
    text: SWITCH,
    capacity: 4,
    most: 100,
    calls: &[
        ("L", Call::Request(LIGHT, Ok(0))),
        ("L", Call::Start(Ok(Opened::Perform("LIGHT", &[])))),
        ("L", Call::Answer("OFF", Err(AnswerError::NotAState))),
        ("L", Call::Answer("ON", Err(AnswerError::NotAState))),
        ("L", Call::Answer("NOWHERE", Err(AnswerError::NotAState))),
        ("L", Call::Look("DARK", &[], None)),
        ("L", Call::Answer("LIT", Ok(()))),
        ("L", Call::Look("LIT", &[], None)),
    ],
    journal: "smi-journal 2
start L @3 0 LIGHT
end L LIT
",
};
