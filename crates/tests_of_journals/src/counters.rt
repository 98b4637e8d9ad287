//! Boards of a counter and its sink, call by call.

use crate::boards::{Call, Opened, Run};
use crate::requests::Asked;
use crate::rows::Plain;
use smi_board::{RequestRefusal, StartError};
use test_domains::COUNTER;

// The parameters with which the counter begins.
const FIRST: &[Plain] = &[Plain::Int(3), Plain::Str(b"x")];

const GIVEN: &[Plain] = &[Plain::Int(5), Plain::Str(b"a")];

const TAKEN: &[Plain] = &[Plain::Int(-7), Plain::Str(b"")];

const PUTS: Asked = (1, "PUT", GIVEN);

const SHOWS: Asked = (1, "SHOW", &[]);

const TAKES: Asked = (2, "TAKE", TAKEN);

/// The parameters of the counter stay as they were when its action is cut.
pub const GIVEN_ARGUMENTS: Run = Run {
    name: "arguments reach the task of a counter and the device of a sink",
    text: COUNTER,
    capacity: 4,
    most: 100,
    calls: &[
        ("C", Call::Look("IDLE", FIRST, None)),
        ("C", Call::Request(PUTS, Ok(0))),
        ("C", Call::Request(SHOWS, Ok(1))),
        ("OUT", Call::Request(TAKES, Ok(0))),
        ("C", Call::Start(Ok(Opened::Run("IDLE", FIRST, PUTS, 0)))),
        ("C", Call::Start(Err(StartError::AlreadyOpen))),
        ("C", Call::Look("IDLE", FIRST, None)),
        ("OUT", Call::Start(Ok(Opened::Perform("TAKE", TAKEN)))),
        ("OUT", Call::Answer("READY", Ok(()))),
        ("C", Call::Kill(2, Ok(3))),
        ("C", Call::Look("DEAD", FIRST, Some(3))),
        ("C", Call::Start(Err(StartError::Dead))),
        ("C", Call::Request(PUTS, Err(RequestRefusal::Dead))),
        ("OUT", Call::Look("READY", &[], None)),
    ],
    journal: "smi-journal 2
start C @1 0 PUT (T = 5, M = \"a\")
start OUT @2 0 TAKE (V = -7, W = \"\")
end OUT READY
kill C @2
",
};

pub const FULL_OF_ARGUMENTS: Run = Run {
    name: "a refused request comes back with its arguments",
    text: COUNTER,
    capacity: 1,
    most: 100,
    calls: &[
        ("C", Call::Request(SHOWS, Ok(0))),
        ("C", Call::Request(PUTS, Err(RequestRefusal::Full))),
        ("C", Call::Start(Ok(Opened::Run("IDLE", FIRST, SHOWS, 0)))),
        ("C", Call::Request(PUTS, Ok(1))),
    ],
    journal: "smi-journal 2
start C @1 0 SHOW
",
};
