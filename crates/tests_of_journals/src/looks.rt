//! Boards that are asked what waits and what may act, between the calls that change them.

use crate::acts::Made;
use crate::boards::{Call, Opened, Run};
use crate::requests::Asked;
use smi_board::{RequestRefusal, StartError};
use test_domains::{FITTED, SUPPLIES};

const ON: Asked = (1, "SWITCH_ON", &[]);

const OFF: Asked = (1, "SWITCH_OFF", &[]);

const CONFIGURE: Asked = (1, "CONFIGURE", &[]);

const GO: Asked = (1, "GO", &[]);

const LIGHT: Asked = (1, "LIGHT", &[]);

const OUT: Asked = (1, "OUT", &[]);

const SWITCHES_ON: Call = Call::Start(Ok(Opened::Perform("SWITCH_ON", &[])));

const SWITCHES_OFF: Call = Call::Start(Ok(Opened::Perform("SWITCH_OFF", &[])));

const IS_FREE: Call = Call::Refused(None);

const IS_EMPTY: Call = Call::Refused(Some(StartError::Empty));

const IS_OPEN: Call = Call::Refused(Some(StartError::AlreadyOpen));

const IS_DEAD: Call = Call::Refused(Some(StartError::Dead));

const IS_ENOUGH: Call = Call::Refused(Some(StartError::Limit));

const MAY_GO: Call = Call::MayGo(true);

const IS_HELD: Call = Call::MayGo(false);

/// What waits at a killed object goes on waiting. The limit comes before a kill, an open action and an empty mailbox.
pub const LOOKED: Run = Run {
    name: "how many wait, and why a start would be refused",
    text: SUPPLIES,
    capacity: 2,
    most: 3,
    calls: &[
        ("HV1", Call::Waits(0)),
        ("HV1", IS_EMPTY),
        ("HV1", Call::Request(ON, Ok(0))),
        ("HV1", Call::Waits(1)),
        ("HV1", IS_FREE),
        ("HV1", Call::Request(OFF, Ok(1))),
        ("HV1", Call::Request(ON, Err(RequestRefusal::Full))),
        ("HV1", Call::Waits(2)),
        ("HV2", Call::Waits(0)),
        ("HV1", SWITCHES_ON),
        ("HV1", Call::Waits(1)),
        ("HV1", IS_OPEN),
        ("HV1", Call::Kill(1, Ok(1))),
        ("HV1", Call::Waits(1)),
        ("HV1", IS_DEAD),
        ("HV2", Call::Request(ON, Ok(0))),
        ("HV2", Call::Request(OFF, Ok(1))),
        ("HV2", SWITCHES_ON),
        ("HV2", Call::Answer("ON", Ok(()))),
        ("HV2", IS_FREE),
        ("HV2", SWITCHES_OFF),
        ("HV2", Call::Waits(0)),
        ("HV2", IS_ENOUGH),
        ("HV1", IS_ENOUGH),
        ("RUN", IS_ENOUGH),
    ],
    journal: "smi-journal 2
start HV1 @1 0 SWITCH_ON
kill HV1 @1
start HV2 @1 0 SWITCH_ON
end HV2 ON
start HV2 @1 1 SWITCH_OFF
",
};

/// A task that was kept may continue until it was looked at, and again after what held it ended or was killed. Of
/// those that it waits for the last one holds it first.
pub const FREED: Run = Run {
    name: "a kept task is freed by an answer and by a kill",
    text: SUPPLIES,
    capacity: 2,
    most: 100,
    calls: &[
        ("RUN", IS_HELD),
        ("RUN", Call::Request(CONFIGURE, Ok(0))),
        ("RUN", Call::Act(&[Made::Posted, Made::Waiting])),
        ("RUN", MAY_GO),
        ("RUN", Call::Rest),
        ("RUN", IS_HELD),
        ("HV2", SWITCHES_ON),
        ("RUN", IS_HELD),
        ("HV2", Call::Answer("ON", Ok(()))),
        ("RUN", MAY_GO),
        ("RUN", Call::Rest),
        ("RUN", IS_HELD),
        ("HV1", Call::Kill(1, Ok(6))),
        ("RUN", MAY_GO),
        ("RUN", Call::Resume(&[Made::Seen, Made::Ended])),
        ("RUN", IS_HELD),
    ],
    journal: "smi-journal 2
start RUN @1 0 CONFIGURE
post RUN HV1 0 SWITCH_ON
post RUN HV2 0 SWITCH_ON
wait RUN
start HV2 RUN 0 SWITCH_ON
end HV2 ON
kill HV1 @1
seen RUN HV1=DEAD HV2=ON
end RUN ERROR
",
};

/// Nobody is left whom it waits for.
pub const FREED_BY_A_CHANGE: Run = Run {
    name: "a kept task is freed by a change of its set",
    text: FITTED,
    capacity: 2,
    most: 100,
    calls: &[
        ("L", Call::Request(LIGHT, Ok(0))),
        ("L", Call::Start(Ok(Opened::Run("OFF", &[], LIGHT, 0)))),
        ("B", Call::Request(GO, Ok(0))),
        ("B", Call::Act(&[Made::Waiting])),
        ("B", Call::Rest),
        ("B", IS_HELD),
        ("F", Call::Request(OUT, Ok(0))),
        ("F", Call::Act(&[Made::Changed, Made::Ended])),
        ("B", MAY_GO),
        ("B", Call::Resume(&[Made::Seen, Made::Ended])),
        ("B", IS_HELD),
    ],
    journal: "smi-journal 2
start L @1 0 LIGHT
start B @1 0 GO
wait B
start F @1 0 OUT
remove F L G
end F IDLE
seen B
end B DONE
",
};
